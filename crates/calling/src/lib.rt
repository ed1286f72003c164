// A call of a rule set: the first listed rule that has a match is applied; it fails if none has.
#![tactic(auto)]

ghost use Rattle.std.specs.Prelude.{◌≡◌, length};
ghost use Rattle.ledger.specs.Running.{Running};
ghost use Rattle.calling.specs.Called.{Listed, Called};
ghost use Rattle.calling.specs.Choosing.{IsChoice, ran_after};
ghost use Rattle.plan.specs.Plan.{plan_length};

use graph::Graph;
use meaning::{End, Layout, Ran, Room, Stop, Tally};
use plan::At;
use values::Values;

// The number of the first of the rules of these numbers that has a match, with the slots of that match. Room is lent for the plan of
// a rule and for the values of the match's variables.
pub fn first_rule(
    host: &Graph,
    image: &[u8],
    numbers: &[u8],
    plan: &mut [usize; At::LENGTH],
    values: &mut Values,
) -> Option<(usize, [usize; Room::ITEMS])>
    requires listed { Listed image.now numbers.now }
    requires plan_len { length plan.old ≡ plan_length }
    ensures { IsChoice host.now.layout image.now numbers.now host.now.nodes.now host.now.edges.now result values.new.lens values.new.atoms }
{
    for &byte in numbers {
        let number = usize::from(byte);
        let rule = parts::rule_part(image, number);
        if let Some(slots) = matching::first_match(host, rule, plan, values) {
            return Some((number, slots));
        }
    }
    None
}

// How an application ends the call, with the records that are used after it.
#[tactic(auto, unfolding(crate::specs::Choosing::end_of))]
fn after(t: Tally, applied: Result<usize, Stop>) -> Ran
    ensures { result ≡ ran_after t applied }
{
    match applied {
        Ok(records) => Ran {
            end: End::Done,
            tally: tally::counted(t, records),
        },
        Err(why) => Ran {
            end: End::Stopped(why),
            tally: t,
        },
    }
}

// What a rule set of these numbers does once it is entered.
pub fn call(
    l: Layout,
    image: &[u8],
    numbers: &[u8],
    nodes: &mut [u8],
    edges: &mut [u8],
    journal: &mut [u8],
    t: Tally,
) -> Ran
    requires running { Running l nodes.old edges.old journal.old t.records }
    requires listed { Listed image.now numbers.now }
    ensures { Called l image.now numbers.now nodes.old edges.old journal.old t result nodes.new edges.new journal.new }
{
    let mut plan = [0usize; At::LENGTH];
    let mut values = Values {
        lens: [0; Room::VARIABLES],
        atoms: [0; Room::ATOMS],
    };
    let host = Graph {
        layout: l,
        nodes,
        edges,
    };
    let Some(chosen) = first_rule(&host, image, numbers, &mut plan, &mut values) else {
        return Ran {
            end: End::Failed,
            tally: t,
        };
    };

    let rule = parts::rule_part(image, chosen.0);
    let applied = applying::apply(
        l, nodes, edges, journal, t.records, rule, &chosen.1, &values,
    );
    after(t, applied)
}
