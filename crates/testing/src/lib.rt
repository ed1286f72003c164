// Tests of a rule at a placement, evaluated where their bytes lie, and what is left of a candidate's test where the slot is
// likely: its label, where the label's length and atom leave it open, and the tests that it decides.
#![tactic(auto)]

ghost use Rattle.std.specs.Prelude.{◌≡◌, true, ◌+◌, length, get_or, take};
ghost use Rattle.meaning.specs.Image.{most_items};
ghost use Rattle.meaning.specs.Tags.{relation_tag};
ghost use Rattle.meaning.specs.Basics.{every};
ghost use Rattle.meaning.specs.Matching.{atom_of, condition_holds, test_holds};
ghost use Rattle.meaning.specs.FirstMatch.{tests_so_far, fits};
ghost use Rattle.meaning.specs.Assigned.{assigned};
ghost use Rattle.graph.specs.Hosts.{host_in};
ghost use Rattle.plan.specs.Plan.{test_of, nodes_at, sort_at};
ghost use Rattle.agreeing.specs.Placed.{Inside, Full};
ghost use Rattle.agreeing.specs.Candidates.{Likely};
ghost use Rattle.agreeing.specs.Lent.{KnownIn, CandidateIn, TriedIn};
ghost use Rattle.testing.specs.Lent.{OperandIn, ConditionIn, TestIn};

use agreeing::Trial;
use fields::Field;
use graph::Graph;
use meaning::Room;
use meaning::tags::{Relation, Tag};
use plan::{At, PlannedRule, Sorted};

// One test, from its bytes.

// An operand's atom, from its tag and payload.
fn atom(host: &Graph, rule: &PlannedRule, trial: &Trial, tag: u8, p: &[u8]) -> u32
    requires { OperandIn host.now rule.now trial.now tag p.now }
    ensures { (w : OperandIn host.now rule.now trial.now tag p.now) → result ≡ atom_of (assigned (host_in host.now) w.trial.rule w.trial.placed) w.o }
{
    if tag == Tag::CONSTANT {
        parts::word_of(p)
    } else {
        let v = parts::number_at(p, 0);
        agreeing::variable_atom(host, rule, trial, v)
    }
}

// Whether two operands are equal, or the first is less, from the payload of a relation behind the test's flag.
fn relation_holds(host: &Graph, rule: &PlannedRule, trial: &Trial, p: &[u8]) -> bool
    requires { ConditionIn host.now rule.now trial.now relation_tag p.now }
    ensures { (w : ConditionIn host.now rule.now trial.now relation_tag p.now) → result ≡ condition_holds (host_in host.now) w.trial.placed (assigned (host_in host.now) w.trial.rule w.trial.placed) w.k }
{
    let Some(Ok(left)) = fields::read_field(p, 1) else {
        return false;
    };
    let Some(Ok(right)) = fields::read_field(p, left.end) else {
        return false;
    };
    let first = &p[left.start..left.end];
    let a = atom(host, rule, trial, left.tag, first);
    let second = &p[right.start..right.end];
    let b = atom(host, rule, trial, right.tag, second);
    if parts::byte_at(p, 0) == Relation::EQUAL {
        a == b
    } else {
        labels::height(a) < labels::height(b)
    }
}

// Whether a condition holds, from its tag and the bytes behind the test's flag.
fn condition_holds(host: &Graph, rule: &PlannedRule, trial: &Trial, tag: u8, p: &[u8]) -> bool
    requires { ConditionIn host.now rule.now trial.now tag p.now }
    ensures { (w : ConditionIn host.now rule.now trial.now tag p.now) → result ≡ condition_holds (host_in host.now) w.trial.placed (assigned (host_in host.now) w.trial.rule w.trial.placed) w.k }
{
    if tag == Tag::RELATION {
        return relation_holds(host, rule, trial, p);
    }
    let s = trial.slot_of(parts::number_at(p, 0));
    match tag {
        Tag::EDGE_TEST => {
            let t = trial.slot_of(parts::number_at(p, 1));
            host.any_runs(s, t)
        }
        Tag::IN_DEGREE => host.in_degree(s) == parts::degree_of(p),
        _ => host.out_degree(s) == parts::degree_of(p),
    }
}

// Whether test number t holds.
fn test_holds(host: &Graph, rule: &PlannedRule, trial: &Trial, t: usize) -> bool
    requires { TestIn host.now rule.now trial.now t }
    ensures { (w : TestIn host.now rule.now trial.now t) → result ≡ test_holds (host_in host.now) w.trial.placed (assigned (host_in host.now) w.trial.rule w.trial.placed) (test_of w.trial.rule t) }
{
    let tests = rule.tests();
    let Some(Ok(Field { tag, start, end })) = fields::nth_field(tests, t) else {
        return false;
    };
    let p = &tests[start..end];
    let rest = parts::behind(p, 1);
    let holds = condition_holds(host, rule, trial, tag, rest);
    if parts::flag(p) { !holds } else { holds }
}

// The tests of a placement.

// Whether the tests that the item tried decides hold.
fn tests_so_far(host: &Graph, rule: &PlannedRule, trial: &Trial) -> bool
    requires { TriedIn host.now rule.now trial.now }
    ensures { (w : TriedIn host.now rule.now trial.now) → result ≡ tests_so_far (host_in host.now) w.trial.rule w.trial.placed }
{
    for t in 0..rule.plan[At::TESTS] {
        if rule.plan[At::DECIDED + t] == trial.item + 1 && !test_holds(host, rule, trial, t) {
            return false;
        }
    }
    true
}

pub fn all_tests(host: &Graph, rule: &PlannedRule, at: &[usize; Room::ITEMS]) -> bool
    requires { Full (host_in host.now) rule.now.bytes.now rule.now.plan.now at.now most_items 0 }
    ensures { (w : Full (host_in host.now) rule.now.bytes.now rule.now.plan.now at.now most_items 0) → result ≡ every (test_holds (host_in host.now) w.trial.placed (assigned (host_in host.now) w.trial.rule w.trial.placed)) w.trial.rule.tests }
{
    let trial = Trial {
        at,
        item: Room::ITEMS,
        slot: 0,
    };
    (0..rule.plan[At::TESTS]).all(|t| test_holds(host, rule, &trial, t))
}

// Whether the slot tried, which is likely for the item, fits it.
pub fn rest_fits(host: &Graph, rule: &PlannedRule, trial: &Trial) -> bool
    requires known { KnownIn rule.now }
    requires at_len { (length trial.now.at.now ≡ most_items) × Inside (host_in host.now) (get_or rule.now.plan.now nodes_at 0) trial.now.at.now trial.now.item }
    requires candidate { CandidateIn host.now rule.now trial.now.item trial.now.slot }
    requires likely { (w : KnownIn rule.now) → Likely (host_in host.now) w.rule (get_or rule.now.plan.now (sort_at + trial.now.item) 0) (take trial.now.item trial.now.at.now) trial.now.item trial.now.slot true }
    ensures { (w : KnownIn rule.now) → result ≡ fits (host_in host.now) w.rule (take trial.now.item trial.now.at.now) trial.now.slot }
{
    let sort = rule.plan[At::SORT + trial.item];
    if sort != Sorted::LENGTH
        && sort != Sorted::CONSTANT
        && !agreeing::compared(host, rule, trial)
    {
        return false;
    }
    tests_so_far(host, rule, trial)
}
