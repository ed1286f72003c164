// A host and a rule of an image: whether a run of the image on the host would start, and then the rule's first match.
#![tactic(auto)]

ghost use Rattle.std.specs.Prelude.{◌≡◌, true, length, ◌<◌};
ghost use Rattle.meaning.specs.Image.{raw_program};
ghost use Rattle.parts.specs.Series.{For};
ghost use Rattle.pairs.specs.Pairs.{is_match, starts as doesStart, Answers};
ghost use Rattle.plan.specs.Plan.{plan_length};

use answers::Report;
use graph::Graph;
use meaning::{Layout, Room};
use plan::At;
use values::Values;

// Whether a run of the image on the host would start, with no fuel and no journal.
pub fn starts(nodes: &[u8], edges: &[u8], image: &[u8]) -> bool
    ensures { result ≡ doesStart nodes.now edges.now image.now }
{
    let report = [0u8; Report::LENGTH];
    refusal::run_refusal(nodes, edges, &nodes[..0], image, 0, &report).is_ok()
}

// The slots of the first match of the rule of number i. Room is lent for the rule's plan and for the values of its variables.
pub fn rule_match(
    nodes: &[u8],
    edges: &[u8],
    image: &[u8],
    i: usize,
    plan: &mut [usize; At::LENGTH],
    values: &mut Values,
) -> Option<[usize; Room::ITEMS]>
    requires image_value { doesStart nodes.now edges.now image.now ≡ true }
    requires fact { For (raw_program image.now) (λ p. i < length p.rules) }
    requires plan_len { length plan.old ≡ plan_length }
    ensures { (length plan.new ≡ plan_length) × Answers nodes.now edges.now image.now i result values.new.lens values.new.atoms }
{
    let rule = parts::rule_part(image, i);
    let host = Graph {
        layout: Layout::base(),
        nodes,
        edges,
    };
    matching::first_match(&host, rule, plan, values)
}

// Writing.

// Writes a number behind a blank.
fn write_number(x: u64) {
    io::write_all(1, b" ");
    io::print_decimal(1, x);
}

fn write_slots(slots: &[usize; Room::ITEMS], n: usize) {
    for slot in slots.iter().take(n) {
        write_number(*slot as u64);
    }
}

// Writes the value of a variable: the first n of its atoms.
fn write_value(atoms: &[u32], n: usize) {
    io::write_all(1, b" =");
    for atom in atoms.iter().take(n) {
        write_number(u64::from(*atom));
    }
}

fn write_values(lens: &[usize; Room::VARIABLES], atoms: &[u32; Room::ATOMS], n: usize) {
    for (len, value) in lens.iter().zip(atoms.chunks(labels::MOST)).take(n) {
        write_value(value, *len);
    }
}

// Writes a rule's match on a line: the slots, node slots first, then behind a sign the atoms of each variable; or that there is
// none. Says whether there is one.
pub fn write_match(
    rule: &[u8],
    found: Option<[usize; Room::ITEMS]>,
    lens: [usize; Room::VARIABLES],
    atoms: [u32; Room::ATOMS],
) -> bool
    ensures { result ≡ is_match found }
{
    let Some(slots) = found else {
        io::write_all(1, b"none\n");
        return false;
    };
    io::write_all(1, b"match");
    write_slots(&slots, parts::count_fields(parts::left_part(rule)));
    write_values(&lens, &atoms, parts::variables_part(rule).len());
    io::write_all(1, b"\n");
    true
}
