// Asks for the first match of the first rule of the case on standard input as often as the case says, and writes it. A case
// holds nodes, edges, program and a count. What bench/matching times.
#![tactic(auto)]

ghost use Rattle.std.specs.Prelude.{◌≡◌, true, length, ◌<◌};
ghost use Rattle.meaning.specs.Image.{raw_program};
ghost use Rattle.parts.specs.Series.{For};
ghost use Rattle.pairs.specs.Pairs.{starts as doesStart, Answers};
ghost use Rattle.plan.specs.Plan.{plan_length};

use meaning::Room;
use plan::At;
use values::Values;

// The first match of the first rule, asked for n times, and at least once.
fn repeated(
    nodes: &[u8],
    edges: &[u8],
    image: &[u8],
    n: u32,
    plan: &mut [usize; At::LENGTH],
    values: &mut Values,
) -> Option<[usize; Room::ITEMS]>
    requires image_value { doesStart nodes.now edges.now image.now ≡ true }
    requires fact { For (raw_program image.now) (λ p. 0 < length p.rules) }
    requires plan_len { length plan.old ≡ plan_length }
    ensures { Answers nodes.now edges.now image.now 0 result values.new.lens values.new.atoms }
{
    for _ in 1..n {
        pairs::rule_match(nodes, edges, image, 0, plan, values);
    }
    pairs::rule_match(nodes, edges, image, 0, plan, values)
}

fn match_first(nodes: &[u8], edges: &[u8], image: &[u8], n: u32)
    requires image_value { doesStart nodes.now edges.now image.now ≡ true }
    requires fact { For (raw_program image.now) (λ p. 0 < length p.rules) }
{
    let mut plan = [0usize; At::LENGTH];
    let mut values = Values {
        lens: [0; Room::VARIABLES],
        atoms: [0; Room::ATOMS],
    };
    let found = repeated(nodes, edges, image, n, &mut plan, &mut values);
    pairs::write_match(parts::rule_part(image, 0), found, values.lens, values.atoms);
}

fn match_case(case: &[u8]) {
    let nodes = cases::part(case, 0);
    let edges = cases::part(case, 1);
    let image = cases::part(case, 2);
    if pairs::starts(nodes, edges, image) && parts::rule_count(image) > 0 {
        match_first(nodes, edges, image, cases::word(case, 3));
    }
}

fn main() {
    let mut buffer = io::large_buffer();
    if let Some(n) = cases::read_case(&mut buffer) {
        match_case(&buffer[..n]);
    }
}
