// Writes, for each of the stored cases on standard input, the first match of each rule of its image on its host, a line a rule;
// or that a run would be refused. A case holds nodes, edges and program.
#![tactic(auto)]

ghost use Rattle.std.specs.Prelude.{◌≡◌, true, length, ◌<◌};
ghost use Rattle.meaning.specs.Image.{raw_program};
ghost use Rattle.parts.specs.Series.{For};
ghost use Rattle.pairs.specs.Pairs.{starts as doesStart};

use meaning::Room;
use plan::At;
use values::Values;

fn match_rule(nodes: &[u8], edges: &[u8], image: &[u8], i: usize)
    requires image_value { doesStart nodes.now edges.now image.now ≡ true }
    requires fact { For (raw_program image.now) (λ p. i < length p.rules) }
{
    let mut plan = [0usize; At::LENGTH];
    let mut values = Values {
        lens: [0; Room::VARIABLES],
        atoms: [0; Room::ATOMS],
    };
    let found = pairs::rule_match(nodes, edges, image, i, &mut plan, &mut values);
    pairs::write_match(parts::rule_part(image, i), found, values.lens, values.atoms);
}

fn match_rules(nodes: &[u8], edges: &[u8], image: &[u8])
    requires { doesStart nodes.now edges.now image.now ≡ true }
{
    for i in 0..parts::rule_count(image) {
        match_rule(nodes, edges, image, i);
    }
}

fn match_case(case: &[u8]) {
    let nodes = cases::part(case, 0);
    let edges = cases::part(case, 1);
    let image = cases::part(case, 2);
    if pairs::starts(nodes, edges, image) {
        match_rules(nodes, edges, image);
    } else {
        io::write_all(1, b"refused\n");
    }
}

fn main() {
    cases::each_case(match_case);
}
