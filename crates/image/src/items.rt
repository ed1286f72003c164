// What the first bytes of an item say of its form, by the row that it is in, its tag and its payload.
ghost use Rattle.std.specs.Prelude.{◌≡◌, not, suc, length, get_or, eqb, leb};
ghost use Rattle.meaning.specs.Basics.{both, either, is_some};
ghost use Rattle.meaning.specs.Tags.{equal_relation, less_relation, any_mark};
ghost use Rattle.meaning.specs.Image.{flag, operand, element, rule_node, rule_edge, test, types, mode, command, as_rule_set};
ghost use Rattle.image.specs.declared.Row.TheVariants.{Nodes, Edges, Tests, Elements};
ghost use Rattle.image.specs.Form.{read, rank, Tells};

use crate::{Inside, Row};
use meaning::tags::{Limit, Mark, Relation, Tag, VariableType};

#[tactic(auto, unfolding(meaning::specs::Basics::either))]
fn one_of(x: u8, a: u8, b: u8) -> bool
    ensures { result ≡ either (eqb x a) (eqb x b) }
{
    x == a || x == b
}

// The types of a rule's variables.
#[tactic(auto, using(fields::specs::Image::types_ok), unfolding(meaning::specs::Basics::both))]
fn types_ok(p: &[u8]) -> bool
    ensures { result ≡ is_some (types p.now) }
{
    p.len() <= Limit::VARIABLES
        && p.iter()
            .all(|x| one_of(*x, VariableType::INT, VariableType::LIST))
}

// Whether a mark may stand on an item that never has one of them.
#[tactic(auto, unfolding(meaning::specs::Basics::both))]
fn marked(mark: u8, never: u8) -> bool
    ensures { result ≡ both (not (eqb mark never)) (leb mark any_mark) }
{
    mark != never && mark <= Mark::ANY
}

// Mark, root, label.
fn node(p: &[u8]) -> Inside
    ensures { Tells (rank Nodes) (is_some (rule_node p.now)) p.now result }
{
    if p.len() >= 2 && marked(p[0], Mark::DASHED) && p[1] <= 1 {
        Inside::From(Row::Elements, 2)
    } else {
        Inside::Known(false)
    }
}

// Mark, source, target, label.
fn edge(p: &[u8]) -> Inside
    ensures { Tells (rank Edges) (is_some (rule_edge p.now)) p.now result }
{
    if p.len() >= 3 && marked(p[0], Mark::GREY) {
        Inside::From(Row::Elements, 3)
    } else {
        Inside::Known(false)
    }
}

// Whether a relation test says equal or less.
#[tactic(auto, unfolding(meaning::specs::Basics::both))]
fn related(p: &[u8]) -> bool
    ensures { result ≡ both (leb 2 (length p.now)) (either (eqb (get_or p.now 1 0) equal_relation) (eqb (get_or p.now 1 0) less_relation)) }
{
    p.len() >= 2 && one_of(p[1], Relation::EQUAL, Relation::LESS)
}

// Whether a flag, 0 or 1, stands in front.
#[tactic(auto, using(fields::specs::Image::flag_ok), unfolding(meaning::specs::Basics::both))]
fn flagged(p: &[u8]) -> bool
    ensures { result ≡ is_some (flag p.now) }
{
    p.len() >= 1 && p[0] <= 1
}

// A flag, and nothing behind it.
#[tactic(auto, using(fields::specs::Image::mode_ok), unfolding(meaning::specs::Basics::both))]
fn mode_ok(p: &[u8]) -> bool
    ensures { result ≡ is_some (mode p.now) }
{
    p.len() == 1 && flagged(p)
}

// Whether the test is negated, then its condition.
fn test(tag: u8, p: &[u8]) -> Inside
    ensures { Tells (rank Tests) (is_some (test tag p.now)) p.now result }
{
    if !flagged(p) {
        return Inside::Known(false);
    }
    let n = p.len() - 1;
    match tag {
        Tag::RELATION if related(p) => Inside::From(Row::Operands, 2),
        Tag::EDGE_TEST => Inside::Known(n == 2),
        Tag::IN_DEGREE | Tag::OUT_DEGREE => Inside::Known(n == 3),
        _ => Inside::Known(false),
    }
}

// A constant is four bytes, a variable one.
fn operand_ok(tag: u8, p: &[u8]) -> bool
    ensures { result ≡ is_some (operand tag p.now) }
{
    match tag {
        Tag::CONSTANT => p.len() == 4,
        Tag::VARIABLE => p.len() == 1,
        _ => false,
    }
}

// An operand, or a sum or difference of two.
fn element(tag: u8, p: &[u8]) -> Inside
    ensures { Tells (rank Elements) (is_some (element tag p.now)) p.now result }
{
    match tag {
        Tag::SUM | Tag::DIFFERENCE => Inside::From(Row::Operands, 0),
        _ => Inside::Known(operand_ok(tag, p)),
    }
}

// One to eight rule numbers.
#[tactic(auto, using(fields::specs::Image::as_rule_set_ok), unfolding(meaning::specs::Basics::both))]
fn rule_set_ok(p: &[u8]) -> bool
    ensures { result ≡ is_some (as_rule_set p.now) }
{
    p.len() >= 1 && p.len() <= Limit::NUMBERS
}

// A command nested at most `depth` deep.
fn command(tag: u8, p: &[u8], depth: usize) -> Inside
    ensures { Tells (suc depth) (is_some (command depth tag p.now)) p.now result }
{
    if depth == 0 {
        return Inside::Known(false);
    }
    let lower = depth - 1;
    match tag {
        Tag::RULE_SET => Inside::Known(rule_set_ok(p)),
        Tag::SEQUENCE => Inside::From(Row::Sequence(lower), 0),
        Tag::GUARDED if flagged(p) => Inside::From(Row::Guarded(lower), 1),
        Tag::LOOP => Inside::From(Row::One(lower), 0),
        Tag::SKIP | Tag::FAIL | Tag::BREAK => Inside::Known(p.is_empty()),
        Tag::CALL => Inside::Known(p.len() == 1),
        _ => Inside::Known(false),
    }
}

pub fn inside(row: Row, tag: u8, p: &[u8]) -> Inside
    ensures { Tells (rank row) (is_some (read row tag p.now)) p.now result }
{
    match row {
        Row::Rules => Inside::From(Row::Variables, 0),
        Row::Procedures => Inside::From(Row::One(Limit::DEPTH), 0),
        Row::Variables => Inside::Known(types_ok(p)),
        Row::Left | Row::Right => Inside::From(Row::Nodes, 0),
        Row::Interface => Inside::Known(p.len() == 1),
        Row::Conditions => Inside::From(Row::Tests, 0),
        Row::Modes => Inside::Known(mode_ok(p)),
        Row::Nodes => node(p),
        Row::Edges => edge(p),
        Row::Tests => test(tag, p),
        Row::Elements => element(tag, p),
        Row::Operands => Inside::Known(operand_ok(tag, p)),
        Row::Sequence(depth) | Row::Guarded(depth) | Row::One(depth) => command(tag, p, depth),
    }
}
