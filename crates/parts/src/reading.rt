// Reading operands, elements and tests into their enums. Of what has not the form they read something.
ghost use Rattle.std.specs.Prelude.{◌≡◌, ◌<◌, length, get_or};
ghost use Rattle.meaning.specs.Image.{only, passes_all, operand, element, condition, test};
ghost use Rattle.meaning.specs.declared.Operand.{Operand};
ghost use Rattle.parts.specs.Series.{For};
ghost use Rattle.parts.specs.Reading.{relation_of};

use meaning::tags::{Relation, Tag};
use meaning::{Condition, Element, Operand, Test};

pub fn read_operand(tag: u8, p: &[u8]) -> Operand
    ensures { For (operand tag p.now) (λ o. result ≡ o) }
{
    if tag == Tag::CONSTANT {
        Operand::Constant(crate::word_of(p))
    } else {
        Operand::Variable(crate::number_at(p, 0))
    }
}

// The operand of number n in a row of operands.
pub fn operand_at(p: &[u8], n: usize) -> Operand
    ensures { For (only passes_all operand 2 p.now) (λ l. n < length l → (d : Operand) → result ≡ get_or l n d) }
{
    read_operand(crate::nth_tag(p, n), crate::nth_part(p, n))
}

pub fn read_element(tag: u8, p: &[u8]) -> Element
    ensures { For (element tag p.now) (λ e. result ≡ e) }
{
    match tag {
        Tag::CONSTANT => Element::Constant(crate::word_of(p)),
        Tag::VARIABLE => Element::Variable(crate::number_at(p, 0)),
        Tag::SUM => Element::Sum(operand_at(p, 0), operand_at(p, 1)),
        _ => Element::Difference(operand_at(p, 0), operand_at(p, 1)),
    }
}

// Equal or less, and two operands.
pub fn read_relation(p: &[u8]) -> Condition
    ensures { For (relation_of p.now) (λ c. result ≡ c) }
{
    let operands = crate::behind(p, 1);
    let a = operand_at(operands, 0);
    let b = operand_at(operands, 1);
    if crate::byte_at(p, 0) == Relation::EQUAL {
        Condition::Equal(a, b)
    } else {
        Condition::Less(a, b)
    }
}

// A condition, from its tag and the bytes behind the test's flag.
pub fn read_condition(tag: u8, p: &[u8]) -> Condition
    ensures { For (condition tag p.now) (λ c. result ≡ c) }
{
    match tag {
        Tag::RELATION => read_relation(p),
        Tag::EDGE_TEST => Condition::Edge(crate::number_at(p, 0), crate::number_at(p, 1)),
        Tag::IN_DEGREE => Condition::InDegree(crate::number_at(p, 0), crate::degree_of(p)),
        _ => Condition::OutDegree(crate::number_at(p, 0), crate::degree_of(p)),
    }
}

pub fn read_test(tag: u8, p: &[u8]) -> Test
    ensures { For (test tag p.now) (λ t. result ≡ t) }
{
    Test {
        negated: crate::flag(p),
        condition: read_condition(tag, crate::behind(p, 1)),
    }
}
