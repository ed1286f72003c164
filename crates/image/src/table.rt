// What each row takes: the tag of its items, how many there are at least and at most, and the row behind it, if one follows.
ghost use Rattle.std.specs.Prelude.{◌≡◌};
ghost use Rattle.image.specs.Form.{tag_of, least_of, most_of, next_of};

use crate::Row;
use meaning::tags::{Limit, Tag};

// The tag of every item; none where an item's own check tells.
pub fn tag_of(row: Row) -> Option<u8>
    ensures { result ≡ tag_of row }
{
    match row {
        Row::Rules => Some(Tag::RULE),
        Row::Procedures => Some(Tag::PROCEDURE),
        Row::Variables => Some(Tag::VARIABLES),
        Row::Left => Some(Tag::LEFT),
        Row::Right => Some(Tag::RIGHT),
        Row::Interface => Some(Tag::INTERFACE),
        Row::Conditions => Some(Tag::TESTS),
        Row::Modes => Some(Tag::MODE),
        Row::Nodes => Some(Tag::NODE),
        Row::Edges => Some(Tag::EDGE),
        _ => None,
    }
}

pub fn least(row: Row) -> usize
    ensures { result ≡ least_of row }
{
    match row {
        Row::Variables
        | Row::Left
        | Row::Right
        | Row::Interface
        | Row::Conditions
        | Row::Sequence(_)
        | Row::One(_) => 1,
        Row::Operands => 2,
        Row::Guarded(_) => 3,
        _ => 0,
    }
}

pub fn most(row: Row) -> usize
    ensures { result ≡ most_of row }
{
    match row {
        Row::Rules => Limit::RULES,
        Row::Procedures => Limit::PROCEDURES,
        Row::Nodes => Limit::NODES,
        Row::Edges => Limit::EDGES,
        Row::Tests => Limit::TESTS,
        Row::Elements => Limit::ELEMENTS,
        Row::Operands => 2,
        Row::Sequence(_) => Limit::COMMANDS,
        Row::Guarded(_) => 3,
        _ => 1,
    }
}

pub fn next(row: Row) -> Option<Row>
    ensures { result ≡ next_of row }
{
    match row {
        Row::Rules => Some(Row::Procedures),
        Row::Procedures => Some(Row::One(Limit::DEPTH)),
        Row::Variables => Some(Row::Left),
        Row::Left => Some(Row::Right),
        Row::Right => Some(Row::Interface),
        Row::Interface => Some(Row::Conditions),
        Row::Conditions => Some(Row::Modes),
        Row::Nodes => Some(Row::Edges),
        _ => None,
    }
}
