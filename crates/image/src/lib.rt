// Checks of a program image: its form (answer 16). An image is made of rows of fields, one row in another; what each row takes is
// a table in `table`, what an item of it must be is in `items`, and one walk follows the rows. Each check is proved equal to the
// definition's reader succeeding.
#![tactic(auto)]

ghost use Rattle.std.specs.Prelude.{◌≡◌};
ghost use Rattle.meaning.specs.Basics.{is_some};
ghost use Rattle.meaning.specs.Image.{raw_program};
ghost use Rattle.image.specs.Form.{fits, read, belonging};

use fields::Field;

pub mod items;
pub mod table;

// A row of fields that are read alike. Behind some rows another one follows.
#[derive(Clone, Copy)]
pub enum Row {
    // An image: its rules, then its procedures; behind them is its main command, `One`.
    Rules,
    Procedures,
    // A rule: its parts, a field each; a mode may be missing.
    Variables,
    Left,
    Right,
    Interface,
    Conditions,
    Modes,
    // A graph: its nodes, then its edges.
    Nodes,
    Edges,
    // The tests of a rule.
    Tests,
    // A label.
    Elements,
    // The operands of a sum, a difference or a relation.
    Operands,
    // The commands in a sequence and in a guarded command, each nested at most so deep.
    Sequence(usize),
    Guarded(usize),
    // One command, nested at most so deep: the main command, and what is in a procedure or in a loop.
    One(usize),
}

// What an item's first bytes say of its form.
#[derive(Drop)]
pub enum Inside {
    // It has the form, or not.
    Known(bool),
    // It has, if what is there from a place on begins with a row and is as it should be.
    From(Row, usize),
}

// Whether one more item of a row begins at a place, where there are n.
#[tactic(auto, unfolding(crate::specs::Form::belonging, meaning::specs::Basics::both))]
fn belongs(row: Row, n: usize, p: &[u8], at: usize) -> bool
    ensures { result ≡ belonging row n p.now at }
{
    at < p.len()
        && n < table::most(row)
        && match table::tag_of(row) {
            Some(tag) => tag == p[at],
            None => true,
        }
}

// An item of a row, from its tag and payload.
#[cycle(item_ok_rows_ok)]
fn item_ok(row: Row, tag: u8, p: &[u8]) -> bool
    ensures { result ≡ is_some (read row tag p.now) }
{
    match items::inside(row, tag, p) {
        Inside::Known(ok) => ok,
        Inside::From(first, from) => rows_ok(first, &p[from..]),
    }
}

// A row and those behind it, with nothing behind them.
#[cycle(item_ok_rows_ok)]
fn rows_ok(first: Row, p: &[u8]) -> bool
    ensures { result ≡ fits first p.now }
{
    let mut next = Some(first);
    let mut rest = p;
    while let Some(row) = next {
        let mut at = 0;
        let mut n = 0;
        while belongs(row, n, rest, at) {
            let Some(Ok(Field { tag, start, end })) = fields::read_field(rest, at) else {
                return false;
            };
            if !item_ok(row, tag, &rest[start..end]) {
                return false;
            }
            at = end;
            n += 1;
        }
        if n < table::least(row) {
            return false;
        }
        next = table::next(row);
        rest = &rest[at..];
    }
    rest.is_empty()
}

// The form of a whole image: rules, then procedures, then one command, then nothing.
pub fn form_ok(image: &[u8]) -> bool
    ensures { result ≡ is_some (raw_program image.now) }
{
    rows_ok(Row::Rules, image)
}
