// Labels: a list of integers, whose atoms are gathered as far as a label has room for them, and a mark.
ghost use Rattle.std.specs.Prelude.{◌≡◌, ◌≤◌, length};
ghost use Rattle.std.proofs.Math.Seq.{slice};
ghost use Rattle.text.specs.Grammar.{integers, list, a_mark, a_root, optional};
ghost use Rattle.text.specs.Words.{hash, left};
ghost use Rattle.parsing.specs.Labels.{GathersMore, ReadsList, mark_number, ReadsByte, ReadsLabel};

use crate::integers::read_integer;
use crate::{BrokenAt, NameAt};
use labels::Label;
use meaning::tags::Mark;

// One integer more behind those of a label, where all are atoms for which there is room.
fn with_integer(gathered: Option<Label>, atom: Option<u32>) -> Option<Label>
    ensures { GathersMore gathered atom result }
{
    let label = gathered?;
    let word = atom?;
    let n = label.len;
    if n < labels::MOST {
        let mut atoms = label.atoms;
        atoms[n] = word;
        return Some(Label { len: n + 1, atoms });
    }
    None
}

// A list that was read: its atoms, where each integer is one and there is room for all, and the place behind it.
#[derive(Clone, Copy)]
pub struct ListAt {
    pub next: usize,
    pub label: Option<Label>,
}

// Integers with colons between.
fn read_integers(text: &[u8], at: usize) -> Result<ListAt, BrokenAt>
    ensures { ReadsList text.now at integers result }
{
    let first = read_integer(text, at)?;
    let mut next = first.next;
    let mut label = with_integer(Some(labels::none()), first.word);
    while let Ok(colon) = crate::expect(text, next, b':') {
        let x = read_integer(text, colon)?;
        label = with_integer(label, x.word);
        next = x.next;
    }
    Ok(ListAt { next, label })
}

// The word empty, or integers.
fn read_list(text: &[u8], at: usize) -> Result<ListAt, BrokenAt>
    ensures { ReadsList text.now at list result }
{
    match crate::expect_name(text, at, b"empty") {
        Ok(next) => Ok(ListAt {
            next,
            label: Some(labels::none()),
        }),
        Err(_) => read_integers(text, at),
    }
}

// The number of the mark with this name.
fn mark_number(text: &[u8], from: usize, to: usize) -> Option<u8>
    requires { from ≤ to × to ≤ length text.now }
    ensures { result ≡ mark_number (slice from to text.now) }
{
    if lexing::is_word(text, from, to, b"red") {
        return Some(Mark::RED);
    }
    if lexing::is_word(text, from, to, b"green") {
        return Some(Mark::GREEN);
    }
    if lexing::is_word(text, from, to, b"blue") {
        return Some(Mark::BLUE);
    }
    if lexing::is_word(text, from, to, b"grey") {
        return Some(Mark::GREY);
    }
    if lexing::is_word(text, from, to, b"dashed") {
        return Some(Mark::DASHED);
    }
    None
}

// A number that was read, of a mark or a root's flag, and the place behind it.
#[derive(Clone, Copy)]
pub struct ByteAt {
    pub next: usize,
    pub byte: u8,
}

// The name of a mark.
fn read_mark_name(text: &[u8], at: usize) -> Result<ByteAt, BrokenAt>
    ensures { ReadsByte text.now at a_mark result }
{
    let NameAt { next, from } = crate::read_name(text, at)?;
    match mark_number(text, from, next) {
        Some(byte) => Ok(ByteAt { next, byte }),
        None => Err(BrokenAt { place: at }),
    }
}

// A mark, where there is one.
fn read_mark(text: &[u8], at: usize) -> Result<ByteAt, BrokenAt>
    ensures { ReadsByte text.now at (optional hash a_mark 0) result }
{
    match crate::expect(text, at, b'#') {
        Ok(sign) => read_mark_name(text, sign),
        Err(_) => Ok(ByteAt {
            next: at,
            byte: Mark::NONE,
        }),
    }
}

// The flag of a root behind an identifier.
pub fn read_root(text: &[u8], at: usize) -> Result<ByteAt, BrokenAt>
    ensures { ReadsByte text.now at (optional left a_root 0) result }
{
    if let Ok(open) = crate::expect(text, at, b'(') {
        let word = crate::expect_name(text, open, b"R")?;
        let next = crate::expect(text, word, b')')?;
        return Ok(ByteAt { next, byte: 1 });
    }
    Ok(ByteAt { next: at, byte: 0 })
}

// A label that was read: its atoms, where it can be gathered, its mark, and the place behind it.
#[derive(Clone, Copy)]
pub struct LabelAt {
    pub next: usize,
    pub mark: u8,
    pub label: Option<Label>,
}

// A list and a mark.
pub fn read_label(text: &[u8], at: usize) -> Result<LabelAt, BrokenAt>
    ensures { ReadsLabel text.now at result }
{
    let list = read_list(text, at)?;
    let mark = read_mark(text, list.next)?;
    Ok(LabelAt {
        next: mark.next,
        mark: mark.byte,
        label: list.label,
    })
}
