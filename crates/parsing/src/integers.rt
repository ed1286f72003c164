// Integers: decimal digits of any length behind an optional minus, and the atoms that they are.
ghost use Rattle.std.specs.Prelude.{◌≡◌, true, ◌≤◌, length};
ghost use Rattle.std.proofs.Math.Seq.{slice};
ghost use Rattle.meaning.specs.Basics.{every};
ghost use Rattle.text.specs.Words.{is_digit};
ghost use Rattle.text.specs.Integers.{value};
ghost use Rattle.parsing.specs.Integers.{Capped, ReadsDigits, Held, ReadsInteger};

use crate::{BrokenAt, NameAt};
use writing::AtomWord;

fn all_digits(text: &[u8], from: usize, to: usize) -> bool
    requires { from ≤ to × to ≤ length text.now }
    ensures { result ≡ every is_digit (slice from to text.now) }
{
    text[from..to].iter().all(|b| lexing::is_digit(*b))
}

// The number that the digits write, or some number over 2^32 where it is over 2^32.
fn digits_value(text: &[u8], from: usize, to: usize) -> usize
    requires from_le_to { from ≤ to × to ≤ length text.now }
    requires text_value { every is_digit (slice from to text.now) ≡ true }
    ensures { Capped (value (slice from to text.now)) result }
{
    let mut v: usize = 0;
    for i in from..to {
        let b = text[i];
        if v <= AtomWord::WHOLE {
            v = v * 10 + usize::from(b - b'0');
        }
    }
    v
}

// Digits that were read: their number as far as an atom asks for it, and the place behind them.
#[derive(Clone, Copy)]
pub struct DigitsAt {
    pub next: usize,
    pub number: usize,
}

// A name of digits alone.
pub fn read_digits(text: &[u8], at: usize) -> Result<DigitsAt, BrokenAt>
    ensures { ReadsDigits text.now at result }
{
    let NameAt { next, from } = crate::read_name(text, at)?;
    if all_digits(text, from, next) {
        let number = digits_value(text, from, next);
        return Ok(DigitsAt { next, number });
    }
    Err(BrokenAt { place: at })
}

// An integer that was read: its word where it is an atom, and the place behind it.
#[derive(Clone, Copy)]
pub struct IntegerAt {
    pub next: usize,
    pub word: Option<u32>,
}

// The atom of a number behind a sign, where it is one.
#[tactic(auto, unfolding(meaning::specs::Basics::choose))]
fn held(n: usize, negative: bool) -> Option<u32>
    ensures { Held n negative result }
{
    if negative {
        if n <= AtomWord::HALF {
            return Some(((AtomWord::WHOLE - n) % AtomWord::WHOLE) as u32);
        }
    } else if n < AtomWord::HALF {
        return Some(n as u32);
    }
    None
}

// An integer.
pub fn read_integer(text: &[u8], at: usize) -> Result<IntegerAt, BrokenAt>
    ensures { ReadsInteger text.now at result }
{
    if let Ok(minus) = crate::expect(text, at, b'-') {
        let d = read_digits(text, minus)?;
        return Ok(IntegerAt {
            next: d.next,
            word: held(d.number, true),
        });
    }
    let d = read_digits(text, at)?;
    Ok(IntegerAt {
        next: d.next,
        word: held(d.number, false),
    })
}
