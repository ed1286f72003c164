// The parts of an item of a text graph, read where they lie: signs and names here, integers, labels and positions in files of
// their own. Each reader takes a place and answers with what it read and the place behind it, or with the place at which the text
// broke.
#![tactic(auto)]

ghost use Rattle.text.specs.Words.{name, sign};
ghost use Rattle.parsing.specs.Reading.{Passed, ReadsName};

use lexing::Token;

pub mod integers;
pub mod labelling;
pub mod positions;

// The place of the first word that does not go on as the grammar does, or the end of the text.
#[derive(Clone, Copy)]
pub struct BrokenAt {
    pub place: usize,
}

// A name that was read: where it begins, and the place behind it.
#[derive(Clone, Copy)]
pub struct NameAt {
    pub next: usize,
    pub from: usize,
}

// A sign; the place behind it.
pub fn expect(text: &[u8], at: usize, s: u8) -> Result<usize, BrokenAt>
    ensures { Passed text.now at (sign s) result }
{
    let Some(token) = lexing::next_word(text, at) else {
        return Err(BrokenAt { place: at });
    };
    match token {
        Token::Sign(b, next) if b == s => Ok(next),
        _ => Err(BrokenAt { place: at }),
    }
}

// A name.
pub fn read_name(text: &[u8], at: usize) -> Result<NameAt, BrokenAt>
    ensures { ReadsName text.now at result }
{
    let Some(token) = lexing::next_word(text, at) else {
        return Err(BrokenAt { place: at });
    };
    match token {
        Token::Name(from, to) => Ok(NameAt { next: to, from }),
        Token::Sign(_, _) => Err(BrokenAt { place: at }),
    }
}

// A name that is this word; the place behind it.
pub fn expect_name(text: &[u8], at: usize, word: &[u8]) -> Result<usize, BrokenAt>
    ensures { Passed text.now at (name word.now) result }
{
    let found = read_name(text, at)?;
    if lexing::is_word(text, found.from, found.next, word) {
        return Ok(found.next);
    }
    Err(BrokenAt { place: at })
}
