// The words of a text where they lie: white space and comments passed over, the next word from a place on, names compared.
#![tactic(auto)]

ghost use Rattle.std.specs.Prelude.{◌≡◌, true, ◌+◌, ◌<◌, ◌≤◌, length, get_or, drop};
ghost use Rattle.std.proofs.Math.Seq.{slice};
ghost use Rattle.meaning.specs.Basics.{same};
ghost use Rattle.text.specs.Words.{is_letter, is_digit, is_white, slash};
ghost use Rattle.lexing.specs.Lexing.{first, name_at, NameEnd, LineEnd, CommentEnd, AtSlash, Next};

// A word where it lies: a sign and the place behind it, or a name between two places.
#[derive(Clone, Copy)]
pub enum Token {
    Sign(u8, usize),
    Name(usize, usize),
}

// What a slash is: the beginning of a comment that ends before a place, or a word, and the place behind it. A comment without an end is
// a slash that goes on to the end of the text.
#[derive(Clone, Copy)]
pub enum Slash {
    Comment(usize),
    Alone(usize),
}

// Bytes.

pub fn is_digit(b: u8) -> bool
    ensures { result ≡ is_digit b }
{
    b.is_ascii_digit()
}

pub fn is_letter(b: u8) -> bool
    ensures { result ≡ is_letter b }
{
    b.is_ascii_alphanumeric() || b == b'_'
}

pub fn is_white(b: u8) -> bool
    ensures { result ≡ is_white b }
{
    matches!(b, b' ' | b'\t' | b'\n' | b'\r')
}

// Comments.

// The place behind the comment's line, from a place in the comment.
fn line_end(text: &[u8], from: usize) -> usize
    requires { from ≤ length text.now }
    ensures { LineEnd text.now from result }
{
    for i in from..text.len() {
        if text[i] == b'\n' {
            return i + 1;
        }
    }
    text.len()
}

// The place behind the star and the slash that end the comment, from a place in the comment.
fn comment_end(text: &[u8], from: usize) -> Slash
    requires { from ≤ length text.now }
    ensures { CommentEnd text.now from result }
{
    let mut starred = false;
    for i in from..text.len() {
        let b = text[i];
        if starred && b == b'/' {
            return Slash::Comment(i + 1);
        }
        starred = b == b'*';
    }
    Slash::Alone(text.len())
}

// What the slash at this place is.
fn at_slash(text: &[u8], at: usize) -> Slash
    requires at_in_bounds { at < length text.now }
    requires at_value { get_or text.now at 0 ≡ slash }
    ensures { AtSlash text.now at result }
{
    let second = at + 1;
    if second < text.len() {
        let b = text[second];
        if b == b'/' {
            return Slash::Comment(line_end(text, second + 1));
        }
        if b == b'*' {
            return comment_end(text, second + 1);
        }
    }
    Slash::Alone(second)
}

// Words.

// The end of the name that begins here.
fn name_end(text: &[u8], from: usize) -> usize
    requires from_in_bounds { from < length text.now }
    requires from_value { is_letter (get_or text.now from 0) ≡ true }
    ensures { NameEnd text.now from result }
{
    for i in from + 1..text.len() {
        if !is_letter(text[i]) {
            return i;
        }
    }
    text.len()
}

// The next word from a place on, behind white space and comments; none where the text ends.
pub fn next_word(text: &[u8], start: usize) -> Option<Token>
    ensures { Next text.now start result }
{
    let mut at = start;
    while at < text.len() {
        let b = text[at];
        if is_letter(b) {
            return Some(Token::Name(at, name_end(text, at)));
        }
        if is_white(b) {
            at += 1;
        } else if b == b'/' {
            match at_slash(text, at) {
                Slash::Comment(end) => at = end,
                Slash::Alone(next) => return Some(Token::Sign(b, next)),
            }
        } else {
            return Some(Token::Sign(b, at + 1));
        }
    }
    None
}

// The letter of number k of the name at a place, where it has so many.
fn letter_at(text: &[u8], at: usize, k: usize) -> Option<u8>
    ensures { result ≡ first (name_at text.now (at + k)) }
{
    if at < text.len() && k < text.len() - at {
        let b = text[at + k];
        if is_letter(b) {
            return Some(b);
        }
    }
    None
}

// Whether the names at two places are the same.
pub fn same_name(text: &[u8], a: usize, b: usize) -> bool
    ensures { result ≡ same (name_at text.now a) (name_at text.now b) }
{
    for k in 0..text.len() {
        match (letter_at(text, a, k), letter_at(text, b, k)) {
            (Some(x), Some(y)) if x == y => {}
            (None, None) => return true,
            _ => return false,
        }
    }
    true
}

// Whether the bytes between two places are these.
pub fn is_word(text: &[u8], from: usize, to: usize, word: &[u8]) -> bool
    requires { from ≤ to × to ≤ length text.now }
    ensures { result ≡ same (slice from to text.now) word.now }
{
    text[from..to] == word[..]
}
