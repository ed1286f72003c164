// Positions, which are read and dropped: of each, the place behind it is kept.
ghost use Rattle.text.specs.Grammar.{coordinate, a_position, position};
ghost use Rattle.parsing.specs.Reading.{Passes};

use crate::BrokenAt;
use crate::integers::{read_digits, read_integer};

// An integer, and digits behind a dot.
fn pass_coordinate(text: &[u8], at: usize) -> Result<usize, BrokenAt>
    ensures { Passes text.now at coordinate result }
{
    let x = read_integer(text, at)?;
    if let Ok(dot) = crate::expect(text, x.next, b'.') {
        let fraction = read_digits(text, dot)?;
        return Ok(fraction.next);
    }
    Ok(x.next)
}

// Two coordinates, from behind the sign that opens a position on.
fn pass_coordinates(text: &[u8], at: usize) -> Result<usize, BrokenAt>
    ensures { Passes text.now at a_position result }
{
    let x = pass_coordinate(text, at)?;
    let comma = crate::expect(text, x, b',')?;
    let y = pass_coordinate(text, comma)?;
    crate::expect(text, y, b'>')
}

// A position, where there is one.
pub fn pass_position(text: &[u8], at: usize) -> Result<usize, BrokenAt>
    ensures { Passes text.now at position result }
{
    match crate::expect(text, at, b'<') {
        Ok(open) => pass_coordinates(text, open),
        Err(_) => Ok(at),
    }
}
