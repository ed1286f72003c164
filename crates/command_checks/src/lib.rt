// What is asked of the commands of an image that has the form, of every procedure and of the main command: that the rules and the
// procedures they name exist (a part of answer 17), that each break lies in a loop body with no guard between (answer 18), and
// that with procedures put in for calls they are not nested too deep (answer 19). The parts of the image are walked where they
// lie, and no call is followed.
#![tactic(auto)]

ghost use Rattle.std.specs.Prelude.{◌≡◌, true, Some, ◌<◌, ltb, length, get_or};
ghost use Rattle.meaning.specs.Basics.{every};
ghost use Rattle.meaning.specs.Image.{limits, only, passes_all, command, Raw, raw_program};
ghost use Rattle.meaning.specs.Procedures.{everywhere, depth_holds};
ghost use Rattle.meaning.specs.References.{names_exist};
ghost use Rattle.meaning.specs.Placement.{placement};
ghost use Rattle.parts.specs.Series.{For};
ghost use Rattle.parts.specs.Images.{image_part, procedure};
ghost use Rattle.command_checks.specs.Asked.{room_asked, numbers_asked, break_asked, call_asked, inside, breaking, of_first, inner_of, command_asked, parts_asked, part_asked};

use fields::{Field, Fields};
use meaning::tags::{Limit, Tag};

mod rounds;

// What is asked of a command and those in it.
#[derive(Clone, Copy)]
pub enum Demand {
    // The rules that are named are among so many, and the procedures among so many.
    Names(usize, usize),
    // Each break lies where it may; the flag says whether one may stand here.
    Breaks(bool),
    // With procedures put in for calls, the command is at most so deep.
    Depth(usize),
}

// Whether there may be a command at all.
fn has_room(demand: Demand) -> bool
    ensures { result ≡ room_asked demand }
{
    match demand {
        Demand::Names(_, _) | Demand::Breaks(_) => true,
        Demand::Depth(n) => n > 0,
    }
}

fn numbers_below(p: &[u8], n: usize) -> bool
    ensures { result ≡ every (λ i. ltb i n) p.now }
{
    p.iter().all(|&i| usize::from(i) < n)
}

#[tactic(auto, unfolding(crate::specs::Asked::numbers_asked))]
fn rule_set_holds(demand: Demand, p: &[u8]) -> bool
    ensures { result ≡ numbers_asked demand p.now }
{
    match demand {
        Demand::Names(n, _) => numbers_below(p, n),
        Demand::Breaks(_) | Demand::Depth(_) => true,
    }
}

fn break_holds(demand: Demand) -> bool
    ensures { result ≡ break_asked demand }
{
    !matches!(demand, Demand::Breaks(false))
}

// How deep the procedure of number i is, where that is known; one that there is not stands for skip.
fn height(heights: &[Option<u8>], i: usize) -> Option<u8>
    ensures { result ≡ get_or heights.now i (Some 1) }
{
    heights.get(i).copied().unwrap_or(Some(1))
}

// A call of procedure i; the call itself is one level.
#[tactic(auto, unfolding(crate::specs::Asked::call_asked, crate::specs::Asked::is_low))]
fn call_holds(demand: Demand, heights: &[Option<u8>], i: usize) -> bool
    ensures { result ≡ call_asked demand heights.now i }
{
    match demand {
        Demand::Names(_, m) => i < m,
        Demand::Breaks(_) => true,
        Demand::Depth(n) => height(heights, i).is_some_and(|h| usize::from(h) < n),
    }
}

// What is asked of the parts of a command.
fn inside(demand: Demand) -> Demand
    requires { room_asked demand ≡ true }
    ensures { result ≡ inside demand }
{
    match demand {
        Demand::Names(_, _) | Demand::Breaks(_) => demand,
        Demand::Depth(n) => Demand::Depth(n - 1),
    }
}

// The same where a break may stand, or may not.
fn breaking(demand: Demand, may: bool) -> Demand
    ensures { result ≡ breaking demand may }
{
    match demand {
        Demand::Breaks(_) => Demand::Breaks(may),
        Demand::Names(_, _) | Demand::Depth(_) => demand,
    }
}

// What is asked of the first of a command's parts, from what is asked of the others: a break may stand in a loop's body, and not
// in a guard; a sequence treats its first command as the others.
#[tactic(auto, unfolding(crate::specs::Asked::of_first, meaning::specs::Basics::choose))]
fn of_first(demand: Demand, tag: u8) -> Demand
    ensures { result ≡ of_first demand tag }
{
    match tag {
        Tag::LOOP => breaking(demand, true),
        Tag::SEQUENCE => demand,
        _ => breaking(demand, false),
    }
}

// The commands in a command, from its tag and payload; those in a guarded one are behind its flag.
#[tactic(auto, unfolding(crate::specs::Asked::inner_of, meaning::specs::Basics::choose))]
fn inner(tag: u8, p: &[u8]) -> &[u8]
    ensures { result.now ≡ inner_of tag p.now }
{
    if tag == Tag::GUARDED {
        parts::behind(p, 1)
    } else {
        p
    }
}

// A command, nested at most `depth` deep, from its tag and payload.
#[cycle(command_holds_commands_hold)]
fn command_holds(demand: Demand, heights: &[Option<u8>], tag: u8, p: &[u8], depth: usize) -> bool
    ensures { For (command depth tag p.now) (λ c. result ≡ command_asked demand heights.now c) }
{
    if depth == 0 {
        return true;
    }
    if !has_room(demand) {
        return false;
    }
    match tag {
        Tag::RULE_SET => rule_set_holds(demand, p),
        Tag::BREAK => break_holds(demand),
        Tag::CALL => call_holds(demand, heights, parts::number_at(p, 0)),
        _ => {
            let within = inside(demand);
            commands_hold(
                of_first(within, tag),
                within,
                heights,
                inner(tag, p),
                depth - 1,
            )
        }
    }
}

// Commands one after the other: what is asked of the first, and of the others.
#[cycle(command_holds_commands_hold)]
fn commands_hold(
    first: Demand,
    others: Demand,
    heights: &[Option<u8>],
    p: &[u8],
    depth: usize,
) -> bool
    ensures { For (only passes_all (command depth) limits.commands p.now) (λ l. result ≡ parts_asked first others heights.now l) }
{
    let mut demand = first;
    for field in Fields::of(p) {
        let Ok(Field { tag, start, end }) = field else {
            return false;
        };
        if !command_holds(demand, heights, tag, &p[start..end], depth) {
            return false;
        }
        demand = others;
    }
    true
}

// A procedure, from its payload: its command is its first field.
fn body_holds(demand: Demand, heights: &[Option<u8>], p: &[u8]) -> bool
    ensures { For (procedure p.now) (λ c. result ≡ command_asked demand heights.now c) }
{
    command_holds(
        demand,
        heights,
        parts::nth_tag(p, 0),
        parts::nth_part(p, 0),
        Limit::DEPTH,
    )
}

// The procedure of a number.
fn procedure_holds(demand: Demand, heights: &[Option<u8>], image: &[u8], i: usize) -> bool
    ensures { For (raw_program image.now) (λ p. i < length p.procedures → (d : Raw) → result ≡ command_asked demand heights.now (get_or p.procedures i d)) }
{
    body_holds(demand, heights, parts::procedure_part(image, i))
}

// A procedure of the image, or its main command; of a rule nothing is asked here.
fn part_holds(demand: Demand, heights: &[Option<u8>], tag: u8, p: &[u8]) -> bool
    ensures { For (image_part tag p.now) (λ i. result ≡ part_asked demand heights.now i) }
{
    match tag {
        Tag::RULE => true,
        Tag::PROCEDURE => body_holds(demand, heights, p),
        _ => command_holds(demand, heights, tag, p, Limit::DEPTH),
    }
}

// Every procedure, called or not, and the main command.
fn all_hold(demand: Demand, heights: &[Option<u8>], image: &[u8]) -> bool
    ensures { For (raw_program image.now) (λ p. result ≡ everywhere (command_asked demand heights.now) p) }
{
    parts::every_field(image, |tag, p| part_holds(demand, heights, tag, p))
}

// The rules and the procedures that commands name exist.
pub fn names_exist(image: &[u8]) -> bool
    ensures { For (raw_program image.now) (λ p. result ≡ everywhere (λ c. names_exist c (length p.rules) (length p.procedures)) p) }
{
    let rules = parts::rule_count(image);
    let procedures = parts::procedure_count(image);
    all_hold(Demand::Names(rules, procedures), &[], image)
}

// Placement of break.
pub fn breaks_lie(image: &[u8]) -> bool
    ensures { For (raw_program image.now) (λ p. result ≡ placement p) }
{
    all_hold(Demand::Breaks(false), &[], image)
}

// With procedures put in for calls, commands are nested as deep as they may be; where calls form a ring they are not.
pub fn depth_holds(image: &[u8]) -> bool
    ensures { For (raw_program image.now) (λ p. result ≡ depth_holds p) }
{
    let count = parts::procedure_count(image);
    if count > Limit::PROCEDURES {
        return false;
    }
    let mut heights = [None; Limit::PROCEDURES];
    rounds::depth_fits(image, &mut heights[..count])
}
