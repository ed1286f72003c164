// Running the program of an image, from bytes that hold a state. Running a command, a row of commands, a guarded command and
// a loop call each other, over parts of the lent image, procedures among them; what needs no call of these is outside the cycle.
#![tactic(auto)]

ghost use Rattle.std.specs.Prelude.{◌+◌, ◌≤◌};
ghost use Rattle.meaning.specs.Tags.{rule_set_tag};
ghost use Rattle.meaning.specs.Calls.{most_fuel};
ghost use Rattle.ledger.specs.Running.{Running};
ghost use Rattle.commands.specs.Program.{Runnable, RunsProgram};
ghost use Rattle.ends.specs.Ends.{RowTag};
ghost use Rattle.commands.specs.Cycle.{Begun, Known, Row, RowIn, Comes, runs_command, runs_inside, runs_guarded, runs_loop};

use ends::Kind;
use fields::{Field, Fields};
use meaning::tags::Tag;
use meaning::{End, Layout, Ran, Stop, Tally};

// The commands of a sequence or a call, from its tag and payload: its own, or what the procedure holds, which is one command.
fn row_in<'a>(image: &'a [u8], tag: u8, p: &'a [u8]) -> &'a [u8]
    ensures { RowIn image.now tag p.now result.now }
{
    if tag == Tag::CALL {
        parts::procedure_part(image, parts::number_at(p, 0))
    } else {
        p
    }
}

// Enters and runs a rule set of these numbers.
fn run_set(
    l: Layout,
    image: &[u8],
    p: &[u8],
    nodes: &mut [u8],
    edges: &mut [u8],
    journal: &mut [u8],
    t: Tally,
) -> Ran
    requires begun { Begun l nodes.old edges.old journal.old t }
    requires known { Known image.now rule_set_tag p.now }
    ensures { Comes l (Known image.now rule_set_tag p.now) (runs_command l) nodes.old edges.old journal.old t result nodes.new edges.new journal.new }
{
    if t.fuel == 0 {
        return Ran {
            end: End::Stopped(Stop::OutOfFuel),
            tally: t,
        };
    }
    calling::call(l, image, p, nodes, edges, journal, tally::entered(t))
}

// A rule set inside other commands. The compiler puts it in the place of its call, and then what it lends shares the frame of
// run_command with what is lent to the commands inside, and is not kept beside it.
fn run_nested_set(
    l: Layout,
    image: &[u8],
    p: &[u8],
    nodes: &mut [u8],
    edges: &mut [u8],
    journal: &mut [u8],
    t: Tally,
) -> Ran
    requires begun { Begun l nodes.old edges.old journal.old t }
    requires known { Known image.now rule_set_tag p.now }
    ensures { Comes l (Known image.now rule_set_tag p.now) (runs_command l) nodes.old edges.old journal.old t result nodes.new edges.new journal.new }
{
    run_set(l, image, p, nodes, edges, journal, t)
}

// Enters and runs a command, from its tag and payload. Commands lie in the image, and are lent with it.
#[cycle(run_command_run_guarded_run_loop_run_row)]
fn run_command<'a>(
    l: Layout,
    image: &'a [u8],
    tag: u8,
    p: &'a [u8],
    nodes: &mut [u8],
    edges: &mut [u8],
    journal: &mut [u8],
    t: Tally,
) -> Ran
    requires begun { Begun l nodes.old edges.old journal.old t }
    requires known { Known image.now tag p.now }
    ensures { Comes l (Known image.now tag p.now) (runs_command l) nodes.old edges.old journal.old t result nodes.new edges.new journal.new }
{
    if tag == Tag::RULE_SET {
        return run_nested_set(l, image, p, nodes, edges, journal, t);
    }
    if t.fuel == 0 {
        return Ran {
            end: End::Stopped(Stop::OutOfFuel),
            tally: t,
        };
    }
    let spent = tally::entered(t);
    match ends::kind_of(tag, p) {
        Kind::InRow => run_row(l, image, tag, p, nodes, edges, journal, spent),
        Kind::Guarded(keep) => run_guarded(
            l,
            image,
            keep,
            parts::behind(p, 1),
            nodes,
            edges,
            journal,
            spent,
        ),
        Kind::Loop => run_loop(l, image, p, nodes, edges, journal, spent),
        Kind::Leaf(end) => Ran { end, tally: spent },
    }
}

// What a sequence or a call does once it is entered: commands one after the other, until one does not succeed.
#[cycle(run_command_run_guarded_run_loop_run_row)]
fn run_row<'a>(
    l: Layout,
    image: &'a [u8],
    tag: u8,
    p: &'a [u8],
    nodes: &mut [u8],
    edges: &mut [u8],
    journal: &mut [u8],
    t: Tally,
) -> Ran
    requires begun { Begun l nodes.old edges.old journal.old t }
    requires known { Known image.now tag p.now × RowTag tag }
    ensures { Comes l (Known image.now tag p.now) (runs_inside l) nodes.old edges.old journal.old t result nodes.new edges.new journal.new }
{
    let row = row_in(image, tag, p);
    let mut now_t = t;
    for field in Fields::of(row) {
        let Ok(
            Field {
                tag: inner,
                start,
                end,
            },
        ) = field
        else {
            return Ran {
                end: End::Done,
                tally: now_t,
            };
        };
        let part = &row[start..end];
        let ran = run_command(l, image, inner, part, nodes, edges, journal, now_t);
        if !ends::goes_on(ran.end) {
            return ran;
        }
        now_t = ran.tally;
    }
    Ran {
        end: End::Done,
        tally: now_t,
    }
}

// A guarded command, from its commands: the guard, and then the second or the third.
#[cycle(run_command_run_guarded_run_loop_run_row)]
fn run_guarded<'a>(
    l: Layout,
    image: &'a [u8],
    keep: bool,
    p: &'a [u8],
    nodes: &mut [u8],
    edges: &mut [u8],
    journal: &mut [u8],
    t: Tally,
) -> Ran
    requires begun { Begun l nodes.old edges.old journal.old t }
    requires row { Row 3 image.now p.now }
    ensures { Comes l (Row 3 image.now p.now) (runs_guarded l keep) nodes.old edges.old journal.old t result nodes.new edges.new journal.new }
{
    let mark = t.records;
    let guard = parts::nth_part(p, 0);
    let ran = run_command(
        l,
        image,
        parts::nth_tag(p, 0),
        guard,
        nodes,
        edges,
        journal,
        t,
    );
    let Some(which) = ends::part_after(ran.end) else {
        return ran;
    };
    let part = parts::nth_part(p, which);
    let tag = parts::nth_tag(p, which);
    let after = ends::settle(l, keep, nodes, edges, journal, ran, mark);
    run_command(l, image, tag, part, nodes, edges, journal, after)
}

// A loop: its body again and again, until it does not succeed.
#[cycle(run_command_run_guarded_run_loop_run_row)]
fn run_loop<'a>(
    l: Layout,
    image: &'a [u8],
    p: &'a [u8],
    nodes: &mut [u8],
    edges: &mut [u8],
    journal: &mut [u8],
    t: Tally,
) -> Ran
    requires begun { Begun l nodes.old edges.old journal.old t }
    requires row { Row 1 image.now p.now }
    ensures { Comes l (Row 1 image.now p.now) (runs_loop l) nodes.old edges.old journal.old t result nodes.new edges.new journal.new }
{
    let tag = parts::nth_tag(p, 0);
    let body = parts::nth_part(p, 0);
    let mut now_t = t;
    while now_t.fuel > 0 {
        let mark = now_t.records;
        let ran = run_command(l, image, tag, body, nodes, edges, journal, now_t);
        if ends::goes_on(ran.end) {
            now_t = ran.tally;
        } else {
            return ends::close(l, nodes, edges, journal, ran, mark);
        }
    }
    Ran {
        end: End::Stopped(Stop::OutOfFuel),
        tally: now_t,
    }
}

// Runs the main command of an image. A lone rule set is called at once: with two callers the compiler keeps the call, and the
// arrays of the search, out of the frame of run_command, so that a level of nested commands takes little stack.
pub fn run_program(
    l: Layout,
    image: &[u8],
    nodes: &mut [u8],
    edges: &mut [u8],
    journal: &mut [u8],
    t: Tally,
) -> Ran
    requires running { Running l nodes.old edges.old journal.old t.records }
    requires runnable { Runnable image.now × (t.fuel + t.steps ≤ most_fuel) }
    ensures { RunsProgram l image.now nodes.old edges.old journal.old t result nodes.new edges.new journal.new }
{
    let tag = parts::main_tag(image);
    let part = parts::main_part(image);
    if tag == Tag::RULE_SET {
        return run_set(l, image, part, nodes, edges, journal, t);
    }
    run_command(l, image, tag, part, nodes, edges, journal, t)
}
