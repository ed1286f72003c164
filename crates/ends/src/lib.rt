// What follows a command, by what it is and by how it ended: its kind, whether a row goes on, the part after a guard, and undoing
// after a guard and after the last round of a loop.
#![tactic(auto)]

ghost use Rattle.std.specs.Prelude.{◌≡◌, ◌≤◌};
ghost use Rattle.ledger.specs.Running.{Running};
ghost use Rattle.ends.specs.Ends.{kind_of, is_done, part_after, Restored, Settled, Closed};

use meaning::tags::Tag;
use meaning::{End, Layout, Ran, Tally};

// How a command other than a rule set is run.
#[derive(Clone, Copy)]
pub enum Kind {
    // A sequence or a call: what a procedure holds is a row of one command.
    InRow,
    // The flag says whether the changes of a guard that succeeds are kept.
    Guarded(bool),
    Loop,
    // Skip, fail and break: how they end.
    Leaf(End),
}

// The kind of such a command, from its tag and payload; a tag that is no command's, or a rule set's, counts as a break's.
#[tactic(auto, unfolding(crate::specs::Ends::kind_of, meaning::specs::Basics::choose))]
pub fn kind_of(tag: u8, p: &[u8]) -> Kind
    ensures { result ≡ kind_of tag p.now }
{
    match tag {
        Tag::SEQUENCE | Tag::CALL => Kind::InRow,
        Tag::GUARDED => Kind::Guarded(parts::flag(p)),
        Tag::LOOP => Kind::Loop,
        Tag::SKIP => Kind::Leaf(End::Done),
        Tag::FAIL => Kind::Leaf(End::Failed),
        _ => Kind::Leaf(End::Broke),
    }
}

// Whether a row goes on with its next command, and a loop with its next round.
#[tactic(auto, unfolding(crate::specs::Ends::is_done))]
pub fn goes_on(end: End) -> bool
    ensures { result ≡ is_done end }
{
    matches!(end, End::Done)
}

// The part of a guarded command that follows its guard, by the guard's end: the second, the third, or none.
#[tactic(auto, unfolding(crate::specs::Ends::part_after))]
pub fn part_after(end: End) -> Option<usize>
    ensures { result ≡ part_after end }
{
    match end {
        End::Done => Some(1),
        End::Failed => Some(2),
        End::Broke | End::Stopped(_) => None,
    }
}

// Undoes what was recorded beyond `mark` records.
fn back(
    l: Layout,
    nodes: &mut [u8],
    edges: &mut [u8],
    journal: &mut [u8],
    t: Tally,
    mark: usize,
) -> Tally
    requires running { Running l nodes.old edges.old journal.old t.records }
    requires mark_le_records { mark ≤ t.records }
    ensures { Restored l nodes.old edges.old journal.old t mark result nodes.new edges.new journal.new }
{
    undoing::back_to(l, nodes, edges, journal, t.records, mark);
    tally::counted(t, mark)
}

// After a guard that succeeded or failed: its changes are undone, unless it succeeded and they are kept.
pub fn settle(
    l: Layout,
    keep: bool,
    nodes: &mut [u8],
    edges: &mut [u8],
    journal: &mut [u8],
    ran: Ran,
    mark: usize,
) -> Tally
    requires running { Running l nodes.old edges.old journal.old ran.tally.records }
    requires mark_le_records { mark ≤ ran.tally.records }
    ensures { Settled l keep nodes.old edges.old journal.old ran mark result nodes.new edges.new journal.new }
{
    let kept = match ran.end {
        End::Done => keep,
        End::Failed => false,
        End::Broke | End::Stopped(_) => true,
    };
    if kept {
        ran.tally
    } else {
        back(l, nodes, edges, journal, ran.tally, mark)
    }
}

// After the last round of a loop: a body that failed is undone, and it and a break end the loop.
pub fn close(
    l: Layout,
    nodes: &mut [u8],
    edges: &mut [u8],
    journal: &mut [u8],
    ran: Ran,
    mark: usize,
) -> Ran
    requires running { Running l nodes.old edges.old journal.old ran.tally.records }
    requires mark_le_records { mark ≤ ran.tally.records }
    ensures { Closed l nodes.old edges.old journal.old ran mark result nodes.new edges.new journal.new }
{
    match ran.end {
        End::Failed => Ran {
            end: End::Done,
            tally: back(l, nodes, edges, journal, ran.tally, mark),
        },
        End::Broke => Ran {
            end: End::Done,
            ..ran
        },
        End::Done | End::Stopped(_) => ran,
    }
}
