// Undoing to an earlier count of records while a program runs.
#![tactic(auto)]

ghost use Rattle.std.specs.Prelude.{◌≤◌};
ghost use Rattle.ledger.specs.Running.{Running};
ghost use Rattle.undoing.specs.Undone.{Undone};

use meaning::Layout;

// The records from `used` down to `mark` are put back, the last first, and cleared.
pub fn back_to(
    l: Layout,
    nodes: &mut [u8],
    edges: &mut [u8],
    journal: &mut [u8],
    used: usize,
    mark: usize,
)
    requires running { Running l nodes.old edges.old journal.old used }
    requires mark_le_used { mark ≤ used }
    ensures { Undone l nodes.old edges.old journal.old used mark nodes.new edges.new journal.new }
{
    journal::undo_to(l, nodes, edges, journal, used, mark);
}
