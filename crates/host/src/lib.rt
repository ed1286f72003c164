// The layout test (answer 15): whether host tables in lent bytes keep the layout, in one pass over each.
#![tactic(auto)]

ghost use Rattle.std.specs.Prelude.{◌≡◌, length};
ghost use Rattle.meaning.specs.Basics.{every};
ghost use Rattle.meaning.specs.Layout.{Sized, keeps_node, keeps_edge, keeps_layout, is_edge_mark, live_at, read_nodes, node_length, edge_length, cut};
ghost use Rattle.host.specs.Tables.{slot_length, keeps_slot, Filled};

use meaning::tags::Mark;
use meaning::{Layout, Table};
use slots::held;
use slots::held::{Place, SlotState};

// The rest of the test of a live node's slot whose label has room.
fn keeps_node(l: Layout, b: &[u8]) -> bool
    requires sized { Sized l }
    requires b_len { (length b.now ≡ node_length l) × Filled l b.now }
    ensures { result ≡ keeps_node l b.now }
{
    held::mark(b) <= Mark::GREY && held::root(b) <= 1 && held::zeros_behind(b, Place::NODE_ATOMS)
}

// Whether an edge's mark is one for edges.
fn is_edge_mark(mark: u8) -> bool
    ensures { result ≡ is_edge_mark mark }
{
    mark <= Mark::BLUE || mark == Mark::DASHED
}

// Whether node slot i, an edge's end, is there and live.
fn is_end(l: Layout, nodes: &[u8], i: usize) -> bool
    requires { Sized l }
    ensures { result ≡ live_at (read_nodes l nodes.now) i }
{
    slots::live_slot(nodes, l.node, i)
}

// The rest of the test of a live edge's slot whose label has room.
fn keeps_edge(l: Layout, nodes: &[u8], b: &[u8]) -> bool
    requires sized { Sized l }
    requires b_len { (length b.now ≡ edge_length l) × Filled l b.now }
    ensures { result ≡ keeps_edge l (read_nodes l nodes.now) b.now }
{
    is_edge_mark(held::mark(b))
        && held::root(b) == 0
        && is_end(l, nodes, held::source(l, b))
        && is_end(l, nodes, held::target(l, b))
        && held::zeros_behind(b, held::edge_atoms(l))
}

// Whether a slot of a table keeps the layout: what nodes and edges have in common, then the rest.
fn keeps_slot(l: Layout, nodes: &[u8], which: Table, b: &[u8]) -> bool
    requires sized { Sized l }
    requires b_len { length b.now ≡ slot_length l which }
    ensures { result ≡ keeps_slot l (read_nodes l nodes.now) which b.now }
{
    match held::state(b) {
        SlotState::FREE => slots::bytes::zeros_from(b, 0),
        SlotState::LIVE if held::atom_count(b) <= l.atoms => match which {
            Table::Nodes => keeps_node(l, b),
            Table::Edges => keeps_edge(l, nodes, b),
        },
        _ => false,
    }
}

// The bytes of a slot of a table.
pub fn slot_length(l: Layout, which: Table) -> usize
    requires { Sized l }
    ensures { result ≡ slot_length l which }
{
    match which {
        Table::Nodes => l.node,
        Table::Edges => l.edge,
    }
}

// Whether each slot of a table keeps the layout.
fn keeps_slots(l: Layout, nodes: &[u8], which: Table, table: &[u8]) -> bool
    requires { Sized l }
    ensures { result ≡ every (keeps_slot l (read_nodes l nodes.now) which) (cut (slot_length l which) table.now) }
{
    let w = slot_length(l, which);
    let n = table.len() / w;
    (0..n).all(|i| keeps_slot(l, nodes, which, slots::slot(table, w, i)))
}

// Whether a host keeps the layout, in one pass over each table.
pub fn keeps_layout(l: Layout, nodes: &[u8], edges: &[u8]) -> bool
    requires { Sized l }
    ensures { result ≡ keeps_layout l nodes.now edges.now }
{
    keeps_slots(l, nodes, Table::Nodes, nodes) && keeps_slots(l, nodes, Table::Edges, edges)
}
