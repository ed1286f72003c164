// The changes of an application, item by item: left nodes take the values of their right nodes or go, new nodes and right edges
// come, each with one record.
#![tactic(auto)]

ghost use Rattle.std.specs.Prelude.{◌≡◌, ◌+◌, ◌/◌, ◌<◌, length, take, drop};
ghost use Rattle.meaning.specs.Layout.{live, of_node, of_edge, node_length, record_length, read_nodes, read_edges};
ghost use Rattle.meaning.specs.Applying.{store, stores, nodes_change, lowest_free, free_slots, between, add_edges};
ghost use Rattle.ledger.specs.Running.{ledger_of, Held, Leads};
ghost use Rattle.ledger.specs.Changes.{Went, becomes};
ghost use Rattle.making.specs.Making.{KeepsRoot, Takes, Comes, Joins, Changes, Alters, Grows, Grew, Edges};

use meaning::tags::{Mark, Tag};
use meaning::{Layout, Room};
use values::Values;

// Whether interface node i, whose right node is p, keeps the host's root flag: it is no root on either side of a preserving rule.
fn keeps_root(preserving: bool, left: &[u8], i: usize, p: &[u8]) -> bool
    ensures { KeepsRoot preserving left.now i p.now result }
{
    preserving && parts::byte_at(p, 1) == 0 && parts::byte_at(parts::node_part(left, i), 1) == 0
}

// The node in slot x takes the values of a right node; any keeps the mark, and it may keep the root flag.
fn take_values(
    l: Layout,
    nodes: &mut [u8],
    edges: &[u8],
    journal: &mut [u8],
    used: usize,
    p: &[u8],
    keeps: bool,
    values: &Values,
    x: usize,
)
    requires held { Held l nodes.old edges.now journal.old used }
    requires x_in_bounds { (x < length nodes.old / node_length l) × (used < length journal.old / record_length l) }
    requires takes { Takes l nodes.old p.now keeps values.now.lens values.now.atoms x }
    ensures { (w : Takes l nodes.old p.now keeps values.now.lens values.now.atoms x) → Leads l (store (of_node x (live w.made.node)) (ledger_of l nodes.old edges.now journal.old used)) nodes.new edges.now journal.new (used + 1) }
{
    let label = values::item_value(l.atoms, values, Tag::NODE, p).unwrap();
    let words = &label.atoms[..label.len];
    let before = slots::slot(&nodes[..], l.node, x);
    let mark = if p[0] == Mark::ANY {
        slots::held::mark(before)
    } else {
        p[0]
    };
    let root = if keeps {
        slots::held::root(before)
    } else {
        p[1]
    };
    ledger::store_node(l, nodes, edges, journal, used, x, mark, root, words);
}

// A right node comes, in the lowest free slot.
fn come_node(
    l: Layout,
    nodes: &mut [u8],
    edges: &[u8],
    journal: &mut [u8],
    used: usize,
    p: &[u8],
    values: &Values,
) -> usize
    requires held { Held l nodes.old edges.now journal.old used }
    requires nonzero { (0 < free_slots (read_nodes l nodes.old)) × (used < length journal.old / record_length l) }
    requires comes { Comes l p.now values.now.lens values.now.atoms }
    ensures value { result ≡ lowest_free (read_nodes l nodes.old) }
    ensures leads { (w : Comes l p.now values.now.lens values.now.atoms) → Leads l (store (of_node result (live w.made.node)) (ledger_of l nodes.old edges.now journal.old used)) nodes.new edges.now journal.new (used + 1) }
{
    let label = values::item_value(l.atoms, values, Tag::NODE, p).unwrap();
    let words = &label.atoms[..label.len];
    ledger::add_node(l, nodes, edges, journal, used, p[0], p[1], words)
}

// A right edge comes, in the lowest free slot, between the places of its ends.
fn come_edge(
    l: Layout,
    nodes: &[u8],
    edges: &mut [u8],
    journal: &mut [u8],
    used: usize,
    p: &[u8],
    values: &Values,
    places: &[usize; Room::ITEMS],
) -> usize
    requires held { Held l nodes.now edges.old journal.old used }
    requires nonzero { (0 < free_slots (read_edges l edges.old)) × (used < length journal.old / record_length l) }
    requires joins { Joins l p.now values.now.lens values.now.atoms places.now }
    ensures value { result ≡ lowest_free (read_edges l edges.old) }
    ensures leads { (w : Joins l p.now values.now.lens values.now.atoms places.now) → Leads l (store (of_edge result (live (between places.now w.edge))) (ledger_of l nodes.now edges.old journal.old used)) nodes.now edges.new journal.new (used + 1) }
{
    let label = values::item_value(l.atoms, values, Tag::EDGE, p).unwrap();
    let words = &label.atoms[..label.len];
    let source = places[usize::from(p[1])];
    let target = places[usize::from(p[2])];
    ledger::add_edge(l, nodes, edges, journal, used, p[0], source, target, words)
}

// Left node i, in slot x, changes: an interface node takes its right node's values, another goes.
fn change_node(
    l: Layout,
    nodes: &mut [u8],
    edges: &[u8],
    journal: &mut [u8],
    used: usize,
    preserving: bool,
    left: &[u8],
    right: &[u8],
    k: usize,
    values: &Values,
    i: usize,
    x: usize,
)
    requires held { Held l nodes.old edges.now journal.old used }
    requires x_in_bounds { (x < length nodes.old / node_length l) × (used < length journal.old / record_length l) }
    requires changes { Changes l nodes.old preserving left.now right.now values.now.lens values.now.atoms k i x }
    ensures { (w : Changes l nodes.old preserving left.now right.now values.now.lens values.now.atoms k i x) → Leads l (store (of_node x (becomes (take k w.made.right.nodes) i)) (ledger_of l nodes.old edges.now journal.old used)) nodes.new edges.now journal.new (used + 1) }
{
    if i < k {
        let p = parts::node_part(right, i);
        let keeps = keeps_root(preserving, left, i, p);
        take_values(l, nodes, edges, journal, used, p, keeps, values, x);
    } else {
        ledger::free_node(l, nodes, edges, journal, used, x);
    }
}

// The n left nodes change, in order.
pub fn change_nodes(
    l: Layout,
    nodes: &mut [u8],
    edges: &[u8],
    journal: &mut [u8],
    used: usize,
    preserving: bool,
    left: &[u8],
    right: &[u8],
    k: usize,
    values: &Values,
    slots: &[usize; Room::ITEMS],
    n: usize,
)
    requires held { Held l nodes.old edges.now journal.old used }
    requires alters { Alters l nodes.old journal.old preserving left.now right.now values.now.lens values.now.atoms slots.now used k n }
    ensures { (w : Alters l nodes.old journal.old preserving left.now right.now values.now.lens values.now.atoms slots.now used k n) → Went l (stores (nodes_change (take k w.made.right.nodes) (take n slots.now)) (ledger_of l nodes.old edges.now journal.old used)) nodes.old edges.now journal.old nodes.new edges.now journal.new (used + n) }
{
    for (i, x) in slots[..n].iter().enumerate() {
        change_node(
            l,
            nodes,
            edges,
            journal,
            used + i,
            preserving,
            left,
            right,
            k,
            values,
            i,
            *x,
        );
    }
}

// The right nodes outside the interface come, in order. The answer: the slots of all right nodes.
pub fn new_nodes(
    l: Layout,
    nodes: &mut [u8],
    edges: &[u8],
    journal: &mut [u8],
    used: usize,
    right: &[u8],
    k: usize,
    values: &Values,
    slots: &[usize; Room::ITEMS],
    new: usize,
) -> [usize; Room::ITEMS]
    requires held { Held l nodes.old edges.now journal.old used }
    requires grows { Grows l nodes.old journal.old right.now values.now.lens values.now.atoms slots.now used k new }
    ensures { (w : Grows l nodes.old journal.old right.now values.now.lens values.now.atoms slots.now used k new) → Grew l (drop k w.made.right.nodes) nodes.old edges.now journal.old slots.now used k new result nodes.new journal.new }
{
    let mut places = *slots;
    for i in 0..new {
        let p = parts::node_part(right, k + i);
        places[k + i] = come_node(l, nodes, edges, journal, used + i, p, values);
    }
    places
}

// The right edges come, in order.
pub fn new_edges(
    l: Layout,
    nodes: &[u8],
    edges: &mut [u8],
    journal: &mut [u8],
    used: usize,
    right: &[u8],
    values: &Values,
    places: &[usize; Room::ITEMS],
    count: usize,
)
    requires held { Held l nodes.now edges.old journal.old used }
    requires edges { Edges l edges.old journal.old right.now values.now.lens values.now.atoms places.now used count }
    ensures { (w : Edges l edges.old journal.old right.now values.now.lens values.now.atoms places.now used count) → Went l (add_edges (take (length w.made.tree.right.nodes) places.now) w.made.right.edges (ledger_of l nodes.now edges.old journal.old used)) nodes.now edges.old journal.old nodes.now edges.new journal.new (used + count) }
{
    for i in 0..count {
        let p = parts::edge_part(right, i);
        come_edge(l, nodes, edges, journal, used + i, p, values, places);
    }
}
