// One change of a slot in a lent table with its record in the journal: a node or an edge comes, changes or goes.
#![tactic(auto)]

ghost use Rattle.std.specs.Prelude.{◌≡◌, ◌+◌, ◌/◌, ◌<◌, ◌≤◌, length, take, drop};
ghost use Rattle.meaning.specs.Image.{most_items};
ghost use Rattle.meaning.specs.Layout.{Sized, free, live, of_node, of_edge, node_length, edge_length, record_length, read_nodes, read_edges};
ghost use Rattle.meaning.specs.Applying.{store, stores, lowest_free, free_slots};
ghost use Rattle.laws.specs.Hosts.{LegalNode, LegalEdge};
ghost use Rattle.ledger.specs.Running.{ledger_of, Held, Leads};
ghost use Rattle.ledger.specs.Changes.{Went, goes, Below};
ghost use Rattle.ledger.specs.Rooms.{stop_of, lacking};

use journal::Record;
use meaning::{Layout, Room, Stop};

// Node slot x goes, with its record.
pub fn free_node(
    l: Layout,
    nodes: &mut [u8],
    edges: &[u8],
    journal: &mut [u8],
    used: usize,
    x: usize,
)
    requires held { Held l nodes.old edges.now journal.old used }
    requires x_in_bounds { (x < length nodes.old / node_length l) × (used < length journal.old / record_length l) }
    ensures { Leads l (store (of_node x free) (ledger_of l nodes.old edges.now journal.old used)) nodes.new edges.now journal.new (used + 1) }
{
    let before = slots::slot(&nodes[..], l.node, x);
    journal::append(l, journal, used, Record::NODE, x, before);
    slots::free_slot(nodes, l.node, x);
}

// Edge slot x goes, with its record.
pub fn free_edge(
    l: Layout,
    nodes: &[u8],
    edges: &mut [u8],
    journal: &mut [u8],
    used: usize,
    x: usize,
)
    requires held { Held l nodes.now edges.old journal.old used }
    requires x_in_bounds { (x < length edges.old / edge_length l) × (used < length journal.old / record_length l) }
    ensures { Leads l (store (of_edge x free) (ledger_of l nodes.now edges.old journal.old used)) nodes.now edges.new journal.new (used + 1) }
{
    let before = slots::slot(&edges[..], l.edge, x);
    journal::append(l, journal, used, Record::EDGE, x, before);
    slots::free_slot(edges, l.edge, x);
}

// Node slot x takes these values, with its record.
pub fn store_node(
    l: Layout,
    nodes: &mut [u8],
    edges: &[u8],
    journal: &mut [u8],
    used: usize,
    x: usize,
    mark: u8,
    root: u8,
    label: &[u32],
)
    requires held { Held l nodes.old edges.now journal.old used }
    requires x_in_bounds { (x < length nodes.old / node_length l) × (used < length journal.old / record_length l) }
    requires legal_node { LegalNode l (record { mark = mark; root = root; label = label.now }) }
    ensures { Leads l (store (of_node x (live (record { mark = mark; root = root; label = label.now }))) (ledger_of l nodes.old edges.now journal.old used)) nodes.new edges.now journal.new (used + 1) }
{
    let before = slots::slot(&nodes[..], l.node, x);
    journal::append(l, journal, used, Record::NODE, x, before);
    slots::store_node(l, nodes, x, mark, root, label);
}

// Edge slot x takes these values, with its record.
pub fn store_edge(
    l: Layout,
    nodes: &[u8],
    edges: &mut [u8],
    journal: &mut [u8],
    used: usize,
    x: usize,
    mark: u8,
    source: usize,
    target: usize,
    label: &[u32],
)
    requires held { Held l nodes.now edges.old journal.old used }
    requires x_in_bounds { (x < length edges.old / edge_length l) × (used < length journal.old / record_length l) }
    requires legal_edge { LegalEdge l (record { mark = mark; source = source; target = target; label = label.now }) }
    ensures { Leads l (store (of_edge x (live (record { mark = mark; source = source; target = target; label = label.now }))) (ledger_of l nodes.now edges.old journal.old used)) nodes.now edges.new journal.new (used + 1) }
{
    let before = slots::slot(&edges[..], l.edge, x);
    journal::append(l, journal, used, Record::EDGE, x, before);
    slots::store_edge(l, edges, x, mark, source, target, label);
}

// The edges at the m slots from number n on go, in order.
pub fn free_edges(
    l: Layout,
    nodes: &[u8],
    edges: &mut [u8],
    journal: &mut [u8],
    used: usize,
    slots: &[usize; Room::ITEMS],
    n: usize,
    m: usize,
)
    requires held { Held l nodes.now edges.old journal.old used }
    requires m_in_bounds { (used + m ≤ length journal.old / record_length l) × (n + m ≤ length slots.now) × (length slots.now ≡ most_items) }
    requires below { Below (length edges.old / edge_length l) slots.now n m }
    ensures { Went l (stores (goes (take m (drop n slots.now))) (ledger_of l nodes.now edges.old journal.old used)) nodes.now edges.old journal.old nodes.now edges.new journal.new (used + m) }
{
    for (k, x) in slots[n..n + m].iter().enumerate() {
        free_edge(l, nodes, edges, journal, used + k, *x);
    }
}

// A node comes in the lowest free slot, with its record.
pub fn add_node(
    l: Layout,
    nodes: &mut [u8],
    edges: &[u8],
    journal: &mut [u8],
    used: usize,
    mark: u8,
    root: u8,
    label: &[u32],
) -> usize
    requires held { Held l nodes.old edges.now journal.old used }
    requires nonzero { (0 < free_slots (read_nodes l nodes.old)) × (used < length journal.old / record_length l) }
    requires legal_node { LegalNode l (record { mark = mark; root = root; label = label.now }) }
    ensures { (result ≡ lowest_free (read_nodes l nodes.old)) × Leads l (store (of_node result (live (record { mark = mark; root = root; label = label.now }))) (ledger_of l nodes.old edges.now journal.old used)) nodes.new edges.now journal.new (used + 1) }
{
    let x = slots::lowest_free(&nodes[..], l.node);
    store_node(l, nodes, edges, journal, used, x, mark, root, label);
    x
}

// An edge comes in the lowest free slot, with its record.
pub fn add_edge(
    l: Layout,
    nodes: &[u8],
    edges: &mut [u8],
    journal: &mut [u8],
    used: usize,
    mark: u8,
    source: usize,
    target: usize,
    label: &[u32],
) -> usize
    requires held { Held l nodes.now edges.old journal.old used }
    requires nonzero { (0 < free_slots (read_edges l edges.old)) × (used < length journal.old / record_length l) }
    requires legal_edge { LegalEdge l (record { mark = mark; source = source; target = target; label = label.now }) }
    ensures { (result ≡ lowest_free (read_edges l edges.old)) × Leads l (store (of_edge result (live (record { mark = mark; source = source; target = target; label = label.now }))) (ledger_of l nodes.now edges.old journal.old used)) nodes.now edges.new journal.new (used + 1) }
{
    let x = slots::lowest_free(&edges[..], l.edge);
    store_edge(
        l, nodes, edges, journal, used, x, mark, source, target, label,
    );
    x
}

// What is lacking before any change, by the checks in order: room for the nodes that come, for the edges that come, for the
// records.
pub fn room(
    l: Layout,
    nodes: &[u8],
    edges: &[u8],
    journal: &[u8],
    nodes_come: usize,
    nodes_go: usize,
    edges_come: usize,
    edges_go: usize,
    records: usize,
) -> Result<(), Stop>
    requires sized { Sized l }
    requires nodes_go_bound { (nodes_go ≤ 256) × (edges_go ≤ 256) }
    ensures { stop_of result ≡ lacking nodes_come (free_slots (read_nodes l nodes.now)) nodes_go edges_come (free_slots (read_edges l edges.now)) edges_go records (length journal.now / record_length l) }
{
    if nodes_go < nodes_come && slots::free_slots(nodes, l.node) + nodes_go < nodes_come {
        return Err(Stop::NoNodeRoom);
    }
    if edges_go < edges_come && slots::free_slots(edges, l.edge) + edges_go < edges_come {
        return Err(Stop::NoEdgeRoom);
    }
    if journal.len() / l.change < records {
        return Err(Stop::NoRecordRoom);
    }
    Ok(())
}
