// Carrying a host from two lent tables to two of another layout, slot numbers kept. All that can be refused is asked before the first
// byte is written; then slots are carried one by one.
#![tactic(auto)]

ghost use Rattle.std.specs.Prelude.{◌≡◌, true, ◌*◌, ◌/◌, ◌<◌, ◌≤◌, length};
ghost use Rattle.meaning.specs.Layout.{Sized, most_atoms};
ghost use Rattle.meaning.specs.Calls.{answer_number};
ghost use Rattle.meaning.specs.declared.Table.{Table};
ghost use Rattle.meaning.specs.Carrying.{Carries, lending_tables, counts_agree, lengths_agree, unfit, carry_refusal, carry};
ghost use Rattle.laws.specs.Pieces.{stored};
ghost use Rattle.labels.specs.Labels.{Holds};
ghost use Rattle.slots.specs.Laid.{laid};
ghost use Rattle.host.specs.Tables.{slot_length};
ghost use Rattle.graph.specs.Hosts.{slots_of};
ghost use Rattle.answers.specs.Answers.{refusal_of};
ghost use Rattle.carrying.specs.Tables.{label_in, live_in, labels_fit_in, free_from_in, fits_in, slot_carried, table_carried};

use graph::Graph;
use labels::Label;
use meaning::{Answer, Layout, Manner, Refusal, Table};

// What is refused.

// Whether a host may be carried from so many slots to so many.
#[tactic(auto, unfolding(meaning::specs::Carrying::counts_agree))]
fn counts_agree(manner: Manner, n: usize, m: usize) -> bool
    ensures { result ≡ counts_agree manner n m }
{
    match manner {
        Manner::Exact => n == m,
        Manner::Packing => true,
    }
}

// Whether a table and the one that it is carried to have lengths of their layouts, and slot counts that agree.
#[tactic(auto, unfolding(meaning::specs::Carrying::lengths_agree, meaning::specs::Basics::clauses, meaning::specs::Basics::both))]
fn lengths_agree(
    manner: Manner,
    table: &[u8],
    w: usize,
    most: usize,
    to: &[u8],
    v: usize,
    to_most: usize,
) -> bool
    requires { (0 < w) × (0 < v) }
    ensures { result ≡ lengths_agree manner w most table.now v to_most to.now }
{
    slots::fits_table(table, w, most)
        && slots::fits_table(to, v, to_most)
        && counts_agree(manner, table.len() / w, to.len() / v)
}

// How many atoms the label of a slot has.
fn atoms_in(host: &Graph, which: Table, x: usize) -> usize
    requires { x < slots_of host.now which }
    ensures { result ≡ length (label_in host.now.layout host.now.nodes.now host.now.edges.now which x) }
{
    match which {
        Table::Nodes => slots::laid::count(host.node_label(x)),
        Table::Edges => slots::laid::count(host.edge_label(x)),
    }
}

// Whether each label of a table has at most so many atoms.
fn labels_fit(host: &Graph, which: Table, most: usize) -> bool
    ensures { result ≡ labels_fit_in host.now.layout host.now.nodes.now host.now.edges.now which most }
{
    let n = host.slots_in(which);
    (0..n).all(|x| atoms_in(host, which, x) <= most)
}

// Whether slot x of a table of n slots is there and live.
fn is_live(host: &Graph, which: Table, n: usize, x: usize) -> bool
    requires { n ≡ slots_of host.now which }
    ensures { result ≡ live_in host.now.layout host.now.nodes.now host.now.edges.now which x }
{
    if x >= n {
        return false;
    }
    match which {
        Table::Nodes => host.node_live(x),
        Table::Edges => host.edge_live(x),
    }
}

// Whether each slot of a table from number n on is free.
fn free_from(host: &Graph, which: Table, n: usize) -> bool
    ensures { result ≡ free_from_in host.now.layout host.now.nodes.now host.now.edges.now which n }
{
    let end = host.slots_in(which);
    (n..end).all(|x| !is_live(host, which, end, x))
}

// Whether a table fits in n slots whose labels have at most so many atoms.
#[tactic(auto, unfolding(meaning::specs::Basics::both))]
fn fits(host: &Graph, which: Table, most: usize, n: usize) -> bool
    ensures { result ≡ fits_in host.now.layout host.now.nodes.now host.now.edges.now which most n }
{
    labels_fit(host, which, most) && free_from(host, which, n)
}

// What is answered where the host does not fit.
#[tactic(auto, unfolding(meaning::specs::Carrying::unfit))]
fn unfit(manner: Manner) -> Refusal
    ensures { result ≡ unfit manner }
{
    match manner {
        Manner::Exact => Refusal::LabelDoesNotFit,
        Manner::Packing => Refusal::HostDoesNotFit,
    }
}

// The lowest applicable number of 10, 11, 15, and 26 or 29.
#[tactic(auto, unfolding(answers::specs::Answers::refusal_of, meaning::specs::Basics::first_failing, meaning::specs::Basics::choose, meaning::specs::Basics::both, meaning::specs::Carrying::carry_refusal, meaning::specs::Carrying::host_fits, meaning::specs::Carrying::slots_fit))]
fn check(
    manner: Manner,
    from: Layout,
    to: Layout,
    nodes: &[u8],
    edges: &[u8],
    to_nodes: &[u8],
    to_edges: &[u8],
) -> Result<(), Refusal>
    requires sized { Sized from }
    requires sized_2 { Sized to }
    requires atoms_le_most_atoms { from.atoms ≤ most_atoms }
    ensures { refusal_of result ≡ carry_refusal manner from to (lending_tables nodes.now edges.now to_nodes.now to_edges.now) }
{
    if !lengths_agree(
        manner, nodes, from.node, from.nodes, to_nodes, to.node, to.nodes,
    ) {
        return Err(Refusal::NodeTableLength);
    }
    if !lengths_agree(
        manner, edges, from.edge, from.edges, to_edges, to.edge, to.edges,
    ) {
        return Err(Refusal::EdgeTableLength);
    }
    if !host::keeps_layout(from, nodes, edges) {
        return Err(Refusal::BadHost);
    }
    let host = Graph {
        layout: from,
        nodes,
        edges,
    };
    if !fits(&host, Table::Nodes, to.atoms, to_nodes.len() / to.node) {
        return Err(unfit(manner));
    }
    if !fits(&host, Table::Edges, to.atoms, to_edges.len() / to.edge) {
        return Err(unfit(manner));
    }
    Ok(())
}

// What is written.

// A label that lies in bytes, in hand.
fn in_hand(a: &[u8]) -> Label
    requires { length (laid a.now) ≤ most_atoms }
    ensures { Holds (laid a.now) result }
{
    let len = slots::laid::count(a);
    let mut atoms = [0u32; labels::MOST];
    for j in 0..len {
        atoms[j] = slots::laid::atom(a, j);
    }
    Label { len, atoms }
}

// Carries a node's slot of a table of n, or frees it where there is no live one.
fn carry_node(host: &Graph, to: Layout, n: usize, x: usize, out: &mut [u8])
    requires sized { Sized to }
    requires n_value { n ≡ slots_of host.now Table.Nodes }
    requires x_in_bounds { x < length out.old / slot_length to Table.Nodes }
    requires x_len_bound { length (label_in host.now.layout host.now.nodes.now host.now.edges.now Table.Nodes x) ≤ to.atoms }
    ensures { out.new ≡ stored (slot_length to Table.Nodes) x (slot_carried host.now.layout to host.now.nodes.now host.now.edges.now Table.Nodes x) out.old }
{
    if is_live(host, Table::Nodes, n, x) {
        let mark = host.node_mark(x);
        let root = host.node_root(x);
        let Label { len, atoms } = in_hand(host.node_label(x));
        slots::store_node(to, out, x, mark, root, &atoms[..len]);
    } else {
        slots::free_slot(out, to.node, x);
    }
}

// Carries an edge's slot likewise.
fn carry_edge(host: &Graph, to: Layout, n: usize, x: usize, out: &mut [u8])
    requires sized { Sized to }
    requires n_value { n ≡ slots_of host.now Table.Edges }
    requires x_in_bounds { x < length out.old / slot_length to Table.Edges }
    requires x_len_bound { length (label_in host.now.layout host.now.nodes.now host.now.edges.now Table.Edges x) ≤ to.atoms }
    ensures { out.new ≡ stored (slot_length to Table.Edges) x (slot_carried host.now.layout to host.now.nodes.now host.now.edges.now Table.Edges x) out.old }
{
    if is_live(host, Table::Edges, n, x) {
        let mark = host.edge_mark(x);
        let source = host.edge_source(x);
        let target = host.edge_target(x);
        let Label { len, atoms } = in_hand(host.edge_label(x));
        slots::store_edge(to, out, x, mark, source, target, &atoms[..len]);
    } else {
        slots::free_slot(out, to.edge, x);
    }
}

// Carries slot x of a table of n slots.
fn carry_slot(host: &Graph, to: Layout, which: Table, n: usize, x: usize, out: &mut [u8])
    requires sized { Sized to }
    requires n_value { n ≡ slots_of host.now which }
    requires x_in_bounds { x < length out.old / slot_length to which }
    requires x_len_bound { length (label_in host.now.layout host.now.nodes.now host.now.edges.now which x) ≤ to.atoms }
    ensures { out.new ≡ stored (slot_length to which) x (slot_carried host.now.layout to host.now.nodes.now host.now.edges.now which x) out.old }
{
    match which {
        Table::Nodes => carry_node(host, to, n, x, out),
        Table::Edges => carry_edge(host, to, n, x, out),
    }
}

// Carries a table of which all labels fit to one of n slots, slot by slot.
fn carry_slots(host: &Graph, to: Layout, which: Table, n: usize, out: &mut [u8])
    requires sized { Sized to }
    requires out_len { length out.old ≡ n * slot_length to which }
    requires atoms_value { labels_fit_in host.now.layout host.now.nodes.now host.now.edges.now which to.atoms ≡ true }
    ensures { out.new ≡ table_carried host.now.layout to host.now.nodes.now host.now.edges.now which n }
{
    // divided out once: what is asked of `host` between writes is asked anew
    let there = host.slots_in(which);
    for x in 0..n {
        carry_slot(host, to, which, there, x, out);
    }
}

// Carries the host, or refuses to and leaves both tables as they were.
pub fn carry_tables(
    manner: Manner,
    from: Layout,
    to: Layout,
    nodes: &[u8],
    edges: &[u8],
    to_nodes: &mut [u8],
    to_edges: &mut [u8],
) -> Answer
    requires sized { Sized from }
    requires sized_2 { Sized to }
    requires atoms_le_most_atoms { from.atoms ≤ most_atoms }
    ensures { Carries (carry manner from to (lending_tables nodes.now edges.now to_nodes.old to_edges.old)) (answer_number result) to_nodes.new to_edges.new }
{
    if let Err(why) = check(manner, from, to, nodes, edges, to_nodes, to_edges) {
        return Answer::Refused(why);
    }
    let n = to_nodes.len() / to.node;
    let m = to_edges.len() / to.edge;
    let host = Graph {
        layout: from,
        nodes,
        edges,
    };
    carry_slots(&host, to, Table::Nodes, n, to_nodes);
    carry_slots(&host, to, Table::Edges, m, to_edges);
    Answer::Result
}
