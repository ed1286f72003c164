// The host graph in lent tables, by slot number: marks, roots, labels, ends, and the counts of edges that tests ask for.
#![tactic(auto)]

ghost use Rattle.std.specs.Prelude.{◌≡◌, ◌<◌, ◌≤◌, length, get_or};
ghost use Rattle.meaning.specs.Basics.{exists, count};
ghost use Rattle.meaning.specs.Layout.{Sized, free, node_length, edge_length, most_atoms, live_at, read_nodes, read_edges, host_of};
ghost use Rattle.meaning.specs.Matching.{node_at, edge_at, edge_runs, edge_leaves, edge_arrives, in_degree, out_degree, edge_touches};
ghost use Rattle.slots.specs.Laid.{laid};
ghost use Rattle.graph.specs.Graph.{Legal, slots_in, NodeBytes, EdgeBytes};

use meaning::{Layout, Table};
use slots::held;
use slots::held::Place;

// Tables of any bytes.

// How many slots a node table of a layout has.
pub fn node_slots(l: Layout, nodes: &[u8]) -> usize
    requires { Sized l }
    ensures { result ≡ length (read_nodes l nodes.now) }
{
    nodes.len() / l.node
}

// How many slots an edge table of a layout has.
pub fn edge_slots(l: Layout, edges: &[u8]) -> usize
    requires { Sized l }
    ensures { result ≡ length (read_edges l edges.now) }
{
    edges.len() / l.edge
}

// A host in lent tables that keep their layout.
#[derive(Clone, Copy)]
pub struct Graph<'n, 'e> {
    pub layout: Layout,
    pub nodes: &'n [u8],
    pub edges: &'e [u8],
    pub ghost legal: { Legal layout nodes.now edges.now },
}

impl<'n, 'e> Graph<'n, 'e> {
    ghost use Rattle.graph.specs.Hosts.{host_in};

    // Nodes.

    // How many node slots there are.
    pub fn node_slots(&self) -> usize
        ensures { result ≡ length (host_in self.now).nodes }
    {
        node_slots(self.layout, self.nodes)
    }

    // The bytes of a node slot.
    fn node_bytes(&self, x: usize) -> &'n [u8]
        requires { x < length (host_in self.now).nodes }
        ensures said { NodeBytes self.now.layout result.now (get_or (host_in self.now).nodes x free) }
        ensures len { length result.now ≡ node_length self.now.layout }
    {
        slots::slot(self.nodes, self.layout.node, x)
    }

    pub fn node_live(&self, x: usize) -> bool
        requires { x < length (host_in self.now).nodes }
        ensures { result ≡ live_at (host_in self.now).nodes x }
    {
        held::is_live(self.node_bytes(x))
    }

    pub fn node_mark(&self, x: usize) -> u8
        requires { x < length (host_in self.now).nodes }
        ensures { result ≡ (node_at (host_in self.now) x).mark }
    {
        held::mark(self.node_bytes(x))
    }

    pub fn node_root(&self, x: usize) -> u8
        requires { x < length (host_in self.now).nodes }
        ensures { result ≡ (node_at (host_in self.now) x).root }
    {
        held::root(self.node_bytes(x))
    }

    // Its label, where it lies.
    pub fn node_label(&self, x: usize) -> &'n [u8]
        requires { x < length (host_in self.now).nodes }
        ensures { (laid result.now ≡ (node_at (host_in self.now) x).label) × (length (laid result.now) ≤ most_atoms) }
    {
        held::label(self.node_bytes(x), Place::NODE_ATOMS)
    }

    // Edges.

    // How many edge slots there are.
    pub fn edge_slots(&self) -> usize
        ensures { result ≡ length (host_in self.now).edges }
    {
        edge_slots(self.layout, self.edges)
    }

    // The bytes of an edge slot.
    fn edge_bytes(&self, x: usize) -> &'e [u8]
        requires { x < length (host_in self.now).edges }
        ensures said { EdgeBytes self.now.layout result.now (get_or (host_in self.now).edges x free) }
        ensures len { length result.now ≡ edge_length self.now.layout }
    {
        slots::slot(self.edges, self.layout.edge, x)
    }

    pub fn edge_live(&self, x: usize) -> bool
        requires { x < length (host_in self.now).edges }
        ensures { result ≡ live_at (host_in self.now).edges x }
    {
        held::is_live(self.edge_bytes(x))
    }

    pub fn edge_mark(&self, x: usize) -> u8
        requires { x < length (host_in self.now).edges }
        ensures { result ≡ (edge_at (host_in self.now) x).mark }
    {
        held::mark(self.edge_bytes(x))
    }

    pub fn edge_source(&self, x: usize) -> usize
        requires { x < length (host_in self.now).edges }
        ensures { result ≡ (edge_at (host_in self.now) x).source }
    {
        held::source(self.layout, self.edge_bytes(x))
    }

    pub fn edge_target(&self, x: usize) -> usize
        requires { x < length (host_in self.now).edges }
        ensures { result ≡ (edge_at (host_in self.now) x).target }
    {
        held::target(self.layout, self.edge_bytes(x))
    }

    // Its label, where it lies.
    pub fn edge_label(&self, x: usize) -> &'e [u8]
        requires { x < length (host_in self.now).edges }
        ensures { (laid result.now ≡ (edge_at (host_in self.now) x).label) × (length (laid result.now) ≤ most_atoms) }
    {
        held::label(self.edge_bytes(x), held::edge_atoms(self.layout))
    }

    // Of either table.

    // How many slots a table has.
    pub fn slots_in(&self, table: Table) -> usize
        ensures { result ≡ slots_in self.now.layout self.now.nodes.now self.now.edges.now table }
    {
        match table {
            Table::Nodes => self.node_slots(),
            Table::Edges => self.edge_slots(),
        }
    }

    // What an edge does.

    // Whether edge x is live and runs from slot s to slot t.
    pub fn edge_runs(&self, s: usize, t: usize, x: usize) -> bool
        requires { x < length (host_in self.now).edges }
        ensures { result ≡ edge_runs (host_in self.now) s t x }
    {
        self.edge_live(x) && self.edge_source(x) == s && self.edge_target(x) == t
    }

    // Whether edge x is live and leaves slot s.
    fn edge_leaves(&self, s: usize, x: usize) -> bool
        requires { x < length (host_in self.now).edges }
        ensures { result ≡ edge_leaves (host_in self.now) s x }
    {
        self.edge_live(x) && self.edge_source(x) == s
    }

    // Whether edge x is live and arrives at slot t.
    fn edge_arrives(&self, t: usize, x: usize) -> bool
        requires { x < length (host_in self.now).edges }
        ensures { result ≡ edge_arrives (host_in self.now) t x }
    {
        self.edge_live(x) && self.edge_target(x) == t
    }

    // Whether edge x is live and touches slot c: it leaves it or arrives at it.
    fn edge_touches(&self, c: usize, x: usize) -> bool
        requires { x < length (host_in self.now).edges }
        ensures { result ≡ edge_touches (host_in self.now) c x }
    {
        self.edge_leaves(c, x) || self.edge_arrives(c, x)
    }

    // What the edges do. The walks of a degree test, most of what it costs, go over a copy of their own, whose lengths are read once.

    // Whether some edge runs from slot s to slot t.
    pub fn any_runs(&self, s: usize, t: usize) -> bool
        ensures { result ≡ exists (edge_runs (host_in self.now) s t) (length (host_in self.now).edges) }
    {
        (0..self.edge_slots()).any(|x| self.edge_runs(s, t, x))
    }

    // How many edges leave slot s.
    pub fn out_degree(&self, s: usize) -> usize
        ensures { result ≡ out_degree (host_in self.now) s }
    {
        let host = *self;
        let mut leaving = 0;
        for x in 0..host.edge_slots() {
            if host.edge_leaves(s, x) {
                leaving += 1;
            }
        }
        leaving
    }

    // How many edges arrive at slot t.
    pub fn in_degree(&self, t: usize) -> usize
        ensures { result ≡ in_degree (host_in self.now) t }
    {
        let host = *self;
        let mut arriving = 0;
        for x in 0..host.edge_slots() {
            if host.edge_arrives(t, x) {
                arriving += 1;
            }
        }
        arriving
    }

    // How many edges touch slot c, a loop counted once.
    pub fn degree(&self, c: usize) -> usize
        ensures { result ≡ count (edge_touches (host_in self.now) c) (length (host_in self.now).edges) }
    {
        (0..self.edge_slots())
            .filter(|x| self.edge_touches(c, *x))
            .count()
    }
}
