// A text graph as tables. All that can be refused is asked before the first byte is written, over the whole text and in the order
// of the numbers; then slots are written one by one.
#![tactic(auto)]

ghost use Rattle.std.specs.Prelude.{◌≡◌, ◌≤◌, leb, length};
ghost use Rattle.meaning.specs.Basics.{both, first_failing};
ghost use Rattle.meaning.specs.Layout.{Sized, most_atoms};
ghost use Rattle.meaning.specs.Calls.{answer_number};
ghost use Rattle.meaning.specs.Carrying.{Carries};
ghost use Rattle.answers.specs.Answers.{refusal_of};
ghost use Rattle.text.specs.Text.{graph_of, text_checks, import_text};
ghost use Rattle.importing.specs.Graphs.{Graph, NamesPass, Fitting};

use items::GraphAt;
use meaning::{Answer, Layout, Refusal, Table};

pub mod names;
pub mod storing;

// The most slots of a table for which places of identifiers are kept.
#[derive(Drop)]
pub struct Kept {}

impl Kept {
    pub const NODES: usize = 512;

    pub const EDGES: usize = 1024;
}

// Whether names pass: they are asked of a text that lists no more than tables may have.
fn names_pass(
    l: Layout,
    text: &[u8],
    g: GraphAt,
    node_places: &[usize],
    edge_places: &[usize],
) -> bool
    requires { Graph l text.now node_places.now edge_places.now g }
    ensures { NamesPass l text.now node_places.now edge_places.now g result }
{
    if g.nodes > l.nodes || g.edges > l.edges {
        return true;
    }
    names::names_hold(text, &node_places[..g.nodes], &edge_places[..g.edges])
}

// Whether labels can be held, and there are slots for all.
#[tactic(auto, unfolding(meaning::specs::Basics::both))]
fn has_room(g: GraphAt, node_slots: usize, edge_slots: usize) -> bool
    ensures { result ≡ both g.fits (both (leb g.nodes node_slots) (leb g.edges edge_slots)) }
{
    g.fits && g.nodes <= node_slots && g.edges <= edge_slots
}

// What is refused of a text that is a graph: 23 and 24.
fn check_graph(
    l: Layout,
    text: &[u8],
    g: GraphAt,
    node_places: &[usize],
    edge_places: &[usize],
    node_slots: usize,
    edge_slots: usize,
) -> Result<(), Refusal>
    requires { Graph l text.now node_places.now edge_places.now g }
    ensures { refusal_of result ≡ first_failing (text_checks l node_slots edge_slots (graph_of text.now)) }
{
    if !names_pass(l, text, g, node_places, edge_places) {
        return Err(Refusal::BadNames);
    }
    if !has_room(g, node_slots, edge_slots) {
        return Err(Refusal::TextDoesNotFit);
    }
    Ok(())
}

// Imports a text that is a graph.
fn import_graph(
    l: Layout,
    text: &[u8],
    g: GraphAt,
    node_places: &[usize],
    edge_places: &[usize],
    nodes: &mut [u8],
    edges: &mut [u8],
) -> Answer
    requires graph { Graph l text.now node_places.now edge_places.now g }
    requires fitting { Fitting l nodes.old edges.old }
    ensures { Carries (import_text l text.now nodes.old edges.old) (answer_number result) nodes.new edges.new }
{
    let node_slots = nodes.len() / l.node;
    let edge_slots = edges.len() / l.edge;
    let checked = check_graph(l, text, g, node_places, edge_places, node_slots, edge_slots);
    if let Err(why) = checked {
        return Answer::Refused(why);
    }
    let named = &node_places[..g.nodes];
    let places = &edge_places[..g.edges];
    storing::store_table(l, text, Table::Nodes, named, named, node_slots, nodes);
    storing::store_table(l, text, Table::Edges, named, places, edge_slots, edges);
    Answer::Result
}

// Imports a text into tables whose lengths are in order, with room for the places of identifiers.
fn import_into(
    l: Layout,
    text: &[u8],
    nodes: &mut [u8],
    edges: &mut [u8],
    node_places: &mut [usize],
    edge_places: &mut [usize],
) -> Answer
    requires fitting { Fitting l nodes.old edges.old }
    requires nodes_in_bounds { (l.nodes ≤ length node_places.old) × (l.edges ≤ length edge_places.old) }
    ensures { Carries (import_text l text.now nodes.old edges.old) (answer_number result) nodes.new edges.new }
{
    let Ok(g) = items::read_graph(text, l.atoms, node_places, edge_places) else {
        return Answer::Refused(Refusal::BadText);
    };
    import_graph(l, text, g, &node_places[..], &edge_places[..], nodes, edges)
}

// Imports a text, or refuses to and leaves both tables as they were.
pub fn import_text(l: Layout, text: &[u8], nodes: &mut [u8], edges: &mut [u8]) -> Answer
    requires sized { Sized l }
    requires atoms_le_most_atoms { l.atoms ≤ most_atoms }
    requires nodes_bound { (l.nodes ≤ 512) × (l.edges ≤ 1024) }
    ensures { Carries (import_text l text.now nodes.old edges.old) (answer_number result) nodes.new edges.new }
{
    if !slots::fits_table(&nodes[..], l.node, l.nodes) {
        return Answer::Refused(Refusal::NodeTableLength);
    }
    if !slots::fits_table(&edges[..], l.edge, l.edges) {
        return Answer::Refused(Refusal::EdgeTableLength);
    }
    let mut node_places = [0usize; Kept::NODES];
    let mut edge_places = [0usize; Kept::EDGES];
    import_into(l, text, nodes, edges, &mut node_places, &mut edge_places)
}
