// The nodes and edges of a text graph, rows of them, and the whole graph, read where they lie. What is kept of a row is how many
// items it has, whether their labels can be held, and where their identifiers begin, from which each can be read again.
#![tactic(auto)]

ghost use Rattle.std.specs.Prelude.{◌≡◌, ◌≤◌};
ghost use Rattle.meaning.specs.Layout.{most_atoms};
ghost use Rattle.items.specs.Items.{is_mark, ReadsNode, ReadsEdge, Fits, ReadsItem, ReadsItems, Ends, ReadsGraph};

use labels::Label;
use meaning::Table;
use meaning::tags::Mark;
use parsing::BrokenAt;
use parsing::labelling::{read_label, read_root};
use parsing::positions::pass_position;

// A node that was read: where its identifier begins, its root flag, its mark, its atoms where they can be gathered, and the place
// behind it.
#[derive(Clone, Copy)]
pub struct NodeAt {
    pub next: usize,
    pub from: usize,
    pub root: u8,
    pub mark: u8,
    pub label: Option<Label>,
}

// An edge that was read: where its identifier and the names of its ends begin, its mark, its atoms where they can be gathered,
// and the place behind it.
#[derive(Clone, Copy)]
pub struct EdgeAt {
    pub next: usize,
    pub from: usize,
    pub source: usize,
    pub target: usize,
    pub mark: u8,
    pub label: Option<Label>,
}

// A node, from its identifier on.
pub fn read_node(text: &[u8], at: usize) -> Result<NodeAt, BrokenAt>
    ensures { ReadsNode text.now at result }
{
    let id = parsing::read_name(text, at)?;
    let root = read_root(text, id.next)?;
    let comma = parsing::expect(text, root.next, b',')?;
    let label = read_label(text, comma)?;
    let position = pass_position(text, label.next)?;
    let close = parsing::expect(text, position, b')')?;
    let next = pass_position(text, close)?;
    Ok(NodeAt {
        next,
        from: id.from,
        root: root.byte,
        mark: label.mark,
        label: label.label,
    })
}

// An edge, from its identifier on.
pub fn read_edge(text: &[u8], at: usize) -> Result<EdgeAt, BrokenAt>
    ensures { ReadsEdge text.now at result }
{
    let id = parsing::read_name(text, at)?;
    let first = parsing::expect(text, id.next, b',')?;
    let source = parsing::read_name(text, first)?;
    let second = parsing::expect(text, source.next, b',')?;
    let target = parsing::read_name(text, second)?;
    let third = parsing::expect(text, target.next, b',')?;
    let label = read_label(text, third)?;
    let next = parsing::expect(text, label.next, b')')?;
    Ok(EdgeAt {
        next,
        from: id.from,
        source: source.from,
        target: target.from,
        mark: label.mark,
        label: label.label,
    })
}

// Whether items of a table have the mark.
fn is_mark(which: Table, mark: u8) -> bool
    ensures { result ≡ is_mark which mark }
{
    match which {
        Table::Nodes => mark <= Mark::GREY,
        Table::Edges => mark <= Mark::BLUE || mark == Mark::DASHED,
    }
}

// Whether a label can be held, in slots with room for so many atoms.
fn fits(which: Table, mark: u8, gathered: Option<Label>, most: usize) -> bool
    requires { most ≤ most_atoms }
    ensures { Fits which mark gathered most result }
{
    match gathered {
        Some(label) => is_mark(which, mark) && label.len <= most,
        None => false,
    }
}

// An item of a row that was read: where its identifier begins, whether its label can be held, and the place behind it.
#[derive(Clone, Copy)]
pub struct ItemAt {
    pub next: usize,
    pub from: usize,
    pub fits: bool,
}

// An item of a table, from its identifier on.
fn read_item(text: &[u8], at: usize, which: Table, most: usize) -> Result<ItemAt, BrokenAt>
    requires { most ≤ most_atoms }
    ensures { ReadsItem text.now which most at result }
{
    match which {
        Table::Nodes => {
            let n = read_node(text, at)?;
            Ok(ItemAt {
                next: n.next,
                from: n.from,
                fits: fits(which, n.mark, n.label, most),
            })
        }
        Table::Edges => {
            let e = read_edge(text, at)?;
            Ok(ItemAt {
                next: e.next,
                from: e.from,
                fits: fits(which, e.mark, e.label, most),
            })
        }
    }
}

// A row of items that was read: how many, whether all their labels can be held, and the place behind them.
#[derive(Clone, Copy)]
pub struct ItemsAt {
    pub next: usize,
    pub count: usize,
    pub fits: bool,
}

// Items of a table, up to the first that no parenthesis opens. The places of their identifiers are kept, as many as there is room
// for.
pub fn read_items(
    text: &[u8],
    at: usize,
    which: Table,
    most: usize,
    places: &mut [usize],
) -> Result<ItemsAt, BrokenAt>
    requires { most ≤ most_atoms }
    ensures { ReadsItems text.now which most at places.new result }
{
    let mut next = at;
    let mut count: usize = 0;
    let mut fits = true;
    while let Ok(open) = parsing::expect(text, next, b'(') {
        let item = read_item(text, open, which, most)?;
        if count < places.len() {
            places[count] = item.from;
        }
        fits = fits && item.fits;
        count += 1;
        next = item.next;
    }
    Ok(ItemsAt { next, count, fits })
}

// The end of the text.
fn read_end(text: &[u8], at: usize) -> Result<(), BrokenAt>
    ensures { Ends text.now at result }
{
    match lexing::next_word(text, at) {
        None => Ok(()),
        Some(_) => Err(BrokenAt { place: at }),
    }
}

// A graph that was read, with the place behind it: how many nodes and edges it has, and whether all their labels can be held.
#[derive(Clone, Copy)]
pub struct GraphAt {
    pub next: usize,
    pub nodes: usize,
    pub edges: usize,
    pub fits: bool,
}

// The graph that a text is, with the places of identifiers of nodes and of edges.
pub fn read_graph(
    text: &[u8],
    most: usize,
    node_places: &mut [usize],
    edge_places: &mut [usize],
) -> Result<GraphAt, BrokenAt>
    requires { most ≤ most_atoms }
    ensures { ReadsGraph text.now most node_places.new edge_places.new result }
{
    let open = parsing::expect(text, 0, b'[')?;
    let nodes = read_items(text, open, Table::Nodes, most, node_places)?;
    let bar = parsing::expect(text, nodes.next, b'|')?;
    let edges = read_items(text, bar, Table::Edges, most, edge_places)?;
    let close = parsing::expect(text, edges.next, b']')?;
    read_end(text, close)?;
    Ok(GraphAt {
        next: close,
        nodes: nodes.count,
        edges: edges.count,
        fits: nodes.fits && edges.fits,
    })
}
