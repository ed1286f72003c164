// A host as text, in a lent buffer. One walk serves twice: each byte is written where the buffer has its place and is counted in any case,
// so that the text is first counted on no buffer, and is written only where all of it fits.
#![tactic(auto)]

ghost use Rattle.std.specs.Prelude.{◌≡◌, ◌+◌, ◌*◌, ◌<◌, ◌≤◌, length, get_or};
ghost use Rattle.std.proofs.Math.Option.{none};
ghost use Rattle.meaning.specs.Layout.{Sized, most_atoms, free};
ghost use Rattle.meaning.specs.Calls.{answer_number};
ghost use Rattle.slots.specs.Laid.{laid};
ghost use Rattle.answers.specs.Answers.{refusal_of};
ghost use Rattle.graph.specs.Hosts.{host_in, slots_of};
ghost use Rattle.writing.specs.Words.{decimal, signed};
ghost use Rattle.text.specs.Text.{Exports, text_of, export_refusal, export_on, export_text};
ghost use Rattle.exporting.specs.Lines.{atoms_text, mark_text, root_text, id_text, end_text, label_text, node_text, edge_text, slot_text};
ghost use Rattle.exporting.specs.Putting.{Puts, most_text, digits_size, integer_size, atoms_size, mark_size, root_size, id_size, end_size, label_size, node_size, edge_size, item_size, item_text, items_from, Few};

use graph::Graph;
use meaning::tags::Mark;
use meaning::{Answer, Layout, Refusal, Table};
use slots::laid;
use writing::{AtomWord, Digits};

// Bytes, those that the buffer has places for; and the place behind them.
fn put(out: &mut [u8], at: usize, text: &[u8]) -> usize
    requires { at + length text.now ≤ most_text }
    ensures { Puts (length text.now) text.now out.old at out.new result }
{
    for k in 0..text.len() {
        let place = at + k;
        if place < out.len() {
            out[place] = text[k];
        }
    }
    at + text.len()
}

// The digits of a number.
fn put_decimal(out: &mut [u8], at: usize, n: usize) -> usize
    requires { at + digits_size ≤ most_text }
    ensures { Puts digits_size (decimal n) out.old at out.new result }
{
    let mut text = [0u8; Digits::MOST];
    let k = writing::put_decimal(&mut text, 0, n);
    put(out, at, &text[..k])
}

// An atom.
fn put_integer(out: &mut [u8], at: usize, atom: u32) -> usize
    requires { at + integer_size ≤ most_text }
    ensures { Puts integer_size (signed atom) out.old at out.new result }
{
    let n = atom as usize;
    if n < AtomWord::HALF {
        return put_decimal(out, at, n);
    }
    let start = put(out, at, b"-");
    put_decimal(out, start, AtomWord::WHOLE - n)
}

// The atoms of a label that lies in a table.
fn put_atoms(out: &mut [u8], start: usize, label: &[u8]) -> usize
    requires label_len_bound { length (laid label.now) ≤ most_atoms }
    requires atoms_size_bound { start + atoms_size ≤ most_text }
    ensures { Puts atoms_size (atoms_text (laid label.now)) out.old start out.new result }
{
    let n = laid::count(label);
    if n == 0 {
        return put(out, start, b"empty");
    }
    let mut at = put_integer(out, start, laid::atom(label, 0));
    for j in 1..n {
        let next = put(out, at, b":");
        at = put_integer(out, next, laid::atom(label, j));
    }
    at
}

// A mark behind a label, where there is one; its sign alone where it has no name.
fn put_mark(out: &mut [u8], at: usize, mark: u8) -> usize
    requires { at + mark_size ≤ most_text }
    ensures { Puts mark_size (mark_text mark) out.old at out.new result }
{
    match mark {
        Mark::NONE => at,
        Mark::RED => put(out, at, b" # red"),
        Mark::GREEN => put(out, at, b" # green"),
        Mark::BLUE => put(out, at, b" # blue"),
        Mark::GREY => put(out, at, b" # grey"),
        Mark::DASHED => put(out, at, b" # dashed"),
        _ => put(out, at, b" # "),
    }
}

// The sign of a root, behind its identifier.
fn put_root(out: &mut [u8], at: usize, root: u8) -> usize
    requires { at + root_size ≤ most_text }
    ensures { Puts root_size (root_text root) out.old at out.new result }
{
    if root == 0 {
        return at;
    }
    put(out, at, b"(R)")
}

// The beginning of an item's line, by the item's number.
fn put_id(out: &mut [u8], at: usize, x: usize) -> usize
    requires { at + id_size ≤ most_text }
    ensures { Puts id_size (id_text x) out.old at out.new result }
{
    let next = put(out, at, b"\n  (");
    put_decimal(out, next, x)
}

// An end of an edge.
fn put_end(out: &mut [u8], at: usize, n: usize) -> usize
    requires { at + end_size ≤ most_text }
    ensures { Puts end_size (end_text n) out.old at out.new result }
{
    let next = put(out, at, b", ");
    put_decimal(out, next, n)
}

// The end of an item's line: its label and its mark.
fn put_label(out: &mut [u8], at: usize, label: &[u8], mark: u8) -> usize
    requires label_len_bound { length (laid label.now) ≤ most_atoms }
    requires label_size_bound { at + label_size ≤ most_text }
    ensures { Puts label_size (label_text (laid label.now) mark) out.old at out.new result }
{
    let a = put(out, at, b", ");
    let b = put_atoms(out, a, label);
    let c = put_mark(out, b, mark);
    put(out, c, b")")
}

// The line of a node's slot, where it is live.
fn put_node(host: &Graph, x: usize, out: &mut [u8], at: usize) -> usize
    requires x_in_bounds { x < length (host_in host.now).nodes }
    requires node_size_bound { at + node_size ≤ most_text }
    ensures { Puts node_size (slot_text node_text x (get_or (host_in host.now).nodes x free)) out.old at out.new result }
{
    if host.node_live(x) {
        let mark = host.node_mark(x);
        let root = host.node_root(x);
        let label = host.node_label(x);
        let a = put_id(out, at, x);
        let b = put_root(out, a, root);
        return put_label(out, b, label, mark);
    }
    at
}

// The line of an edge's slot, where it is live.
fn put_edge(host: &Graph, x: usize, out: &mut [u8], at: usize) -> usize
    requires x_in_bounds { x < length (host_in host.now).edges }
    requires edge_size_bound { at + edge_size ≤ most_text }
    ensures { Puts edge_size (slot_text edge_text x (get_or (host_in host.now).edges x free)) out.old at out.new result }
{
    if host.edge_live(x) {
        let mark = host.edge_mark(x);
        let source = host.edge_source(x);
        let target = host.edge_target(x);
        let label = host.edge_label(x);
        let a = put_id(out, at, x);
        let b = put_end(out, a, source);
        let c = put_end(out, b, target);
        return put_label(out, c, label, mark);
    }
    at
}

// The line of a slot of a table, where it is live.
fn put_slot(host: &Graph, table: Table, x: usize, out: &mut [u8], at: usize) -> usize
    requires x_bound { x < slots_of host.now table }
    requires table_bound { at + item_size table ≤ most_text }
    ensures { Puts (item_size table) (item_text host.now.layout host.now.nodes.now host.now.edges.now table x) out.old at out.new result }
{
    match table {
        Table::Nodes => put_node(host, x, out, at),
        Table::Edges => put_edge(host, x, out, at),
    }
}

// The lines of the live slots of a table.
fn put_table(host: &Graph, table: Table, out: &mut [u8], start: usize) -> usize
    requires { start + item_size table * slots_of host.now table ≤ most_text }
    ensures { Puts (item_size table * slots_of host.now table) (items_from host.now.layout host.now.nodes.now host.now.edges.now table 0) out.old start out.new result }
{
    let n = host.slots_in(table);
    let mut at = start;
    for x in 0..n {
        at = put_slot(host, table, x, out, at);
    }
    at
}

// The text of a host, of which as much is written as the buffer holds; and how long it is.
fn put_graph(host: &Graph, out: &mut [u8]) -> usize
    requires { Few host.now.layout }
    ensures { Puts most_text (text_of host.now.layout host.now.nodes.now host.now.edges.now) out.old 0 out.new result }
{
    let a = put(out, 0, b"[");
    let b = put_table(host, Table::Nodes, out, a);
    let c = put(out, b, b"\n|");
    let d = put_table(host, Table::Edges, out, c);
    put(out, d, b"\n]\n")
}

// The lowest applicable number of 10, 11 and 15.
fn check(l: Layout, nodes: &[u8], edges: &[u8]) -> Result<(), Refusal>
    requires { Sized l }
    ensures { refusal_of result ≡ export_refusal l nodes.now edges.now }
{
    if !slots::fits_table(nodes, l.node, l.nodes) {
        return Err(Refusal::NodeTableLength);
    }
    if !slots::fits_table(edges, l.edge, l.edges) {
        return Err(Refusal::EdgeTableLength);
    }
    if !host::keeps_layout(l, nodes, edges) {
        return Err(Refusal::BadHost);
    }
    Ok(())
}

// Writes the text of a host that is in order to a buffer that has room for it.
fn export_host(host: &Graph, buffer: &mut [u8], length: &mut u64) -> Answer
    requires { Few host.now.layout }
    ensures { Exports (export_on none (text_of host.now.layout host.now.nodes.now host.now.edges.now) buffer.old) (answer_number result) length.new buffer.new }
{
    let mut nothing = [0u8; 0];
    let n = put_graph(host, &mut nothing);
    *length = n as u64;
    if n > buffer.len() {
        return Answer::Refused(Refusal::BufferTooShort);
    }
    put_graph(host, buffer);
    Answer::Result
}

// Exports a host, or refuses to and leaves the buffer as it was.
pub fn export_tables(
    l: Layout,
    nodes: &[u8],
    edges: &[u8],
    buffer: &mut [u8],
    length: &mut u64,
) -> Answer
    requires sized { Sized l }
    requires few { Few l }
    ensures { Exports (export_text l nodes.now edges.now buffer.old) (answer_number result) length.new buffer.new }
{
    if let Err(why) = check(l, nodes, edges) {
        *length = 0;
        return Answer::Refused(why);
    }
    let host = Graph {
        layout: l,
        nodes,
        edges,
    };
    export_host(&host, buffer, length)
}
