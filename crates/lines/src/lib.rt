// The lines of a listing, in a lent buffer: one for the answer, and after a result one for each live slot.
#![tactic(auto)]

ghost use Rattle.std.specs.Prelude.{◌≡◌, ◌+◌, ◌*◌, ◌<◌, ◌≤◌, length, get_or, take, drop};
ghost use Rattle.meaning.specs.Numbers.{number};
ghost use Rattle.meaning.specs.Layout.{free};
ghost use Rattle.graph.specs.Hosts.{host_in, slots_of};
ghost use Rattle.writing.specs.Text.{Adds};
ghost use Rattle.lines.specs.Lines.{report_size, answer_line, node_line, edge_line, slot_line, outcome};
ghost use Rattle.lines.specs.Tables.{line_size, slot_text, lines_from};
ghost use Rattle.lines.specs.Rooms.{answer_size, node_size, edge_size, listing_room, Ready};

use graph::Graph;
use meaning::{Layout, Table};
use writing::{put, put_label, put_mark, put_number, put_root};

// Answer, steps and records, the last two from a report.
fn put_answer(out: &mut [u8], answer: u32, report: &[u8]) -> usize
    requires answer_size_in_bounds { answer_size ≤ length out.old }
    requires report_len { length report.now ≡ report_size }
    ensures { Adds answer_size (answer_line answer (number (take 4 report.now)) (number (take 4 (drop 4 report.now)))) out.old 0 out.new result }
{
    let steps = fields::number4(report, 0);
    let records = fields::number4(report, 4);
    let a = put(out, 0, b"answer");
    let b = put_number(out, a, answer as usize);
    let c = put(out, b, b" steps");
    let d = put_number(out, c, steps);
    let e = put(out, d, b" records");
    let f = put_number(out, e, records);
    put(out, f, b"\n")
}

// The line of a node's slot, where it is live.
fn put_node(host: &Graph, x: usize, out: &mut [u8], at: usize) -> usize
    requires x_in_bounds { x < length (host_in host.now).nodes }
    requires node_size_in_bounds { at + node_size ≤ length out.old }
    ensures { Adds node_size (slot_line node_line x (get_or (host_in host.now).nodes x free)) out.old at out.new result }
{
    if !host.node_live(x) {
        return at;
    }
    let mark = host.node_mark(x);
    let root = host.node_root(x);
    let label = host.node_label(x);
    let a = put(out, at, b"node");
    let b = put_number(out, a, x);
    let c = put_mark(out, b, mark);
    let d = put_root(out, c, root);
    put_label(out, d, label)
}

// The line of an edge's slot, where it is live.
fn put_edge(host: &Graph, x: usize, out: &mut [u8], at: usize) -> usize
    requires x_in_bounds { x < length (host_in host.now).edges }
    requires edge_size_in_bounds { at + edge_size ≤ length out.old }
    ensures { Adds edge_size (slot_line edge_line x (get_or (host_in host.now).edges x free)) out.old at out.new result }
{
    if !host.edge_live(x) {
        return at;
    }
    let mark = host.edge_mark(x);
    let source = host.edge_source(x);
    let target = host.edge_target(x);
    let label = host.edge_label(x);
    let a = put(out, at, b"edge");
    let b = put_number(out, a, x);
    let c = put_number(out, b, source);
    let d = put_number(out, c, target);
    let e = put_mark(out, d, mark);
    put_label(out, e, label)
}

// The line of a slot of a table, where it is live.
fn put_slot(host: &Graph, table: Table, x: usize, out: &mut [u8], at: usize) -> usize
    requires x_bound { x < slots_of host.now table }
    requires table_in_bounds { at + line_size table ≤ length out.old }
    ensures { Adds (line_size table) (slot_text host.now.layout host.now.nodes.now host.now.edges.now table x) out.old at out.new result }
{
    match table {
        Table::Nodes => put_node(host, x, out, at),
        Table::Edges => put_edge(host, x, out, at),
    }
}

// The lines of the live slots of a table.
fn put_table(host: &Graph, table: Table, out: &mut [u8], start: usize) -> usize
    requires { start + line_size table * slots_of host.now table ≤ length out.old }
    ensures { Adds (line_size table * slots_of host.now table) (lines_from host.now.layout host.now.nodes.now host.now.edges.now table 0) out.old start out.new result }
{
    let mut at = start;
    for x in 0..host.slots_in(table) {
        at = put_slot(host, table, x, out, at);
    }
    at
}

// The outcome of a run: its answer and its report, and after answer 0 only the graph.
pub fn put_outcome(
    l: Layout,
    nodes: &[u8],
    edges: &[u8],
    answer: u32,
    report: &[u8],
    out: &mut [u8],
) -> usize
    requires listing_room_in_bounds { listing_room ≤ length out.old }
    requires report_len { length report.now ≡ report_size }
    requires ready { answer ≡ 0 → Ready l nodes.now edges.now }
    ensures { Adds listing_room (outcome l answer report.now nodes.now edges.now) out.old 0 out.new result }
{
    let at = put_answer(out, answer, report);
    if answer != 0 {
        return at;
    }
    let host = Graph {
        layout: l,
        nodes,
        edges,
    };
    let end = put_table(&host, Table::Nodes, out, at);
    put_table(&host, Table::Edges, out, end)
}
