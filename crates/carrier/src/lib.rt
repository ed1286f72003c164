// An input of two tables carried to as many slots of another layout, from the bytes that are read to those that are printed, in a lent
// buffer. The definitions that the contracts cite are in specs/.
#![tactic(auto)]

ghost use Rattle.std.specs.Prelude.{◌≡◌, [], ◌∷◌, ◌+◌, ◌*◌, ◌<◌, ◌≤◌, length, replicate};
ghost use Rattle.meaning.specs.Layout.{base, four};
ghost use Rattle.meaning.specs.Carrying.{lending_tables, carry};
ghost use Rattle.meaning.specs.ProvedSet.{field_bytes};
ghost use Rattle.meaning.specs.declared.Manner.{Manner};
ghost use Rattle.run_input.specs.Input.{most_input};
ghost use Rattle.writing.specs.Words.{letters, decimal};
ghost use Rattle.writing.specs.Lines.{line};
ghost use Rattle.writing.specs.Text.{Adds, Lists};
ghost use Rattle.carrier.specs.Carried.{table_fields, length_for, carried_text, carried_tables, carried_input};
ghost use Rattle.carrier.specs.Rooms.{field_size, InputOf, Between};
ghost use Rattle.carrier.specs.Finding.{Finds};

use meaning::{Layout, Manner};
use run_input::RunImage;
use writing::put;

// Writing.

// A field: its tag, the length of its payload, the payload.
fn put_field(out: &mut [u8], at: usize, tag: u8, payload: &[u8]) -> usize
    requires { at + field_size (length payload.now) ≤ length out.old }
    ensures { Adds (field_size (length payload.now)) (field_bytes tag payload.now) out.old at out.new result }
{
    let mut size = [0u8; 2];
    slots::bytes::put_number(&mut size, payload.len());
    let second = put(out, at, &[tag]);
    let start = put(out, second, &size);
    put(out, start, payload)
}

// Both tables.
fn put_tables(nodes: &[u8], edges: &[u8], out: &mut [u8]) -> usize
    requires most_input_in_bounds { most_input ≤ length out.old }
    requires input_of { InputOf (length nodes.now) (length edges.now) }
    ensures { Lists (table_fields nodes.now edges.now) out.old out.new result }
{
    let middle = put_field(out, 0, RunImage::NODES, nodes);
    put_field(out, middle, RunImage::EDGES, edges)
}

// The line of a refused carrying.
fn put_refused(answer: usize, out: &mut [u8]) -> usize
    requires { most_input ≤ length out.old }
    ensures { Lists (line (letters "refused") (decimal answer ∷ [])) out.old out.new result }
{
    let word = put(out, 0, b"refused");
    let end = writing::put_number(out, word, answer);
    put(out, end, b"\n")
}

// The line of an input that is not two tables.
fn put_no_input(out: &mut [u8]) -> usize
    requires { most_input ≤ length out.old }
    ensures { Lists (letters "input refused\n") out.old out.new result }
{
    put(out, 0, b"input refused\n")
}

// Carrying.

// How long the table is that a table of slots of w bytes is carried to.
fn length_for(table: &[u8], w: usize, v: usize, most: usize) -> usize
    requires { (0 < w) × (most * v ≤ most_input) }
    ensures { (result ≡ length_for w table.now v most) × (result ≤ most * v) }
{
    (table.len() / w).min(most) * v
}

// Carries to tables that are lent and zeroed first, and writes what comes of it.
fn carry_to(
    from: Layout,
    to: Layout,
    nodes: &[u8],
    edges: &[u8],
    to_nodes: &mut [u8],
    to_edges: &mut [u8],
    out: &mut [u8],
) -> usize
    requires between { Between from to }
    requires most_input_in_bounds { most_input ≤ length out.old }
    requires input_of { InputOf (length to_nodes.old) (length to_edges.old) }
    ensures { Lists (carried_text (carry Manner.Exact from to (lending_tables nodes.now edges.now (replicate (length to_nodes.old) 0) (replicate (length to_edges.old) 0)))) out.old out.new result }
{
    slots::bytes::clear(to_nodes);
    slots::bytes::clear(to_edges);
    let answer = carrying::carry_tables(Manner::Exact, from, to, nodes, edges, to_nodes, to_edges);
    let number = u32::from(answer) as usize;
    if number == 0 {
        put_tables(to_nodes, to_edges, out)
    } else {
        put_refused(number, out)
    }
}

// Carries tables, and writes what comes of it.
fn carry_parts(from: Layout, to: Layout, nodes: &[u8], edges: &[u8], out: &mut [u8]) -> usize
    requires between { Between from to }
    requires most_input_in_bounds { most_input ≤ length out.old }
    ensures { Lists (carried_text (carried_tables from to nodes.now edges.now)) out.old out.new result }
{
    let mut to_nodes = io::large_buffer();
    let mut to_edges = io::large_buffer();
    let n = length_for(nodes, from.node, to.node, to.nodes);
    let m = length_for(edges, from.edge, to.edge, to.edges);
    carry_to(
        from,
        to,
        nodes,
        edges,
        &mut to_nodes[..n],
        &mut to_edges[..m],
        out,
    )
}

// Where the payloads of the two fields of an input end: each once in order, and nothing behind.
fn find_tables(input: &[u8]) -> Option<(usize, usize)>
    ensures { Finds input.now result }
{
    if input.len() > RunImage::MOST {
        return None;
    }
    let middle = run_input::expect(input, 0, RunImage::NODES)?;
    let end = run_input::expect(input, middle, RunImage::EDGES)?;
    (end >= input.len()).then_some((middle, end))
}

// Carries the tables of an input, and says how long what is printed is.
fn carry_input(from: Layout, to: Layout, input: &[u8], out: &mut [u8]) -> usize
    requires between { Between from to }
    requires most_input_in_bounds { most_input ≤ length out.old }
    ensures { Lists (carried_input from to input.now) out.old out.new result }
{
    let Some((middle, end)) = find_tables(input) else {
        return put_no_input(out);
    };
    let nodes = run_input::payload(input, 0, middle);
    let edges = run_input::payload(input, middle, end);
    carry_parts(from, to, nodes, edges, out)
}

// The same of old tables, which come to have room for eight atoms in a label.
pub fn widen_input(input: &[u8], out: &mut [u8]) -> usize
    requires { most_input ≤ length out.old }
    ensures { Lists (carried_input four base input.now) out.old out.new result }
{
    carry_input(Layout::four(), Layout::base(), input, out)
}

// The same of today's tables, which come to be old ones.
pub fn narrow_input(input: &[u8], out: &mut [u8]) -> usize
    requires { most_input ≤ length out.old }
    ensures { Lists (carried_input base four input.now) out.old out.new result }
{
    carry_input(Layout::base(), Layout::four(), input, out)
}
