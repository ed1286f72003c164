// The journal in lent bytes: appending a record, the test of counted records (answer 20), and putting records back.
#![tactic(auto)]

ghost use Rattle.std.specs.Prelude.{◌≡◌, true, ◌-◌, ◌/◌, ◌<◌, ◌≤◌, length, take, drop};
ghost use Rattle.meaning.specs.Basics.{every, zeros};
ghost use Rattle.meaning.specs.Layout.{Sized, node_length, edge_length, record_length, record_bytes, put, read_record, keeps_record};
ghost use Rattle.meaning.specs.Calls.{keeps_records};
ghost use Rattle.laws.specs.Pieces.{stored};
ghost use Rattle.journal.specs.Journal.{tables_of, RestKept, records_from, put_back, cleared_from};

use meaning::Layout;

// A record: its kind, filled with zeros to the width of a slot number, the slot number, the bytes before.
#[derive(Clone, Copy)]
pub struct Record {}

impl Record {
    // Where its kind lies.
    pub const KIND: usize = 0;

    // The kind of a node's record, and of an edge's.
    pub const NODE: u8 = 1;

    pub const EDGE: u8 = 2;
}

// Writes one record: kind, slot number, the bytes before, zeros behind them.
fn put_record(l: Layout, to: &mut [u8], kind: u8, i: usize, old: &[u8])
    requires sized { Sized l }
    requires to_len { (length to.old ≡ record_length l) × (length old.now ≤ edge_length l) }
    ensures { to.new ≡ record_bytes l kind i old.now }
{
    let width = l.width;
    let start = 2 * width;
    let end = start + old.len();
    slots::bytes::clear(to);
    to[Record::KIND] = kind;
    slots::bytes::put_number(&mut to[width..start], i);
    slots::bytes::copy(&mut to[start..end], old);
}

// Appends record number `used`: what slot i of a table of this kind held before.
pub fn append(l: Layout, journal: &mut [u8], used: usize, kind: u8, i: usize, old: &[u8])
    requires sized { Sized l }
    requires used_in_bounds { (used < length journal.old / record_length l) × (length old.now ≤ edge_length l) }
    ensures { journal.new ≡ stored (record_length l) used (record_bytes l kind i old.now) journal.old }
{
    let w = l.change;
    let start = slots::slot_start(journal.len(), w, used);
    let end = start + w;
    put_record(l, &mut journal[start..end], kind, i, old);
}

// Whether what stands between a record's kind and its slot number is zero.
fn filled(b: &[u8], width: usize) -> bool
    requires { (2 ≤ length b.now) × ((1 ≤ width) × (width ≤ 2)) }
    ensures { result ≡ zeros (take (width - 1) (drop 1 b.now)) }
{
    width == 1 || b[1] == 0
}

// Whether a record has a known kind, its filling zero, and names a slot of a table of so many nodes and edges.
fn keeps_record(l: Layout, b: &[u8], nodes: usize, edges: usize) -> bool
    requires sized { Sized l }
    requires b_len { length b.now ≡ record_length l }
    ensures { result ≡ keeps_record l nodes edges b.now }
{
    let width = l.width;
    let i = slots::bytes::slot_number(b, width, width);
    filled(b, width)
        && match b[Record::KIND] {
            Record::NODE => i < nodes,
            Record::EDGE => i < edges,
            _ => false,
        }
}

// Whether the count is at most the journal's records, and each counted record keeps to its table.
pub fn keeps_records(l: Layout, nodes: &[u8], edges: &[u8], journal: &[u8], count: usize) -> bool
    requires { Sized l }
    ensures { result ≡ keeps_records l nodes.now edges.now journal.now count }
{
    let w = l.change;
    let n = nodes.len() / l.node;
    let e = edges.len() / l.edge;
    count <= journal.len() / w
        && (0..count).all(|u| keeps_record(l, slots::slot(journal, w, u), n, e))
}

// Puts one record back: the bytes before, in the slot that it names.
fn put_back(l: Layout, nodes: &mut [u8], edges: &mut [u8], b: &[u8])
    requires sized { Sized l }
    requires b_len { length b.now ≡ record_length l }
    requires b_value { keeps_record l (length nodes.old / node_length l) (length edges.old / edge_length l) b.now ≡ true }
    ensures { (tables_of l nodes.new edges.new ≡ put (read_record l b.now) (tables_of l nodes.old edges.old)) × RestKept l nodes.old edges.old nodes.new edges.new }
{
    let width = l.width;
    let start = 2 * width;
    let i = slots::bytes::slot_number(b, width, width);
    if b[Record::KIND] == Record::NODE {
        slots::put_slot(nodes, l.node, i, &b[start..start + l.node]);
    } else {
        slots::put_slot(edges, l.edge, i, &b[start..start + l.edge]);
    }
}

// Puts the records from number `used` down to number `mark` back, the last first.
fn put_back_from(
    l: Layout,
    nodes: &mut [u8],
    edges: &mut [u8],
    journal: &[u8],
    used: usize,
    mark: usize,
)
    requires sized { Sized l }
    requires mark_le_used { (mark ≤ used) × (used ≤ length journal.now / record_length l) }
    requires journal_value { every (keeps_record l (length nodes.old / node_length l) (length edges.old / edge_length l)) (records_from l mark used journal.now) ≡ true }
    ensures { (tables_of l nodes.new edges.new ≡ put_back l mark used journal.now (tables_of l nodes.old edges.old)) × RestKept l nodes.old edges.old nodes.new edges.new }
{
    let w = l.change;
    for u in (mark..used).rev() {
        put_back(l, nodes, edges, slots::slot(journal, w, u));
    }
}

// Undoes to an earlier count: the records from `used` down to `mark` are put back, the last first, and cleared.
pub fn undo_to(
    l: Layout,
    nodes: &mut [u8],
    edges: &mut [u8],
    journal: &mut [u8],
    used: usize,
    mark: usize,
)
    requires sized { Sized l }
    requires mark_le_used { (mark ≤ used) × (used ≤ length journal.old / record_length l) }
    requires journal_value { every (keeps_record l (length nodes.old / node_length l) (length edges.old / edge_length l)) (records_from l mark used journal.old) ≡ true }
    ensures { (tables_of l nodes.new edges.new ≡ put_back l mark used journal.old (tables_of l nodes.old edges.old)) × (journal.new ≡ cleared_from l mark used journal.old) × RestKept l nodes.old edges.old nodes.new edges.new }
{
    put_back_from(l, nodes, edges, &journal[..], used, mark);
    slots::clear_slots(journal, l.change, mark, used);
}
