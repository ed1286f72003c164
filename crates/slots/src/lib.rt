// Slots of host tables and of the journal in lent bytes: where a slot lies, storing and freeing one, zeroing some in a row, and
// which are free. What a slot of a host table holds is in `held`, its label where it lies in `laid`, bytes and numbers are in
// `bytes`. Where a slot starts is reckoned here alone.
#![tactic(auto)]

ghost use Rattle.std.specs.Prelude.{◌≡◌, [], ◌+◌, ◌*◌, ◌/◌, ◌<◌, ◌≤◌, length, get_or, set, replicate};
ghost use Rattle.meaning.specs.Layout.{Sized, fits_table, live, write_node, write_edge, live_at, node_length, edge_length, cut};
ghost use Rattle.meaning.specs.Applying.{lowest_free, free_slots};
ghost use Rattle.laws.specs.Pieces.{stored};
ghost use Rattle.slots.specs.Slots.{states, slots_cleared};

use meaning::Layout;

pub mod bytes;
pub mod held;
pub mod laid;

// Whether a table's length is a multiple of its slot's, with at most so many slots.
pub fn fits_table(table: &[u8], w: usize, most: usize) -> bool
    requires { 0 < w }
    ensures { result ≡ fits_table w most table.now }
{
    let n = table.len();
    n % w == 0 && n / w <= most
}

// Where slot i of a table of so many bytes starts.
pub fn slot_start(len: usize, w: usize, i: usize) -> usize
    requires { i < len / w }
    ensures { (result ≡ i * w) × (result + w ≤ len) }
{
    i * w
}

// The bytes of slot i.
pub fn slot(table: &[u8], w: usize, i: usize) -> &[u8]
    requires { i < length table.now / w }
    ensures { (result.now ≡ get_or (cut w table.now) i []) × (length result.now ≡ w) }
{
    let start = slot_start(table.len(), w, i);
    let end = start + w;
    &table[start..end]
}

// Stores bytes in slot i.
pub fn put_slot(table: &mut [u8], w: usize, i: usize, from: &[u8])
    requires { (i < length table.old / w) × (length from.now ≡ w) }
    ensures { (cut w table.new ≡ set (cut w table.old) i from.now) × (table.new ≡ stored w i from.now table.old) }
{
    let start = slot_start(table.len(), w, i);
    let end = start + w;
    bytes::copy(&mut table[start..end], from);
}

// Stores a live node in slot i.
pub fn store_node(l: Layout, nodes: &mut [u8], i: usize, mark: u8, root: u8, label: &[u32])
    requires sized { Sized l }
    requires i_in_bounds { (i < length nodes.old / node_length l) × (length label.now ≤ l.atoms) }
    ensures { nodes.new ≡ stored (node_length l) i (write_node l (live (record { mark = mark; root = root; label = label.now }))) nodes.old }
{
    let w = l.node;
    let start = slot_start(nodes.len(), w, i);
    let end = start + w;
    held::put_node(l, &mut nodes[start..end], mark, root, label);
}

// Stores a live edge in slot i.
pub fn store_edge(
    l: Layout,
    edges: &mut [u8],
    i: usize,
    mark: u8,
    source: usize,
    target: usize,
    label: &[u32],
)
    requires sized { Sized l }
    requires i_in_bounds { (i < length edges.old / edge_length l) × (length label.now ≤ l.atoms) }
    ensures { edges.new ≡ stored (edge_length l) i (write_edge l (live (record { mark = mark; source = source; target = target; label = label.now }))) edges.old }
{
    let w = l.edge;
    let start = slot_start(edges.len(), w, i);
    let end = start + w;
    held::put_edge(l, &mut edges[start..end], mark, source, target, label);
}

// Frees slot i.
pub fn free_slot(table: &mut [u8], w: usize, i: usize)
    requires { i < length table.old / w }
    ensures { table.new ≡ stored w i (replicate w 0) table.old }
{
    let start = slot_start(table.len(), w, i);
    let end = start + w;
    bytes::clear(&mut table[start..end]);
}

// Zeros the slots from one number up to another.
pub fn clear_slots(table: &mut [u8], w: usize, from: usize, to: usize)
    requires { (from ≤ to) × (to ≤ length table.old / w) }
    ensures { table.new ≡ slots_cleared w from to table.old }
{
    let start = from * w;
    let end = to * w;
    bytes::clear(&mut table[start..end]);
}

// Whether slot i is there and live.
pub fn live_slot(table: &[u8], w: usize, i: usize) -> bool
    requires { 0 < w }
    ensures { result ≡ live_at (states w table.now) i }
{
    i < table.len() / w && held::is_live(slot(table, w, i))
}

// The lowest free slot, or the number of slots where none is free.
pub fn lowest_free(table: &[u8], w: usize) -> usize
    requires { 0 < w }
    ensures { result ≡ lowest_free (states w table.now) }
{
    let n = table.len() / w;
    (0..n).find(|i| !live_slot(table, w, *i)).unwrap_or(n)
}

// How many slots are free.
pub fn free_slots(table: &[u8], w: usize) -> usize
    requires { 0 < w }
    ensures { result ≡ free_slots (states w table.now) }
{
    let n = table.len() / w;
    let mut free = 0;
    for i in 0..n {
        if !live_slot(table, w, i) {
            free += 1;
        }
    }
    free
}
