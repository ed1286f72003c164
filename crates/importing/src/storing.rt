// The slots of a table, written from the text: each item in the slot of its number, and free slots behind.
ghost use Rattle.std.specs.Prelude.{◌≡◌, [], ◌*◌, ◌/◌, ◌<◌, ◌≤◌, length};
ghost use Rattle.meaning.specs.Layout.{Sized, most_atoms};
ghost use Rattle.meaning.specs.declared.Table.{Table};
ghost use Rattle.host.specs.Tables.{slot_length};
ghost use Rattle.importing.specs.Tables.{Item, Items, StoresItem, StoresSlot, StoresTable};

use crate::names::find;
use host::slot_length;
use meaning::{Layout, Table};

// Stores the node whose identifier is at a place in slot x.
fn store_node(l: Layout, text: &[u8], at: usize, x: usize, out: &mut [u8])
    requires sized { Sized l × (l.atoms ≤ most_atoms) }
    requires x_in_bounds { x < length out.old / slot_length l Table.Nodes }
    requires item { Item l text.now Table.Nodes at }
    ensures { StoresItem l text.now [] Table.Nodes at x out.old out.new }
{
    let n = items::read_node(text, at).unwrap();
    let label = n.label.unwrap();
    slots::store_node(l, out, x, n.mark, n.root, &label.atoms[..label.len]);
}

// Stores the edge whose identifier is at a place in slot x, its ends by the numbers of their names.
fn store_edge(l: Layout, text: &[u8], node_places: &[usize], at: usize, x: usize, out: &mut [u8])
    requires sized { Sized l × (l.atoms ≤ most_atoms) }
    requires x_in_bounds { x < length out.old / slot_length l Table.Edges }
    requires item { Item l text.now Table.Edges at }
    ensures { StoresItem l text.now node_places.now Table.Edges at x out.old out.new }
{
    let e = items::read_edge(text, at).unwrap();
    let label = e.label.unwrap();
    let n = node_places.len();
    let source = find(text, node_places, e.source).unwrap_or(n);
    let target = find(text, node_places, e.target).unwrap_or(n);
    slots::store_edge(l, out, x, e.mark, source, target, &label.atoms[..label.len]);
}

// Stores the item of number x of a table in slot x, or frees it where there is none.
fn store_slot(
    l: Layout,
    text: &[u8],
    which: Table,
    node_places: &[usize],
    places: &[usize],
    x: usize,
    out: &mut [u8],
)
    requires sized { Sized l × (l.atoms ≤ most_atoms) }
    requires x_in_bounds { x < length out.old / slot_length l which }
    requires items { Items l text.now which places.now }
    ensures { StoresSlot l text.now node_places.now which places.now x out.old out.new }
{
    if x < places.len() {
        let at = places[x];
        match which {
            Table::Nodes => store_node(l, text, at, x, out),
            Table::Edges => store_edge(l, text, node_places, at, x, out),
        }
    } else {
        slots::free_slot(out, slot_length(l, which), x);
    }
}

// Writes a table of n slots.
pub fn store_table(
    l: Layout,
    text: &[u8],
    which: Table,
    node_places: &[usize],
    places: &[usize],
    n: usize,
    out: &mut [u8],
)
    requires sized { Sized l × (l.atoms ≤ most_atoms) }
    requires places_len_bound { (length places.now ≤ n) × (length out.old ≡ n * slot_length l which) }
    requires items { Items l text.now which places.now }
    ensures { StoresTable l text.now node_places.now which places.now n out.new }
{
    for x in 0..n {
        store_slot(l, text, which, node_places, places, x, out);
    }
}
