// The calls, for a driver in C: byte buffers and numbers in, a number out. What each leaves is fixed on all inputs. Those of the small
// core are the same code at another layout.
#![tactic(auto)]

ghost use Rattle.meaning.specs.Layout.{base, small};
ghost use Rattle.meaning.specs.Calls.{lending, lending_undo, RunPromise, UndoPromise};
ghost use Rattle.meaning.specs.Carrying.{lending_tables, Carries, widen, narrow, pack, unpack};
ghost use Rattle.text.specs.Text.{Exports, import_text, export_text};

use meaning::{Layout, Manner};

pub mod running;

// Runs the image's program on the tables, from an empty journal. A result leaves its records in the journal, and reports steps and
// records; any other end gives the tables back as they came, with an empty journal, and reports the steps.
#[unsafe(no_mangle)]
pub extern "C" fn nhiemavut_run(
    nodes: &mut [u8],
    edges: &mut [u8],
    journal: &mut [u8],
    image: &[u8],
    fuel: u32,
    report: &mut [u8],
) -> u32
    ensures { RunPromise base (lending nodes.old edges.old journal.old image.now fuel report.old) result nodes.new edges.new journal.new report.new }
{
    u32::from(running::run_call(Layout::base(), nodes, edges, journal, image, fuel, report))
}

// Stores the counted records of the journal back from last to first, zeros them, and reports 0 steps and the count.
#[unsafe(no_mangle)]
pub extern "C" fn nhiemavut_undo(
    nodes: &mut [u8],
    edges: &mut [u8],
    journal: &mut [u8],
    count: u32,
    report: &mut [u8],
) -> u32
    ensures { UndoPromise base (lending_undo nodes.old edges.old journal.old count report.old) result nodes.new edges.new journal.new report.new }
{
    u32::from(undo::undo_call(Layout::base(), nodes, edges, journal, count, report))
}

// The small core: labels of at most one atom, slot numbers of one byte.

// Runs the image's program on small tables.
#[unsafe(no_mangle)]
pub extern "C" fn nhiemavut_small_run(
    nodes: &mut [u8],
    edges: &mut [u8],
    journal: &mut [u8],
    image: &[u8],
    fuel: u32,
    report: &mut [u8],
) -> u32
    ensures { RunPromise small (lending nodes.old edges.old journal.old image.now fuel report.old) result nodes.new edges.new journal.new report.new }
{
    u32::from(running::run_call(Layout::small(), nodes, edges, journal, image, fuel, report))
}

// Stores the counted records of a small journal back to small tables.
#[unsafe(no_mangle)]
pub extern "C" fn nhiemavut_small_undo(
    nodes: &mut [u8],
    edges: &mut [u8],
    journal: &mut [u8],
    count: u32,
    report: &mut [u8],
) -> u32
    ensures { UndoPromise small (lending_undo nodes.old edges.old journal.old count report.old) result nodes.new edges.new journal.new report.new }
{
    u32::from(undo::undo_call(Layout::small(), nodes, edges, journal, count, report))
}

// Between layouts, slot numbers kept.

// Carries a host from old tables, with labels of at most four atoms, to tables of as many slots of today's layout.
#[unsafe(no_mangle)]
pub extern "C" fn nhiemavut_widen(
    nodes: &[u8],
    edges: &[u8],
    to_nodes: &mut [u8],
    to_edges: &mut [u8],
) -> u32
    ensures { Carries (widen (lending_tables nodes.now edges.now to_nodes.old to_edges.old)) result to_nodes.new to_edges.new }
{
    u32::from(carrying::carry_tables(
        Manner::Exact,
        Layout::four(),
        Layout::base(),
        nodes,
        edges,
        to_nodes,
        to_edges,
    ))
}

// Carries a host back to old tables, where each of its labels has at most four atoms.
#[unsafe(no_mangle)]
pub extern "C" fn nhiemavut_narrow(
    nodes: &[u8],
    edges: &[u8],
    to_nodes: &mut [u8],
    to_edges: &mut [u8],
) -> u32
    ensures { Carries (narrow (lending_tables nodes.now edges.now to_nodes.old to_edges.old)) result to_nodes.new to_edges.new }
{
    u32::from(carrying::carry_tables(
        Manner::Exact,
        Layout::base(),
        Layout::four(),
        nodes,
        edges,
        to_nodes,
        to_edges,
    ))
}

// Carries a host to small tables, of any slot counts, where its live slots and its labels fit.
#[unsafe(no_mangle)]
pub extern "C" fn nhiemavut_pack(
    nodes: &[u8],
    edges: &[u8],
    to_nodes: &mut [u8],
    to_edges: &mut [u8],
) -> u32
    ensures { Carries (pack (lending_tables nodes.now edges.now to_nodes.old to_edges.old)) result to_nodes.new to_edges.new }
{
    u32::from(carrying::carry_tables(
        Manner::Packing,
        Layout::base(),
        Layout::small(),
        nodes,
        edges,
        to_nodes,
        to_edges,
    ))
}

// Carries a host from small tables to wide ones, of any slot counts, where its live slots fit.
#[unsafe(no_mangle)]
pub extern "C" fn nhiemavut_unpack(
    nodes: &[u8],
    edges: &[u8],
    to_nodes: &mut [u8],
    to_edges: &mut [u8],
) -> u32
    ensures { Carries (unpack (lending_tables nodes.now edges.now to_nodes.old to_edges.old)) result to_nodes.new to_edges.new }
{
    u32::from(carrying::carry_tables(
        Manner::Packing,
        Layout::small(),
        Layout::base(),
        nodes,
        edges,
        to_nodes,
        to_edges,
    ))
}

// Hosts as text.

// Reads a text graph into tables: its nodes and edges take slots in the order read, and the other slots are free.
#[unsafe(no_mangle)]
pub extern "C" fn nhiemavut_import(text: &[u8], nodes: &mut [u8], edges: &mut [u8]) -> u32
    ensures { Carries (import_text base text.now nodes.old edges.old) result nodes.new edges.new }
{
    u32::from(importing::import_text(Layout::base(), text, nodes, edges))
}

// Writes the graph of tables as text, in slot order and under slot numbers, and says how long the text is, also where the buffer is too
// short for it.
#[unsafe(no_mangle)]
pub extern "C" fn nhiemavut_export(
    nodes: &[u8],
    edges: &[u8],
    text: &mut [u8],
    length: &mut u64,
) -> u32
    ensures { Exports (export_text base nodes.now edges.now text.old) result length.new text.new }
{
    u32::from(exporting::export_tables(Layout::base(), nodes, edges, text, length))
}
