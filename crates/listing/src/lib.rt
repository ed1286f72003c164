// The listing of a run, from a run image to text in a lent buffer. The definitions that the contracts cite are in specs/.
#![tactic(auto)]

ghost use Rattle.std.specs.Prelude.{◌≤◌, length};
ghost use Rattle.writing.specs.Text.{Lists};
ghost use Rattle.run_input.specs.Reading.{Inside, input_in};
ghost use Rattle.listing.specs.Listing.{run_outcome, listed, listing};
ghost use Rattle.lines.specs.Rooms.{listing_room};
ghost use Rattle.listing.specs.Rooms.{full_journal, Zeros, Listable};

use meaning::{Core, JournalTable, Layout};
use run_input::Ends;
use writing::put;

// Rooms: the bytes that every listing has room in, those of the longest journal, and those of a report.
#[derive(Drop)]
pub struct Room {}

impl Room {
    pub const LISTING: usize = 262144;

    pub const JOURNAL: usize = JournalTable::MOST * JournalTable::SLOT;

    pub const REPORT: usize = 8;
}

// Runs a program on tables that are lent, and lists the outcome.
fn list_run(
    l: Layout,
    nodes: &mut [u8],
    edges: &mut [u8],
    journal: &mut [u8],
    program: &[u8],
    fuel: u32,
    out: &mut [u8],
) -> usize
    requires listable { Listable l }
    requires listing_room_in_bounds { listing_room ≤ length out.old }
    ensures { Lists (run_outcome l nodes.old edges.old journal.old program.now fuel) out.old out.new result }
{
    let mut report = [0u8; Room::REPORT];
    let answer = interpreter::running::run_call(
        l,
        nodes,
        edges,
        journal,
        program,
        fuel,
        &mut report,
    );
    let number = u32::from(answer);
    lines::put_outcome(l, nodes, edges, number, &report, out)
}

// The longest journal, all zero.
fn empty_journal() -> [u8; Room::JOURNAL]
    ensures { Zeros full_journal result }
{
    [0; Room::JOURNAL]
}

// Copies the parts of an input to where they can be changed, and lists the run.
fn list_parts(l: Layout, image: &[u8], e: Ends, out: &mut [u8]) -> usize
    requires listable { Listable l }
    requires listing_room_in_bounds { listing_room ≤ length out.old }
    requires inside { Inside image.now e }
    ensures { Lists (listed l (input_in image.now (Some e))) out.old out.new result }
{
    let mut nodes = io::large_buffer();
    let mut edges = io::large_buffer();
    let mut journal = empty_journal();
    let n = put(&mut nodes, 0, run_input::nodes_of(image, e));
    let m = put(&mut edges, 0, run_input::edges_of(image, e));
    let j = l.change * run_input::records_of(image, e);
    let fuel = run_input::fuel_of(image, e);
    let program = run_input::program_of(image, e);
    list_run(
        l,
        &mut nodes[..n],
        &mut edges[..m],
        &mut journal[..j],
        program,
        fuel,
        out,
    )
}

// Room for every listing, all zero.
pub fn buffer() -> [u8; Room::LISTING]
    ensures { Zeros listing_room result }
{
    [0; Room::LISTING]
}

// Lists the run of a core's run image in a buffer, and says how long the listing is. The buffer has room for every listing.
pub fn list_image(core: Core, image: &[u8], out: &mut [u8]) -> usize
    requires { listing_room ≤ length out.old }
    ensures { Lists (listing core image.now) out.old out.new result }
{
    match run_input::read_input(image) {
        Some(ends) => list_parts(Layout::of(core), image, ends, out),
        None => put(out, 0, b"input refused\n"),
    }
}
