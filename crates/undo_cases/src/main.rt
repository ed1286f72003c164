// Undoes each of the stored cases on standard input and writes what the call leaves, a line a case: the number, then report,
// nodes, edges and journal in hexadecimal digits. A case holds nodes, edges, journal, count and report, and a byte for its core, 0 for
// the wide one or 1 for the small one.
#![tactic(auto)]

use meaning::Core;

// The core of a case.
fn core_of(case: &[u8]) -> Core {
    if parts::flag(cases::part(case, 5)) {
        Core::Small
    } else {
        Core::Wide
    }
}

// The call of a core.
fn undo(
    core: Core,
    nodes: &mut [u8],
    edges: &mut [u8],
    journal: &mut [u8],
    count: u32,
    report: &mut [u8],
) -> u32 {
    match core {
        Core::Wide => interpreter::nhiemavut_undo(nodes, edges, journal, count, report),
        Core::Small => interpreter::nhiemavut_small_undo(nodes, edges, journal, count, report),
    }
}

// Undoes and writes what is left.
fn undo_lent(
    core: Core,
    nodes: &mut [u8],
    edges: &mut [u8],
    journal: &mut [u8],
    count: u32,
    report: &mut [u8],
) {
    let number = undo(core, nodes, edges, journal, count, report);
    io::print_decimal(1, u64::from(number));
    cases::write_hex(report);
    cases::write_hex(nodes);
    cases::write_hex(edges);
    cases::write_hex(journal);
    io::write_all(1, b"\n");
}

// Undoes a case in buffers that hold every part, whose length is written in two bytes.
fn undo_case(case: &[u8]) {
    let mut nodes = io::large_buffer();
    let mut edges = io::large_buffer();
    let mut journal = io::large_buffer();
    let mut report = io::large_buffer();
    let n = cases::copy(&mut nodes, cases::part(case, 0));
    let e = cases::copy(&mut edges, cases::part(case, 1));
    let j = cases::copy(&mut journal, cases::part(case, 2));
    let r = cases::copy(&mut report, cases::part(case, 4));
    let count = cases::word(case, 3);
    undo_lent(
        core_of(case),
        &mut nodes[..n],
        &mut edges[..e],
        &mut journal[..j],
        count,
        &mut report[..r],
    );
}

fn main() {
    cases::each_case(undo_case);
}
