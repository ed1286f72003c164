// Carries each of the stored cases on standard input and writes what the call leaves, a line a case: the number, then the nodes and
// the edges that were carried to in hexadecimal digits. A case holds a byte, 0 to widen, 1 to narrow, 2 to pack or 3 to unpack, then
// nodes and edges, and the nodes and edges to carry to.
#![tactic(auto)]

// The byte of each call. Any other is to widen.
#[derive(Drop)]
pub struct Way {}

impl Way {
    pub const NARROW: u8 = 1;

    pub const PACK: u8 = 2;

    pub const UNPACK: u8 = 3;
}

// The call of a byte.
fn call(way: u8, nodes: &[u8], edges: &[u8], to_nodes: &mut [u8], to_edges: &mut [u8]) -> u32 {
    match way {
        Way::NARROW => interpreter::nhiemavut_narrow(nodes, edges, to_nodes, to_edges),
        Way::PACK => interpreter::nhiemavut_pack(nodes, edges, to_nodes, to_edges),
        Way::UNPACK => interpreter::nhiemavut_unpack(nodes, edges, to_nodes, to_edges),
        _ => interpreter::nhiemavut_widen(nodes, edges, to_nodes, to_edges),
    }
}

// Carries a case to tables that are lent, and writes what is left in them.
fn carry_lent(case: &[u8], to_nodes: &mut [u8], to_edges: &mut [u8]) {
    let number = call(
        parts::byte_at(cases::part(case, 0), 0),
        cases::part(case, 1),
        cases::part(case, 2),
        to_nodes,
        to_edges,
    );
    io::print_decimal(1, u64::from(number));
    cases::write_hex(to_nodes);
    cases::write_hex(to_edges);
    io::write_all(1, b"\n");
}

// Carries a case in buffers that hold every part, whose length is written in two bytes.
fn carry_case(case: &[u8]) {
    let mut to_nodes = io::large_buffer();
    let mut to_edges = io::large_buffer();
    let n = cases::copy(&mut to_nodes, cases::part(case, 3));
    let e = cases::copy(&mut to_edges, cases::part(case, 4));
    carry_lent(case, &mut to_nodes[..n], &mut to_edges[..e]);
}

fn main() {
    cases::each_case(carry_case);
}
