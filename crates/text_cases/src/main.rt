// Imports or exports each of the stored cases on standard input and writes what the call leaves, a line a case: of an import the number,
// then the nodes and the edges in hexadecimal digits; of an export the number, the length and the buffer. A case holds a byte, 0 to import
// or 1 to export, then nodes and edges, and the text to import or the buffer to export to.
#![tactic(auto)]

// The byte of an export. Any other is to import.
#[derive(Drop)]
pub struct Way {}

impl Way {
    pub const EXPORT: u8 = 1;
}

// Imports a text into tables that are lent, and writes what is left in them.
fn import_lent(text: &[u8], nodes: &mut [u8], edges: &mut [u8]) {
    let number = interpreter::nhiemavut_import(text, nodes, edges);
    io::print_decimal(1, u64::from(number));
    cases::write_hex(nodes);
    cases::write_hex(edges);
    io::write_all(1, b"\n");
}

// Exports tables to a buffer that is lent, and writes what is left in it.
fn export_lent(nodes: &[u8], edges: &[u8], buffer: &mut [u8]) {
    let mut length: u64 = 0;
    let number = interpreter::nhiemavut_export(nodes, edges, buffer, &mut length);
    io::print_decimal(1, u64::from(number));
    io::write_all(1, b" ");
    io::print_decimal(1, length);
    cases::write_hex(buffer);
    io::write_all(1, b"\n");
}

// Imports a case in buffers that hold every part, whose length is written in two bytes.
fn import_case(case: &[u8]) {
    let mut nodes = io::large_buffer();
    let mut edges = io::large_buffer();
    let n = cases::copy(&mut nodes, cases::part(case, 1));
    let e = cases::copy(&mut edges, cases::part(case, 2));
    import_lent(cases::part(case, 3), &mut nodes[..n], &mut edges[..e]);
}

// Exports a case likewise.
fn export_case(case: &[u8]) {
    let mut buffer = io::large_buffer();
    let n = cases::copy(&mut buffer, cases::part(case, 3));
    export_lent(cases::part(case, 1), cases::part(case, 2), &mut buffer[..n]);
}

// Imports or exports a case, by its byte.
fn try_case(case: &[u8]) {
    if parts::byte_at(cases::part(case, 0), 0) == Way::EXPORT {
        export_case(case);
    } else {
        import_case(case);
    }
}

fn main() {
    cases::each_case(try_case);
}
