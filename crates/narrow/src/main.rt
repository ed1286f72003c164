// Reads two tables with room for eight atoms in a label on standard input, and prints them with room for four, or why not. One byte
// more than an input may have is read, so that a longer one is refused.
#![tactic(auto)]

use run_input::RunImage;

fn main() {
    let mut input = [0u8; RunImage::READ];
    let mut out = io::large_buffer();
    let n = io::read_full(0, &mut input);
    let end = carrier::narrow_input(&input[..n], &mut out);
    io::write_all(1, &out[..end]);
}
