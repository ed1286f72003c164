// Reads a run image on standard input, and prints the listing of its run. One byte more than an image may have is read, so
// that a longer one is refused.
#![tactic(auto)]

use meaning::Core;
use run_input::RunImage;

fn main() {
    let mut image = [0u8; RunImage::READ];
    let mut out = listing::buffer();
    let n = io::read_full(0, &mut image);
    let end = listing::list_image(Core::Wide, &image[..n], &mut out);
    io::write_all(1, &out[..end]);
}
