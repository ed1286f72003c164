// Reads the images of a corpus on standard input, each behind the head of a field (a tag that names its core, and two bytes of
// length), and prints their listings one behind the other. One image is read at a time, so that a corpus may be of any length.
#![tactic(auto)]

use meaning::Core;

// The tags of the images of each core.
#[derive(Drop)]
pub struct Tag {}

impl Tag {
    pub const WIDE: u8 = 0x06;

    pub const SMALL: u8 = 0x08;
}

// Lists the next image, of a core and of n bytes, and says whether it is there.
fn list_image(core: Core, n: usize) -> bool {
    let mut image = io::large_buffer();
    let mut out = listing::buffer();
    if n > image.len() || io::read_full(0, &mut image[..n]) != n {
        return false;
    }
    let end = listing::list_image(core, &image[..n], &mut out);
    io::write_all(1, &out[..end])
}

// The core of an image's tag.
fn core_of(tag: u8) -> Option<Core> {
    match tag {
        Tag::WIDE => Some(Core::Wide),
        Tag::SMALL => Some(Core::Small),
        _ => None,
    }
}

// Lists the next image, and says whether there was one.
fn list_next() -> bool {
    let mut head = [0u8; 3];
    if io::read_full(0, &mut head) != 3 {
        return false;
    }
    let Some(core) = core_of(head[0]) else {
        return false;
    };
    list_image(core, fields::number2(&head, 1))
}

// A proved loop has to end, and nothing says that the input does: it takes turns up to a number that no run uses up.
fn main() {
    for _ in 0..u64::MAX {
        if !list_next() {
            return;
        }
    }
}
