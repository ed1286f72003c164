// Text in a lent buffer: bytes, decimal numbers, and the words of a line. Each writer puts its text at a place, and says where it ends.
// The definitions that the contracts cite are in specs/.
#![tactic(auto)]

ghost use Rattle.std.specs.Prelude.{◌∷◌, map, ◌+◌, ◌≤◌, length};
ghost use Rattle.meaning.specs.Layout.{most_atoms};
ghost use Rattle.slots.specs.Laid.{laid};
ghost use Rattle.writing.specs.Words.{space, decimal, signed, mark_name, root_name, number_size, atom_size, mark_size, root_size, label_size};
ghost use Rattle.writing.specs.Lines.{onward};
ghost use Rattle.writing.specs.Text.{Adds};

use meaning::tags::Mark;
use slots::laid;

// Decimal numbers: the most digits of one of eight bytes.
#[derive(Drop)]
pub struct Digits {}

impl Digits {
    pub const MOST: usize = 20;
}

// The 32-bit words that atoms are held as: from the half on, one stands for a negative number, that many below the whole.
#[derive(Drop)]
pub struct AtomWord {}

impl AtomWord {
    pub const HALF: usize = 0x80000000;

    pub const WHOLE: usize = 0x100000000;
}

// Bytes as they are.
pub fn put(out: &mut [u8], at: usize, text: &[u8]) -> usize
    requires { at + length text.now ≤ length out.old }
    ensures { Adds (length text.now) text.now out.old at out.new result }
{
    let end = at + text.len();
    out[at..end].copy_from_slice(text);
    end
}

// The digits of a number.
pub fn put_decimal(out: &mut [u8], at: usize, n: usize) -> usize
    requires { at + length (decimal n) ≤ length out.old }
    ensures { Adds (length (decimal n)) (decimal n) out.old at out.new result }
{
    let mut text = [0u8; Digits::MOST];
    let k = io::decimal(n as u64, &mut text);
    put(out, at, &text[..k])
}

// A number as a word of a line.
pub fn put_number(out: &mut [u8], at: usize, n: usize) -> usize
    requires { at + number_size ≤ length out.old }
    ensures { Adds number_size (space ∷ decimal n) out.old at out.new result }
{
    let start = put(out, at, b" ");
    put_decimal(out, start, n)
}

// An atom as a word of a line.
pub fn put_atom(out: &mut [u8], at: usize, atom: u32) -> usize
    requires { at + atom_size ≤ length out.old }
    ensures { Adds atom_size (space ∷ signed atom) out.old at out.new result }
{
    let n = atom as usize;
    if n < AtomWord::HALF {
        let start = put(out, at, b" ");
        put_decimal(out, start, n)
    } else {
        let start = put(out, at, b" -");
        put_decimal(out, start, AtomWord::WHOLE - n)
    }
}

// A mark by its name.
pub fn put_mark(out: &mut [u8], at: usize, mark: u8) -> usize
    requires { at + mark_size ≤ length out.old }
    ensures { Adds mark_size (space ∷ mark_name mark) out.old at out.new result }
{
    match mark {
        Mark::NONE => put(out, at, b" none"),
        Mark::RED => put(out, at, b" red"),
        Mark::GREEN => put(out, at, b" green"),
        Mark::BLUE => put(out, at, b" blue"),
        Mark::GREY => put(out, at, b" grey"),
        Mark::DASHED => put(out, at, b" dashed"),
        _ => put(out, at, b" "),
    }
}

// Whether a node is a root.
pub fn put_root(out: &mut [u8], at: usize, root: u8) -> usize
    requires { at + root_size ≤ length out.old }
    ensures { Adds root_size (space ∷ root_name root) out.old at out.new result }
{
    if root == 0 {
        put(out, at, b" plain")
    } else {
        put(out, at, b" root")
    }
}

// The atoms of a label that lies in a table as words of a line, and the line's end.
pub fn put_label(out: &mut [u8], start: usize, label: &[u8]) -> usize
    requires label_len_bound { length (laid label.now) ≤ most_atoms }
    requires label_size_in_bounds { start + label_size ≤ length out.old }
    ensures { Adds label_size (onward (map signed (laid label.now))) out.old start out.new result }
{
    let mut at = start;
    for j in 0..laid::count(label) {
        at = put_atom(out, at, laid::atom(label, j));
    }
    put(out, at, b"\n")
}
