// Labels in hand: those of a rule's right side while they are made, from the values of variables; the height of an atom.
#![tactic(auto)]

ghost use Rattle.std.specs.Prelude.{◌≡◌, [], ◌∷◌, ◌+◌, ◌<◌, ◌≤◌, length, take, drop};
ghost use Rattle.meaning.specs.Numbers.{height};
ghost use Rattle.meaning.specs.Layout.{most_atoms};
ghost use Rattle.labels.specs.Labels.{Holds};

// The most atoms of a label that there is room for, at any layout.
pub const MOST: usize = 8;

// A label in hand.
#[derive(Clone, Copy)]
pub struct Label {
    pub len: usize,
    pub atoms: [u32; MOST],
}

pub fn none() -> Label
    ensures { Holds [] result }
{
    Label {
        len: 0,
        atoms: [0u32; MOST],
    }
}

pub fn one(x: u32) -> Label
    ensures { Holds (x ∷ []) result }
{
    let mut atoms = [0u32; MOST];
    atoms[0] = x;
    Label { len: 1, atoms }
}

// The n atoms from a place on.
pub fn copied(atoms: &[u32], from: usize, n: usize) -> Label
    requires { (n ≤ most_atoms) × (from + n ≤ length atoms.now) }
    ensures { Holds (take n (drop from atoms.now)) result }
{
    let mut out = [0u32; MOST];
    for j in 0..n {
        out[j] = atoms[from + j];
    }
    Label { len: n, atoms: out }
}

// An atom's signed value plus 2^31; and back, by the same step.
pub fn height(x: u32) -> u64
    ensures { (result ≡ height x) × (result < 0x100000000) }
{
    (u64::from(x) + 0x80000000) % 0x100000000
}
