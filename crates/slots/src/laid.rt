// Labels where they lie: the bytes of their atoms, one behind the other, in a slot of a table or, a constant's, in a rule. Two labels
// are compared there, atom by atom.
ghost use Rattle.std.specs.Prelude.{◌≡◌, true, ◌+◌, ◌<◌, ◌≤◌, length, get_or, take, drop};
ghost use Rattle.meaning.specs.Basics.{same};
ghost use Rattle.slots.specs.Laid.{laid};

use crate::held::Size;

// How many atoms there are.
pub fn count(a: &[u8]) -> usize
    ensures { result ≡ length (laid a.now) }
{
    a.len() / Size::ATOM
}

// The atom of number k.
pub fn atom(a: &[u8], k: usize) -> u32
    requires { k < length (laid a.now) }
    ensures { result ≡ get_or (laid a.now) k 0 }
{
    fields::number4(a, Size::ATOM * k) as u32
}

// The n atoms from a place on.
pub fn part(a: &[u8], from: usize, n: usize) -> &[u8]
    requires { from + n ≤ length (laid a.now) }
    ensures { laid result.now ≡ take n (drop from (laid a.now)) }
{
    let start = Size::ATOM * from;
    let end = start + Size::ATOM * n;
    &a[start..end]
}

// Whether label a has, from a place on, the atoms of label b.
pub fn has_part(a: &[u8], from: usize, b: &[u8]) -> bool
    requires { from ≤ length (laid a.now) }
    ensures { (result ≡ same (take (length (laid b.now)) (drop from (laid a.now))) (laid b.now)) × (result ≡ true → from + length (laid b.now) ≤ length (laid a.now)) }
{
    let n = count(b);
    n <= count(a) - from && (0..n).all(|j| atom(a, from + j) == atom(b, j))
}
