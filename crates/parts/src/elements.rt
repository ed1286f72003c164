// Walks along the elements of a label: its first element, how many it has, and, of a left label, how many atoms each can take.
ghost use Rattle.std.specs.Prelude.{◌≡◌, List, ℕ, ◌+◌, ◌≤◌, length};
ghost use Rattle.std.proofs.Math.Option.{some};
ghost use Rattle.meaning.specs.Image.{Rule, label};
ghost use Rattle.meaning.specs.References.{takes_list};
ghost use Rattle.meaning.specs.Assigned.{share, spare};
ghost use Rattle.meaning.specs.FirstMatch.{length_fits};
ghost use Rattle.meaning.specs.declared.Element.{Element};
ghost use Rattle.parts.specs.Elements.{Opens, Counted};

use crate::{Counts, reading};
use fields::Field;
use meaning::Element;
use meaning::tags::VariableType;

// Whether an element is a list variable.
pub fn takes_list(types: &[u8], e: Element) -> bool
    ensures { (x : Rule) → x.variables ≡ types.now → result ≡ takes_list x e }
{
    match e {
        Element::Variable(v) => v < types.len() && types[v] == VariableType::LIST,
        _ => false,
    }
}

// The first element, and the place behind it.
pub fn first_element(p: &[u8]) -> Option<(Element, usize)>
    ensures { Opens p.now result }
{
    let Some(Ok(Field { tag, start, end })) = fields::read_field(p, 0) else {
        return None;
    };
    Some((reading::read_element(tag, &p[start..end]), end))
}

pub fn shape(types: &[u8], p: &[u8]) -> Counts
    ensures { (result.lists ≤ result.elements) × ((x : Rule) → x.variables ≡ types.now → (l : List Element) → label p.now ≡ some l → Counted x l result) }
{
    let mut rest = p;
    let mut elements = 0;
    let mut lists = 0;
    while let Some((e, end)) = first_element(rest) {
        rest = &rest[end..];
        elements += 1;
        if takes_list(types, e) {
            lists += 1;
        }
    }
    Counts { elements, lists }
}

// Whether a left label of these counts can take n atoms.
pub fn length_fits(s: Counts, n: usize) -> bool
    requires { s.lists ≤ s.elements }
    ensures { (x : Rule) (l : List Element) (m : List ℕ) → Counted x l s → n ≡ length m → result ≡ length_fits x l m }
{
    if s.lists == 0 {
        n == s.elements
    } else {
        s.elements - s.lists <= n
    }
}

// How many atoms are left for a list, of n in all.
pub fn spare(s: Counts, n: usize) -> usize
    requires { s.lists ≤ s.elements }
    ensures { (result ≤ n) × ((x : Rule) (l : List Element) → Counted x l s → result ≡ spare x l n) }
{
    n.saturating_sub(s.elements - s.lists)
}

// How many atoms an element takes, where a list takes n of them.
pub fn share(types: &[u8], e: Element, n: usize) -> usize
    ensures { (result ≤ n + 1) × ((x : Rule) → x.variables ≡ types.now → result ≡ share x n e) }
{
    if takes_list(types, e) { n } else { 1 }
}
