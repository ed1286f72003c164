// What the labels of a rule's right side come to under the values of the variables, or that a label can't be held.
#![tactic(auto)]

ghost use Rattle.std.specs.Prelude.{◌≡◌, ◌++◌, ◌≤◌, get_or};
ghost use Rattle.meaning.specs.Numbers.{sum, difference};
ghost use Rattle.meaning.specs.Layout.{most_atoms};
ghost use Rattle.meaning.specs.Image.{label, rule_graph};
ghost use Rattle.meaning.specs.Matching.{atom_of};
ghost use Rattle.meaning.specs.Applying.{element_value, label_value};
ghost use Rattle.labels.specs.Labels.{atoms_in, Held, Holds};
ghost use Rattle.parts.specs.Series.{For};
ghost use Rattle.parts.specs.Rows.{graph_item, item_label};
ghost use Rattle.values.specs.Values.{values_of, Stored, as_option, lowered, value_in, Kept, fitting, all_held};

use labels::Label;
use meaning::{Element, Operand, Room};

// The atom whose height is h less 2^31, if there is one.
pub fn lowered(h: u64) -> Option<u32>
    ensures { as_option result ≡ lowered h }
{
    if (0x80000000..0x180000000).contains(&h) {
        Some(labels::height((h - 0x80000000) as u32) as u32)
    } else {
        None
    }
}

// An atom's sum and difference with another, or none if it leaves 32 bits.

pub fn sum(a: u32, b: u32) -> Option<u32>
    ensures { as_option result ≡ sum a b }
{
    lowered(labels::height(a) + labels::height(b))
}

pub fn difference(a: u32, b: u32) -> Option<u32>
    ensures { as_option result ≡ difference a b }
{
    lowered(labels::height(a) + 0x100000000 - labels::height(b))
}

// The values of a match's variables: of each how many atoms it has, and those atoms, from labels::MOST times its number on.
#[derive(Drop)]
pub struct Values {
    pub lens: [usize; Room::VARIABLES],
    pub atoms: [u32; Room::ATOMS],
    pub ghost stored: { Stored lens atoms },
}

// The first atom of a variable's value, 0 if it has none.
pub fn first_atom(values: &Values, v: usize) -> u32
    ensures { result ≡ get_or (values_of values.now.lens values.now.atoms v) 0 0 }
{
    if v < Room::VARIABLES && 0 < values.lens[v] {
        values.atoms[labels::MOST * v]
    } else {
        0
    }
}

pub fn atom_of(values: &Values, o: Operand) -> u32
    ensures { result ≡ atom_of (values_of values.now.lens values.now.atoms) o }
{
    match o {
        Operand::Constant(x) => x,
        Operand::Variable(v) => first_atom(values, v),
    }
}

pub fn value_of(values: &Values, v: usize) -> Label
    ensures { Holds (values_of values.now.lens values.now.atoms v) result }
{
    if v >= Room::VARIABLES {
        return labels::none();
    }
    labels::copied(&values.atoms, labels::MOST * v, values.lens[v])
}

// An element's value, or none if it can't be held.
pub fn element_value(values: &Values, e: Element) -> Option<Label>
    ensures { Kept most_atoms result × (value_in result ≡ element_value (values_of values.now.lens values.now.atoms) e) }
{
    Some(match e {
        Element::Constant(x) => labels::one(x),
        Element::Variable(v) => value_of(values, v),
        Element::Sum(a, b) => labels::one(sum(atom_of(values, a), atom_of(values, b))?),
        Element::Difference(a, b) => labels::one(difference(
            atom_of(values, a),
            atom_of(values, b),
        )?),
    })
}

// Label a with label b behind it, if it has at most `most` atoms.
pub fn joined(a: Label, b: Label, most: usize) -> Option<Label>
    requires { Held a × Held b × (a.len ≤ most) × (most ≤ most_atoms) }
    ensures { Kept most result × (value_in result ≡ fitting most (atoms_in a ++ atoms_in b)) }
{
    let len = a.len + b.len;
    if len > most {
        return None;
    }
    let mut atoms = a.atoms;
    for j in 0..b.len {
        atoms[a.len + j] = b.atoms[j];
    }
    Some(Label { len, atoms })
}

// The value of a label of the right side, or none if it can't be held.
pub fn label_value(most: usize, values: &Values, p: &[u8]) -> Option<Label>
    requires { most ≤ most_atoms }
    ensures { Kept most result × For (label p.now) (λ l. value_in result ≡ label_value most (values_of values.now.lens values.now.atoms) l) }
{
    let mut rest = p;
    let mut so_far = labels::none();
    while let Some((e, end)) = parts::elements::first_element(rest) {
        let next = element_value(values, e)?;
        so_far = joined(so_far, next, most)?;
        rest = &rest[end..];
    }
    Some(so_far)
}

// The value of the label of a right node or edge, from its tag and payload.
pub fn item_value(most: usize, values: &Values, tag: u8, p: &[u8]) -> Option<Label>
    requires { most ≤ most_atoms }
    ensures { Kept most result × For (graph_item tag p.now) (λ i. value_in result ≡ label_value most (values_of values.now.lens values.now.atoms) (item_label i)) }
{
    label_value(most, values, parts::label_part(tag, p))
}

// Whether all labels of a right graph can be held.
pub fn labels_held(most: usize, values: &Values, right: &[u8]) -> bool
    requires { most ≤ most_atoms }
    ensures { For (rule_graph right.now) (λ g. result ≡ all_held most (values_of values.now.lens values.now.atoms) g) }
{
    parts::every_field(right, |tag, p| item_value(most, values, tag, p).is_some())
}
