// Parts of an image, of a rule and of a graph: the bytes of each where they lie, and what stands there; and the walk that asks
// the same of each. Readings of elements and tests are in `reading`, walks along a label in `elements`.
#![tactic(auto)]

ghost use Rattle.std.specs.Prelude.{◌≡◌, List, [], ℕ, ◌+◌, ◌<◌, ◌≤◌, eqb, length, get_or, drop};
ghost use Rattle.std.proofs.Math.Option.{some, none};
ghost use Rattle.meaning.specs.Numbers.{number};
ghost use Rattle.meaning.specs.Image.{Rule, only, passes_all, constant, label, rule_node, rule_edge, RuleNode, RuleEdge, rule_graph, test, Raw, rule, raw_program};
ghost use Rattle.parts.specs.Series.{For, Series, nth_part, nth_tag};
ghost use Rattle.parts.specs.Rows.{tag_item, front, mark_at, graph_item, item_label};
ghost use Rattle.parts.specs.Images.{procedure};
ghost use Rattle.parts.specs.Walked.{Answers};

use fields::{Field, Fields};
use meaning::tags::Tag;

pub mod elements;
pub mod reading;

// How many elements a label has, and how many of them are list variables.
#[derive(Drop)]
pub struct Counts {
    pub elements: usize,
    pub lists: usize,
}

// The byte at a place, 0 if there is none.
pub fn byte_at(p: &[u8], i: usize) -> u8
    ensures { result ≡ get_or p.now i 0 }
{
    if i < p.len() { p[i] } else { 0 }
}

// The same, as a number of a node or a variable.
pub fn number_at(p: &[u8], i: usize) -> usize
    ensures { (result ≡ get_or p.now i 0) × (result < 256) }
{
    usize::from(byte_at(p, i))
}

// Whether the flag in front says yes; it doesn't if there is none.
pub fn flag(p: &[u8]) -> bool
    ensures { result ≡ eqb (get_or p.now 0 0) 1 }
{
    byte_at(p, 0) == 1
}

// The bytes behind the first n.
pub fn behind(p: &[u8], n: usize) -> &[u8]
    ensures { result.now ≡ drop n p.now }
{
    p.get(n..).unwrap_or(&[])
}

// The word of a constant; 0 if there is none.
pub fn word_of(p: &[u8]) -> u32
    ensures { For (constant p.now) (λ c. result ≡ c) × (constant p.now ≡ none → result ≡ 0) }
{
    if p.len() == 4 {
        fields::number4(p, 0) as u32
    } else {
        0
    }
}

// The number of a degree test, behind its node; 0 if there is none.
pub fn degree_of(p: &[u8]) -> usize
    ensures { (length p.now ≡ 3 → result ≡ number (drop 1 p.now)) × ((length p.now ≡ 3 → ⊥) → result ≡ 0) }
{
    if p.len() == 3 {
        fields::number2(p, 1)
    } else {
        0
    }
}

// The payload of the field of number n in a row of fields.
pub fn nth_part(p: &[u8], n: usize) -> &[u8]
    ensures { result.now ≡ nth_part n p.now }
{
    let Some(Ok(Field { start, end, .. })) = fields::nth_field(p, n) else {
        return &[];
    };
    &p[start..end]
}

// Its tag, 0 if there is none.
pub fn nth_tag(p: &[u8], n: usize) -> u8
    ensures { result ≡ nth_tag n p.now }
{
    let Some(Ok(Field { tag, .. })) = fields::nth_field(p, n) else {
        return 0;
    };
    tag
}

// How many fields at the front have a tag.
pub fn count_front(p: &[u8], tag: u8) -> usize
    ensures by_index { (l : List ℕ) → Series tag_item l [] p.now → result ≡ front tag l }
    ensures upper_bound { result ≤ length p.now }
{
    let mut n = 0;
    for field in Fields::of(p) {
        let Ok(Field { tag: t, .. }) = field else {
            return n;
        };
        if t != tag {
            return n;
        }
        n += 1;
    }
    n
}

// How many fields there are.
pub fn count_fields(p: &[u8]) -> usize
    ensures by_index { (l : List ℕ) → Series tag_item l [] p.now → result ≡ length l }
    ensures upper_bound { result ≤ length p.now }
{
    let mut n = 0;
    for field in Fields::of(p) {
        let Ok(_) = field else {
            return n;
        };
        n += 1;
    }
    n
}

// Whether bytes are fields, one after the other, of which each passes a test of its tag and payload.
pub fn every_field<F: Fn(u8, &[u8]) -> bool>(p: &[u8], passes: F) -> bool
    requires { F.IsAlwaysCallable passes }
    ensures { Answers (λ tag part r. F.post passes tag part r) p.now 0 result }
{
    for field in Fields::of(p) {
        let Ok(Field { tag, start, end }) = field else {
            return false;
        };
        if !passes(tag, &p[start..end]) {
            return false;
        }
    }
    true
}

// A graph: its nodes, then its edges.

pub fn node_count(p: &[u8]) -> usize
    ensures fact { For (rule_graph p.now) (λ g. result ≡ length g.nodes) }
    ensures upper_bound { result ≤ length p.now }
{
    count_front(p, Tag::NODE)
}

// The edges behind n nodes.
pub fn edge_count(p: &[u8], n: usize) -> usize
    ensures { For (rule_graph p.now) (λ g. n ≡ length g.nodes → result ≡ length g.edges) }
{
    count_fields(p).saturating_sub(n)
}

pub fn node_part(p: &[u8], i: usize) -> &[u8]
    ensures { For (rule_graph p.now) (λ g. i < length g.nodes → (d : RuleNode) → rule_node result.now ≡ some (get_or g.nodes i d)) }
{
    nth_part(p, i)
}

pub fn edge_part(p: &[u8], i: usize) -> &[u8]
    ensures { For (rule_graph p.now) (λ g. i < length g.edges → (d : RuleEdge) → rule_edge result.now ≡ some (get_or g.edges i d)) }
{
    if i < p.len() {
        nth_part(p, node_count(p) + i)
    } else {
        &[]
    }
}

// The mark of the node of number i, 0 if there is none.
pub fn mark_at(p: &[u8], i: usize) -> u8
    ensures { For (rule_graph p.now) (λ g. result ≡ mark_at g i) }
{
    if i < node_count(p) {
        byte_at(nth_part(p, i), 0)
    } else {
        0
    }
}

// A rule.

pub fn variables_part(p: &[u8]) -> &[u8]
    ensures { For (rule p.now) (λ x. result.now ≡ x.variables) }
{
    nth_part(p, 0)
}

pub fn left_part(p: &[u8]) -> &[u8]
    ensures { For (rule p.now) (λ x. rule_graph result.now ≡ some x.left) }
{
    nth_part(p, 1)
}

pub fn right_part(p: &[u8]) -> &[u8]
    ensures { For (rule p.now) (λ x. rule_graph result.now ≡ some x.right) }
{
    nth_part(p, 2)
}

pub fn interface_of(p: &[u8]) -> usize
    ensures { For (rule p.now) (λ x. result ≡ x.interface) }
{
    number_at(nth_part(p, 3), 0)
}

pub fn tests_part(p: &[u8]) -> &[u8]
    ensures { For (rule p.now) (λ x. only passes_all test 4 result.now ≡ some x.tests) }
{
    nth_part(p, 4)
}

// Whether the rule preserves roots; it doesn't if it has no mode.
pub fn preserving(p: &[u8]) -> bool
    ensures { For (rule p.now) (λ x. result ≡ x.preserving) }
{
    flag(nth_part(p, 5))
}

// How many elements a label has, or tests a rule.

pub fn element_count(p: &[u8]) -> usize
    ensures { For (label p.now) (λ l. result ≡ length l) }
{
    count_fields(p)
}

pub fn test_count(p: &[u8]) -> usize
    ensures { For (only passes_all test 4 p.now) (λ l. result ≡ length l) }
{
    count_fields(p)
}

// The image: its rules, then its procedures, then the main command.

pub fn rule_count(image: &[u8]) -> usize
    ensures { For (raw_program image.now) (λ p. result ≡ length p.rules) }
{
    count_front(image, Tag::RULE)
}

pub fn rule_part(image: &[u8], i: usize) -> &[u8]
    ensures { For (raw_program image.now) (λ p. i < length p.rules → (d : Rule) → rule result.now ≡ some (get_or p.rules i d)) }
{
    nth_part(image, i)
}

// The number of the main command among the fields of the image: it is the last.
fn main_number(image: &[u8]) -> usize
    ensures { For (raw_program image.now) (λ p. result ≡ length p.rules + length p.procedures) }
{
    count_fields(image).saturating_sub(1)
}

pub fn procedure_count(image: &[u8]) -> usize
    ensures { For (raw_program image.now) (λ p. result ≡ length p.procedures) }
{
    main_number(image).saturating_sub(rule_count(image))
}

// The command that a procedure is, as a field. Fields are counted from the first that is no rule.
pub fn procedure_part(image: &[u8], i: usize) -> &[u8]
    ensures { For (raw_program image.now) (λ p. i < length p.procedures → (d : Raw) → procedure result.now ≡ some (get_or p.procedures i d)) }
{
    let mut left = i;
    for field in Fields::of(image) {
        let Ok(Field { tag, start, end }) = field else {
            return &[];
        };
        if tag != Tag::RULE {
            if left == 0 {
                return &image[start..end];
            }
            left -= 1;
        }
    }
    &[]
}

pub fn main_tag(image: &[u8]) -> u8
    ensures { For (raw_program image.now) (λ p. result ≡ nth_tag (length p.rules + length p.procedures) image.now) }
{
    nth_tag(image, main_number(image))
}

pub fn main_part(image: &[u8]) -> &[u8]
    ensures { For (raw_program image.now) (λ p. result.now ≡ nth_part (length p.rules + length p.procedures) image.now) }
{
    nth_part(image, main_number(image))
}

// The label of a node or an edge, from its tag and payload.
pub fn label_part(tag: u8, p: &[u8]) -> &[u8]
    ensures { For (graph_item tag p.now) (λ i. label result.now ≡ some (item_label i)) }
{
    behind(p, if tag == Tag::NODE { 2 } else { 3 })
}
