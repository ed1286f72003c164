// What is asked of elements, operands, labels, graphs and tests. `types` are the types of a rule's variables.
ghost use Rattle.std.specs.Prelude.{◌≡◌, List, ℕ, ltb};
ghost use Rattle.meaning.specs.Basics.{both, every};
ghost use Rattle.meaning.specs.Image.{limits, only, passes_all, label, rule_graph, test};
ghost use Rattle.meaning.specs.References.{condition_operands, condition_nodes};
ghost use Rattle.meaning.specs.declared.Operand.TheVariants.{Constant as constant_operand, Variable as variable_operand};
ghost use Rattle.meaning.specs.declared.Element.TheVariants.{Variable};
ghost use Rattle.parts.specs.Series.{For};
ghost use Rattle.parts.specs.Rows.{graph_item};
ghost use Rattle.references.specs.Asked.{operand_asked, element_asked, lists_in, ends_below, edge_marked, item_fits, item_asked, graph_asked, condition_fits, condition_asked, test_asked};

use crate::Ask;
use meaning::tags::{Mark, Tag, VariableType};
use meaning::{Condition, Element, Operand};

// A variable that is an element.
fn variable_holds(ask: Ask, v: usize, types: &[u8]) -> bool
    ensures { result ≡ element_asked ask types.now (Variable v) }
{
    match ask {
        Ask::Left(_) | Ask::Right(_) => v < types.len(),
        Ask::Lacks(u) => v != u,
    }
}

// A variable that is an operand. One that is int exists.
fn operand_variable_holds(ask: Ask, v: usize, types: &[u8]) -> bool
    ensures { result ≡ operand_asked ask types.now (variable_operand v) }
{
    match ask {
        Ask::Left(_) => false,
        Ask::Right(_) => parts::byte_at(types, v) == VariableType::INT,
        Ask::Lacks(u) => v != u,
    }
}

// The left side has no operands.
fn constant_holds(ask: Ask) -> bool
    ensures { (ts : List ℕ) (c : ℕ) → result ≡ operand_asked ask ts (constant_operand c) }
{
    !matches!(ask, Ask::Left(_))
}

fn operand_holds(ask: Ask, o: Operand, types: &[u8]) -> bool
    ensures { result ≡ operand_asked ask types.now o }
{
    match o {
        Operand::Constant(_) => constant_holds(ask),
        Operand::Variable(v) => operand_variable_holds(ask, v, types),
    }
}

// Both operands of a sum, a difference or a relation.
#[tactic(auto, unfolding(meaning::specs::Basics::both))]
fn operands_hold(ask: Ask, a: Operand, b: Operand, types: &[u8]) -> bool
    ensures { result ≡ both (operand_asked ask types.now a) (operand_asked ask types.now b) }
{
    operand_holds(ask, a, types) && operand_holds(ask, b, types)
}

fn element_holds(ask: Ask, e: Element, types: &[u8]) -> bool
    ensures { result ≡ element_asked ask types.now e }
{
    match e {
        Element::Constant(_) => true,
        Element::Variable(v) => variable_holds(ask, v, types),
        Element::Sum(a, b) | Element::Difference(a, b) => operands_hold(ask, a, b, types),
    }
}

fn label_holds(ask: Ask, p: &[u8], types: &[u8]) -> bool
    ensures { For (label p.now) (λ l. result ≡ every (element_asked ask types.now) l) }
{
    parts::every_field(
        p,
        |tag, part| element_holds(ask, parts::reading::read_element(tag, part), types),
    )
}

#[tactic(auto, unfolding(meaning::specs::Basics::both))]
fn both_below(a: usize, b: usize, n: usize) -> bool
    ensures { result ≡ both (ltb a n) (ltb b n) }
{
    a < n && b < n
}

// Whether the ends of an edge are among n nodes; a node has none.
fn ends_exist(tag: u8, p: &[u8], n: usize) -> bool
    ensures { For (graph_item tag p.now) (λ i. result ≡ ends_below n i) }
{
    tag == Tag::NODE || both_below(parts::number_at(p, 1), parts::number_at(p, 2), n)
}

// Whether an edge has another mark than any.
fn edge_marked(tag: u8, p: &[u8]) -> bool
    ensures { For (graph_item tag p.now) (λ i. result ≡ edge_marked i) }
{
    tag == Tag::NODE || parts::byte_at(p, 0) != Mark::ANY
}

// How many elements of a label are list variables.
fn lists_in(types: &[u8], p: &[u8]) -> usize
    ensures { For (label p.now) (λ l. result ≡ lists_in types.now l) }
{
    parts::elements::shape(types, p).lists
}

// What is asked of a node or an edge beside the elements of its label.
#[tactic(auto, unfolding(meaning::specs::Basics::both, crate::specs::Asked::item_fits))]
fn item_fits(ask: Ask, tag: u8, p: &[u8], types: &[u8]) -> bool
    ensures { For (graph_item tag p.now) (λ i. result ≡ item_fits ask types.now i) }
{
    match ask {
        Ask::Left(n) => lists_in(types, parts::label_part(tag, p)) <= 1 && ends_exist(tag, p, n),
        Ask::Right(n) => edge_marked(tag, p) && ends_exist(tag, p, n),
        Ask::Lacks(_) => true,
    }
}

// A node or an edge, from its tag and payload.
#[tactic(auto, unfolding(meaning::specs::Basics::both, crate::specs::Asked::item_asked))]
fn item_holds(ask: Ask, tag: u8, p: &[u8], types: &[u8]) -> bool
    ensures { For (graph_item tag p.now) (λ i. result ≡ item_asked ask types.now i) }
{
    item_fits(ask, tag, p, types) && label_holds(ask, parts::label_part(tag, p), types)
}

pub fn graph_holds(ask: Ask, p: &[u8], types: &[u8]) -> bool
    ensures { For (rule_graph p.now) (λ g. result ≡ graph_asked ask types.now g) }
{
    parts::every_field(p, |tag, part| item_holds(ask, tag, part, types))
}

#[tactic(auto, unfolding(meaning::specs::Basics::both, meaning::specs::Basics::every, meaning::specs::References::condition_operands))]
fn condition_operands_hold(ask: Ask, c: Condition, types: &[u8]) -> bool
    ensures { result ≡ every (operand_asked ask types.now) (condition_operands c) }
{
    match c {
        Condition::Edge(_, _) | Condition::InDegree(_, _) | Condition::OutDegree(_, _) => true,
        Condition::Equal(a, b) | Condition::Less(a, b) => operands_hold(ask, a, b, types),
    }
}

#[tactic(auto, unfolding(meaning::specs::Basics::both, meaning::specs::Basics::every, meaning::specs::References::condition_nodes))]
fn condition_nodes_exist(c: Condition, n: usize) -> bool
    ensures { result ≡ every (λ a. ltb a n) (condition_nodes c) }
{
    match c {
        Condition::Edge(a, b) => both_below(a, b, n),
        Condition::InDegree(a, _) | Condition::OutDegree(a, _) => a < n,
        Condition::Equal(_, _) | Condition::Less(_, _) => true,
    }
}

// What is asked of a test beside its operands.
#[tactic(auto, unfolding(crate::specs::Asked::condition_fits))]
fn condition_fits(ask: Ask, c: Condition) -> bool
    ensures { result ≡ condition_fits ask c }
{
    match ask {
        Ask::Left(n) | Ask::Right(n) => condition_nodes_exist(c, n),
        Ask::Lacks(_) => true,
    }
}

#[tactic(auto, unfolding(meaning::specs::Basics::both, crate::specs::Asked::condition_asked))]
fn condition_holds(ask: Ask, c: Condition, types: &[u8]) -> bool
    ensures { result ≡ condition_asked ask types.now c }
{
    condition_fits(ask, c) && condition_operands_hold(ask, c, types)
}

pub fn tests_hold(ask: Ask, p: &[u8], types: &[u8]) -> bool
    ensures { For (only passes_all test limits.tests p.now) (λ l. result ≡ every (test_asked ask types.now) l) }
{
    parts::every_field(
        p,
        |tag, part| condition_holds(ask, parts::reading::read_test(tag, part).condition, types),
    )
}
