// Making the plan of a rule, in an array that the caller lends.
#![tactic(auto)]

ghost use Rattle.std.specs.Prelude.{◌≡◌, List, ◌+◌, ◌<◌, length, get_or};
ghost use Rattle.std.proofs.Math.Option.{some};
ghost use Rattle.meaning.specs.Image.{Rule, RuleGraph, rule_graph, element, label};
ghost use Rattle.meaning.specs.declared.Element.{Element};
ghost use Rattle.plan.specs.Plan.{plan_length, Placed, Items, Planned, IsLaid, For, Labelled, IsRule, edges_at, nodes_at};
ghost use Rattle.planning.specs.Planning.{FieldAt, ModeAt, PartsOf, Named, HasGraph, IsNamed, Valued, decided_by, Decides, Plans, operand_decided, variable_of, Occurring, FirstFound, Sorts, OnlyLabel, AllLabelled, IsLabelled};

use fields::{Field, Fields};
use meaning::tags::Tag;
use meaning::{Condition, Element, Operand, Room};
use plan::{At, PlannedRule, Sorted};

// The variable that an element is, from its tag and payload.
fn variable_of(tag: u8, p: &[u8]) -> Option<usize>
    ensures { (e : Element) → element tag p.now ≡ some e → result ≡ variable_of e }
{
    if tag == Tag::VARIABLE {
        Some(parts::number_at(p, 0))
    } else {
        None
    }
}

// Where a label first has a variable: behind so many elements of one atom, and so many lists.
#[derive(Clone, Copy)]
pub struct Behind {
    pub singles: usize,
    pub lists: usize,
}

fn occurrence(types: &[u8], p: &[u8], v: usize) -> Option<Behind>
    ensures { (r : Rule) → r.variables ≡ types.now → (l : List Element) → label p.now ≡ some l → Occurring r v l result }
{
    let mut singles = 0;
    let mut lists = 0;
    for field in Fields::of(p) {
        let Ok(Field { tag, start, end }) = field else {
            return None;
        };
        match variable_of(tag, &p[start..end]) {
            Some(w) if w == v => return Some(Behind { singles, lists }),
            Some(w) if parts::elements::takes_list(types, Element::Variable(w)) => lists += 1,
            _ => singles += 1,
        }
    }
    None
}

// The first left item whose label has a variable, and where the label has it.
#[derive(Clone, Copy)]
pub struct First {
    pub item: usize,
    pub behind: Behind,
}

fn first_with(rule: &PlannedRule, v: usize) -> Option<First>
    requires { IsLaid rule.now.bytes.now rule.now.plan.now }
    ensures { For rule.now.bytes.now rule.now.plan.now (λ r. FirstFound r v result) }
{
    let kinds = rule.types();
    for item in 0..rule.plan[At::NODES] + rule.plan[At::EDGES] {
        if let Some(behind) = occurrence(kinds, rule.pattern(item), v) {
            return Some(First { item, behind });
        }
    }
    None
}

// How many items must be placed before an operand has its value.
fn operand_decided(plan: &[usize; At::LENGTH], o: Operand) -> usize
    requires { Valued plan.now o }
    ensures { result ≡ operand_decided plan.now o }
{
    match o {
        Operand::Constant(_) => 0,
        Operand::Variable(v) => plan[At::FIRST + v] + 1,
    }
}

// How many items must be placed before a condition is decided.
fn decided(plan: &[usize; At::LENGTH], c: Condition) -> usize
    requires { Decides plan.now c }
    ensures { result ≡ decided_by plan.now c }
{
    match c {
        Condition::Edge(a, b) => plan::later(a, b) + 1,
        Condition::InDegree(a, _) | Condition::OutDegree(a, _) => a + 1,
        Condition::Equal(a, b) | Condition::Less(a, b) => plan::later(
            operand_decided(plan, a),
            operand_decided(plan, b),
        ),
    }
}

// The places of the left items, which lie between two places.
fn items(rule: &[u8], start: usize, end: usize, plan: &mut [usize; At::LENGTH])
    requires has_graph { HasGraph rule.now start end }
    requires plan_len { length plan.old ≡ plan_length }
    ensures { (g : RuleGraph) → Placed rule_graph rule.now start end g → Items rule.now g plan.new }
{
    let graph = &rule[start..end];
    let mut j = 0;
    let mut nodes = 0;
    for field in Fields::of(graph) {
        let Ok(item) = field else {
            return;
        };
        plan[At::START + j] = start + item.start;
        plan[At::END + j] = start + item.end;
        j += 1;
        if item.tag == Tag::NODE {
            nodes += 1;
        }
    }
    plan[At::NODES] = nodes;
    plan[At::EDGES] = j - nodes;
}

// The first item with each variable, and where its label has it. Of a variable that no item has, the plan says how many items
// there are.
fn plan_variables(rule: &[u8], plan: &mut [usize; At::LENGTH])
    requires { IsLaid rule.now plan.old }
    ensures { For rule.now plan.old (λ r. Named rule.now r plan.new (length r.variables)) }
{
    let none = First {
        item: plan[At::NODES] + plan[At::EDGES],
        behind: Behind {
            singles: 0,
            lists: 0,
        },
    };
    for v in 0..plan[At::TYPES_END] - plan[At::TYPES_START] {
        let first = first_with(&PlannedRule { bytes: rule, plan }, v).unwrap_or(none);
        plan[At::FIRST + v] = first.item;
        plan[At::SINGLES + v] = first.behind.singles;
        plan[At::BEFORE + v] = first.behind.lists;
    }
}

// How a left label is compared: by its length alone, as one constant, or element by element.
#[derive(Clone, Copy)]
pub enum Sort {
    Length,
    Constant(u32),
    Elements,
}

// The sort of the label of item j.
fn sort_of(types: &[u8], plan: &[usize; At::LENGTH], j: usize, p: &[u8]) -> Sort
    requires { length plan.now ≡ plan_length }
    ensures { (l : List Element) → label p.now ≡ some l → Sorts (length types.now) plan.now j l result }
{
    let Some((e, end)) = parts::elements::first_element(p) else {
        return Sort::Length;
    };
    if end < p.len() {
        return Sort::Elements;
    }
    match e {
        Element::Constant(x) => Sort::Constant(x),
        Element::Variable(v)
            if v < types.len() && v < Room::VARIABLES && plan[At::FIRST + v] == j => Sort::Length,
        _ => Sort::Elements,
    }
}

// The counts and the sort of the label of item j.
fn plan_label(rule: &[u8], plan: &mut [usize; At::LENGTH], j: usize)
    requires named { IsNamed rule.now plan.old }
    requires j_bound { j < get_or plan.old nodes_at 0 + get_or plan.old edges_at 0 }
    ensures { (r : Rule) → Named rule.now r plan.old (length r.variables) → Labelled r plan.new j × OnlyLabel plan.old plan.new j }
{
    let planned = PlannedRule { bytes: rule, plan };
    let kinds = planned.types();
    let p = planned.pattern(j);
    let c = parts::elements::shape(kinds, p);
    plan[At::ELEMENTS + j] = c.elements;
    plan[At::LISTS + j] = c.lists;
    match sort_of(kinds, plan, j, p) {
        Sort::Length => {
            plan[At::SORT + j] = Sorted::LENGTH;
        }
        Sort::Constant(x) => {
            plan[At::SORT + j] = Sorted::CONSTANT;
            plan[At::CONSTANT + j] = x as usize;
        }
        Sort::Elements => {
            plan[At::SORT + j] = Sorted::ELEMENTS;
        }
    }
}

fn plan_labels(rule: &[u8], plan: &mut [usize; At::LENGTH])
    requires { IsNamed rule.now plan.old }
    ensures { (r : Rule) → Named rule.now r plan.old (length r.variables) → AllLabelled rule.now r plan.new }
{
    for j in 0..plan[At::NODES] + plan[At::EDGES] {
        plan_label(rule, plan, j);
    }
}

// The tests, and how many items decide each.
fn plan_tests(rule: &[u8], plan: &mut [usize; At::LENGTH])
    requires { IsLabelled rule.now plan.old }
    ensures { (r : Rule) → AllLabelled rule.now r plan.old → Planned rule.now r plan.new }
{
    let tests = PlannedRule { bytes: rule, plan }.tests();
    let mut t = 0;
    for field in Fields::of(tests) {
        let Ok(Field { tag, start, end }) = field else {
            return;
        };
        let test = parts::reading::read_test(tag, &tests[start..end]);
        plan[At::DECIDED + t] = decided(plan, test.condition);
        t += 1;
    }
    plan[At::TESTS] = t;
}

// The field at a place.
fn place(rule: &[u8], at: usize) -> Option<Field>
    ensures { FieldAt rule.now at result }
{
    fields::read_field(rule, at)?.ok()
}

// The mode at a place, 0 if the rule has none.
fn mode_at(rule: &[u8], at: usize) -> usize
    ensures { ModeAt rule.now at result }
{
    match place(rule, at) {
        Some(Field { start, end, .. }) => parts::number_at(&rule[start..end], 0),
        None => 0,
    }
}

// Where the parts of a rule lie that its plan speaks of.
#[derive(Clone, Copy)]
struct Parts {
    types: Field,
    left: Field,
    interface: Field,
    tests: Field,
}

// They are read one behind the other.
fn parts_of(rule: &[u8]) -> Option<Parts>
    ensures { PartsOf rule.now result }
{
    let types = place(rule, 0)?;
    let left = place(rule, types.end)?;
    let right = place(rule, left.end)?;
    let interface = place(rule, right.end)?;
    let tests = place(rule, interface.end)?;
    Some(Parts {
        types,
        left,
        interface,
        tests,
    })
}

// Makes the plan of a rule.
pub fn make(rule: &[u8], plan: &mut [usize; At::LENGTH])
    requires rule { IsRule rule.now }
    requires plan_len { length plan.old ≡ plan_length }
    ensures { Plans rule.now plan.new }
{
    let parts = parts_of(rule).unwrap();
    items(rule, parts.left.start, parts.left.end, plan);
    plan[At::INTERFACE] = usize::from(rule[parts.interface.start]);
    plan[At::TESTS_START] = parts.tests.start;
    plan[At::TESTS_END] = parts.tests.end;
    plan[At::TYPES_START] = parts.types.start;
    plan[At::TYPES_END] = parts.types.end;
    plan[At::MODE] = mode_at(rule, parts.tests.end);
    plan_variables(rule, plan);
    plan_labels(rule, plan);
    plan_tests(rule, plan);
}
