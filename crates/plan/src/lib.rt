// The plan of a rule, made once for each search: where the left items lie in the rule's bytes, how their labels are compared,
// which item first has each variable and where, and when each test is decided. An array of numbers that the caller lends.
// Here is what stands where, and what is read by it; crate `planning` makes one.
#![tactic(auto)]

ghost use Rattle.std.specs.Prelude.{◌≡◌, [], ◌+◌, ◌<◌, max, length, get_or};
ghost use Rattle.std.proofs.Math.Option.{some};
ghost use Rattle.meaning.specs.Image.{most_items, only, passes_all, label, test, limits};
ghost use Rattle.meaning.specs.References.{labels};
ghost use Rattle.meaning.specs.Matching.{left_node, left_edge};
ghost use Rattle.plan.specs.Plan.{plan_length, elements_at, lists_at, IsLaid, HasItem, HasNode, HasEdge, For, Marked, edge_end, end_place};

use parts::Counts;

// How many numbers a plan has, and the places of those that there are one or two of, or the first of for each item, variable
// or test. specs/Plan.antt has the same numbers.
#[derive(Drop)]
pub struct At {}

impl At {
    // Left nodes, left edges, interface and tests: how many.
    pub const NODES: usize = 0;

    pub const EDGES: usize = 1;

    pub const INTERFACE: usize = 2;

    pub const TESTS: usize = 3;

    // Where each left item's payload starts and ends.
    pub const START: usize = 4;

    pub const END: usize = 16;

    // The first item with each variable.
    pub const FIRST: usize = 28;

    // How many items decide each test.
    pub const DECIDED: usize = 34;

    // Where the tests, and the variables' types, start and end.
    pub const TESTS_START: usize = 38;

    pub const TESTS_END: usize = 39;

    pub const TYPES_START: usize = 40;

    pub const TYPES_END: usize = 41;

    // The mode: 1 if the rule preserves roots.
    pub const MODE: usize = 42;

    // Of each left label: elements, list variables among them, sort, and the constant that it is.
    pub const ELEMENTS: usize = 43;

    pub const LISTS: usize = 55;

    pub const SORT: usize = 67;

    pub const CONSTANT: usize = 79;

    // Behind how many elements of one atom, and how many lists, each variable's first occurrence stands.
    pub const SINGLES: usize = 91;

    pub const BEFORE: usize = 97;

    pub const LENGTH: usize = 103;
}

// The sorts of labels: one whose elements are compared, one whose length alone decides, and one constant.
#[derive(Drop)]
pub struct Sorted {}

impl Sorted {
    pub const ELEMENTS: usize = 0;

    pub const LENGTH: usize = 1;

    pub const CONSTANT: usize = 2;
}

// The ends of an edge.
#[derive(Clone, Copy)]
pub enum Side {
    Source,
    Target,
}

impl Side {
    // Where an edge's payload has this end.
    fn place(self) -> usize
        ensures { result ≡ end_place self }
    {
        match self {
            Side::Source => 1,
            Side::Target => 2,
        }
    }
}

// A rule of an image, and its plan.
#[derive(Clone, Copy)]
pub struct PlannedRule<'r, 'p> {
    pub bytes: &'r [u8],
    pub plan: &'p [usize; At::LENGTH],
}

impl<'r> PlannedRule<'r, '_> {
    // The label of left item j.
    pub fn pattern(&self, j: usize) -> &'r [u8]
        requires { HasItem self.now.bytes.now self.now.plan.now j }
        ensures { For self.now.bytes.now self.now.plan.now (λ r. label result.now ≡ some (get_or (labels r.left) j [])) }
    {
        let head = if j < self.plan[At::NODES] { 2 } else { 3 };
        &self.bytes[self.plan[At::START + j] + head..self.plan[At::END + j]]
    }

    // The mark of left item j.
    pub fn mark(&self, j: usize) -> u8
        requires { HasItem self.now.bytes.now self.now.plan.now j }
        ensures { For self.now.bytes.now self.now.plan.now (λ r. Marked r j result) }
    {
        self.bytes[self.plan[At::START + j]]
    }

    // The root flag of left node i.
    pub fn root(&self, i: usize) -> u8
        requires { HasNode self.now.bytes.now self.now.plan.now i }
        ensures { For self.now.bytes.now self.now.plan.now (λ r. result ≡ (left_node r i).root) }
    {
        self.bytes[self.plan[At::START + i] + 1]
    }

    // The left node at an end of left edge k.
    pub fn end_of(&self, k: usize, side: Side) -> usize
        requires { HasEdge self.now.bytes.now self.now.plan.now k }
        ensures { For self.now.bytes.now self.now.plan.now (λ r. result ≡ edge_end side (left_edge r k)) }
    {
        let start = self.plan[At::START + (self.plan[At::NODES] + k)];
        usize::from(self.bytes[start + side.place()])
    }

    // The types of the variables.
    pub fn types(&self) -> &'r [u8]
        requires { IsLaid self.now.bytes.now self.now.plan.now }
        ensures { For self.now.bytes.now self.now.plan.now (λ r. result.now ≡ r.variables) }
    {
        &self.bytes[self.plan[At::TYPES_START]..self.plan[At::TYPES_END]]
    }

    // The tests.
    pub fn tests(&self) -> &'r [u8]
        requires { IsLaid self.now.bytes.now self.now.plan.now }
        ensures { For self.now.bytes.now self.now.plan.now (λ r. only passes_all test limits.tests result.now ≡ some r.tests) }
    {
        &self.bytes[self.plan[At::TESTS_START]..self.plan[At::TESTS_END]]
    }
}

// The counts of the label of item j.
pub fn counts(plan: &[usize; At::LENGTH], j: usize) -> Counts
    requires { (length plan.now ≡ plan_length) × (j < most_items) }
    ensures { (result.elements ≡ get_or plan.now (elements_at + j) 0) × (result.lists ≡ get_or plan.now (lists_at + j) 0) }
{
    Counts {
        elements: plan[At::ELEMENTS + j],
        lists: plan[At::LISTS + j],
    }
}

pub fn later(a: usize, b: usize) -> usize
    ensures { result ≡ max a b }
{
    a.max(b)
}
