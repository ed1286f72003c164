// Labels of the slots that items are tried at, and how they compare with the labels of a rule's left items: the values that a
// placement gives the variables, what a label's length and atom tell, and the label compared element by element. All are looked at
// where they lie.
#![tactic(auto)]

ghost use Rattle.std.specs.Prelude.{◌≡◌, ◌+◌, ◌<◌, ◌≤◌, length, get_or};
ghost use Rattle.meaning.specs.Image.{most_items};
ghost use Rattle.meaning.specs.Basics.{same};
ghost use Rattle.meaning.specs.Layout.{most_atoms};
ghost use Rattle.meaning.specs.Matching.{left_nodes, atoms_of, instance};
ghost use Rattle.meaning.specs.Assigned.{assigned};
ghost use Rattle.slots.specs.Laid.{laid};
ghost use Rattle.graph.specs.Hosts.{host_in};
ghost use Rattle.plan.specs.Plan.{label_of, nodes_at, sort_at};
ghost use Rattle.agreeing.specs.Placed.{slots, label_at, slot_of};
ghost use Rattle.agreeing.specs.Agreeing.{Takes, AgreesFrom};
ghost use Rattle.agreeing.specs.Candidates.{Guessed};
ghost use Rattle.agreeing.specs.Lent.{KnownIn, LeftIn, CandidateIn, TriedIn, ValueIn, ElementIn, ElementsIn};

use fields::{Field, Fields};
use graph::Graph;
use meaning::tags::Tag;
use meaning::{Element, Room};
use plan::{At, PlannedRule, Sorted};
use slots::laid;

// Slots of left items, and an item that is tried at a slot; what holds of one is `Trial` of specs/Placed.
#[derive(Clone, Copy)]
pub struct Trial<'a> {
    pub at: &'a [usize; Room::ITEMS],
    pub item: usize,
    pub slot: usize,
}

impl Trial<'_> {
    // The slot of item j.
    pub fn slot_of(&self, j: usize) -> usize
        requires { (length self.now.at.now ≡ most_items) × (j < most_items) }
        ensures { result ≡ slot_of self.now.at.now self.now.item self.now.slot j }
    {
        if j == self.item {
            self.slot
        } else {
            self.at[j]
        }
    }
}

// The label of an item.

// The label in the slot of item j, where it lies.
fn item_label<'a>(host: &Graph<'a, 'a>, plan: &[usize; At::LENGTH], j: usize, x: usize) -> &'a [u8]
    requires { (0 < length plan.now) × (x < slots (host_in host.now) (get_or plan.now nodes_at 0) j) }
    ensures { (laid result.now ≡ label_at (host_in host.now) (get_or plan.now nodes_at 0) j x) × (length (laid result.now) ≤ most_atoms) }
{
    if j < plan[At::NODES] {
        host.node_label(x)
    } else {
        host.edge_label(x)
    }
}

// The values of variables.

// Atoms of a label: so many from a place on.
#[derive(Clone, Copy)]
pub struct Part {
    pub from: usize,
    pub n: usize,
}

// The atoms that variable v takes of a label of len atoms, at the first item that has it.
fn part_of(rule: &PlannedRule, v: usize, len: usize) -> Part
    requires on_left { LeftIn rule.now v }
    requires len_le_most_atoms { len ≤ most_atoms }
    ensures { (result.from + result.n ≤ len) × ((w : LeftIn rule.now v) → Takes w.rule v len result.from result.n) }
{
    let n = parts::elements::spare(plan::counts(rule.plan, rule.plan[At::FIRST + v]), len);
    let k = parts::elements::share(rule.types(), Element::Variable(v), n);
    let place = rule.plan[At::SINGLES + v] + rule.plan[At::BEFORE + v] * n;
    let from = place.min(len);
    Part {
        from,
        n: k.min(len - from),
    }
}

// The value of variable v, where it lies: in the label of item plan[At::FIRST + v], the first to have it.
pub fn value<'a>(host: &Graph<'a, 'a>, rule: &PlannedRule, trial: &Trial, v: usize) -> &'a [u8]
    requires { ValueIn host.now rule.now trial.now v }
    ensures { (length (laid result.now) ≤ most_atoms) × ((w : ValueIn host.now rule.now trial.now v) → laid result.now ≡ assigned (host_in host.now) w.trial.rule w.trial.placed v) }
{
    let j = rule.plan[At::FIRST + v];
    let a = item_label(host, rule.plan, j, trial.slot_of(j));
    let t = part_of(rule, v, laid::count(a));
    laid::part(a, t.from, t.n)
}

// Its first atom, 0 if it has none.
pub fn variable_atom(host: &Graph, rule: &PlannedRule, trial: &Trial, v: usize) -> u32
    requires { ValueIn host.now rule.now trial.now v }
    ensures { (w : ValueIn host.now rule.now trial.now v) → result ≡ get_or (assigned (host_in host.now) w.trial.rule w.trial.placed v) 0 0 }
{
    let b = value(host, rule, trial, v);
    if laid::count(b) == 0 {
        0
    } else {
        laid::atom(b, 0)
    }
}

// Labels compared.

// Where the atoms of label b end in label a, if a has them from a place on.
fn part_agrees(a: &[u8], from: usize, b: &[u8]) -> Option<usize>
    requires { from ≤ length (laid a.now) }
    ensures { AgreesFrom (laid a.now) from (laid b.now) result }
{
    if laid::has_part(a, from, b) {
        Some(from + laid::count(b))
    } else {
        None
    }
}

// Where the atoms that a left element stands for end in label a, if a has them from a place on: a constant's lie in the rule, a
// variable's in a table.
fn element_agrees(
    host: &Graph,
    rule: &PlannedRule,
    trial: &Trial,
    tag: u8,
    p: &[u8],
    a: &[u8],
    from: usize,
) -> Option<usize>
    requires has_element { ElementIn host.now rule.now trial.now tag p.now }
    requires from_in_bounds { from ≤ length (laid a.now) }
    ensures { (w : ElementIn host.now rule.now trial.now tag p.now) → AgreesFrom (laid a.now) from (atoms_of (assigned (host_in host.now) w.trial.rule w.trial.placed) w.element) result }
{
    match tag {
        Tag::CONSTANT => part_agrees(a, from, p),
        Tag::VARIABLE => {
            let v = parts::number_at(p, 0);
            part_agrees(a, from, value(host, rule, trial, v))
        }
        _ => Some(from),
    }
}

// Whether label a is what the elements of p stand for.
fn elements_agree(host: &Graph, rule: &PlannedRule, trial: &Trial, p: &[u8], a: &[u8]) -> bool
    requires { ElementsIn host.now rule.now trial.now p.now }
    ensures { (w : ElementsIn host.now rule.now trial.now p.now) → result ≡ same (laid a.now) (instance (assigned (host_in host.now) w.trial.rule w.trial.placed) w.elements) }
{
    let mut from = 0;
    for field in Fields::of(p) {
        let Ok(Field { tag, start, end }) = field else {
            return false;
        };
        let part = &p[start..end];
        let Some(upto) = element_agrees(host, rule, trial, tag, part, a, from) else {
            return false;
        };
        from = upto;
    }
    from == laid::count(a)
}

// Whether the label in slot c can agree with that of item i, by its length and, where that is one constant, by its atom.
pub fn label_likely(host: &Graph, rule: &PlannedRule, i: usize, c: usize) -> bool
    requires { CandidateIn host.now rule.now i c }
    ensures { (w : KnownIn rule.now) → Guessed w.rule (get_or rule.now.plan.now (sort_at + i) 0) (label_of w.rule i) (label_at (host_in host.now) (left_nodes w.rule) i c) result }
{
    let a = item_label(host, rule.plan, i, c);
    parts::elements::length_fits(plan::counts(rule.plan, i), laid::count(a))
        && (rule.plan[At::SORT + i] != Sorted::CONSTANT
            || laid::atom(a, 0) as usize == rule.plan[At::CONSTANT + i])
}

// Whether the label in the slot tried is what the item's pattern stands for. Both are compared where they lie, the label in its
// table and the pattern in the rule, element by element.
pub fn compared(host: &Graph, rule: &PlannedRule, trial: &Trial) -> bool
    requires { TriedIn host.now rule.now trial.now }
    ensures { (w : TriedIn host.now rule.now trial.now) → result ≡ same (label_at (host_in host.now) (left_nodes w.trial.rule) trial.now.item trial.now.slot) (instance (assigned (host_in host.now) w.trial.rule w.trial.placed) (label_of w.trial.rule trial.now.item)) }
{
    let a = item_label(host, rule.plan, trial.item, trial.slot);
    let p = rule.pattern(trial.item);
    elements_agree(host, rule, trial, p, a)
}
