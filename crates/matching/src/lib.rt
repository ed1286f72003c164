// The search for the first match: nested loops over candidate node and edge slots, left from inside at the first full match.
#![tactic(auto)]

ghost use Rattle.std.specs.Prelude.{◌≡◌, false, ℕ, ◌+◌, ◌<◌, ◌≤◌, length, get_or, take};
ghost use Rattle.meaning.specs.FirstMatch.{node_fits, complete as is_complete};
ghost use Rattle.graph.specs.Hosts.{host_in};
ghost use Rattle.slots.specs.Laid.{laid};
ghost use Rattle.plan.specs.Plan.{IsRule, edges_at, nodes_at, plan_length, sort_at};
ghost use Rattle.matching.specs.Next.{end_of, Meets, NextSlot, NextLikely, IsStep};
ghost use Rattle.meaning.specs.Matching.{total};
ghost use Rattle.values.specs.Values.{values_room};
ghost use Rattle.matching.specs.Values.{Copied, HasValues};
ghost use Rattle.matching.specs.Lent.{HandedIn, ReadyIn, OfRule, SoughtIn, IsFirstIn};

use agreeing::Trial;
use graph::Graph;
use meaning::Room;
use plan::{At, PlannedRule, Side};
use slots::laid;
use values::Values;

// What to do at a level: stop at a full match, take a slot, or go back.
#[derive(Clone, Copy)]
pub enum Step {
    Full,
    Take(usize),
    Back,
}

// Candidates for a left node, from the edges that link it to an earlier one.

// The node slot that edge x leaves, or else the one that it arrives at.
fn edge_end(host: &Graph, leaving: bool, x: usize) -> usize
    requires { x < length (host_in host.now).edges }
    ensures { result ≡ end_of (host_in host.now) leaving x }
{
    if leaving {
        host.edge_source(x)
    } else {
        host.edge_target(x)
    }
}

// The other end of edge x, if that is lower than `best` and at c or above, and the edge is live, has one end at slot p and its
// mark agrees; else `best`.
fn nearer(host: &Graph, mark: u8, p: usize, leaving: bool, x: usize, c: usize, best: usize) -> usize
    requires x_in_bounds { x < length (host_in host.now).edges }
    requires c_le_best { c ≤ best }
    ensures { (c ≤ result) × (result ≤ best) × ((y : ℕ) → c ≤ y → y < result → Meets (host_in host.now) mark p leaving x y → ⊥) }
{
    let meets = host.edge_live(x)
        && edge_end(host, leaving, x) == p
        && fitting::marks_agree(mark, host.edge_mark(x));
    if !meets {
        return best;
    }
    let e = edge_end(host, !leaving, x);
    if c <= e && e < best { e } else { best }
}

// The lowest slot from c to n that an edge whose mark agrees joins to slot p; n if there is none.
fn next_end(host: &Graph, mark: u8, p: usize, leaving: bool, c: usize, n: usize) -> usize
    requires { c ≤ n }
    ensures { (c ≤ result) × ((y x : ℕ) → c ≤ y → y < result → x < length (host_in host.now).edges → Meets (host_in host.now) mark p leaving x y → ⊥) }
{
    let mut best = n;
    for x in 0..host.edge_slots() {
        best = nearer(host, mark, p, leaving, x, c, best);
    }
    best
}

// The lowest slot from the one tried to n that is worth a test for the left node: the end of an edge to an earlier node's slot, if there is a
// left edge between the two, and else the slot tried itself.
fn next_candidate(host: &Graph, rule: &PlannedRule, trial: &Trial, n: usize) -> usize
    requires ready { ReadyIn host.now rule.now trial.now.at.now trial.now.item }
    requires i_bound { (trial.now.item < get_or rule.now.plan.now nodes_at 0) × (trial.now.slot ≤ n) }
    ensures { (trial.now.slot ≤ result) × OfRule rule.now (λ r. (x : ℕ) → trial.now.slot ≤ x → x < result → node_fits (host_in host.now) r (take trial.now.item trial.now.at.now) trial.now.item x ≡ false) }
{
    for k in 0..rule.plan[At::EDGES] {
        let s = rule.end_of(k, Side::Source);
        let t = rule.end_of(k, Side::Target);
        if t == trial.item && s < trial.item {
            let mark = rule.mark(rule.plan[At::NODES] + k);
            return next_end(host, mark, trial.at[s], true, trial.slot, n);
        }
        if s == trial.item && t < trial.item {
            let mark = rule.mark(rule.plan[At::NODES] + k);
            return next_end(host, mark, trial.at[t], false, trial.slot, n);
        }
    }
    trial.slot
}

// The next slot.

// The first slot, from the one tried on, that is likely for the left node.
fn next_node(host: &Graph, rule: &PlannedRule, trial: &Trial) -> Option<usize>
    requires ready { ReadyIn host.now rule.now trial.now.at.now trial.now.item }
    requires i_bound { trial.now.item < get_or rule.now.plan.now nodes_at 0 }
    ensures { OfRule rule.now (λ r. NextLikely (host_in host.now) r (get_or rule.now.plan.now (sort_at + trial.now.item) 0) (take trial.now.item trial.now.at.now) trial.now.item trial.now.slot result) }
{
    let n = host.node_slots();
    let mut x = trial.slot;
    while x < n {
        let y = next_candidate(host, rule, &Trial { slot: x, ..*trial }, n);
        if y >= n {
            return None;
        }
        let z = fitting::next_like(host, rule, trial.item, y, n);
        if z >= n {
            return None;
        }
        if z == y {
            if fitting::node_likely(host, rule, &Trial { slot: z, ..*trial }) {
                return Some(z);
            }
            x = z + 1;
        } else {
            x = z;
        }
    }
    None
}

// The first slot, from the one tried on, that is likely for the left edge.
fn next_edge(host: &Graph, rule: &PlannedRule, trial: &Trial) -> Option<usize>
    requires ready { ReadyIn host.now rule.now trial.now.at.now trial.now.item }
    requires nodes_at_bound { (get_or rule.now.plan.now nodes_at 0 ≤ trial.now.item) × (trial.now.item < get_or rule.now.plan.now nodes_at 0 + get_or rule.now.plan.now edges_at 0) }
    ensures { OfRule rule.now (λ r. NextLikely (host_in host.now) r (get_or rule.now.plan.now (sort_at + trial.now.item) 0) (take trial.now.item trial.now.at.now) trial.now.item trial.now.slot result) }
{
    let k = trial.item - rule.plan[At::NODES];
    let a = rule.end_of(k, Side::Source);
    let b = rule.end_of(k, Side::Target);
    let s = trial.at[a];
    let t = trial.at[b];
    (trial.slot..host.edge_slots()).find(|&x| fitting::edge_likely(
        host,
        rule,
        &Trial { slot: x, ..*trial },
        s,
        t,
    ))
}

// The first slot, from the one tried on, that is likely for the item, behind those before it.
fn next_likely(host: &Graph, rule: &PlannedRule, trial: &Trial) -> Option<usize>
    requires ready { ReadyIn host.now rule.now trial.now.at.now trial.now.item }
    requires i_bound { trial.now.item < get_or rule.now.plan.now nodes_at 0 + get_or rule.now.plan.now edges_at 0 }
    ensures { OfRule rule.now (λ r. NextLikely (host_in host.now) r (get_or rule.now.plan.now (sort_at + trial.now.item) 0) (take trial.now.item trial.now.at.now) trial.now.item trial.now.slot result) }
{
    if trial.item < rule.plan[At::NODES] {
        next_node(host, rule, trial)
    } else {
        next_edge(host, rule, trial)
    }
}

// The first that fits.
fn next_slot(host: &Graph, rule: &PlannedRule, trial: &Trial) -> Option<usize>
    requires ready { ReadyIn host.now rule.now trial.now.at.now trial.now.item }
    requires i_bound { trial.now.item < get_or rule.now.plan.now nodes_at 0 + get_or rule.now.plan.now edges_at 0 }
    ensures { OfRule rule.now (λ r. NextSlot (host_in host.now) r (take trial.now.item trial.now.at.now) trial.now.slot result) }
{
    let mut x = trial.slot;
    while let Some(y) = next_likely(host, rule, &Trial { slot: x, ..*trial }) {
        if testing::rest_fits(host, rule, &Trial { slot: y, ..*trial }) {
            return Some(y);
        }
        x = y + 1;
    }
    None
}

// The levels of the search.

// Whether a full placement is a match: nothing is left dangling, and the tests hold.
fn complete(host: &Graph, rule: &PlannedRule, at: &[usize; Room::ITEMS]) -> bool
    requires { ReadyIn host.now rule.now at.now (get_or rule.now.plan.now nodes_at 0 + get_or rule.now.plan.now edges_at 0) }
    ensures { OfRule rule.now (λ r. result ≡ is_complete (host_in host.now) r (take (total r) at.now)) }
{
    let dangling = rule.plan[At::INTERFACE] < rule.plan[At::NODES]
        && fitting::any_dangles(host, rule.plan, at);
    !dangling && testing::all_tests(host, rule, at)
}

// What to do at the level of an item, where the slots from the one tried on are left.
fn advance(host: &Graph, rule: &PlannedRule, trial: &Trial) -> Step
    requires ready { ReadyIn host.now rule.now trial.now.at.now trial.now.item }
    requires i_bound { trial.now.item ≤ get_or rule.now.plan.now nodes_at 0 + get_or rule.now.plan.now edges_at 0 }
    ensures { OfRule rule.now (λ r. IsStep (host_in host.now) r (take trial.now.item trial.now.at.now) trial.now.item trial.now.slot result) }
{
    if trial.item == rule.plan[At::NODES] + rule.plan[At::EDGES] {
        return if complete(host, rule, trial.at) {
            Step::Full
        } else {
            Step::Back
        };
    }
    match next_slot(host, rule, trial) {
        Some(x) => Step::Take(x),
        None => Step::Back,
    }
}

// The values of the variables.

// Copies the atoms of a label out of its table, to a place.
fn put_atoms(atoms: &mut [u32; Room::ATOMS], start: usize, a: &[u8])
    requires { (start + length (laid a.now) ≤ values_room) × (length atoms.old ≡ values_room) }
    ensures { Copied start (laid a.now) atoms.old atoms.new }
{
    for j in 0..laid::count(a) {
        atoms[start + j] = laid::atom(a, j);
    }
}

// Writes the values that a full placement gives the variables.
fn assign(host: &Graph, rule: &PlannedRule, at: &[usize; Room::ITEMS], values: &mut Values)
    requires { ReadyIn host.now rule.now at.now (get_or rule.now.plan.now nodes_at 0 + get_or rule.now.plan.now edges_at 0) }
    ensures { OfRule rule.now (λ r. HasValues (host_in host.now) r (take (total r) at.now) (length r.variables) values.new.lens values.new.atoms) }
{
    let whole = Trial {
        at,
        item: Room::ITEMS,
        slot: 0,
    };
    let m = rule.plan[At::NODES] + rule.plan[At::EDGES];
    for v in 0..rule.types().len() {
        if rule.plan[At::FIRST + v] < m {
            // lent again, since a label lives as long as its own table
            let a = agreeing::value(&*host, rule, &whole, v);
            values.lens[v] = laid::count(a);
            put_atoms(&mut values.atoms, labels::MOST * v, a);
        }
    }
}

// The search.

// The first placement of the left items, node slots in left order and then edge slots, with the values of the variables.
fn search(host: &Graph, rule: &PlannedRule, values: &mut Values) -> Option<[usize; Room::ITEMS]>
    requires { HandedIn host.now rule.now }
    ensures { SoughtIn host.now rule.now result values.new }
{
    let mut at = [0usize; Room::ITEMS];
    let mut i: usize = 0;
    let mut c: usize = 0;
    'found: loop {
        loop {
            let trial = Trial {
                at: &at,
                item: i,
                slot: c,
            };
            match advance(host, rule, &trial) {
                Step::Full => break 'found,
                Step::Take(x) => {
                    at[i] = x;
                    i += 1;
                    c = 0;
                }
                Step::Back => break,
            }
        }
        if i == 0 {
            return None;
        }
        i -= 1;
        c = at[i] + 1;
    }
    assign(host, rule, &at, values);
    Some(at)
}

// The slots of the first match of a rule, from its part of the image. The caller lends room for the rule's plan and for the values of its
// variables.
pub fn first_match(
    host: &Graph,
    rule: &[u8],
    plan: &mut [usize; At::LENGTH],
    values: &mut Values,
) -> Option<[usize; Room::ITEMS]>
    requires rule { IsRule rule.now }
    requires plan_len { length plan.old ≡ plan_length }
    ensures { (length plan.new ≡ plan_length) × IsFirstIn host.now rule.now result values.new }
{
    planning::make(rule, plan);
    search(host, &PlannedRule { bytes: rule, plan }, values)
}
