// Candidates of the search by all but label and tests: whether a slot can stand for a left item by the slot alone and beside the
// items placed so far; and whether a full placement leaves an edge dangling.
#![tactic(auto)]

ghost use Rattle.std.specs.Prelude.{◌≡◌, true, ◌+◌, ◌-◌, ◌<◌, ◌≤◌, length, get_or, take, drop};
ghost use Rattle.meaning.specs.Basics.{exists, all, count, absent};
ghost use Rattle.meaning.specs.Layout.{Host};
ghost use Rattle.meaning.specs.Image.{Rule, most_items};
ghost use Rattle.meaning.specs.Matching.{left_nodes, left_edges, left_node, left_edge, node_slot, total, roots_agree};
ghost use Rattle.meaning.specs.FirstMatch.{marks_agree, linked as isLinked, left_touches, can_go, dangles as isDangling};
ghost use Rattle.graph.specs.Hosts.{host_in};
ghost use Rattle.plan.specs.Plan.{For, IsLaid, HasEdge, edges_at, interface_at, nodes_at, sort_at};
ghost use Rattle.agreeing.specs.Placed.{Inside};
ghost use Rattle.agreeing.specs.Candidates.{Likely};
ghost use Rattle.agreeing.specs.Lent.{KnownIn, TriedIn};
ghost use Rattle.fitting.specs.Fitting.{Numbers, HasRoom, joins_at, gone_at, NodeLike, NextLike};
ghost use Rattle.fitting.specs.Lent.{EdgeIn};

use agreeing::Trial;
use graph::Graph;
use meaning::Room;
use meaning::tags::{Mark, Mode};
use plan::{At, PlannedRule, Side};

// Marks, roots, slots and edges.

#[tactic(auto, unfolding(meaning::specs::FirstMatch::marks_agree, meaning::specs::Basics::either))]
pub fn marks_agree(left: u8, mark: u8) -> bool
    ensures { result ≡ marks_agree left mark }
{
    left == Mark::ANY || left == mark
}

// Whether a left node's root flag agrees with a host node's.
#[tactic(auto, unfolding(meaning::specs::Matching::roots_agree, meaning::specs::Basics::either, meaning::specs::Basics::both))]
fn roots_agree(preserving: bool, left: u8, host: u8) -> bool
    ensures { result ≡ roots_agree preserving left host }
{
    left == host || preserving && left == 0
}

// Whether slot c is none of at[from..to].
fn absent(at: &[usize; Room::ITEMS], from: usize, to: usize, c: usize) -> bool
    requires { (from ≤ to) × (to ≤ most_items) × (length at.now ≡ most_items) }
    ensures { result ≡ absent c (drop from (take to at.now)) }
{
    at[from..to].iter().all(|x| *x != c)
}

// Whether host edge x can stand for left edge k, whose ends are at slots s and t, as far as its mark and ends go.
#[tactic(auto, unfolding(meaning::specs::Basics::both))]
fn joins(host: &Graph, rule: &PlannedRule, k: usize, s: usize, t: usize, x: usize) -> bool
    requires has_edge { HasEdge rule.now.bytes.now rule.now.plan.now k }
    requires x_in_bounds { x < length (host_in host.now).edges }
    ensures { For rule.now.bytes.now rule.now.plan.now (λ r. result ≡ joins_at (host_in host.now) r k s t x) }
{
    host.edge_runs(s, t, x) && marks_agree(rule.mark(rule.plan[At::NODES] + k), host.edge_mark(x))
}

fn any_joins(host: &Graph, rule: &PlannedRule, k: usize, s: usize, t: usize) -> bool
    requires { HasEdge rule.now.bytes.now rule.now.plan.now k }
    ensures { For rule.now.bytes.now rule.now.plan.now (λ r. result ≡ exists (joins_at (host_in host.now) r k s t) (length (host_in host.now).edges)) }
{
    (0..host.edge_slots()).any(|x| joins(host, rule, k, s, t, x))
}

// Whether left edge k has a host edge, if the node tried is the later of its ends.
fn link_holds(host: &Graph, rule: &PlannedRule, trial: &Trial, k: usize) -> bool
    requires { EdgeIn host.now rule.now trial.now k }
    ensures { (w : TriedIn host.now rule.now trial.now) → result ≡ isLinked (host_in host.now) w.trial.rule w.trial.placed trial.now.item k }
{
    let s = rule.end_of(k, Side::Source);
    let t = rule.end_of(k, Side::Target);
    plan::later(s, t) != trial.item || any_joins(host, rule, k, trial.slot_of(s), trial.slot_of(t))
}

fn linked(host: &Graph, rule: &PlannedRule, trial: &Trial) -> bool
    requires { TriedIn host.now rule.now trial.now }
    ensures { (w : TriedIn host.now rule.now trial.now) → result ≡ all (isLinked (host_in host.now) w.trial.rule w.trial.placed trial.now.item) (left_edges w.trial.rule) }
{
    (0..rule.plan[At::EDGES]).all(|k| link_holds(host, rule, trial, k))
}

#[tactic(auto, unfolding(meaning::specs::FirstMatch::left_touches, meaning::specs::Basics::either))]
fn left_touches(rule: &PlannedRule, i: usize, k: usize) -> bool
    requires { HasEdge rule.now.bytes.now rule.now.plan.now k }
    ensures { For rule.now.bytes.now rule.now.plan.now (λ r. (h : Host) → result ≡ left_touches h r i k) }
{
    rule.end_of(k, Side::Source) == i || rule.end_of(k, Side::Target) == i
}

fn left_degree(rule: &PlannedRule, i: usize) -> usize
    requires { IsLaid rule.now.bytes.now rule.now.plan.now }
    ensures { For rule.now.bytes.now rule.now.plan.now (λ r. (h : Host) → result ≡ count (left_touches h r i) (left_edges r)) }
{
    (0..rule.plan[At::EDGES])
        .filter(|k| left_touches(rule, i, *k))
        .count()
}

// Whether left node i stays, or slot c has no more edges than left node i.
#[tactic(auto, unfolding(meaning::specs::FirstMatch::can_go, meaning::specs::Basics::either))]
fn can_go(host: &Graph, rule: &PlannedRule, i: usize, c: usize) -> bool
    requires { IsLaid rule.now.bytes.now rule.now.plan.now }
    ensures { For rule.now.bytes.now rule.now.plan.now (λ r. result ≡ can_go (host_in host.now) r i c) }
{
    i < rule.plan[At::INTERFACE] || host.degree(c) <= left_degree(rule, i)
}

// Candidates.

// Whether slot c can stand for left node i, of this mark and root flag and in a rule of this mode, as far as the slot alone tells.
fn node_like(
    host: &Graph,
    rule: &PlannedRule,
    mark: u8,
    root: u8,
    preserving: bool,
    i: usize,
    c: usize,
) -> bool
    requires known { KnownIn rule.now }
    requires i_bound { (i < get_or rule.now.plan.now nodes_at 0) × (c < length (host_in host.now).nodes) }
    requires mark_value { (w : KnownIn rule.now) → (mark ≡ (left_node w.rule i).mark) × (root ≡ (left_node w.rule i).root) × (preserving ≡ w.rule.preserving) }
    ensures { (w : KnownIn rule.now) → NodeLike (host_in host.now) w.rule (get_or rule.now.plan.now (sort_at + i) 0) i c result }
{
    host.node_live(c)
        && marks_agree(mark, host.node_mark(c))
        && roots_agree(preserving, root, host.node_root(c))
        && agreeing::label_likely(host, rule, i, c)
}

// The first slot from c to n that can, n if there is none.
pub fn next_like(host: &Graph, rule: &PlannedRule, i: usize, c: usize, n: usize) -> usize
    requires known { KnownIn rule.now }
    requires i_bound { (i < get_or rule.now.plan.now nodes_at 0) × (n ≤ length (host_in host.now).nodes) }
    ensures { (w : KnownIn rule.now) → NextLike (host_in host.now) w.rule (get_or rule.now.plan.now (sort_at + i) 0) i c n result }
{
    let mark = rule.mark(i);
    let root = rule.root(i);
    let preserving = rule.plan[At::MODE] == Mode::PRESERVING;
    (c..n)
        .find(|&x| node_like(host, rule, mark, root, preserving, i, x))
        .unwrap_or(n)
}

// Whether the slot tried, which is like the left node, can stand for it beside the nodes placed, by all but label and tests.
pub fn node_likely(host: &Graph, rule: &PlannedRule, trial: &Trial) -> bool
    requires known { KnownIn rule.now }
    requires at_len { (length trial.now.at.now ≡ most_items) × Inside (host_in host.now) (get_or rule.now.plan.now nodes_at 0) trial.now.at.now trial.now.item }
    requires i_bound { (trial.now.item < get_or rule.now.plan.now nodes_at 0) × (trial.now.slot < length (host_in host.now).nodes) }
    requires node_like { (w : KnownIn rule.now) → NodeLike (host_in host.now) w.rule (get_or rule.now.plan.now (sort_at + trial.now.item) 0) trial.now.item trial.now.slot true }
    ensures { (w : KnownIn rule.now) → Likely (host_in host.now) w.rule (get_or rule.now.plan.now (sort_at + trial.now.item) 0) (take trial.now.item trial.now.at.now) trial.now.item trial.now.slot result }
{
    absent(trial.at, 0, trial.item, trial.slot)
        && linked(host, rule, trial)
        && can_go(host, rule, trial.item, trial.slot)
}

// Whether the slot tried can stand for the left edge, whose ends are at slots s and t, by all but label and tests.
pub fn edge_likely(host: &Graph, rule: &PlannedRule, trial: &Trial, s: usize, t: usize) -> bool
    requires known { KnownIn rule.now }
    requires at_len { (length trial.now.at.now ≡ most_items) × Inside (host_in host.now) (get_or rule.now.plan.now nodes_at 0) trial.now.at.now trial.now.item }
    requires nodes_at_bound { (get_or rule.now.plan.now nodes_at 0 ≤ trial.now.item) × (trial.now.item < get_or rule.now.plan.now nodes_at 0 + get_or rule.now.plan.now edges_at 0) × (trial.now.slot < length (host_in host.now).edges) }
    requires s_value { (w : KnownIn rule.now) → (s ≡ node_slot (take trial.now.item trial.now.at.now) (left_edge w.rule (trial.now.item - left_nodes w.rule)).source) × (t ≡ node_slot (take trial.now.item trial.now.at.now) (left_edge w.rule (trial.now.item - left_nodes w.rule)).target) }
    ensures { (w : KnownIn rule.now) → Likely (host_in host.now) w.rule (get_or rule.now.plan.now (sort_at + trial.now.item) 0) (take trial.now.item trial.now.at.now) trial.now.item trial.now.slot result }
{
    let n = rule.plan[At::NODES];
    joins(host, rule, trial.item - n, s, t, trial.slot)
        && absent(trial.at, n, trial.item, trial.slot)
        && agreeing::label_likely(host, rule, trial.item, trial.slot)
}

// Edges that dangle.

// Whether slot s or slot t is that of a left node that goes.
fn touches_gone(plan: &[usize; At::LENGTH], at: &[usize; Room::ITEMS], s: usize, t: usize) -> bool
    requires { HasRoom plan.now at.now }
    ensures { result ≡ exists (gone_at (get_or plan.now interface_at 0) at.now s t) (get_or plan.now nodes_at 0) }
{
    (plan[At::INTERFACE]..plan[At::NODES]).any(|j| s == at[j] || t == at[j])
}

// Whether edge x would be left without an end.
fn dangles(host: &Graph, plan: &[usize; At::LENGTH], at: &[usize; Room::ITEMS], x: usize) -> bool
    requires has_room { HasRoom plan.now at.now }
    requires x_in_bounds { x < length (host_in host.now).edges }
    ensures { (r : Rule) → Numbers plan.now r → result ≡ isDangling (host_in host.now) r (take (total r) at.now) x }
{
    host.edge_live(x)
        && touches_gone(plan, at, host.edge_source(x), host.edge_target(x))
        && absent(at, plan[At::NODES], plan[At::NODES] + plan[At::EDGES], x)
}

pub fn any_dangles(host: &Graph, plan: &[usize; At::LENGTH], at: &[usize; Room::ITEMS]) -> bool
    requires { HasRoom plan.now at.now }
    ensures { (r : Rule) → Numbers plan.now r → result ≡ exists (isDangling (host_in host.now) r (take (total r) at.now)) (length (host_in host.now).edges) }
{
    (0..host.edge_slots()).any(|x| dangles(host, plan, at, x))
}
