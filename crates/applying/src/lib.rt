// Applying a rule at a match: the checks before any change, and the changes in document 01's order with one record each.
#![tactic(auto)]

ghost use Rattle.std.specs.Prelude.{◌≡◌, ◌/◌, length, take};
ghost use Rattle.meaning.specs.Layout.{record_length};
ghost use Rattle.meaning.specs.Matching.{total};
ghost use Rattle.meaning.specs.Applying.{hindrance};
ghost use Rattle.ledger.specs.Running.{ledger_of, Running};
ghost use Rattle.ledger.specs.Rooms.{stop_of};
ghost use Rattle.applying.specs.Application.{AtMatch, Applies};
ghost use Rattle.applying.specs.Halves.{Unhindered, Changed, LeftChanged, Halfway, RightCame};

use meaning::{Layout, Room, Stop};
use values::Values;

// The checks before any change, in order: the labels can be held; room for nodes, for edges, for records.
fn hindrance(
    l: Layout,
    nodes: &[u8],
    edges: &[u8],
    journal: &[u8],
    used: usize,
    rule: &[u8],
    slots: &[usize; Room::ITEMS],
    values: &Values,
) -> Result<(), Stop>
    requires running { Running l nodes.now edges.now journal.now used }
    requires at_match { AtMatch l nodes.now edges.now rule.now slots.now values.now.lens values.now.atoms }
    ensures { (w : AtMatch l nodes.now edges.now rule.now slots.now values.now.lens values.now.atoms) → stop_of result ≡ hindrance l.atoms (length journal.now / record_length l) w.tree (take (total w.tree) slots.now) (ledger_of l nodes.now edges.now journal.now used) }
{
    let left = parts::left_part(rule);
    let right = parts::right_part(rule);
    if !values::labels_held(l.atoms, values, right) {
        return Err(Stop::LabelTooLarge);
    }
    let k = parts::interface_of(rule);
    let n = parts::node_count(left);
    let m = parts::edge_count(left, n);
    let right_nodes = parts::node_count(right);
    let new = right_nodes - k;
    let count = parts::edge_count(right, right_nodes);
    let all = used + (m + n + new + count);
    ledger::room(l, nodes, edges, journal, new, n - k, count, m, all)
}

// The left part of the changes, in order, with one record each: left edges go, all left nodes change. The answer: the records
// used after them.
fn change_left(
    l: Layout,
    nodes: &mut [u8],
    edges: &mut [u8],
    journal: &mut [u8],
    used: usize,
    rule: &[u8],
    slots: &[usize; Room::ITEMS],
    values: &Values,
) -> usize
    requires { Unhindered l nodes.old edges.old journal.old used rule.now slots.now values.now.lens values.now.atoms }
    ensures { LeftChanged l nodes.old edges.old journal.old used rule.now slots.now values.now.lens values.now.atoms result nodes.new edges.new journal.new }
{
    let left = parts::left_part(rule);
    let right = parts::right_part(rule);
    let k = parts::interface_of(rule);
    let preserving = parts::preserving(rule);
    let n = parts::node_count(left);
    let m = parts::edge_count(left, n);
    ledger::free_edges(l, &nodes[..], edges, journal, used, slots, n, m);
    let gone = used + m;
    making::change_nodes(
        l,
        nodes,
        &edges[..],
        journal,
        gone,
        preserving,
        left,
        right,
        k,
        values,
        slots,
        n,
    );
    gone + n
}

// The right part, in order, with one record each: new nodes come, right edges come. The answer: the records used after them.
fn add_right(
    l: Layout,
    nodes: &mut [u8],
    edges: &mut [u8],
    journal: &mut [u8],
    used: usize,
    rule: &[u8],
    slots: &[usize; Room::ITEMS],
    values: &Values,
) -> usize
    requires { Halfway l nodes.old edges.old journal.old used rule.now slots.now values.now.lens values.now.atoms }
    ensures { RightCame l nodes.old edges.old journal.old used rule.now slots.now values.now.lens values.now.atoms result nodes.new edges.new journal.new }
{
    let right = parts::right_part(rule);
    let k = parts::interface_of(rule);
    let right_nodes = parts::node_count(right);
    let new = right_nodes - k;
    let count = parts::edge_count(right, right_nodes);
    let places = making::new_nodes(
        l,
        nodes,
        &edges[..],
        journal,
        used,
        right,
        k,
        values,
        slots,
        new,
    );
    let come = used + new;
    making::new_edges(
        l,
        &nodes[..],
        edges,
        journal,
        come,
        right,
        values,
        &places,
        count,
    );
    come + count
}

// All changes: on the left, then on the right. The answer: the records used after them.
fn change(
    l: Layout,
    nodes: &mut [u8],
    edges: &mut [u8],
    journal: &mut [u8],
    used: usize,
    rule: &[u8],
    slots: &[usize; Room::ITEMS],
    values: &Values,
) -> usize
    requires { Unhindered l nodes.old edges.old journal.old used rule.now slots.now values.now.lens values.now.atoms }
    ensures { Changed l nodes.old edges.old journal.old used rule.now slots.now values.now.lens values.now.atoms result nodes.new edges.new journal.new }
{
    let kept = change_left(l, nodes, edges, journal, used, rule, slots, values);
    add_right(l, nodes, edges, journal, kept, rule, slots, values)
}

// Applies a rule at its first match: the checks, then the changes. The answer: the records used after them, or why nothing was
// changed.
pub fn apply(
    l: Layout,
    nodes: &mut [u8],
    edges: &mut [u8],
    journal: &mut [u8],
    used: usize,
    rule: &[u8],
    slots: &[usize; Room::ITEMS],
    values: &Values,
) -> Result<usize, Stop>
    requires running { Running l nodes.old edges.old journal.old used }
    requires at_match { AtMatch l nodes.old edges.old rule.now slots.now values.now.lens values.now.atoms }
    ensures { Applies l nodes.old edges.old journal.old used rule.now slots.now result nodes.new edges.new journal.new }
{
    hindrance(
        l,
        &nodes[..],
        &edges[..],
        &journal[..],
        used,
        rule,
        slots,
        values,
    )?;
    Ok(change(l, nodes, edges, journal, used, rule, slots, values))
}
