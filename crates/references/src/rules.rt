// What references ask of a rule.
ghost use Rattle.std.specs.Prelude.{◌≡◌, true, length};
ghost use Rattle.meaning.specs.Basics.{all};
ghost use Rattle.meaning.specs.Image.{rule};
ghost use Rattle.meaning.specs.References.{variables_exist, interface_fits, variables_on_left, any_kept, rule_holds};
ghost use Rattle.parts.specs.Series.{For};
ghost use Rattle.references.specs.Asked.{sides_asked, kept_on_left};

use crate::{Ask, asking};
use meaning::tags::Mark;

// Both sides and the tests, which name left nodes.
#[tactic(auto, unfolding(meaning::specs::Basics::both, crate::specs::Asked::sides_asked))]
fn sides_hold(p: &[u8]) -> bool
    ensures { For (rule p.now) (λ x. result ≡ sides_asked x) }
{
    let types = parts::variables_part(p);
    let left = parts::left_part(p);
    let right = parts::right_part(p);
    let n = parts::node_count(left);
    asking::graph_holds(Ask::Left(n), left, types)
        && asking::graph_holds(Ask::Right(parts::node_count(right)), right, types)
        && asking::tests_hold(Ask::Right(n), parts::tests_part(p), types)
}

// The interface is at most both node counts.
#[tactic(auto, unfolding(meaning::specs::Basics::both, meaning::specs::References::interface_fits))]
fn interface_fits(p: &[u8]) -> bool
    ensures { For (rule p.now) (λ x. result ≡ interface_fits x) }
{
    let k = parts::interface_of(p);
    k <= parts::node_count(parts::left_part(p)) && k <= parts::node_count(parts::right_part(p))
}

// A variable that the left side lacks, the right side and the tests lack too.
#[tactic(auto, unfolding(meaning::specs::Basics::both, meaning::specs::Basics::either, crate::specs::Asked::kept_on_left))]
fn variable_kept(p: &[u8], v: usize) -> bool
    ensures { For (rule p.now) (λ x. result ≡ kept_on_left x v) }
{
    let types = parts::variables_part(p);
    let lacks = Ask::Lacks(v);
    !asking::graph_holds(lacks, parts::left_part(p), types)
        || asking::graph_holds(lacks, parts::right_part(p), types)
            && asking::tests_hold(lacks, parts::tests_part(p), types)
}

// Every variable of the right side or the tests occurs on the left.
fn variables_on_left(p: &[u8]) -> bool
    ensures { For (rule p.now) (λ x. variables_exist x ≡ true → result ≡ variables_on_left x) }
{
    (0..parts::variables_part(p).len()).all(|v| variable_kept(p, v))
}

// A right node j of mark any is an interface node that is any on the left.
#[tactic(auto, unfolding(meaning::specs::Basics::both, meaning::specs::Basics::either, meaning::specs::References::any_kept))]
fn any_kept(p: &[u8], j: usize) -> bool
    ensures { For (rule p.now) (λ x. result ≡ any_kept x j) }
{
    parts::mark_at(parts::right_part(p), j) != Mark::ANY
        || j < parts::interface_of(p) && parts::mark_at(parts::left_part(p), j) == Mark::ANY
}

// Right nodes of mark any are such nodes.
fn all_kept(p: &[u8]) -> bool
    ensures { For (rule p.now) (λ x. result ≡ all (any_kept x) (length x.right.nodes)) }
{
    (0..parts::node_count(parts::right_part(p))).all(|j| any_kept(p, j))
}

#[tactic(auto, using(crate::proofs::Ties::rule_is, crate::proofs::Ties::sides_exist), unfolding(meaning::specs::Basics::both))]
pub fn rule_holds(p: &[u8]) -> bool
    ensures { For (rule p.now) (λ x. result ≡ rule_holds x) }
{
    sides_hold(p) && interface_fits(p) && variables_on_left(p) && all_kept(p)
}
