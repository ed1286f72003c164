// The call undo, over a layout: what is refused, and putting the counted records back.
#![tactic(auto)]

ghost use Rattle.std.specs.Prelude.{◌≡◌};
ghost use Rattle.meaning.specs.Layout.{Sized};
ghost use Rattle.meaning.specs.Calls.{answer_number, undo_refusal, undo, lending_undo, Yields};
ghost use Rattle.answers.specs.Answers.{refusal_of};

use meaning::{Answer, Layout, Refusal};

// The lowest applicable number of 9 to 12 and 20.
#[tactic(auto, unfolding(answers::specs::Answers::refusal_of, meaning::specs::Basics::first_failing, meaning::specs::Basics::choose, meaning::specs::Calls::undo_refusal))]
fn undo_check(
    l: Layout,
    nodes: &[u8],
    edges: &[u8],
    journal: &[u8],
    count: usize,
    report: &[u8],
) -> Result<(), Refusal>
    requires { Sized l }
    ensures { refusal_of result ≡ undo_refusal l (lending_undo nodes.now edges.now journal.now count report.now) }
{
    answers::lengths(l, nodes, edges, journal, report)?;
    if !journal::keeps_records(l, nodes, edges, journal, count) {
        return Err(Refusal::BadRecords);
    }
    Ok(())
}

// Undo: stores the counted records back from last to first, zeros them, and reports the count.
pub fn undo_call(
    l: Layout,
    nodes: &mut [u8],
    edges: &mut [u8],
    journal: &mut [u8],
    count: u32,
    report: &mut [u8],
) -> Answer
    requires { Sized l }
    ensures { Yields (undo l (lending_undo nodes.old edges.old journal.old count report.old)) (answer_number result) nodes.new edges.new journal.new report.new }
{
    let n = count as usize;
    if let Err(why) = undo_check(l, nodes, edges, journal, n, report) {
        answers::refuse(report);
        return Answer::Refused(why);
    }
    journal::undo_to(l, nodes, edges, journal, n, 0);
    answers::put_report(report, 0, n);
    Answer::Result
}
