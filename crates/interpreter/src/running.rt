// The call run, over a layout: what is refused, and running the program of what is not.
ghost use Rattle.std.specs.Prelude.{◌≡◌};
ghost use Rattle.std.proofs.Math.Option.{none};
ghost use Rattle.meaning.specs.Calls.{answer_number, run_refusal, run, lending, Yields};
ghost use Rattle.interpreter.specs.Run.{RunLayout};

use meaning::{Answer, Layout, Tally};

// Runs the program of input that is not refused, from an empty journal.
fn start(
    l: Layout,
    nodes: &mut [u8],
    edges: &mut [u8],
    journal: &mut [u8],
    image: &[u8],
    fuel: u32,
    report: &mut [u8],
) -> Answer
    requires run_layout { RunLayout l }
    requires report_value { run_refusal l (lending nodes.old edges.old journal.old image.now fuel report.old) ≡ none }
    ensures { Yields (run l (lending nodes.old edges.old journal.old image.now fuel report.old)) (answer_number result) nodes.new edges.new journal.new report.new }
{
    slots::bytes::clear(journal);
    let ran = commands::run_program(l, image, nodes, edges, journal, Tally::new(fuel as usize));
    finishing::finish(
        l,
        nodes,
        edges,
        journal,
        ran.end,
        ran.tally.steps,
        ran.tally.records,
        report,
    )
}

// Run: refuses with the lowest applicable number, or runs the image's program on the tables.
pub fn run_call(
    l: Layout,
    nodes: &mut [u8],
    edges: &mut [u8],
    journal: &mut [u8],
    image: &[u8],
    fuel: u32,
    report: &mut [u8],
) -> Answer
    requires { RunLayout l }
    ensures { Yields (run l (lending nodes.old edges.old journal.old image.now fuel report.old)) (answer_number result) nodes.new edges.new journal.new report.new }
{
    if let Err(why) = refusal::run_check(l, nodes, edges, journal, image, fuel, report) {
        answers::refuse(report);
        return Answer::Refused(why);
    }
    start(l, nodes, edges, journal, image, fuel, report)
}
