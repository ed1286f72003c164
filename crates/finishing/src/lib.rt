// What a started run leaves, by its end: after a result its records and the report, after any other end the graph as it came.
#![tactic(auto)]

ghost use Rattle.std.specs.Prelude.{◌≡◌, length};
ghost use Rattle.meaning.specs.Calls.{report_of};
ghost use Rattle.answers.specs.Answers.{report_length};
ghost use Rattle.ledger.specs.Running.{Running};
ghost use Rattle.undoing.specs.Undone.{Undone};
ghost use Rattle.finishing.specs.Finished.{Finishes};

use meaning::{Answer, End, Layout};

// Gives the graph back as it came, with the steps in the report: every record is put back and cleared.
fn give_back(
    l: Layout,
    nodes: &mut [u8],
    edges: &mut [u8],
    journal: &mut [u8],
    steps: usize,
    records: usize,
    report: &mut [u8],
)
    requires running { Running l nodes.old edges.old journal.old records }
    requires report_len { length report.old ≡ report_length }
    ensures { Undone l nodes.old edges.old journal.old records 0 nodes.new edges.new journal.new × (report.new ≡ report_of steps 0) }
{
    undoing::back_to(l, nodes, edges, journal, records, 0);
    answers::put_report(report, steps, 0);
}

// What a run leaves, by its end.
#[tactic(auto, unfolding(crate::specs::Finished::Finishes))]
pub fn finish(
    l: Layout,
    nodes: &mut [u8],
    edges: &mut [u8],
    journal: &mut [u8],
    end: End,
    steps: usize,
    records: usize,
    report: &mut [u8],
) -> Answer
    requires running { Running l nodes.old edges.old journal.old records }
    requires report_len { length report.old ≡ report_length }
    ensures { Finishes l nodes.old edges.old journal.old steps records result nodes.new edges.new journal.new report.new end }
{
    let answer = match end {
        End::Done => {
            answers::put_report(report, steps, records);
            return Answer::Result;
        }
        End::Failed | End::Broke => Answer::Fail,
        End::Stopped(why) => Answer::Stopped(why),
    };
    give_back(l, nodes, edges, journal, steps, records, report);
    answer
}
