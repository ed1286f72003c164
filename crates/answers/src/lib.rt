// What both calls share: the check of the lengths (answers 9 to 12) and the report.
#![tactic(auto)]

ghost use Rattle.std.specs.Prelude.{◌≡◌, eqb, length};
ghost use Rattle.meaning.specs.Basics.{choose, first_failing};
ghost use Rattle.meaning.specs.Layout.{Sized};
ghost use Rattle.meaning.specs.Calls.{length_checks, report_of};
ghost use Rattle.answers.specs.Answers.{refusal_of, report_length};

use meaning::{Layout, Refusal};

// A report: two numbers, the steps and the records.
#[derive(Drop)]
pub struct Report {}

impl Report {
    // The bytes of one of its numbers, and of both.
    pub const NUMBER: usize = 4;

    pub const LENGTH: usize = 8;
}

// The lengths, which both calls look at first: the lowest applicable number from 9 to 12.
#[tactic(auto, unfolding(crate::specs::Answers::refusal_of, meaning::specs::Basics::first_failing, meaning::specs::Basics::choose))]
pub fn lengths(
    l: Layout,
    nodes: &[u8],
    edges: &[u8],
    journal: &[u8],
    report: &[u8],
) -> Result<(), Refusal>
    requires { Sized l }
    ensures { refusal_of result ≡ first_failing (length_checks l nodes.now edges.now journal.now report.now) }
{
    if report.len() != Report::LENGTH {
        return Err(Refusal::ReportLength);
    }
    if !slots::fits_table(nodes, l.node, l.nodes) {
        return Err(Refusal::NodeTableLength);
    }
    if !slots::fits_table(edges, l.edge, l.edges) {
        return Err(Refusal::EdgeTableLength);
    }
    if !slots::fits_table(journal, l.change, l.records) {
        return Err(Refusal::JournalLength);
    }
    Ok(())
}

// Writes steps and records in a report.
pub fn put_report(report: &mut [u8], steps: usize, records: usize)
    requires { length report.old ≡ report_length }
    ensures { report.new ≡ report_of steps records }
{
    slots::bytes::put_number(&mut report[0..Report::NUMBER], steps);
    slots::bytes::put_number(&mut report[Report::NUMBER..Report::LENGTH], records);
}

// Writes the report of a refused call: zeros, where it has its length.
#[tactic(auto, unfolding(meaning::specs::Basics::choose))]
pub fn refuse(report: &mut [u8])
    ensures { report.new ≡ choose (eqb (length report.old) report_length) (report_of 0 0) report.old }
{
    if report.len() == Report::LENGTH {
        put_report(report, 0, 0);
    }
}
