// Writes, for each of the stored cases on standard input, the number that refuses the run, 0 where it would start. A case
// holds nodes, edges, journal, fuel, program and report.
#![tactic(auto)]

use meaning::Refusal;

fn number_of(check: Result<(), Refusal>) -> u32 {
    match check {
        Ok(()) => 0,
        Err(why) => u32::from(why),
    }
}

fn check_case(case: &[u8]) {
    let check = refusal::run_refusal(
        cases::part(case, 0),
        cases::part(case, 1),
        cases::part(case, 2),
        cases::part(case, 4),
        cases::word(case, 3),
        cases::part(case, 5),
    );
    io::print_decimal(1, u64::from(number_of(check)));
    io::write_all(1, b"\n");
}

fn main() {
    cases::each_case(check_case);
}
