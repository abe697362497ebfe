// Reads a table's text from standard input and writes its report.
#![tactic(auto)]

use batch::{answer_text, write};

// No report has more bytes: `report_short` (reporting/proofs/Lengths.antt). So the call below is not refused.
const OUTPUT: usize = 2475;

// Writes the report of a text.
fn answer(text: &[u8]) {
    let mut out = [0u8; OUTPUT];
    let count = reporting::report(text, &mut out).unwrap();
    write(&out[..count]);
}

// Reads standard input and writes its report.
fn main() {
    answer_text(answer);
}
