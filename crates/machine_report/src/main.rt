// Reads a table's text from standard input and writes its report, from the tick machine alone.
#![tactic(auto)]

use batch::answer_text;
use batch::output::Output;
use watching::put_answer;

// Writes the report of a text.
fn answer(text: &[u8]) {
    let mut out = Output::new();
    put_answer(&mut out, text);
    out.flush();
}

// Reads standard input and writes its report.
fn main() {
    answer_text(answer);
}
