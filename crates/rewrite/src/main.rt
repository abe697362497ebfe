// Reads a table's text from standard input and writes the table back as text.
#![tactic(auto)]

use batch::{answer_text, write};
use rewriting::rewrite;

// No text that is written back has more bytes: `text_most` (writing/proofs/Lengths.antt).
const OUTPUT: usize = 2603;

// Writes the table of a text.
fn answer(text: &[u8]) {
    let mut out = [0u8; OUTPUT];
    let count = rewrite(text, &mut out);
    write(&out[..count]);
}

// Reads standard input and writes its table.
fn main() {
    answer_text(answer);
}
