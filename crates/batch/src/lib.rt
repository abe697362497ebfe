// What programs share: standard input as one text, or line by line; the bytes that wait to be written; the numbers and bytes that a line has.
#![tactic(auto)]

pub mod decoding;
pub mod fields;
mod inputs;
pub mod output;
mod steps;

pub use inputs::{INPUT, answer_lines};
use output::Output;
use std::fmt;
use std::fmt::Write;

// The numbers under which a program reads its standard input and writes its standard output: the kit's `io` takes them so.
pub const STANDARD_INPUT: i32 = 0;

pub const STANDARD_OUTPUT: i32 = 1;

// More bytes than a table's text may have: of a longer input, no more has to be read.
pub const TEXT: usize = 5000;

// Writes bytes to standard output. What it does not take is lost.
pub fn write(bytes: &[u8]) {
    io::write_all(STANDARD_OUTPUT, bytes);
}

// Reads standard input as the text of a table, and answers it.
pub fn answer_text<F: FnOnce(&[u8])>(answer: F)
    requires { F.IsAlwaysCallable answer }
{
    let mut text = [0u8; TEXT];
    let count = io::read_full(STANDARD_INPUT, &mut text);
    answer(&text[..count]);
}

// Puts the answer to a line that asks for nothing.
pub fn put_bad(out: &mut Output) -> fmt::Result {
    writeln!(out, "bad")
}

// Copies a line that starts with `#`, and answers any other: where it asks for nothing there is no answer, and `bad` is put.
pub fn copy_or_answer<F: FnOnce(&[u8], &mut Output) -> Option<fmt::Result>>(
    line: &[u8],
    out: &mut Output,
    answer: F,
) -> fmt::Result
    requires { F.IsAlwaysCallable answer }
{
    if line.starts_with(b"#") {
        out.put_bytes(line);
        return Ok(());
    }
    answer(line, out).unwrap_or_else(|| put_bad(out))
}
