// Reports, and the table written back.
use batch::output::Output;
use batch::put_bad;
use call_lines::put_lent;
use rewriting::rewrite;
use std::fmt;
use std::fmt::Write;
use watching::put_answer;

// More bytes than a report has.
const REPORT: usize = 4096;

// No table that is written back has more bytes.
const TEXT: usize = 2603;

// Puts the report of a text and an empty line.
pub fn put_report(out: &mut Output, text: &[u8]) -> fmt::Result {
    let mut bytes = [0u8; REPORT];
    let Ok(count) = reporting::report(text, &mut bytes) else {
        return put_bad(out);
    };
    out.put_bytes(&bytes[..count]);
    writeln!(out, "")
}

// Puts the report of a text from the tick machine alone and an empty line.
pub fn put_machine_report(out: &mut Output, text: &[u8]) -> fmt::Result {
    put_answer(out, text);
    writeln!(out, "")
}

// Puts the line of a text whose report is asked for with so much room: the answer, the lent bytes and the guard behind them.
pub fn put_with_room(out: &mut Output, text: &[u8], room: usize) -> fmt::Result {
    put_lent(out, room, |bytes| reporting::report(text, bytes))
}

// Puts the table of a text as it is written back, or the line of the refusal, and an empty line.
pub fn put_rewritten(out: &mut Output, text: &[u8]) -> fmt::Result {
    let mut bytes = [0u8; TEXT];
    let count = rewrite(text, &mut bytes);
    out.put_bytes(&bytes[..count]);
    writeln!(out, "")
}
