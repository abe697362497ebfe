// Runs the calls on table texts that standard input has, one a line, and writes the answer of each. HEX stands for a text: two lowercase
// hexadecimal digits for each byte, 5,000 bytes at most. Fields are parted by single spaces.
//     1 HEX                        the report, then an empty line
//     2 HEX                        the report from the tick machine alone, then an empty line
//     3 HEX                        reading: `refused number line place`, or
//                                  `span h | server kind c t .. | once server work instant deadline | every server work offset period deadline ..`
//     4 HEX                        holder and runner of each tick, from the curves and from the machine: `same` at the end, or `differs` at the
//                                  first tick where they differ; or `refused number line place`
//     5 room HEX                   the report into a lent buffer of so many bytes, 4,096 at most: `count n` or `refused 11 0 0`, and behind ` | ` the
//                                  bytes of the buffer and of the guard of 8 behind it as digits. Byte i was i % 251
//     6 a b c d e f HEX            the analysis on six lent buffers of so many numbers, 16,008 each at most: `answers span servers tasks` or
//                                  `refused number line place`, and behind ` |` for each buffer `zero` where all of it is 0 and the guard behind it as it
//                                  was, `same` where both are, `other` elsewhere. Number i was 7,000,000 + i, of 16,016 with the guard
//     7 tick a b c d e f HEX       who holds a tick, from the curves: `who holder runner` or `refused number line place`, and the same for each buffer
//     8 HEX                        the table written back, with a number for every `-`, or `refused`, number, line and place, parted by tabs; then an
//                                  empty line
// A line that starts with `#` is copied, and a line of any other form is answered by `bad`; so is every line of more than 1,048,576 bytes, its
// line feed counted. The input may have any length, and its last line needs no line feed.
#![tactic(auto)]

use batch::decoding::decode;
use batch::output::Output;
use batch::{TEXT, answer_lines, copy_or_answer};
use std::fmt;
use text_buffers::{put_analysis, put_who};
use text_lines::asking::{Asked, Request, read_line};
use text_lines::tables::put_reading;
use text_reports::reports::{put_machine_report, put_report, put_rewritten, put_with_room};
use text_reports::ticks::put_ticks;

// Puts the answer to what is asked of a text.
fn answer(request: Request, text: &[u8], out: &mut Output) -> fmt::Result {
    match request {
        Request::Report => put_report(out, text),
        Request::MachineReport => put_machine_report(out, text),
        Request::Reading => put_reading(out, text),
        Request::Ticks => put_ticks(out, text),
        Request::WithRoom(room) => put_with_room(out, text, room),
        Request::Analyse(rooms) => put_analysis(out, text, rooms),
        Request::WhoAt(tick, rooms) => put_who(out, tick, text, rooms),
        Request::Rewritten => put_rewritten(out, text),
    }
}

// Answers what is asked; none where the digits stand for no text. The text's bytes stand in a frame of their own, and not in that of each line.
#[inline(never)]
fn answer_text(asked: Asked, out: &mut Output) -> Option<fmt::Result> {
    let mut bytes = [0u8; TEXT];
    let count = decode(asked.digits, &mut bytes)?;
    Some(answer(asked.request, &bytes[..count], out))
}

// Answers a line; none where it has another form.
fn answer_line(line: &[u8], out: &mut Output) -> Option<fmt::Result> {
    answer_text(read_line(line)?, out)
}

// Answers the lines of standard input.
fn main() {
    answer_lines(|line, out| copy_or_answer(line, out, answer_line));
}
