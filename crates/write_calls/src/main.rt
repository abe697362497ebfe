// Writes the tables that standard input has as numbers, one a line, as text into a lent buffer, and writes the answer of each. Numbers are parted by
// single spaces:
//     room span servers tasks server_rows task_rows
//         kind capacity period ..                          for each row of a server: kind 1 deferrable, 2 periodic
//         server work kind first period deadline ..        for each row of a task: kind 1 once, 2 every; first is the instant or the offset
// The buffer has so many bytes, 4,096 at most; servers and tasks are the counts that the table is handed in with, any number of 32 bits. Rows may be fewer
// than these, and the others are then 0, or more: 16 and 64 at most. The answer is `count n` or `refused number line place`, and behind ` | ` the bytes of
// the buffer and of the guard of 8 behind it as hexadecimal digits. Byte i was i % 251.
// A line that starts with `#` is copied, and a line of any other form is answered by `bad`; so is every line of more than 1,048,576 bytes, its
// line feed counted. The input may have any length, and its last line needs no line feed.
#![tactic(auto)]

use batch::fields::Fields;
use batch::output::Output;
use batch::{answer_lines, copy_or_answer};
use call_lines::put_lent;
use entries::table_from;
use std::fmt;

// What stands in front of the rows: how much is lent, span and counts as `table_from` takes them, and how many rows there are.
#[derive(Clone, Copy)]
struct Head {
    room: usize,
    span: u32,
    servers_n: usize,
    tasks_n: usize,
    server_rows: u32,
    task_rows: u32,
}

// Reads what stands in front of the rows; none where it has another form, or where there are too many rows.
fn read_head(fields: &mut Fields) -> Option<Head> {
    Some(Head {
        room: fields.number()? as usize,
        span: fields.next_number()?,
        servers_n: fields.next_number()? as usize,
        tasks_n: fields.next_number()? as usize,
        server_rows: fields.number_up_to(16)?,
        task_rows: fields.number_up_to(64)?,
    })
}

// Reads so many rows of so many numbers to the front of an array; none where they do not fit.
fn read_rows(fields: &mut Fields, rows: u32, width: usize, numbers: &mut [u32]) -> Option<()> {
    let count = width.checked_mul(rows as usize)?;
    for number in numbers.get_mut(..count)? {
        *number = fields.next_number()?;
    }
    Some(())
}

// Answers the rows of a line; none where they have another form.
fn answer_rows(head: Head, mut fields: Fields, out: &mut Output) -> Option<fmt::Result> {
    let mut servers = [0u32; 48];
    let mut tasks = [0u32; 384];
    read_rows(&mut fields, head.server_rows, 3, &mut servers)?;
    read_rows(&mut fields, head.task_rows, 6, &mut tasks)?;
    fields.end()?;
    let table = table_from(head.span, head.servers_n, head.tasks_n, &servers, &tasks);
    let write = |bytes: &mut [u8]| writing::write(table, bytes);
    Some(put_lent(out, head.room, write))
}

// Answers a line; none where it has another form. The arrays are made once its head is read.
fn answer_line(line: &[u8], out: &mut Output) -> Option<fmt::Result> {
    let mut fields = Fields::of(line);
    let head = read_head(&mut fields)?;
    answer_rows(head, fields, out)
}

// Answers the lines of standard input.
fn main() {
    answer_lines(|line, out| copy_or_answer(line, out, answer_line));
}
