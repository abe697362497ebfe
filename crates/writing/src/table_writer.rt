// The table writer: it lends the line writer the part of the buffer that is behind the lines already there.
ghost use Rattle.std.specs.Prelude.{◌+◌, ◌≤◌, length, map};
ghost use Rattle.putting.specs.Puts.{Put};
ghost use Rattle.writing.specs.Text.{ended, text_of};

use crate::line_writer::{Line, put_span};
use table::Table;

// Puts the lines of all servers or of all tasks behind `n` bytes: no struct of the buffer and the place, since each line is lent a part of it.
fn put_lines<T: Line>(out: &mut [u8], n: usize, entries: &[T]) -> usize
    requires { n + length (ended (map T.line entries.now)) ≤ length out.old }
    ensures { Put out.old out.new n (ended (map T.line entries.now)) result }
{
    let mut at = n;
    for entry in entries {
        at += entry.put(&mut out[at..]);
    }
    at
}

// Puts the text of a table at the front of a buffer that has room for it.
pub fn put_text(out: &mut [u8], table: Table) -> usize
    requires { (table.servers_n ≤ 16) × (table.tasks_n ≤ 64) × (length (text_of table) ≤ length out.old) }
    ensures { Put out.old out.new 0 (text_of table) result }
{
    let n1 = put_span(out, table.span);
    let n2 = put_lines(out, n1, &table.servers[..table.servers_n]);
    put_lines(out, n2, &table.tasks[..table.tasks_n])
}
