// How many bytes the text of a table has, counted in one pass over its entries: it is promised that the length is known before the first byte is
// written, so it is not what the writers answer.
ghost use Rattle.std.specs.Prelude.{◌≡◌, ◌*◌, ◌≤◌, length, map};
ghost use Rattle.writing.specs.Text.{ended, text_of};
ghost use Rattle.writing.specs.Lengths.{lines_length};

use crate::line_writer::{Line, field_length};
use table::Table;

// Of the lines of all servers or of all tasks.
fn lines_length<T: Line>(entries: &[T]) -> usize
    requires few { length entries.now ≤ 64 }
    ensures by_fields { result ≡ lines_length T.fields entries.now }
    ensures counted { result ≡ length (ended (map T.line entries.now)) }
    ensures most { result ≤ length entries.now * 61 }
{
    let mut n = 0;
    for entry in entries {
        n += entry.length();
    }
    n
}

// Of the text of a table.
pub fn text_length(table: Table) -> usize
    requires { (table.servers_n ≤ 16) × (table.tasks_n ≤ 64) }
    ensures { result ≡ length (text_of table) }
{
    let servers = lines_length(&table.servers[..table.servers_n]);
    let tasks = lines_length(&table.tasks[..table.tasks_n]);
    5 + field_length(table.span) + servers + tasks
}
