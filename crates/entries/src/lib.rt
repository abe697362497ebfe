// A table's entries as rows of numbers, for callers in C: a server's row has three numbers, a task's six.
#![tactic(auto)]

mod giving;
pub mod placing;
mod row;
mod taking;

ghost use Rattle.std.specs.Prelude.{◌≡◌, ◌+◌, ◌*◌, ◌≤◌, length, ltb};
ghost use Rattle.basics.specs.Choice.{pick};
ghost use Rattle.refusals.specs.Outcomes.{front};
ghost use Rattle.table.specs.Rules.{servers_of, tasks_of};
ghost use Rattle.entries.specs.Entries.{rows, listed, server_row, task_row, table_from};

use placing::put_row;
use row::Row;
use table::Table;

// So many entries of an array of rows, in an array of N places: rows beyond the count are not looked at, and no turn is made for them.
fn entries_from<E: Row<W>, const W: usize, const N: usize>(rows: &[u32], n: usize) -> [E; N]
    requires { length rows.now ≡ W * N }
    ensures { result ≡ listed (λ i. pick (ltb i n) (E.entry_in rows.now i) E.nothing) N 0 }
{
    let mut entries = [E::none(); N];
    for i in 0..n.min(N) {
        entries[i] = E::entry(rows, i);
    }
    entries
}

// The table of a span, two counts and two arrays of rows. A row whose kind is unknown makes an entry that breaks the rules:
// the call for C on a table is total, and such a table is refused with 13 where it is used.
pub fn table_from(
    span: u32,
    servers_n: usize,
    tasks_n: usize,
    servers: &[u32],
    tasks: &[u32],
) -> Table
    requires { (length servers.now ≡ 48) × (length tasks.now ≡ 384) }
    ensures { result ≡ table_from span servers_n tasks_n servers.now tasks.now }
{
    Table {
        span,
        servers_n,
        tasks_n,
        servers: entries_from(servers, servers_n),
        tasks: entries_from(tasks, tasks_n),
    }
}

// Writes the rows of entries to the front of an array.
fn hand<E: Row<W>, const W: usize>(entries: &[E], out: &mut [u32])
    requires { W * length entries.now ≤ length out.old }
    ensures { out.new ≡ front (rows E.row_of entries.now) out.old }
{
    for (i, entry) in entries.iter().enumerate() {
        put_row(&entry.row(), out, W * i);
    }
}

// Writes the rows of a table's servers to the front of an array.
pub fn hand_servers(table: Table, out: &mut [u32])
    requires { (table.servers_n ≤ 16) × (48 ≤ length out.old) }
    ensures { out.new ≡ front (rows server_row (servers_of table)) out.old }
{
    hand(&table.servers[..table.servers_n], out);
}

// Writes the rows of a table's tasks to the front of an array.
pub fn hand_tasks(table: Table, out: &mut [u32])
    requires { (table.tasks_n ≤ 64) × (384 ≤ length out.old) }
    ensures { out.new ≡ front (rows task_row (tasks_of table)) out.old }
{
    hand(&table.tasks[..table.tasks_n], out);
}
