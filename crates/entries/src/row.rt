// Entries as rows of numbers, whatever the entry is.
ghost use Rattle.std.specs.Prelude.{◌≡◌, ◌+◌, ◌*◌, ◌≤◌, ℕ, List, length, refl};
ghost use Rattle.table.specs.Rules.{no_server, no_task};
ghost use Rattle.entries.specs.Entries.{server_row, task_row, server_in, task_in};

use crate::giving::{kind_number, release_row};
use crate::taking::{kind_from, release_from};
use table::{Server, Task};

// An entry of a table, which is handed out as a row of W numbers and made of one.
pub trait Row<const W: usize>: Copy {
    ghost row_of: { Self → List ℕ };

    ghost entry_in: { List ℕ → ℕ → Self };

    ghost nothing: { Self };

    fn row(&self) -> [u32; W]
        ensures { result ≡ row_of self.now };

    // The entry that row i makes. Its numbers are taken at their places in all rows, as the specification's `server_in` and `task_in` take them.
    fn entry(rows: &[u32], i: usize) -> Self
        requires { W * i + W ≤ length rows.now }
        ensures { result ≡ entry_in rows.now i };

    // What stands where nothing was stored.
    fn none() -> Self
        ensures { result ≡ nothing };

    ghost wide: { (entry : Self) → length (row_of entry) ≡ W };
}

// A server's row: kind, capacity, period.
#[tactic(auto, unfolding(crate::specs::Entries::server_in))]
impl Row<3> for Server {
    ghost row_of = { server_row };

    ghost entry_in = { server_in };

    ghost nothing = { no_server };

    fn row(&self) -> [u32; 3] {
        [kind_number(self.kind), self.capacity, self.period]
    }

    fn entry(rows: &[u32], i: usize) -> Server {
        let at = 3 * i;
        match kind_from(rows[at]) {
            Some(kind) => Server {
                kind,
                capacity: rows[at + 1],
                period: rows[at + 2],
            },
            None => Server::none(),
        }
    }

    fn none() -> Server {
        Server::default()
    }

    ghost wide = { λ server. refl };
}

// A task's row: server, work, kind of release, its two numbers, deadline.
#[tactic(auto, unfolding(crate::specs::Entries::task_in))]
impl Row<6> for Task {
    ghost row_of = { task_row };

    ghost entry_in = { task_in };

    ghost nothing = { no_task };

    fn row(&self) -> [u32; 6] {
        let [kind, first, period] = release_row(self.release);
        [self.server, self.work, kind, first, period, self.deadline]
    }

    fn entry(rows: &[u32], j: usize) -> Task {
        let at = 6 * j;
        match release_from(rows[at + 2], rows[at + 3], rows[at + 4]) {
            Some(release) => Task {
                server: rows[at],
                work: rows[at + 1],
                release,
                deadline: rows[at + 5],
            },
            None => Task::none(),
        }
    }

    fn none() -> Task {
        Task::default()
    }

    ghost wide = { λ task. refl };
}
