// What is noted of a server's tasks, one after the other: each one's answer, and whether it runs in one tick.
#![tactic(auto)]

ghost use Rattle.std.specs.Prelude.{◌≡◌, suc, ℕ, ◌+◌, ◌≤◌, ◌<◌, length, take};
ghost use Rattle.table.specs.Places.{Obeyed};
ghost use Rattle.schedule.specs.Curves.{held_of};
ghost use Rattle.buffers.specs.Work.{Same};
ghost use Rattle.noting.specs.Noted.{TasksNoted, of_below};

use answers::Response;
use buffers::work::Work;
use judging::covering::covers;
use judging::jobs::judge;
use serving::share;
use table::Table;

// What is noted at places 0 to N - 1: each one's answer, and a mark. Two arrays, and not one of pairs: the answers go into an analysis as they
// are, and the marks alone are searched.
#[derive(Clone, Copy)]
pub struct PlaceNotes<A, const N: usize> {
    pub answers: [A; N],
    pub marks: [bool; N],
}

// Notes the tasks of the server with a number, and marks those that run in the tick. The first `n` numbers of `held` are its
// held ticks.
pub fn answer_tasks(
    table: Table,
    tick: u32,
    server: u32,
    n: usize,
    work: &mut Work<'_>,
    notes: &mut PlaceNotes<Response, 64>,
)
    requires { Obeyed table × ((i : ℕ) → server ≡ suc i → (i < table.servers_n) × (take n work.old.held.now ≡ held_of table i)) × (0 < server)
        × (n ≤ length work.old.held.now) × TasksNoted table tick (of_below table server) notes.old }
    ensures same { Same work.old work.new }
    ensures free { work.new.free.now ≡ work.old.free.now }
    ensures sum { work.new.sum.now ≡ work.old.sum.now }
    ensures noted { TasksNoted table tick (of_below table (server + 1)) notes.new }
{
    let mut left = n;
    for (j, task) in table.tasks[..table.tasks_n].iter().enumerate() {
        if task.server == server {
            let counts = share(
                *task,
                table.span,
                left,
                work.held,
                work.part,
                work.running,
                work.spare,
            );
            let ticks = &work.running[..counts.taken];
            notes.answers[j] = judge(*task, table.span, ticks);
            notes.marks[j] = covers(ticks, tick);
            left = counts.left;
        }
    }
}
