// (2) Releases.
ghost use Rattle.std.specs.Prelude.{◌≡◌, true};
ghost use Rattle.table.specs.Rules.{release_obeys};
ghost use Rattle.table.specs.Releases.{released_at, gains};
ghost use Rattle.machine.specs.Machine.{releases, over_work};
ghost use Rattle.table.specs.Places.{none_of, Obeyed};

use crate::State;
use table::{Release, Table, Task};

// Whether a release falls on a tick.
fn falls_on(release: Release, tick: u32) -> bool
    requires { release_obeys release ≡ true }
    ensures { result ≡ released_at release tick }
{
    match release {
        Release::Once(instant) => tick == instant,
        Release::Every(offset, period) => offset <= tick && (tick - offset) % period == 0,
    }
}

// The work that a task gains at a tick.
fn gain(task: Task, tick: u32) -> u32
    requires { release_obeys task.release ≡ true }
    ensures { result ≡ gains task tick }
{
    if falls_on(task.release, tick) {
        task.work
    } else {
        0
    }
}

// Each task with a release at the tick gains its work.
pub fn release(state: State, table: Table) -> State
    requires { Obeyed table × (none_of (over_work state) table.tasks_n ≡ true) }
    ensures { result ≡ releases table state }
{
    let mut released = state;
    for (j, task) in table.tasks[..table.tasks_n].iter().enumerate() {
        released.waiting[j] += gain(*task, state.tick);
    }
    released
}
