// The demand of a task, in one walk along its releases.
ghost use Rattle.std.specs.Prelude.{◌≡◌, true, ◌≤◌, length};
ghost use Rattle.table.specs.Rules.{release_obeys};
ghost use Rattle.schedule.specs.Curves.{demand_of};
ghost use Rattle.buffers.specs.Parts.{Wrote};
ghost use Rattle.demands.specs.Walks.{TaskObeyed, first_release, next_release};

use buffers::put;
use table::{Release, Task};

// The first release of a task.
pub fn first_release(release: Release) -> u32
    ensures { result ≡ first_release release }
{
    match release {
        Release::Once(instant) => instant,
        Release::Every(offset, _) => offset,
    }
}

// The release after one, or 16,000 and more where none follows below the end of a span: no `Option`, since who asks has to look for the
// span's end all the same.
pub fn next_release(release: Release, last: u32) -> u32
    requires { (release_obeys release ≡ true) × (last ≤ 16000) }
    ensures { result ≡ next_release release last }
{
    match release {
        Release::Once(_) => 16000,
        Release::Every(_, period) => last + period,
    }
}

// Writes the demand of a task below the end of a span to the front of a buffer.
// Task and span apart: a value of both would be made anew for each task of a table, from the same facts.
pub fn demand(task: Task, span: u32, out: &mut [u32]) -> usize
    requires { TaskObeyed task × (span ≤ 16000) × (16000 ≤ length out.old) }
    ensures { Wrote out.old out.new result (demand_of span task) }
{
    let mut start = first_release(task.release);
    if span <= start {
        return 0;
    }
    let mut end = start + task.work;
    let mut count: usize = 0;
    let mut release = next_release(task.release, start);
    // By the next release: a task that is released once has no period that a `step_by` could take.
    while release < span {
        if end < release {
            count = put(out, count, start, end);
            start = release;
            end = release;
        }
        end += task.work;
        release = next_release(task.release, release);
    }
    put(out, count, start, end.min(span))
}
