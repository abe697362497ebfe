// The summed demand of a server.
ghost use Rattle.std.specs.Prelude.{◌≡◌, true, ◌-◌, ◌≤◌, ◌<◌, length, take, eqb};
ghost use Rattle.basics.specs.Choice.{pick};
ghost use Rattle.windows.specs.Windows.{is_plain, add_up};
ghost use Rattle.table.specs.Places.{Obeyed};
ghost use Rattle.schedule.specs.Curves.{below, demand_of, summed};
ghost use Rattle.buffers.specs.Parts.{PlainBelow, Curve, Wrote};
ghost use Rattle.demands.specs.Walks.{TaskObeyed, StartsBelow};

use crate::releasing::demand;
use buffers::copy;
use table::{Table, Task};
use walks::adding::Sum;

// Cuts off what lies at the end of a span or later, of a curve whose windows all start before it.
fn cut_off(curve: &mut [u32], span: u32)
    requires { (is_plain curve.old ≡ true) × StartsBelow span curve.old }
    ensures { curve.new ≡ below span curve.old }
{
    if let Some(end) = curve.last_mut() {
        *end = (*end).min(span);
    }
}

// Adds up two curves below the end of a span.
fn add_below(a: &[u32], b: &[u32], span: u32, out: &mut [u32]) -> usize
    requires { PlainBelow span a.now × PlainBelow span b.now × (0 < span) × (span ≤ 16000) × (16000 ≤ length out.old) }
    ensures wrote { Wrote out.old out.new result (below span (add_up a.now b.now)) }
    ensures fits { result ≤ 16000 }
{
    let count = walks::write(Sum::of(a, b), out);
    cut_off(&mut out[..count], span);
    count
}

// Adds a task's demand to the sum that the first `summed` numbers of a buffer are.
fn add_task(
    task: Task,
    span: u32,
    summed: usize,
    sum: &mut [u32],
    part: &mut [u32],
    spare: &mut [u32],
) -> usize
    requires { TaskObeyed task × (0 < span) × (span ≤ 16000) × Curve sum.old summed span × (16000 ≤ length part.old) × (16000 ≤ length spare.old) }
    ensures { Wrote sum.old sum.new result (below span (add_up (take summed sum.old) (demand_of span task))) }
{
    let demanded = demand(task, span, part);
    let added = add_below(&sum[..summed], &part[..demanded], span, spare);
    copy(&spare[..added], sum);
    added
}

// Writes the summed demand of the tasks of the server with a number. With the whole `Work` each function here would need a clause for every
// buffer that it leaves alone.
pub fn sum_tasks(
    table: Table,
    server: u32,
    sum: &mut [u32],
    part: &mut [u32],
    spare: &mut [u32],
) -> usize
    requires { Obeyed table × (0 < server) × (16000 ≤ length sum.old) × (16000 ≤ length part.old) × (16000 ≤ length spare.old) }
    ensures { Wrote sum.old sum.new result (summed table (server - 1)) }
{
    let mut count = 0;
    for task in &table.tasks[..table.tasks_n] {
        if task.server == server {
            count = add_task(*task, table.span, count, sum, part, spare);
        }
    }
    count
}
