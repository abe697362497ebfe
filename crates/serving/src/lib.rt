// One server's part: the ticks that it holds of a free curve, and those in which a task of it runs.
#![tactic(auto)]

ghost use Rattle.std.specs.Prelude.{◌≡◌, ◌≤◌, ◌<◌, length, take};
ghost use Rattle.windows.specs.Windows.{fit};
ghost use Rattle.table.specs.Places.{Obeyed};
ghost use Rattle.schedule.specs.Curves.{demand_of, held_in, without};
ghost use Rattle.buffers.specs.Parts.{Curve, Wrote};
ghost use Rattle.buffers.specs.Work.{Same};
ghost use Rattle.demands.specs.Walks.{TaskObeyed};
ghost use Rattle.serving.specs.Wanted.{wanted_of};

use buffers::work::Work;
use buffers::{copy, put};
use demands::releasing::demand;
use demands::summing::sum_tasks;
use holding::{Counts, hold};
use table::{Kind, Table, Task};

// Writes what a server would hold: its tasks' summed demand, or the whole span if it is periodic.
fn wanted(table: Table, i: usize, sum: &mut [u32], part: &mut [u32], spare: &mut [u32]) -> usize
    requires { Obeyed table × (i < table.servers_n) × (16000 ≤ length sum.old) × (16000 ≤ length part.old) × (16000 ≤ length spare.old) }
    ensures { Wrote sum.old sum.new result (wanted_of table i) }
{
    match table.servers[i].kind {
        Kind::Deferrable => sum_tasks(table, i as u32 + 1, sum, part, spare),
        Kind::Periodic => put(sum, 0, 0, table.span),
    }
}

// Writes the ticks that a server holds of the free curve that the first `count` numbers of `free` are, and leaves there those that it does not.
pub fn hold_server(
    table: Table,
    i: usize,
    count: usize,
    free: &mut [u32],
    sum: &mut [u32],
    part: &mut [u32],
    held: &mut [u32],
    spare: &mut [u32],
) -> Counts
    requires { Obeyed table × (i < table.servers_n) × Curve free.old count table.span × (16000 ≤ length sum.old) × (16000 ≤ length part.old)
        × (16000 ≤ length held.old) × (16000 ≤ length spare.old) }
    ensures held { Wrote held.old held.new result.taken (held_in table i (take count free.old)) }
    ensures left { Wrote free.old free.new result.left (without table.span (take count free.old) (held_in table i (take count free.old))) }
{
    let server = table.servers[i];
    let wanted = wanted(table, i, sum, part, spare);
    let counts = hold(
        server.capacity,
        server.period,
        &sum[..wanted],
        &free[..count],
        held,
        spare,
    );
    copy(&spare[..counts.left], free);
    counts
}

// The same in the work buffers of a call.
pub fn hold_in_work(table: Table, i: usize, count: usize, work: &mut Work<'_>) -> Counts
    requires { Obeyed table × (i < table.servers_n) × Curve work.old.free.now count table.span }
    ensures same { Same work.old work.new }
    ensures held { Wrote work.old.held.now work.new.held.now result.taken (held_in table i (take count work.old.free.now)) }
    ensures left { Wrote work.old.free.now work.new.free.now result.left
        (without table.span (take count work.old.free.now) (held_in table i (take count work.old.free.now))) }
{
    hold_server(
        table, i, count, work.free, work.sum, work.part, work.held, work.spare,
    )
}

// More ticks than a span has: a capacity of so many in each period of so many is no limit.
const ALL: u32 = 16_000;

// Writes the ticks in which a task runs, of the held ticks that the first `count` numbers of `held` are, and leaves there those in which it does not.
// With the whole `Work` it would need a clause for every buffer that it leaves alone.
pub fn share(
    task: Task,
    span: u32,
    count: usize,
    held: &mut [u32],
    part: &mut [u32],
    running: &mut [u32],
    spare: &mut [u32],
) -> Counts
    requires { TaskObeyed task × (0 < span) × (span ≤ 16000) × Curve held.old count span × (16000 ≤ length part.old) × (16000 ≤ length running.old)
        × (16000 ≤ length spare.old) }
    ensures { Wrote running.old running.new result.taken (fit (demand_of span task) (take count held.old)).served
        × Wrote held.old held.new result.left (fit (demand_of span task) (take count held.old)).left }
{
    let demanded = demand(task, span, part);
    let counts = hold(ALL, ALL, &part[..demanded], &held[..count], running, spare);
    copy(&spare[..counts.left], held);
    counts
}
