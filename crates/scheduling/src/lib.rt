// Who runs when, and what comes of it, worked out from curves on six lent work buffers.
#![tactic(auto)]

ghost use Rattle.std.specs.Prelude.{◌≡◌, ◌≤◌, is_ok};
ghost use Rattle.opening.specs.Opening.{roomy};
ghost use Rattle.scheduling.specs.Buffers.{Buffers};
ghost use Rattle.scheduling.specs.Working.{Works, told_by, listed_by};
ghost use Rattle.scheduling.specs.Asking.{Asks};
ghost use Rattle.scheduling.specs.Analysing.{Analyses};

use answering::{Notes, answer_all, first_marked};
use answers::Analysis;
use buffers::work::Work;
use opening::open_text;
use refusals::Refusal;
use table::Table;

// Who holds a tick and who runs in it. 0 is none, as at `machine::Step`, since the calls for C hand them out so.
#[derive(Clone, Copy)]
pub struct Who {
    pub holder: u32,
    pub runner: u32,
}

// What was worked out of a text's table.
#[derive(Clone, Copy)]
struct Worked {
    table: Table,
    notes: Notes,
}

// Works out the notes of a text's table and of a tick; every number of the work buffers is then 0. The buffers are six slices here and in the two
// calls, since C lends six, of any length; a `Work` is made of them once each has room.
fn work_out(
    text: &[u8],
    tick: u32,
    free: &mut [u32],
    sum: &mut [u32],
    part: &mut [u32],
    held: &mut [u32],
    running: &mut [u32],
    spare: &mut [u32],
) -> Result<Worked, Refusal>
    ensures works { Works text.now tick (roomy free.old sum.old part.old held.old
        running.old spare.old) result }
    ensures buffers { Buffers (is_ok result) free.old sum.old part.old
        held.old running.old spare.old free.new sum.new part.new held.new
        running.new spare.new }
{
    let rooms = [
        free.len(),
        sum.len(),
        part.len(),
        held.len(),
        running.len(),
        spare.len(),
    ];
    let table = open_text(text, tick, rooms)?;
    let mut work = Work {
        free,
        sum,
        part,
        held,
        running,
        spare,
    };
    let notes = answer_all(table, tick, &mut work);
    work.clear();
    Ok(Worked { table, notes })
}

// Who holds the tick and who runs in it: the first server and the first task that are marked.
fn told(worked: Worked) -> Who
    requires { (worked.table.servers_n ≤ 16) × (worked.table.tasks_n ≤ 64) }
    ensures { result ≡ told_by worked }
{
    let Worked { table, notes } = worked;
    let holder = first_marked(&notes.servers.marks[..table.servers_n]);
    let runner = first_marked(&notes.tasks.marks[..table.tasks_n]);
    Who { holder, runner }
}

// The answers of all servers and tasks.
fn listed(worked: Worked) -> Analysis
    ensures { result ≡ listed_by worked }
{
    let Worked { table, notes } = worked;
    let servers = notes.servers.answers;
    let tasks = notes.tasks.answers;
    Analysis {
        span: table.span,
        servers_n: table.servers_n,
        tasks_n: table.tasks_n,
        servers,
        tasks,
    }
}

// Who holds a tick of a text's table and who runs in it, read from the curves.
pub fn who_at(
    text: &[u8],
    tick: u32,
    free: &mut [u32],
    sum: &mut [u32],
    part: &mut [u32],
    held: &mut [u32],
    running: &mut [u32],
    spare: &mut [u32],
) -> Result<Who, Refusal>
    ensures { Asks text.now tick free.old sum.old part.old held.old
        running.old spare.old result free.new sum.new part.new held.new
        running.new spare.new }
{
    let worked = work_out(text, tick, free, sum, part, held, running, spare)?;
    Ok(told(worked))
}

// The answers of all servers and tasks of a text's table.
pub fn analyse(
    text: &[u8],
    free: &mut [u32],
    sum: &mut [u32],
    part: &mut [u32],
    held: &mut [u32],
    running: &mut [u32],
    spare: &mut [u32],
) -> Result<Analysis, Refusal>
    ensures { Analyses text.now free.old sum.old part.old held.old
        running.old spare.old result free.new sum.new part.new held.new
        running.new spare.new }
{
    // tick 0 lies in every span
    let worked = work_out(text, 0, free, sum, part, held, running, spare)?;
    Ok(listed(worked))
}
