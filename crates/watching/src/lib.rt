// The report from the tick machine alone: the machine is stepped over the whole span, it is noted which server holds each tick and which task
// runs in it, and what the report says of each server and each task is counted from these notes.
#![tactic(auto)]

mod servers;
mod tasks;

ghost use Rattle.std.specs.Prelude.{◌≤◌, IfOk};

use answers::{Analysis, Response};
use batch::output::Output;
use printing::put_report;
use reading::read;
use refusals::Refusal;
use servers::{no_answer, server_answer};
use std::array;
use table::Table;
use tasks::task_answer;

// The most ticks that a span has.
const TICKS: usize = 16_000;

// Steps the machine from tick 0 on, and notes each tick's holder and runner, 0 for none, as the machine's step hands them out.
fn watch(table: Table, holders: &mut [u32], runners: &mut [u32]) -> Result<(), Refusal> {
    let mut state = machine::start();
    for (holder, runner) in holders.iter_mut().zip(runners.iter_mut()) {
        let stepped = state.step(table)?;
        *holder = stepped.holder;
        *runner = stepped.runner;
        state = stepped.next;
    }
    Ok(())
}

// The answers of a text's table.
fn analysed(text: &[u8]) -> Result<Analysis, Refusal>
    ensures { IfOk result (λ analysis. (analysis.servers_n ≤ 16) × (analysis.tasks_n ≤ 64)) }
{
    let table = read(text)?;
    let ticks = TICKS.min(table.span as usize);
    // two arrays, since the servers are counted from the holders alone, and the tasks from the runners
    let mut holders = [0u32; TICKS];
    let mut runners = [0u32; TICKS];
    watch(table, &mut holders[..ticks], &mut runners[..ticks])?;
    let servers_n = table.servers_n.min(16);
    let tasks_n = table.tasks_n.min(64);
    let servers = array::from_fn(|i| {
        if i < servers_n {
            server_answer(table.servers[i], i as u32 + 1, &holders[..ticks])
        } else {
            no_answer()
        }
    });
    let tasks = array::from_fn(|j| {
        if j < tasks_n {
            task_answer(table.tasks[j], j as u32 + 1, &runners[..ticks])
        } else {
            Response::None
        }
    });
    Ok(Analysis {
        span: table.span,
        servers_n,
        tasks_n,
        servers,
        tasks,
    })
}

// Puts the report of a text's table, or why the text is refused.
pub fn put_answer(out: &mut Output, text: &[u8]) {
    // a report has at most so many bytes
    let mut page = [0u8; 4240];
    let count = put_report(&mut page, analysed(text));
    out.put_bytes(&page[..count]);
}
