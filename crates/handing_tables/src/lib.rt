// What the calls for C on a table hand out, through places to write to: line and place of a refusal, what is read of a text, a step of the machine.
// C lends a place for each number and each array: so they are no structs here.
#![tactic(auto)]

ghost use Rattle.std.specs.Prelude.{◌≡◌, ◌≤◌, IfOk};
ghost use Rattle.machine.specs.Machine.{step_of};
ghost use Rattle.handing_tables.specs.Tables.{refusal_in, number_in, HandsReading, step_for, HandsStep, unplaced};

use entries::{hand_servers, hand_tasks};
use machine::{State, Step};
use refusals::{Refusal, no_refusal};
use table::Table;

// The refusal of a call, or that there is none.
fn refusal_in<T>(outcome: &Result<T, Refusal>) -> Refusal
    ensures { result ≡ refusal_in outcome.now }
{
    match outcome {
        Ok(_) => no_refusal(),
        Err(refusal) => *refusal,
    }
}

// The number of a refusal; 0 where there is none.
pub fn number_in<T>(outcome: &Result<T, Refusal>) -> u32
    ensures { result ≡ number_in outcome.now }
{
    refusal_in(outcome).number
}

// Hands out line and place of a refusal, and answers its number; all are 0 where there is none.
pub fn hand_refusal<T>(outcome: &Result<T, Refusal>, line: &mut u32, place: &mut u32) -> u32
    ensures { record { number = result; line = line.new; place = place.new } ≡ refusal_in outcome.now }
{
    let refusal = refusal_in(outcome);
    *line = refusal.line;
    *place = refusal.place;
    refusal.number
}

// Hands out what is read of a text: of the arrays the rows of the servers and tasks that there are, and no others.
pub fn hand_reading(
    read: Result<Table, Refusal>,
    line: &mut u32,
    place: &mut u32,
    span: &mut u32,
    servers_n: &mut usize,
    tasks_n: &mut usize,
    servers: &mut [u32; 48],
    tasks: &mut [u32; 384],
) -> u32
    requires { IfOk read (λ table. (table.servers_n ≤ 16) × (table.tasks_n ≤ 64)) }
    ensures { HandsReading read (record { span = span.old; servers = servers_n.old; tasks = tasks_n.old })
        servers.old tasks.old (record { number = result; line = line.new; place = place.new })
        (record { span = span.new; servers = servers_n.new; tasks = tasks_n.new }) servers.new tasks.new }
{
    if let Ok(table) = read {
        *span = table.span;
        *servers_n = table.servers_n;
        *tasks_n = table.tasks_n;
        hand_servers(table, servers);
        hand_tasks(table, tasks);
    }
    hand_refusal(&read, line, place)
}

// Hands out what a step answers: the state, holder and runner. Where no step was done, the state stays as it is, with 0 for holder and runner.
fn hand_stepped(
    stepped: &Result<Step, Refusal>,
    tick: &mut u32,
    budgets: &mut [u32; 16],
    waiting: &mut [u32; 64],
    holder: &mut u32,
    runner: &mut u32,
)
    ensures { HandsStep stepped.now (record { tick = tick.old; budgets = budgets.old; waiting = waiting.old })
        (refusal_in stepped.now) (record { tick = tick.new; budgets = budgets.new; waiting = waiting.new })
        holder.new runner.new }
{
    *holder = 0;
    *runner = 0;
    if let Ok(step) = stepped {
        *tick = step.next.tick;
        *budgets = step.next.budgets;
        *waiting = step.next.waiting;
        *holder = step.holder;
        *runner = step.runner;
    }
}

// Goes one tick on with a table's machine. No text is read, so that a refusal has no line and no place.
#[tactic(auto, using(crate::proofs::Given::step_unplaced))]
pub fn step_table(
    table: Table,
    tick: &mut u32,
    budgets: &mut [u32; 16],
    waiting: &mut [u32; 64],
    holder: &mut u32,
    runner: &mut u32,
) -> u32
    ensures { HandsStep (step_of table (record { tick = tick.old; budgets = budgets.old; waiting = waiting.old }))
        (record { tick = tick.old; budgets = budgets.old; waiting = waiting.old })
        (unplaced result) (record { tick = tick.new; budgets = budgets.new; waiting = waiting.new })
        holder.new runner.new }
{
    let before = State {
        tick: *tick,
        budgets: *budgets,
        waiting: *waiting,
    };
    let stepped = before.step(table);
    hand_stepped(&stepped, tick, budgets, waiting, holder, runner);
    number_in(&stepped)
}

// Goes one tick on with the machine of the table that is read of a text. Where the text is refused, no step is done.
pub fn hand_step(
    read: Result<Table, Refusal>,
    tick: &mut u32,
    budgets: &mut [u32; 16],
    waiting: &mut [u32; 64],
    line: &mut u32,
    place: &mut u32,
    holder: &mut u32,
    runner: &mut u32,
) -> u32
    ensures { HandsStep (step_for read (record { tick = tick.old; budgets = budgets.old; waiting = waiting.old }))
        (record { tick = tick.old; budgets = budgets.old; waiting = waiting.old })
        (record { number = result; line = line.new; place = place.new })
        (record { tick = tick.new; budgets = budgets.new; waiting = waiting.new }) holder.new runner.new }
{
    let before = State {
        tick: *tick,
        budgets: *budgets,
        waiting: *waiting,
    };
    let stepped = match &read {
        Ok(table) => before.step(*table),
        Err(refusal) => Err(*refusal),
    };
    hand_stepped(&stepped, tick, budgets, waiting, holder, runner);
    hand_refusal(&stepped, line, place)
}
