// The machine that goes one tick at a time.
#![tactic(auto)]

mod picking;
mod refilling;
mod refusing;
mod releasing;
mod running;

ghost use Rattle.std.specs.Prelude.{◌≡◌, true};
ghost use Rattle.machine.specs.Machine.{accepts, stepped, step_of};
ghost use Rattle.table.specs.Places.{Obeyed};
ghost use Rattle.machine.specs.Run.{all_zero};

use refusals::{Ground, Refusal, required};
use table::Table;

// Before a tick: its number, each server's budget, each task's waiting work. The table is a parameter beside it, and no field: C keeps a state by
// itself and hands in the table with each step.
#[derive(Clone, Copy)]
pub struct State {
    pub tick: u32,
    pub budgets: [u32; 16],
    pub waiting: [u32; 64],
}

// What a step answers. Holder and runner are numbers counted from 1, and 0 for none, since the calls for C hand them out so.
#[derive(Clone, Copy)]
pub struct Step {
    pub next: State,
    pub holder: u32,
    pub runner: u32,
}

// The state before tick 0. A function, and no `Default`: docs/PROMISES.md names `machine::start`.
pub fn start() -> State
    ensures { result ≡ all_zero }
{
    State {
        tick: 0,
        budgets: [0; 16],
        waiting: [0; 64],
    }
}

impl State {
    // One tick of a table's machine, or refusal 13: whoever calls still has the state.
    #[tactic(auto, using(crate::proofs::Stepping::accepted_obeyed), unfolding(crate::specs::Machine::step_of))]
    pub fn step(self, table: Table) -> Result<Step, Refusal>
        ensures { result ≡ step_of table self }
    {
        required(refusing::accepted(self, &table), Ground::OutOfStep)?;
        Ok(self.after_tick(&table))
    }

    // One tick from a state that is not refused.
    fn after_tick(self, table: &Table) -> Step
        requires obeyed { Obeyed table.now }
        requires accepted { accepts table.now self ≡ true }
        ensures { result ≡ stepped table.now self }
    {
        let filled = refilling::refill(self, *table);
        let ready = releasing::release(filled, *table);
        let firsts = picking::first_tasks(ready, *table);
        let holder = picking::first_server(ready, *table, firsts);
        let runner = picking::first_task(holder, firsts);
        let mut next = ready;
        running::spend(&mut next, holder);
        running::run(&mut next, runner);
        next.tick += 1;
        Step {
            next,
            holder,
            runner,
        }
    }
}
