// The grounds of refusal 13. Each asks for its count alone, and the counts are no fact of `Table`: C may hand in any, and `obeys_rules` refuses them.
ghost use Rattle.std.specs.Prelude.{◌≡◌, ◌≤◌};
ghost use Rattle.table.specs.Places.{none_of};
ghost use Rattle.machine.specs.Machine.{over_budget, over_work, accepts};

use crate::State;
use table::{Table, obeys_rules};

// Whether no server's budget is above its capacity.
fn budgets_within(state: State, table: Table) -> bool
    requires { table.servers_n ≤ 16 }
    ensures { result ≡ none_of (over_budget table state) table.servers_n }
{
    let servers = &table.servers[..table.servers_n];
    servers
        .iter()
        .zip(&state.budgets)
        .all(|(server, budget)| *budget <= server.capacity)
}

// Whether no task's waiting work is above the limit.
fn work_within(state: State, table: Table) -> bool
    requires { table.tasks_n ≤ 64 }
    ensures { result ≡ none_of (over_work state) table.tasks_n }
{
    state.waiting[..table.tasks_n]
        .iter()
        .all(|waiting| *waiting <= 300000000)
}

// Whether a step from a state is not refused.
#[tactic(auto, unfolding(crate::specs::Machine::accepts))]
pub fn accepted(state: State, table: &Table) -> bool
    ensures { result ≡ accepts table.now state }
{
    obeys_rules(*table)
        && state.tick < table.span
        && budgets_within(state, *table)
        && work_within(state, *table)
}
