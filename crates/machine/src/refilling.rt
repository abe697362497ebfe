// (1) Refills.
ghost use Rattle.std.specs.Prelude.{◌≡◌, ◌<◌};
ghost use Rattle.machine.specs.Machine.{refilled, refills};
ghost use Rattle.table.specs.Places.{Obeyed};

use crate::State;
use table::{Server, Table};

// A server's budget once the tick's refill is done.
fn budget_at(server: Server, tick: u32, budget: u32) -> u32
    requires { 0 < server.period }
    ensures { result ≡ refilled tick server budget }
{
    if tick % server.period == 0 {
        server.capacity
    } else {
        budget
    }
}

// Each server with the tick a multiple of its period has its budget set to its capacity.
pub fn refill(state: State, table: Table) -> State
    requires { Obeyed table }
    ensures { result ≡ refills table state }
{
    let mut filled = state;
    for (i, server) in table.servers[..table.servers_n].iter().enumerate() {
        filled.budgets[i] = budget_at(*server, state.tick, filled.budgets[i]);
    }
    filled
}
