// (3) and (4) Who holds the tick, and who runs in it. Numbers count from 1, and 0 is none, as `holder_of` and `runner_of` of the contracts have it.
ghost use Rattle.std.specs.Prelude.{◌≡◌, ◌≤◌};
ghost use Rattle.machine.specs.Machine.{may_hold, holder_of};
ghost use Rattle.table.specs.Places.{Obeyed};
ghost use Rattle.machine.specs.Parts.{Firsts, entry_of};

use crate::State;
use table::{Kind, Table};

// Each server's first task with waiting work, or 0: the walk goes up the table, so the lower number is noted last.
pub fn first_tasks(state: State, table: Table) -> [u32; 16]
    requires { Obeyed table }
    ensures { Firsts table state result }
{
    let mut firsts = [0; 16];
    for j in (0..table.tasks_n).rev() {
        let own = (table.tasks[j].server - 1) as usize;
        let waiting = state.waiting[j];
        if 0 < waiting {
            firsts[own] = (j as u32) + 1;
        }
    }
    firsts
}

// Whether a server with such a budget and first task holds a tick that it is offered: a periodic one does so without work.
fn may_hold(budget: u32, kind: Kind, first: u32) -> bool
    ensures { result ≡ may_hold budget kind first }
{
    0 < budget && (kind == Kind::Periodic || 0 < first)
}

// The first server that has budget left, and is periodic or has waiting work, or 0.
pub fn first_server(state: State, table: Table, firsts: [u32; 16]) -> u32
    requires { Obeyed table × Firsts table state firsts }
    ensures { result ≡ holder_of table state }
{
    let servers = &table.servers[..table.servers_n];
    let mut offered = servers.iter().zip(&state.budgets).zip(&firsts);
    let at = offered.position(|((server, &budget), &first)| may_hold(budget, server.kind, first));
    at.map_or(0, |i| (i as u32) + 1)
}

// The holder's first task with waiting work, or 0.
pub fn first_task(holder: u32, firsts: [u32; 16]) -> u32
    requires { holder ≤ 16 }
    ensures { result ≡ entry_of firsts holder }
{
    if holder == 0 {
        0
    } else {
        firsts[(holder - 1) as usize]
    }
}
