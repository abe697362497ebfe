// The rules, entry by entry.
ghost use Rattle.std.specs.Prelude.{◌≡◌, ◌≤◌};
ghost use Rattle.table.specs.Rules.{all, server_obeys, release_obeys, task_obeys, servers_of, tasks_of};

use crate::ranges::{in_ticks, within};
use crate::{Release, Server, Table, Task};

fn server_obeys(server: Server) -> bool
    ensures { result ≡ server_obeys server }
{
    in_ticks(server.capacity) && in_ticks(server.period) && server.capacity <= server.period
}

fn release_obeys(release: Release) -> bool
    ensures { result ≡ release_obeys release }
{
    match release {
        Release::Once(instant) => instant <= 16000,
        Release::Every(offset, period) => offset <= 16000 && in_ticks(period),
    }
}

fn task_obeys(servers: usize, task: Task) -> bool
    ensures { result ≡ task_obeys servers task }
{
    within(task.server as usize, servers)
        && in_ticks(task.work)
        && release_obeys(task.release)
        && in_ticks(task.deadline)
}

// Whether all servers of a table obey the rules. This and the next stay two functions: each states the one walk that it makes.
pub fn servers_obey(table: Table) -> bool
    requires { table.servers_n ≤ 16 }
    ensures { result ≡ all server_obeys (servers_of table) }
{
    let servers = &table.servers[..table.servers_n];
    servers.iter().all(|server| server_obeys(*server))
}

// Whether all tasks of a table obey the rules.
pub fn tasks_obey(table: Table) -> bool
    requires { table.tasks_n ≤ 64 }
    ensures { result ≡ all (task_obeys table.servers_n) (tasks_of table) }
{
    let tasks = &table.tasks[..table.tasks_n];
    tasks.iter().all(|task| task_obeys(table.servers_n, *task))
}
