// The span that all periods of a table give: the least common multiple, taken pair by pair.
ghost use Rattle.std.specs.Prelude.{◌≡◌, ◌≤◌, ◌<◌, Some, [], ◌∷◌};
ghost use Rattle.table.specs.Rules.{servers_of, tasks_of};
ghost use Rattle.table.specs.Span.{periods_of, span_of};
ghost use Rattle.table.specs.Multiples.{JoinsAll};

use crate::Table;
use crate::euclid::lcm;
use crate::ranges::in_ticks;

// The least common multiple of a span and a period, if it is 16,000 at most.
#[tactic(auto, using(crate::proofs::Spans::joins_up_to))]
fn joined(span: u32, period: u32) -> Option<u32>
    requires { (0 < span) × (span ≤ 16000) }
    ensures { JoinsAll (Some span) (period ∷ []) result }
{
    if !in_ticks(period) {
        return None;
    }
    let multiple = lcm(span, period);
    (multiple <= 16000).then_some(multiple)
}

// The least common multiple of all server periods and all `every` periods, if it is 16,000 at most. No number divides by a period of 0.
pub fn common_span(table: Table) -> Option<u32>
    ensures { result ≡ span_of (periods_of (servers_of table) (tasks_of table)) }
{
    let servers = &table.servers[..table.servers_n.min(16)];
    let tasks = &table.tasks[..table.tasks_n.min(64)];
    let of_servers = servers.iter().map(|server| server.period);
    let of_tasks = tasks.iter().filter_map(|task| task.release.period());
    let mut span = 1;
    for period in of_servers.chain(of_tasks) {
        span = joined(span, period)?;
    }
    Some(span)
}
