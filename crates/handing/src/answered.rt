// What the two calls on a text and six work buffers hand out. C lends a place for each number and each array: so they are no structs here.
ghost use Rattle.std.specs.Prelude.{◌≤◌, IfOk};
ghost use Rattle.handing.specs.Handing.{HandsWho, HandsAnalysis};

use crate::listing::{list_margins, list_servers, list_tasks};
use answers::Analysis;
use handing_tables::hand_refusal;
use refusals::Refusal;
use scheduling::Who;

// Hands out who holds a tick and who runs in it.
pub fn hand_who(
    told: Result<Who, Refusal>,
    line: &mut u32,
    place: &mut u32,
    holder: &mut u32,
    runner: &mut u32,
) -> u32
    ensures { HandsWho told holder.old runner.old (record { number = result; line = line.new; place = place.new })
        holder.new runner.new }
{
    if let Ok(who) = told {
        *holder = who.holder;
        *runner = who.runner;
    }
    hand_refusal(&told, line, place)
}

// Hands out the answers of an analysis: of each array only the entries of the servers or tasks that there are.
pub fn hand_analysis(
    analysed: Result<Analysis, Refusal>,
    line: &mut u32,
    place: &mut u32,
    span: &mut u32,
    servers_n: &mut usize,
    tasks_n: &mut usize,
    servers: &mut [u32; 32],
    tasks: &mut [u32; 192],
    margin: &mut [i32; 64],
) -> u32
    requires { IfOk analysed (λ analysis. (analysis.servers_n ≤ 16) × (analysis.tasks_n ≤ 64)) }
    ensures { HandsAnalysis analysed (record { span = span.old; servers = servers_n.old; tasks = tasks_n.old })
        (record { servers = servers.old; tasks = tasks.old; margin = margin.old })
        (record { number = result; line = line.new; place = place.new })
        (record { span = span.new; servers = servers_n.new; tasks = tasks_n.new })
        (record { servers = servers.new; tasks = tasks.new; margin = margin.new }) }
{
    if let Ok(analysis) = analysed {
        *span = analysis.span;
        *servers_n = analysis.servers_n;
        *tasks_n = analysis.tasks_n;
        list_servers(analysis.servers, analysis.servers_n, servers);
        list_tasks(analysis.tasks, analysis.tasks_n, tasks);
        list_margins(analysis.tasks, analysis.tasks_n, margin);
    }
    hand_refusal(&analysed, line, place)
}
