// The library's calls for programs in C: numbers, slices (a pointer and a length), and places to write to. Each answers 0, or the number of its
// refusal; what it hands out is then left as it was, but for line and place, and but for a refused step, which hands out 0 for holder and runner.
#![tactic(auto)]

ghost use Rattle.grodvejas.specs.Calls.{Adds, Cuts, Fits, Provides, Reads, Writes, Steps, StepsTable, Tells, Analyses, Reports};

use entries::table_from;
use handing::answered::{hand_analysis, hand_who};
use handing::outcomes::{hand, hand_counts, hand_instant};
use handing_tables::{hand_reading, hand_step, step_table};

// Adds up two curves into a buffer, and hands out how many numbers were written.
#[unsafe(no_mangle)]
pub extern "C" fn grod_add(a: &[u32], b: &[u32], out: &mut [u32], count: &mut usize) -> u32
    ensures { Adds a.now b.now out.old count.old result count.new out.new }
{
    hand(curves::add(a, b, out), count)
}

// Cuts a curve at the multiples of a period into a buffer, and hands out how many numbers were written.
#[unsafe(no_mangle)]
pub extern "C" fn grod_cut(curve: &[u32], period: u32, out: &mut [u32], count: &mut usize) -> u32
    ensures { Cuts curve.now period out.old count.old result count.new out.new }
{
    hand(curves::cut(curve, period, out), count)
}

// Fits a demand into a supply, and hands out how many numbers of supply left, served and demand left were written.
#[unsafe(no_mangle)]
pub extern "C" fn grod_fit(
    demand: &[u32],
    supply: &[u32],
    left: &mut [u32],
    served: &mut [u32],
    rest: &mut [u32],
    left_n: &mut usize,
    served_n: &mut usize,
    rest_n: &mut usize,
) -> u32
    ensures { Fits demand.now supply.now left.old served.old rest.old left_n.old
        served_n.old rest_n.old result left_n.new served_n.new rest_n.new left.new
        served.new rest.new }
{
    let fitted = curves::fit(demand, supply, left, served, rest);
    hand_counts(fitted, left_n, served_n, rest_n)
}

// Hands out when a curve has given an amount of ticks, 0 if it gives fewer.
#[unsafe(no_mangle)]
pub extern "C" fn grod_time_to_provide(curve: &[u32], amount: u32, instant: &mut u32) -> u32
    ensures { Provides curve.now amount instant.old result instant.new }
{
    hand_instant(curves::time_to_provide(curve, amount), instant)
}

// Reads a table's text, and hands out its span, how many servers and tasks it has, and a row of numbers for each: of the arrays the rows within the
// counts, and no others.
#[unsafe(no_mangle)]
pub extern "C" fn grod_read(
    text: &[u8],
    line: &mut u32,
    place: &mut u32,
    span: &mut u32,
    servers_n: &mut usize,
    tasks_n: &mut usize,
    servers: &mut [u32; 48],
    tasks: &mut [u32; 384],
) -> u32
    ensures { Reads text.now (record { span = span.old; servers = servers_n.old; tasks = tasks_n.old })
        servers.old tasks.old (record { number = result; line = line.new; place = place.new })
        (record { span = span.new; servers = servers_n.new; tasks = tasks_n.new }) servers.new tasks.new }
{
    let read = reading::read(text);
    hand_reading(read, line, place, span, servers_n, tasks_n, servers, tasks)
}

// Writes the text of a table, given by its span, its counts and its rows, to the front of a buffer, and hands out how many bytes it has.
#[unsafe(no_mangle)]
pub extern "C" fn grod_write(
    span: u32,
    servers_n: usize,
    tasks_n: usize,
    servers: &[u32; 48],
    tasks: &[u32; 384],
    out: &mut [u8],
    count: &mut usize,
) -> u32
    ensures { Writes (record { span = span; servers = servers_n; tasks = tasks_n }) servers.now tasks.now out.old
        count.old result count.new out.new }
{
    let table = table_from(span, servers_n, tasks_n, servers, tasks);
    hand(writing::write(table, out), count)
}

// Goes one tick on with the machine of a text's table: the state is handed in and out, and who holds the tick and who runs in it is handed out. A refused
// step hands back the state it got, with 0 for holder and runner.
#[unsafe(no_mangle)]
pub extern "C" fn grod_step(
    text: &[u8],
    tick: &mut u32,
    budgets: &mut [u32; 16],
    waiting: &mut [u32; 64],
    line: &mut u32,
    place: &mut u32,
    holder: &mut u32,
    runner: &mut u32,
) -> u32
    ensures { Steps text.now (record { tick = tick.old; budgets = budgets.old; waiting = waiting.old })
        (record { number = result; line = line.new; place = place.new })
        (record { tick = tick.new; budgets = budgets.new; waiting = waiting.new }) holder.new runner.new }
{
    let read = reading::read(text);
    hand_step(read, tick, budgets, waiting, line, place, holder, runner)
}

// The same with the machine of a table that is given by its span, its counts and its rows. No text is read, so that there is no line and no place.
#[unsafe(no_mangle)]
pub extern "C" fn grod_step_table(
    span: u32,
    servers_n: usize,
    tasks_n: usize,
    servers: &[u32; 48],
    tasks: &[u32; 384],
    tick: &mut u32,
    budgets: &mut [u32; 16],
    waiting: &mut [u32; 64],
    holder: &mut u32,
    runner: &mut u32,
) -> u32
    ensures { StepsTable (record { span = span; servers = servers_n; tasks = tasks_n }) servers.now tasks.now
        (record { tick = tick.old; budgets = budgets.old; waiting = waiting.old })
        result (record { tick = tick.new; budgets = budgets.new; waiting = waiting.new }) holder.new runner.new }
{
    let given = table_from(span, servers_n, tasks_n, servers, tasks);
    step_table(given, tick, budgets, waiting, holder, runner)
}

// Hands out who holds a tick of a text's table and who runs in it, read from the curves.
#[unsafe(no_mangle)]
pub extern "C" fn grod_who_at(
    text: &[u8],
    tick: u32,
    free: &mut [u32],
    sum: &mut [u32],
    part: &mut [u32],
    held: &mut [u32],
    running: &mut [u32],
    spare: &mut [u32],
    line: &mut u32,
    place: &mut u32,
    holder: &mut u32,
    runner: &mut u32,
) -> u32
    ensures { Tells text.now tick free.old sum.old part.old held.old running.old
        spare.old holder.old runner.old (record { number = result; line = line.new; place = place.new })
        holder.new runner.new free.new sum.new part.new held.new running.new
        spare.new }
{
    let told = scheduling::who_at(text, tick, free, sum, part, held, running, spare);
    hand_who(told, line, place, holder, runner)
}

// Hands out the answers of all servers and tasks of a text's table, a row of numbers for each: of the arrays the rows within the counts, and no others.
#[unsafe(no_mangle)]
pub extern "C" fn grod_analyse(
    text: &[u8],
    free: &mut [u32],
    sum: &mut [u32],
    part: &mut [u32],
    held: &mut [u32],
    running: &mut [u32],
    spare: &mut [u32],
    line: &mut u32,
    place: &mut u32,
    span: &mut u32,
    servers_n: &mut usize,
    tasks_n: &mut usize,
    servers: &mut [u32; 32],
    tasks: &mut [u32; 192],
    margin: &mut [i32; 64],
) -> u32
    ensures { Analyses text.now free.old sum.old part.old held.old running.old
        spare.old (record { span = span.old; servers = servers_n.old; tasks = tasks_n.old })
        (record { servers = servers.old; tasks = tasks.old; margin = margin.old })
        (record { number = result; line = line.new; place = place.new })
        (record { span = span.new; servers = servers_n.new; tasks = tasks_n.new })
        (record { servers = servers.new; tasks = tasks.new; margin = margin.new }) free.new
        sum.new part.new held.new running.new spare.new }
{
    let analysed = scheduling::analyse(text, free, sum, part, held, running, spare);
    hand_analysis(
        analysed, line, place, span, servers_n, tasks_n, servers, tasks, margin,
    )
}

// Writes the report of a text to the front of a buffer, and hands out how many bytes it has.
#[unsafe(no_mangle)]
pub extern "C" fn grod_report(text: &[u8], out: &mut [u8], count: &mut usize) -> u32
    ensures { Reports text.now out.old count.old result count.new out.new }
{
    hand(reporting::report(text, out), count)
}
