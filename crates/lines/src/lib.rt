// What one line says.
#![tactic(auto)]

ghost use Rattle.std.specs.Prelude.{◌≡◌, Ok, Err};
ghost use Rattle.fields.specs.Fields.{field_at, same_bytes, dash, field_number};
ghost use Rattle.lines.specs.Pieces.{ReadAt};
ghost use Rattle.lines.specs.Lines.{wrong_at, counted, ranged, task_placed, kind_of, deadline_of, server_is, task_is, span_line, server_line, once_line, every_line, line_of};

use fields::Word;
use fields::parting::{count, field, same};
use fields::values::{number, word};
use refusals::{Ground, required};
use table::ranges::{in_ticks, within};
use table::{Kind, Release, Server, Task};

// What a right line says. A span of 0 is the one that all periods give: 01's tables have no span 0, and the specification's `span_line` says 0 for `-`.
#[derive(Clone, Copy)]
pub enum Line {
    SpanIs(u32),
    ServerIs(Server),
    TaskIs(Task),
}

// What is wrong with a line, and at which place of it, the first word being 1; 0 where it is the line as a whole, as
// 01, C and the report hand it out.
#[derive(Clone, Copy)]
pub struct Wrong {
    pub ground: Ground,
    pub place: u32,
}

// What is wrong, and at which place.
fn wrong_at(ground: Ground, place: u32) -> Wrong
    ensures { result ≡ wrong_at ground place }
{
    Wrong { ground, place }
}

// The test that a line has `n` fields. Of several tests, one behind the other, the first that fails decides.
fn counted(line: &[u8], n: usize) -> Result<(), Wrong>
    ensures { result ≡ counted line.now n (Ok tt) }
{
    required(count(line) == n, wrong_at(Ground::FieldCount, 0))
}

// The test that the number at a place is in its range.
fn ranged(holds: bool, place: u32) -> Result<(), Wrong>
    ensures { result ≡ ranged holds place (Ok tt) }
{
    required(holds, wrong_at(Ground::OutOfRange, place))
}

// What the field at a place is read as, or what is wrong with it.
fn at<T>(read: Result<T, Ground>, place: u32) -> Result<T, Wrong>
    ensures { ReadAt read place result }
{
    read.map_err(|ground| wrong_at(ground, place))
}

// The field at a place, the line's first word being 1.
fn field_at(line: &[u8], place: u32) -> &[u8]
    ensures { result.now ≡ field_at line.now place }
{
    field(line, (place as usize).saturating_sub(1))
}

// Whether `-` stands at a place.
fn dash_at(line: &[u8], place: u32) -> bool
    ensures { result ≡ same_bytes (field_at line.now place) dash }
{
    same(field_at(line, place), b"-")
}

// The number at a place.
fn number_at(line: &[u8], place: u32) -> Result<u32, Wrong>
    ensures { ReadAt (field_number (field_at line.now place)) place result }
{
    at(number(field_at(line, place)), place)
}

// `span`: a number of ticks, or `-`.
fn span_line(line: &[u8]) -> Result<Line, Wrong>
    ensures { result ≡ span_line line.now }
{
    counted(line, 2)?;
    if dash_at(line, 2) {
        return Ok(Line::SpanIs(0));
    }
    let ticks = number_at(line, 2)?;
    ranged(in_ticks(ticks), 2)?;
    Ok(Line::SpanIs(ticks))
}

// A server's kind; tests in a row, as in `fields::values::word`.
fn kind(field: &[u8]) -> Result<Kind, Ground>
    ensures { result ≡ kind_of field.now }
{
    if field.is_empty() {
        return Err(Ground::Empty);
    }
    if same(field, b"deferrable") {
        return Ok(Kind::Deferrable);
    }
    if same(field, b"periodic") {
        return Ok(Kind::Periodic);
    }
    Err(Ground::UnknownKind)
}

// A server, if its numbers are in their ranges.
fn server(kind: Kind, capacity: u32, period: u32) -> Result<Line, Wrong>
    ensures { result ≡ server_is kind capacity period }
{
    ranged(in_ticks(capacity) && capacity <= period, 3)?;
    ranged(in_ticks(period), 4)?;
    Ok(Line::ServerIs(Server {
        kind,
        capacity,
        period,
    }))
}

// `server`: kind, capacity, period.
fn server_line(line: &[u8]) -> Result<Line, Wrong>
    ensures { result ≡ server_line line.now }
{
    counted(line, 4)?;
    let kind = at(kind(field_at(line, 2)), 2)?;
    let capacity = number_at(line, 3)?;
    let period = number_at(line, 4)?;
    server(kind, capacity, period)
}

// A task, if its numbers are in their ranges.
fn task(servers: usize, task: Task) -> Result<Line, Wrong>
    ensures { result ≡ task_is servers task }
{
    ranged(within(task.server as usize, servers), 2)?;
    ranged(in_ticks(task.work), 3)?;
    match task.release {
        Release::Once(instant) => {
            ranged(instant <= 16000, 4)?;
            ranged(in_ticks(task.deadline), 5)?;
        }
        Release::Every(offset, period) => {
            ranged(offset <= 16000, 4)?;
            ranged(in_ticks(period), 5)?;
            ranged(in_ticks(task.deadline), 6)?;
        }
    }
    Ok(Line::TaskIs(task))
}

// `once`: server, work, instant, deadline.
fn once_line(servers: usize, line: &[u8]) -> Result<Line, Wrong>
    ensures { result ≡ once_line servers line.now }
{
    counted(line, 5)?;
    let server = number_at(line, 2)?;
    let work = number_at(line, 3)?;
    let instant = number_at(line, 4)?;
    let deadline = number_at(line, 5)?;
    let release = Release::Once(instant);
    let read = Task {
        server,
        work,
        release,
        deadline,
    };
    task(servers, read)
}

// The deadline at a place: a number, or `-` for the period.
fn deadline_at(line: &[u8], place: u32, period: u32) -> Result<u32, Wrong>
    ensures { ReadAt (deadline_of (field_at line.now place) period) place result }
{
    if dash_at(line, place) {
        return Ok(period);
    }
    number_at(line, place)
}

// `every`: server, work, offset, period, deadline or `-`.
fn every_line(servers: usize, line: &[u8]) -> Result<Line, Wrong>
    ensures { result ≡ every_line servers line.now }
{
    counted(line, 6)?;
    let server = number_at(line, 2)?;
    let work = number_at(line, 3)?;
    let offset = number_at(line, 4)?;
    let period = number_at(line, 5)?;
    let deadline = deadline_at(line, 6, period)?;
    let release = Release::Every(offset, period);
    let read = Task {
        server,
        work,
        release,
        deadline,
    };
    task(servers, read)
}

// The tests of a task line's place, behind so many servers and tasks.
fn task_placed(servers: usize, tasks: usize) -> Result<(), Wrong>
    ensures { result ≡ task_placed servers tasks (Ok tt) }
{
    required(0 < servers, wrong_at(Ground::Misplaced, 0))?;
    required(tasks < 64, wrong_at(Ground::TooMany, 0))
}

// What line `n` says, behind so many servers and tasks.
pub fn read_line(line: &[u8], n: u32, servers: usize, tasks: usize) -> Result<Line, Wrong>
    ensures { result ≡ line_of n servers tasks line.now }
{
    match word(field_at(line, 1)).ok_or(wrong_at(Ground::Misplaced, 0))? {
        Word::Span => {
            required(n == 1, wrong_at(Ground::Misplaced, 0))?;
            span_line(line)
        }
        Word::Server => {
            required(1 < n && tasks == 0, wrong_at(Ground::Misplaced, 0))?;
            required(servers < 16, wrong_at(Ground::TooMany, 0))?;
            server_line(line)
        }
        Word::Once => {
            task_placed(servers, tasks)?;
            once_line(servers, line)
        }
        Word::Every => {
            task_placed(servers, tasks)?;
            every_line(servers, line)
        }
    }
}
