// Reading: from a table's text to the table, or to what is wrong with it, in which line and at which place.
#![tactic(auto)]

ghost use Rattle.std.specs.Prelude.{◌≡◌, ◌<◌, length};
ghost use Rattle.reading.specs.Reading.{no_table, with_line, ended_of, read_lines, reading_of};
ghost use Rattle.reading.specs.Pieces.{told, HasRoom};
ghost use Rattle.lines.specs.Lines.{line_of};
ghost use Rattle.fields.specs.Fields.{split};

use lines::{Line, read_line};
use refusals::{Ground, Refusal, refused_at, required};
use table::multiples::common_span;
use table::{Server, Table, Task};

// A table before its first line. 01's tables have no span 0, so 0 says that none is known yet.
fn no_table() -> Table
    ensures { result ≡ no_table }
{
    Table {
        span: 0,
        servers_n: 0,
        tasks_n: 0,
        servers: [Server::default(); 16],
        tasks: [Task::default(); 64],
    }
}

// A table whose lines have all been read: what is missing, and the span that all periods give, if it was left open.
fn ended(table: Table, line: u32) -> Result<Table, Refusal>
    ensures { result ≡ ended_of table line }
{
    if table.servers_n == 0 || table.tasks_n == 0 {
        return Err(refused_at(Ground::Missing, line, 0));
    }
    if table.span != 0 {
        return Ok(table);
    }
    let span = common_span(table).ok_or(Ground::MultipleOver)?;
    Ok(Table { span, ..table })
}

// What line `n` says behind a table, or the refusal of the text.
fn line_behind(table: &Table, n: u32, line: &[u8]) -> Result<Line, Refusal>
    ensures { result ≡ told n (line_of n table.now.servers_n table.now.tasks_n line.now) }
{
    let said = read_line(line, n, table.servers_n, table.tasks_n);
    said.map_err(|wrong| refused_at(wrong.ground, n, wrong.place))
}

// Adds what a line says to a table.
fn add_line(table: &mut Table, line: Line)
    requires { HasRoom table.old line }
    ensures { table.new ≡ with_line table.old line }
{
    match line {
        Line::SpanIs(span) => table.span = span,
        Line::ServerIs(server) => {
            table.servers[table.servers_n] = server;
            table.servers_n += 1;
        }
        Line::TaskIs(task) => {
            table.tasks[table.tasks_n] = task;
            table.tasks_n += 1;
        }
    }
}

// Reads the lines of a text that ends with a line feed, one after the other; `lines` are the bytes before that line feed.
fn read_lines(lines: &[u8]) -> Result<Table, Refusal>
    requires { length lines.now < 4096 }
    ensures { result ≡ read_lines (split 10 lines.now) no_table 1 }
{
    let mut table = no_table();
    // counted by hand: it outlives the loop, as the line after the last
    let mut n: u32 = 1;
    for line in lines.split(|byte| *byte == b'\n') {
        let said = line_behind(&table, n, line)?;
        add_line(&mut table, said);
        n += 1;
    }
    ended(table, n)
}

// Reads a table's text: the table, or what is wrong with the text.
pub fn read(text: &[u8]) -> Result<Table, Refusal>
    ensures { result ≡ reading_of text.now }
{
    required(text.len() <= 4096, Ground::TextTooLong)?;
    let Some((b'\n', lines)) = text.split_last() else {
        return Err(Ground::NotEnded.into());
    };
    read_lines(lines)
}
