// What reading answers to a text, on one line.
use batch::output::Output;
use call_lines::put_refused;
use std::fmt;
use std::fmt::Write;
use table::{Kind, Release, Server, Table, Task};

// Puts a server. The kinds' words stand here once more, since what a test prints is told apart from what the library writes.
fn put_server(out: &mut Output, server: Server) -> fmt::Result {
    let kind = match server.kind {
        Kind::Deferrable => "deferrable",
        Kind::Periodic => "periodic",
    };
    write!(
        out,
        " | server {kind} {} {}",
        server.capacity, server.period
    )
}

// Puts a task.
fn put_task(out: &mut Output, task: Task) -> fmt::Result {
    match task.release {
        Release::Once(instant) => {
            write!(out, " | once {} {} {instant}", task.server, task.work)?;
        }
        Release::Every(offset, period) => {
            write!(
                out,
                " | every {} {} {offset} {period}",
                task.server, task.work
            )?;
        }
    }
    write!(out, " {}", task.deadline)
}

// Puts a table.
fn put_table(out: &mut Output, table: Table) -> fmt::Result {
    write!(out, "span {}", table.span)?;
    for server in table.servers.iter().take(table.servers_n) {
        put_server(out, *server)?;
    }
    for task in table.tasks.iter().take(table.tasks_n) {
        put_task(out, *task)?;
    }
    Ok(())
}

// Puts the line of a text: its table, or its refusal.
pub fn put_reading(out: &mut Output, text: &[u8]) -> fmt::Result {
    match reading::read(text) {
        Ok(table) => put_table(out, table)?,
        Err(refusal) => put_refused(out, refusal)?,
    }
    writeln!(out, "")
}
