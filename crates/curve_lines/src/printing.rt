// Writing answers.
use batch::output::Output;
use call_lines::put_refused;
use curves::Counts;
use refusals::Refusal;
use std::fmt;
use std::fmt::Write;

// Puts a bar and every number of a lent buffer.
fn put_lent(out: &mut Output, lent: &[u32]) -> fmt::Result {
    write!(out, " |")?;
    for number in lent {
        write!(out, " {number}")?;
    }
    Ok(())
}

// Puts the line of adding up or cutting: the answer and the lent buffer.
pub fn put_written(out: &mut Output, answer: Result<usize, Refusal>, lent: &[u32]) -> fmt::Result {
    call_lines::put_written(out, answer)?;
    put_lent(out, lent)?;
    writeln!(out, "")
}

// Puts what fitting answered.
fn put_counts(out: &mut Output, answer: Result<Counts, Refusal>) -> fmt::Result {
    match answer {
        Ok(Counts { left, served, rest }) => write!(out, "counts {left} {served} {rest}"),
        Err(refusal) => put_refused(out, refusal),
    }
}

// Puts the line of fitting: the answer and the three lent buffers.
pub fn put_fitted(
    out: &mut Output,
    answer: Result<Counts, Refusal>,
    left: &[u32],
    served: &[u32],
    rest: &[u32],
) -> fmt::Result {
    put_counts(out, answer)?;
    put_lent(out, left)?;
    put_lent(out, served)?;
    put_lent(out, rest)?;
    writeln!(out, "")
}

// Puts what the call of time to provide answered.
fn put_instant(out: &mut Output, answer: Result<Option<u32>, Refusal>) -> fmt::Result {
    match answer {
        Ok(Some(instant)) => write!(out, "at {instant}"),
        Ok(None) => write!(out, "not provided"),
        Err(refusal) => put_refused(out, refusal),
    }
}

// Puts the line of time to provide.
pub fn put_provided(out: &mut Output, answer: Result<Option<u32>, Refusal>) -> fmt::Result {
    put_instant(out, answer)?;
    writeln!(out, "")
}
