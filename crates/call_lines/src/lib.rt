// How the programs that run calls put an answer: a refusal, how much was written, a lent buffer of bytes.
#![tactic(auto)]

use batch::output::Output;
use batch::put_bad;
use refusals::Refusal;
use std::fmt::Write;
use std::{array, fmt};

// The most bytes that are lent.
pub const LENT: usize = 4096;

// How many bytes the array has whose front is lent: a guard of 8 behind the largest lent part.
pub const GUARDED: usize = 4104;

// How many bytes behind the lent part are shown.
const GUARD: usize = 8;

// The hexadecimal digits by their values.
const DIGITS: &[u8; 16] = b"0123456789abcdef";

// Puts a refusal: its number, line and place.
pub fn put_refused(out: &mut Output, refusal: Refusal) -> fmt::Result {
    write!(
        out,
        "refused {} {} {}",
        refusal.number, refusal.line, refusal.place
    )
}

// Puts what a call answered that writes to a lent buffer.
pub fn put_written(out: &mut Output, written: Result<usize, Refusal>) -> fmt::Result {
    match written {
        Ok(count) => write!(out, "count {count}"),
        Err(refusal) => put_refused(out, refusal),
    }
}

// Lends a call so many bytes, and puts the line of its answer, the lent bytes and the guard behind them. The byte at place i was i % 251.
pub fn put_lent<F: FnOnce(&mut [u8]) -> Result<usize, Refusal>>(
    out: &mut Output,
    room: usize,
    call: F,
) -> fmt::Result
    requires { F.IsAlwaysCallable call }
{
    if LENT < room {
        return put_bad(out);
    }
    let mut bytes: [u8; GUARDED] = array::from_fn(|i| (i % 251) as u8);
    let written = call(&mut bytes[..room]);
    put_written(out, written)?;
    write!(out, " | ")?;
    for byte in &bytes[..room + GUARD] {
        // `{byte:02x}` does the same in three times the time
        out.put_byte(DIGITS[usize::from(byte / 16)]);
        out.put_byte(DIGITS[usize::from(byte % 16)]);
    }
    writeln!(out, "")
}
