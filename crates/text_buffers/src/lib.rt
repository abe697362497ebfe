// Calls of the program `text_calls` that are lent six work buffers, and what became of each buffer. Each is the front of an array, and what lies
// behind it in the array guards it.
#![tactic(auto)]

use batch::output::Output;
use call_lines::put_refused;
use refusals::Refusal;
use scheduling::{analyse, who_at};
use std::fmt::Write;
use std::ops::Range;
use std::{array, fmt};
use text_lines::asking::Rooms;

// How many numbers each array has: a guard of 8 behind the largest lent part.
const GUARDED: usize = 16_016;

// The numbers of an array before a part of it is lent.
const BEFORE: Range<u32> = 7_000_000..7_016_016;

// A lent work buffer.
type Lent<'a> = &'a mut [u32];

// What a call answered: what an analysis counted, or who holds a tick and who runs in it.
#[derive(Clone, Copy)]
enum Said {
    Answers {
        span: u32,
        servers_n: usize,
        tasks_n: usize,
    },
    Who {
        holder: u32,
        runner: u32,
    },
}

impl fmt::Display for Said {
    fn fmt<W: fmt::Write>(&self, f: &mut fmt::Formatter<W>) -> fmt::Result {
        match self {
            Said::Answers {
                span,
                servers_n,
                tasks_n,
            } => write!(f, "answers {span} {servers_n} {tasks_n}"),
            Said::Who { holder, runner } => write!(f, "who {holder} {runner}"),
        }
    }
}

// What became of an array: all of it is as it was; or all of the lent part is 0, and the guard as it was.
#[derive(Clone, Copy)]
enum Became {
    Same,
    Zero,
    Other,
}

impl fmt::Display for Became {
    fn fmt<W: fmt::Write>(&self, f: &mut fmt::Formatter<W>) -> fmt::Result {
        match self {
            Became::Same => write!(f, "same"),
            Became::Zero => write!(f, "zero"),
            Became::Other => write!(f, "other"),
        }
    }
}

// Whether numbers are as they were, where the first stands at a place of its array.
fn is_same(numbers: &[u32], start: usize) -> bool {
    numbers
        .iter()
        .zip(BEFORE.skip(start))
        .all(|(number, before)| *number == before)
}

impl Became {
    // What became of an array whose first `room` numbers were lent. No number was 0 before.
    fn of(array: &[u32], room: usize) -> Self {
        if is_same(array, 0) {
            return Became::Same;
        }
        let (lent, guard) = array.split_at(room.min(array.len()));
        if lent.iter().all(|number| *number == 0) && is_same(guard, lent.len()) {
            return Became::Zero;
        }
        Became::Other
    }
}

// Puts what a call answered, or its refusal.
fn put_said(out: &mut Output, said: Result<Said, Refusal>) -> fmt::Result {
    match said {
        Ok(said) => write!(out, "{said}")?,
        Err(refusal) => put_refused(out, refusal)?,
    }
    write!(out, " |")
}

// Puts what became of six arrays, of each of which so many numbers were lent.
fn put_became(out: &mut Output, arrays: [(&[u32; GUARDED], usize); 6]) -> fmt::Result {
    for (array, room) in arrays {
        write!(out, " {}", Became::of(array, room))?;
    }
    writeln!(out, "")
}

// Lends a call so many of the first numbers of six arrays, and puts the line of its answer and what became of the arrays. These stand in a
// frame of their own, and not in that of each line's answer.
#[inline(never)]
fn put_call<F>(out: &mut Output, rooms: Rooms, call: F) -> fmt::Result
where
    F: FnOnce(Lent, Lent, Lent, Lent, Lent, Lent) -> Result<Said, Refusal>,
    requires { F.IsAlwaysCallable call }
{
    let before: [u32; GUARDED] = array::from_fn(|place| BEFORE.start + place as u32);
    let [
        mut free,
        mut sum,
        mut part,
        mut held,
        mut running,
        mut spare,
    ] = [before; 6];
    let said = call(
        &mut free[..rooms.free],
        &mut sum[..rooms.sum],
        &mut part[..rooms.part],
        &mut held[..rooms.held],
        &mut running[..rooms.running],
        &mut spare[..rooms.spare],
    );
    put_said(out, said)?;
    let arrays = [
        (&free, rooms.free),
        (&sum, rooms.sum),
        (&part, rooms.part),
        (&held, rooms.held),
        (&running, rooms.running),
        (&spare, rooms.spare),
    ];
    put_became(out, arrays)
}

// Puts the line of the analysis.
pub fn put_analysis(out: &mut Output, text: &[u8], rooms: Rooms) -> fmt::Result {
    put_call(out, rooms, |free, sum, part, held, running, spare| {
        let analysis = analyse(text, free, sum, part, held, running, spare)?;
        Ok(Said::Answers {
            span: analysis.span,
            servers_n: analysis.servers_n,
            tasks_n: analysis.tasks_n,
        })
    })
}

// Puts the line of who holds a tick.
pub fn put_who(out: &mut Output, tick: u32, text: &[u8], rooms: Rooms) -> fmt::Result {
    put_call(out, rooms, |free, sum, part, held, running, spare| {
        let who = who_at(text, tick, free, sum, part, held, running, spare)?;
        Ok(Said::Who {
            holder: who.holder,
            runner: who.runner,
        })
    })
}
