// Standard input of any length, held part by part at the front of an array. A part is whole lines; what was read behind them is moved to the
// front before more is read. A last line that no line feed ends gets one.
ghost use Rattle.std.specs.Prelude.{◌≡◌, ◌≤◌, take};

use crate::output::Output;
use crate::steps::{cut_long, end_last, fill, keep_rest, whole_lines};
use std::fmt;

// How many bytes of standard input are held at once: of a line of more, its line feed counted, nothing can be read.
pub const INPUT: usize = 1_048_576;

// What is held of standard input: so many bytes, of which so many, from the first, are whole lines; and whether no more come.
#[derive(Drop)]
struct Input {
    // an array and two counts: the kit's `io` fills a slice, and the room behind what is held has to be one
    room: [u8; INPUT],
    lines: usize,
    held: usize,
    ended: bool,
    ghost within: { (lines ≤ held) × (held ≤ 1048576) },
}

impl Input {
    ghost use Rattle.batch.specs.Inputs.{NextPart};

    // Reads the next part of standard input behind what is held and not yet answered.
    fn read_on(&mut self)
        ensures { NextPart self.old self.new }
    {
        let kept = keep_rest(&mut self.room, self.lines, self.held);
        let held = fill(&mut self.room, kept);
        self.ended = held < INPUT;
        if self.ended {
            self.held = end_last(&mut self.room, held);
            self.lines = self.held;
        } else {
            self.lines = whole_lines(&self.room);
            self.held = cut_long(&mut self.room, self.lines);
        }
    }

    // The whole lines that are held.
    fn lines(&self) -> &[u8]
        ensures { result.now ≡ take self.now.lines self.now.room }
    {
        &self.room[..self.lines]
    }
}

// Answers each line of a text. What an output holds or writes is never an error.
fn answer_all<F: Fn(&[u8], &mut Output) -> fmt::Result>(text: &[u8], answer: &F, out: &mut Output)
    requires { F.IsAlwaysCallable answer.now }
{
    for line in text.split_inclusive(|byte| *byte == b'\n') {
        let _ = answer(line, out);
    }
}

// Reads standard input part by part and answers its lines, each handed on with its line feed.
pub fn answer_lines<F: Fn(&[u8], &mut Output) -> fmt::Result>(answer: F)
    requires { F.IsAlwaysCallable answer }
{
    let mut input = Input {
        room: [0; INPUT],
        lines: 0,
        held: 0,
        ended: false,
    };
    let mut out = Output::new();
    // a proved loop has to end, and nothing says that the input does: no run has so many turns
    for _ in 0..u64::MAX {
        input.read_on();
        answer_all(input.lines(), &answer, &mut out);
        if input.ended {
            break;
        }
    }
    out.flush();
}
