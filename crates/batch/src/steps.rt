// The steps of reading on, on the array that holds standard input.
ghost use Rattle.std.specs.Prelude.{◌≤◌, ◌<◌, length};
ghost use Rattle.batch.specs.Inputs.{WholeLines, Moved, Filled, Ended, Cut};
ghost use Rattle.io.specs.Counts.{IsPrefixLen};

use crate::STANDARD_INPUT;

// How many bytes the whole lines of a text have: up to the last line feed.
pub fn whole_lines(text: &[u8]) -> usize
    ensures prefix_len { IsPrefixLen result text.now }
    ensures whole_lines { WholeLines text.now result }
{
    match text.iter().rposition(|byte| *byte == b'\n') {
        Some(last) => last + 1,
        None => 0,
    }
}

// Moves what is held behind the whole lines to the front, and answers how many bytes that are.
pub fn keep_rest(room: &mut [u8], lines: usize, held: usize) -> usize
    requires ordered { lines ≤ held }
    requires within { held ≤ length room.old }
    ensures { Moved room.old room.new lines held result }
{
    room.copy_within(lines..held, 0);
    held - lines
}

// Reads standard input behind the bytes that were kept, until the room is full or the input ends, and answers how many bytes are then held.
pub fn fill(room: &mut [u8], kept: usize) -> usize
    requires { kept ≤ length room.old }
    ensures { Filled room.old room.new kept result }
{
    kept + io::read_full(STANDARD_INPUT, &mut room[kept..])
}

// Ends the last line with a line feed where it has none, and answers how many bytes are then held.
pub fn end_last(room: &mut [u8], held: usize) -> usize
    requires { held < length room.old }
    ensures { Ended room.old room.new held result }
{
    if held == 0 || room[held - 1] == b'\n' {
        return held;
    }
    room[held] = b'\n';
    held + 1
}

// How many bytes of a full room are held: all, where a line ends in it. Else its line is too long, and one byte that starts no call is kept of
// it, so that it is answered as a line that asks for nothing, wherever it ends.
pub fn cut_long(room: &mut [u8], lines: usize) -> usize
    requires { 0 < length room.old }
    ensures { Cut room.old room.new lines result }
{
    if 0 < lines {
        return room.len();
    }
    room[0] = b'?';
    1
}
