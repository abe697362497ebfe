// What every call on a text and six work buffers does first: the lengths of the buffers, the text, the tick asked for; out comes a table, or a
// refusal.
#![tactic(auto)]

ghost use Rattle.std.specs.Prelude.{◌≡◌};
ghost use Rattle.opening.specs.Opening.{enough, opened_of};

use reading::read;
use refusals::{Ground, Refusal, required};
use table::Table;

// The least that a work buffer holds: two numbers for each of the at most 8,000 windows of a curve. No one constant with `table`, whose 16,000 are
// ticks of a span.
pub const ROOM: usize = 16_000;

// Whether each of the work buffers holds enough.
fn enough(rooms: &[usize]) -> bool
    ensures { result ≡ enough rooms.now }
{
    rooms.iter().all(|room| *room >= ROOM)
}

// The table of a text, or the refusal of a call on it, given a tick and how many numbers each of the six work buffers holds.
pub fn open_text(text: &[u8], tick: u32, rooms: [usize; 6]) -> Result<Table, Refusal>
    ensures { result ≡ opened_of text.now tick (enough rooms) }
{
    required(enough(&rooms), Ground::WorkRoom)?;
    let table = read(text)?;
    required(tick < table.span, Ground::OutOfStep)?;
    Ok(table)
}
