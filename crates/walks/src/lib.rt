// The walks along curves: adding up and cutting, a window at a time. One function counts the windows of a walk against the room lent, one writes
// them. Curves are plain and room is enough where a function asks for it.
#![tactic(auto)]

pub mod adding;
pub mod cutting;

ghost use Rattle.std.specs.Prelude.{◌≡◌, ◌+◌, ◌<◌, ℕ, List, true, length, set};
ghost use Rattle.refusals.specs.Outcomes.{front};
ghost use Rattle.walks.specs.Rooms.{fits_in};
ghost use Rattle.walks.specs.Steps.{Gives};

// The largest end that a plain curve may have.
pub const LIMIT: u32 = 1_000_000;

// The next window of a walk, and the walk behind it.
#[derive(Clone, Copy)]
pub struct Step<W> {
    pub start: u32,
    pub end: u32,
    pub behind: W,
}

// A window that ends above LIMIT.
#[derive(Clone, Copy)]
pub struct OverLimit {}

// A walk along the windows of a curve that is worked out on the way.
pub trait Walk: Copy {
    // The numbers of the windows that are still to come.
    ghost ahead: { Self → List ℕ };
    // What a walk stands on.
    ghost sound: { Self → Type 0 };

    // The next window, if there is one, or that it ends above LIMIT.
    fn next(self) -> Result<Option<Step<Self>>, OverLimit>
        requires { sound self }
        ensures { Gives sound ahead self result };
}

// Whether the windows of a walk have at most `room` numbers and end at LIMIT or before.
pub fn fits<W: Walk>(walk: W, room: usize) -> bool
    requires { W.sound walk }
    ensures { result ≡ fits_in (W.ahead walk) room }
{
    let mut free = room;
    let mut place = walk;
    loop {
        let Ok(next) = place.next() else {
            return false;
        };
        let Some(step) = next else {
            return true;
        };
        let Some(less) = free.checked_sub(2) else {
            return false;
        };
        free = less;
        place = step.behind;
    }
}

// Writes the windows of a walk to the front of `out`, and answers how many numbers they have.
pub fn write<W: Walk>(walk: W, out: &mut [u32]) -> usize
    requires { W.sound walk × (fits_in (W.ahead walk) (length out.old) ≡ true) }
    ensures { (result ≡ length (W.ahead walk)) × (out.new ≡ front (W.ahead walk) out.old) }
{
    let mut count: usize = 0;
    let mut place = walk;
    while let Ok(Some(step)) = place.next() {
        count = put(out, count, step.start, step.end);
        place = step.behind;
    }
    count
}

// Writes a window at a place of a buffer, and answers the place behind it.
// Buffer and place, not one value of both: C lends the buffer and is told the count.
pub fn put(out: &mut [u32], place: usize, start: u32, end: u32) -> usize
    requires { place + 1 < length out.old }
    ensures { (result ≡ place + 2) × (out.new ≡ set (set out.old place start) (place + 1) end) }
{
    out[place] = start;
    out[place + 1] = end;
    place + 2
}
