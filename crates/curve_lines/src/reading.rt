// Reading what a line has: curves, and buffers to lend.
use arrayvec::ArrayVec;
use batch::fields::Fields;

// The most numbers that a curve or a lent buffer may have.
pub const MOST: usize = 4096;

// The numbers of a curve or of a lent buffer.
pub type Numbers = ArrayVec<u32, MOST>;

// Reads a curve: its length and its numbers.
pub fn read_curve(fields: &mut Fields) -> Option<Numbers> {
    let mut curve = Numbers::new();
    for _ in 0..fields.number_up_to(MOST as u32)? {
        curve.try_push(fields.next_number()?).ok()?;
    }
    Some(curve)
}

// Reads a buffer's length, and makes the buffer, with the guard pattern in it: 7,000,000 and the place's index.
pub fn read_lent(fields: &mut Fields) -> Option<Numbers> {
    let mut lent = Numbers::new();
    for place in 0..fields.number_up_to(MOST as u32)? {
        lent.try_push(7_000_000 + place).ok()?;
    }
    Some(lent)
}
