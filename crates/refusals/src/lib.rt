// Refusals: every ground on which a call turns its input away, its number, and the line and place that go with it.
#![tactic(auto)]

ghost use Rattle.std.specs.Prelude.{◌≡◌, if◌then◌else◌, Ok, Err};
ghost use Rattle.refusals.specs.Refusals.{number_of, refused_at, no_refusal};

// What can be wrong: with a text, with lent buffers and curves, with arguments, with a state, with a table.
#[derive(Clone, Copy, PartialEq, Eq)]
pub enum Ground {
    TextTooLong,
    NotEnded,
    Misplaced,
    Missing,
    TooMany,
    FieldCount,
    Empty,
    Dash,
    NoDigit,
    LeadingZero,
    TooManyDigits,
    UnknownKind,
    OutOfRange,
    MultipleOver,
    WorkRoom,
    NotPlain,
    NoRoom,
    ArgumentZero,
    OutOfStep,
    RulesBroken,
}

// The number of what is wrong, in which line from 1 on and at which place of it, the first word being 1; 0 where there is none. All are 0 where
// nothing is refused: 01, C and the report hand the three numbers out as they are.
#[derive(Clone, Copy, PartialEq, Eq)]
pub struct Refusal {
    pub number: u32,
    pub line: u32,
    pub place: u32,
}

// The number that 01 and 02 give what is wrong. It is no `From`, since the docs name it.
pub fn number_of(ground: Ground) -> u32
    ensures { result ≡ number_of ground }
{
    match ground {
        Ground::TextTooLong => 1,
        Ground::NotEnded => 2,
        Ground::Misplaced => 3,
        Ground::Missing => 3,
        Ground::TooMany => 7,
        Ground::FieldCount => 4,
        Ground::Empty => 5,
        Ground::Dash => 14,
        Ground::NoDigit => 15,
        Ground::LeadingZero => 16,
        Ground::TooManyDigits => 17,
        Ground::UnknownKind => 18,
        Ground::OutOfRange => 6,
        Ground::MultipleOver => 8,
        Ground::WorkRoom => 9,
        Ground::NotPlain => 10,
        Ground::NoRoom => 11,
        Ground::ArgumentZero => 12,
        Ground::OutOfStep => 13,
        Ground::RulesBroken => 13,
    }
}

// The refusal on a ground, at a place in a line.
pub fn refused_at(ground: Ground, line: u32, place: u32) -> Refusal
    ensures { result ≡ refused_at ground line place }
{
    let number = number_of(ground);
    Refusal {
        number,
        line,
        place,
    }
}

// The refusal on a ground that has no line.
impl From<Ground> for Refusal {
    ghost from_gives = { λ ground refusal. refusal ≡ refused_at ground 0 0 };

    fn from(ground: Ground) -> Refusal {
        refused_at(ground, 0, 0)
    }
}

// What a call or a line asks for: where it does not hold, the error says on which ground it is refused.
pub fn required<E: Copy>(holds: bool, error: E) -> Result<(), E>
    ensures { result ≡ (if holds then Ok tt else Err error) }
{
    if holds { Ok(()) } else { Err(error) }
}

// Where nothing is refused: C gets zeros.
pub fn no_refusal() -> Refusal
    ensures { result ≡ no_refusal }
{
    Refusal {
        number: 0,
        line: 0,
        place: 0,
    }
}
