// Fitting, a piece at a time: one step, a walk that counts and a walk that writes.
#![tactic(auto)]

ghost use Rattle.std.specs.Prelude.{◌≡◌, true, length, IfSome};
ghost use Rattle.windows.specs.Windows.{is_plain, fit};
ghost use Rattle.refusals.specs.Outcomes.{front};
ghost use Rattle.fitting.specs.Steps.{fit_ahead, FitSound, FitGives, HandsOn, InStretch, Stretches, ByPlace, InSupply, Supplied, Unpassed, Unsupplied, RoomGives, fit_rooms, FitWrites};

use walks::put;

// What is left of a demand and of a supply: of the first window of each only what starts at `wanted` and at `free` or later.
#[derive(Clone, Copy)]
pub struct Fitting<'a> {
    pub demand: &'a [u32],
    pub wanted: u32,
    pub supply: &'a [u32],
    pub free: u32,
}

// Which of the three results a window belongs to.
#[derive(Clone, Copy)]
enum Part {
    Left,
    Served,
    Rest,
}

// The next window of one of the results, and the fitting behind it.
#[derive(Clone, Copy)]
struct Piece<'a> {
    part: Part,
    start: u32,
    end: u32,
    behind: Fitting<'a>,
}

// Demand served in one stretch: the demand behind it, and where it ends.
#[derive(Clone, Copy)]
struct Stretch<'a> {
    demand: &'a [u32],
    wanted: u32,
    till: u32,
}

// How many numbers each result has, or may have: supply left, served, demand left.
#[derive(Clone, Copy)]
pub struct Counts {
    pub left: usize,
    pub served: usize,
    pub rest: usize,
}

impl<'a> Fitting<'a> {
    // The fitting of a plain demand into a plain supply.
    #[tactic(auto, using(crate::proofs::Pieces::starts))]
    pub fn of(demand: &'a [u32], supply: &'a [u32]) -> Fitting<'a>
        requires { (is_plain demand.now ≡ true) × (is_plain supply.now ≡ true) }
        ensures sound { FitSound result }
        ensures whole { fit_ahead result ≡ fit demand.now supply.now }
    {
        Fitting {
            demand,
            wanted: 0,
            supply,
            free: 0,
        }
    }

    // Serves demand from `from` on, in a supply window that ends at `end`, as long as it starts in time.
    fn stretch(self, from: u32, end: u32) -> Stretch<'a>
        requires { InStretch self from end }
        ensures stretches { Stretches self.entry from end result }
        ensures demand { ByPlace self.entry.demand.now result.demand.now }
    {
        let mut served = Stretch {
            demand: self.demand,
            wanted: self.wanted,
            till: from,
        };
        while let [start, due, behind @ ..] = served.demand {
            let start = (*start).max(served.wanted);
            let length = due - start;
            if served.till < start {
                return served;
            }
            if end - served.till < length {
                return Stretch {
                    wanted: start + (end - served.till),
                    till: end,
                    ..served
                };
            }
            served = Stretch {
                demand: behind,
                wanted: 0,
                till: served.till + length,
            };
        }
        served
    }

    // The fitting once the first supply window is served or left up to `till`.
    fn supplied_from(self, till: u32) -> Fitting<'a>
        requires { InSupply self till }
        ensures supplied { Supplied self.entry till result }
        ensures supply { Unpassed self.entry.supply.now till result.supply.now }
    {
        let [_, end, behind @ ..] = self.supply else {
            return self;
        };
        if till < *end {
            return Fitting { free: till, ..self };
        }
        Fitting {
            supply: behind,
            free: 0,
            ..self
        }
    }

    // The next window of the demand where no supply is left.
    fn unserved(self) -> Option<Piece<'a>>
        requires { Unsupplied self }
        ensures gives { FitGives self.entry result }
        ensures handed { IfSome result (HandsOn self.entry) }
    {
        let [start, end, later @ ..] = self.demand else {
            return None;
        };
        let behind = Fitting {
            demand: later,
            wanted: 0,
            ..self
        };
        Some(Piece {
            part: Part::Rest,
            start: (*start).max(self.wanted),
            end: *end,
            behind,
        })
    }

    // The next window of one of the results, if anything is left.
    #[tactic(auto, using(crate::proofs::Pieces::pieces))]
    fn next(self) -> Option<Piece<'a>>
        requires { FitSound self }
        ensures gives { FitGives self.entry result }
        ensures handed { IfSome result (HandsOn self.entry) }
    {
        let [start, end, ..] = self.supply else {
            return self.unserved();
        };
        let start = (*start).max(self.free);
        let [wanted, ..] = self.demand else {
            return Some(Piece {
                part: Part::Left,
                start,
                end: *end,
                behind: self.supplied_from(*end),
            });
        };
        let wanted = (*wanted).max(self.wanted);
        if start < wanted {
            let till = (*end).min(wanted);
            return Some(Piece {
                part: Part::Left,
                start,
                end: till,
                behind: self.supplied_from(till),
            });
        }
        let stretch = self.stretch(start, *end);
        let behind = Fitting {
            demand: stretch.demand,
            wanted: stretch.wanted,
            ..self.supplied_from(stretch.till)
        };
        Some(Piece {
            part: Part::Served,
            start,
            end: stretch.till,
            behind,
        })
    }
}

impl Counts {
    // Of the room, what is left once a window of a part has its two numbers, if there are two.
    fn without_window(self, part: Part) -> Option<Counts>
        ensures { RoomGives part self result }
    {
        Some(match part {
            Part::Left => Counts {
                left: self.left.checked_sub(2)?,
                ..self
            },
            Part::Served => Counts {
                served: self.served.checked_sub(2)?,
                ..self
            },
            Part::Rest => Counts {
                rest: self.rest.checked_sub(2)?,
                ..self
            },
        })
    }
}

// Whether each of the three results has at most the room that is lent for it.
pub fn fits(fitting: Fitting, rooms: Counts) -> bool
    requires { FitSound fitting }
    ensures { result ≡ fit_rooms (fit_ahead fitting.entry) rooms.left rooms.served rooms.rest }
{
    let mut free = rooms;
    let mut place = fitting;
    while let Some(piece) = place.next() {
        let Some(room) = free.without_window(piece.part) else {
            return false;
        };
        free = room;
        place = piece.behind;
    }
    true
}

// Writes each of the three results to the front of its buffer, and answers how many numbers each has.
pub fn write(fitting: Fitting, left: &mut [u32], served: &mut [u32], rest: &mut [u32]) -> Counts
    requires { FitSound fitting
        × (fit_rooms (fit_ahead fitting) (length left.old) (length served.old) (length rest.old) ≡ true) }
    ensures fit_writes { FitWrites (fit_ahead fitting.entry) result }
    ensures left_after { left.new ≡ front (fit_ahead fitting.entry).left left.old }
    ensures served_after { served.new ≡ front (fit_ahead fitting.entry).served served.old }
    ensures rest_after { rest.new ≡ front (fit_ahead fitting.entry).rest rest.old }
{
    let mut written = Counts {
        left: 0,
        served: 0,
        rest: 0,
    };
    let mut place = fitting;
    while let Some(piece) = place.next() {
        place = piece.behind;
        match piece.part {
            Part::Left => written.left = put(left, written.left, piece.start, piece.end),
            Part::Served => written.served = put(served, written.served, piece.start, piece.end),
            Part::Rest => written.rest = put(rest, written.rest, piece.start, piece.end),
        }
    }
    written
}
