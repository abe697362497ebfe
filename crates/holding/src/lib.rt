// The held ticks of a server: a demand fitted into free ticks, at most a capacity in each period.
#![tactic(auto)]

ghost use Rattle.std.specs.Prelude.{◌≡◌, ◌+◌, ◌-◌, ◌%◌, ◌≤◌, ◌<◌, length, get_or, leb, drop};
ghost use Rattle.basics.specs.Choice.{pick};
ghost use Rattle.buffers.specs.Parts.{PlainBelow, Drawn};
ghost use Rattle.holding.specs.Pieces.{held_from, left_from, first_place, Entered, Offered, Holds, Cuts, Served};

use buffers::put;

// Where the walk stands: every tick below `at` is decided, the demand not yet served starts at `wanted`, in the window at `demand`; the period
// under way ends at `until` and has `budget` left.
#[derive(Clone, Copy)]
struct Place {
    // An index and not the windows ahead: the definitions of specs, as `Moved`, tell a place in the whole demand.
    demand: usize,
    wanted: u32,
    at: u32,
    until: u32,
    budget: u32,
}

// What comes next of a free window, up to an instant: ticks that are all held, or all left.
enum Piece {
    Held(u32),
    Left(u32),
}

// How many numbers were written: of the ticks that a demand takes, and of those that are left.
#[derive(Clone, Copy)]
pub struct Counts {
    pub taken: usize,
    pub left: usize,
}

// The number at an index of a curve, or 0 behind its end, as `get_or` of specs has it.
fn number_at(curve: &[u32], i: usize) -> u32
    ensures { result ≡ get_or curve.now i 0 }
{
    curve.get(i).copied().unwrap_or(0)
}

// Where the walk stands at the start of a demand.
fn start(demand: &[u32]) -> Place
    ensures { result ≡ first_place demand.now }
{
    Place {
        demand: 0,
        wanted: number_at(demand, 0),
        at: 0,
        until: 0,
        budget: 0,
    }
}

// The end of the period that a tick lies in, where an earlier one ended at `until`: the next one, or one further on.
fn period_end(at: u32, until: u32, period: u32) -> u32
    requires { (0 < period) × (period ≤ 16000) × (at ≤ 16000) × (until ≤ at) × (until % period ≡ 0) }
    ensures { result ≡ (at - at % period) + period }
{
    let next = until + period;
    if at < next {
        return next;
    }
    at - at % period + period
}

// A period is a number with bounds, not a type: `hold` is called with a server's and with `ALL`, and two functions here ask for them.
// The walk goes on at a free tick, with a new budget if a new period is under way.
fn entered(place: Place, at: u32, capacity: u32, period: u32) -> Place
    requires { (0 < period) × (period ≤ 16000) × (at ≤ 16000) × (place.until % period ≡ 0) }
    ensures { Entered capacity period place at result }
{
    if at < place.until {
        return Place { at, ..place };
    }
    let until = period_end(at, place.until, period);
    Place {
        at,
        until,
        budget: capacity,
        ..place
    }
}

// What comes next of a free window that ends at `end`.
fn next_piece(place: Place, demand: &[u32], end: u32) -> Piece
    requires { Offered demand.now place end }
    ensures { Cuts demand.now place end result }
{
    if demand.len() <= place.demand {
        return Piece::Left(end);
    }
    if place.at < place.wanted {
        return Piece::Left(end.min(place.wanted));
    }
    let over = end.min(place.until);
    if place.budget == 0 {
        return Piece::Left(over);
    }
    let wanted = demand[place.demand + 1] - place.wanted;
    Piece::Held(place.at + wanted.min(place.budget).min(over - place.at))
}

// The place behind a piece that is held.
fn served(place: Place, demand: &[u32], stop: u32) -> Place
    requires { Holds demand.now place stop }
    ensures { Served demand.now place stop result }
{
    let ticks = stop - place.at;
    let wanted = place.wanted + ticks;
    let budget = place.budget - ticks;
    if wanted < demand[place.demand + 1] {
        return Place {
            wanted,
            at: stop,
            budget,
            ..place
        };
    }
    let behind = place.demand + 2;
    let wanted = number_at(demand, behind);
    Place {
        demand: behind,
        wanted,
        at: stop,
        budget,
        ..place
    }
}

// The windows ahead, without the first where it ends by an instant.
fn unpassed(ahead: &[u32], instant: u32) -> &[u32]
    requires { 2 ≤ length ahead.now }
    ensures { result.now ≡ pick (leb (get_or ahead.now 1 0) instant) (drop 2 ahead.now) ahead.now }
{
    if ahead[1] <= instant {
        &ahead[2..]
    } else {
        ahead
    }
}

// Writes the ticks of a free curve that a demand takes, at most `capacity` in each period, and those that are left.
pub fn hold(
    capacity: u32,
    period: u32,
    demand: &[u32],
    free: &[u32],
    held: &mut [u32],
    left: &mut [u32],
) -> Counts
    requires { (0 < period) × (period ≤ 16000) × (capacity ≤ 16000) × PlainBelow 16000 demand.now × PlainBelow 16000 free.now
        × (16000 ≤ length held.old) × (16000 ≤ length left.old) }
    ensures taken { Drawn held.old held.new result.taken (held_from capacity period demand.now free.now) }
    ensures left { Drawn left.old left.new result.left (left_from capacity period demand.now free.now) }
    ensures fits { result.left ≤ 16000 }
{
    let mut place = start(demand);
    let mut counts = Counts { taken: 0, left: 0 };
    let mut ahead = free;
    while let [start, end, ..] = ahead {
        let at = place.at.max(*start);
        let here = entered(place, at, capacity, period);
        match next_piece(here, demand, *end) {
            Piece::Held(stop) => {
                counts.taken = put(held, counts.taken, at, stop);
                place = served(here, demand, stop);
            }
            Piece::Left(stop) => {
                counts.left = put(left, counts.left, at, stop);
                place = Place { at: stop, ..here };
            }
        }
        ahead = unpassed(ahead, place.at);
    }
    counts
}
