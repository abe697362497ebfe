// The four calls on curves: adding up, cutting, fitting, time to provide. A curve is lent as a flat slice of its windows' starts and
// ends. Any slice and any number may be handed in; a bad one is refused, and a refused call changes nothing that was lent.
#![tactic(auto)]

ghost use Rattle.std.specs.Prelude.{◌≡◌};
ghost use Rattle.windows.specs.Windows.{is_plain};
ghost use Rattle.curves.specs.Calls.{Adds, Cuts, Fits, Provides};

pub use fitting::Counts;
use fitting::Fitting;
use refusals::{Ground, Refusal, required};
use walks::LIMIT;
use walks::adding::Sum;
use walks::cutting::Cut;

// Whether a curve is plain: an even length, each start below its end, each end below the next start, no end above LIMIT.
// A fact and not a type: the calls are lent any numbers, and the specification speaks of the plain list.
#[tactic(auto, using(crate::proofs::Fronts::fronts))]
pub fn plain(curve: &[u32]) -> bool
    ensures { result ≡ is_plain curve.now }
{
    let mut low: u32 = 0;
    // By slice patterns, no longer than by `as_chunks`: what is left in the end tells an odd length.
    let mut ahead = curve;
    while let [start, end, behind @ ..] = ahead {
        if *start < low || end <= start || LIMIT < *end {
            return false;
        }
        low = end + 1;
        ahead = behind;
    }
    ahead.is_empty()
}

// Adds up two curves: the ticks at which work is done when each tick of either brings one unit and one is done per tick.
pub fn add(a: &[u32], b: &[u32], out: &mut [u32]) -> Result<usize, Refusal>
    ensures { Adds a.now b.now out.old result out.new }
{
    required(plain(a), Ground::NotPlain)?;
    required(plain(b), Ground::NotPlain)?;
    let sum = Sum::of(a, b);
    required(walks::fits(sum, out.len()), Ground::NoRoom)?;
    Ok(walks::write(sum, out))
}

// Cuts a curve at every multiple of a period strictly inside one of its windows.
#[tactic(auto, using(crate::proofs::Rooms::cut_room))]
pub fn cut(curve: &[u32], period: u32, out: &mut [u32]) -> Result<usize, Refusal>
    ensures { Cuts curve.now period out.old result out.new }
{
    required(period != 0, Ground::ArgumentZero)?;
    required(plain(curve), Ground::NotPlain)?;
    let pieces = Cut::of(curve, period);
    required(walks::fits(pieces, out.len()), Ground::NoRoom)?;
    Ok(walks::write(pieces, out))
}

// Fits a demand into a supply: what is left of the supply, what is served, and what is left of the demand.
#[tactic(auto, using(crate::proofs::Rooms::fit_room))]
pub fn fit(
    demand: &[u32],
    supply: &[u32],
    left: &mut [u32],
    served: &mut [u32],
    rest: &mut [u32],
) -> Result<Counts, Refusal>
    ensures { Fits demand.now supply.now left.old served.old rest.old
        result left.new served.new rest.new }
{
    required(plain(demand), Ground::NotPlain)?;
    required(plain(supply), Ground::NotPlain)?;
    let fitting = Fitting::of(demand, supply);
    let rooms = Counts {
        left: left.len(),
        served: served.len(),
        rest: rest.len(),
    };
    required(fitting::fits(fitting, rooms), Ground::NoRoom)?;
    Ok(fitting::write(fitting, left, served, rest))
}

// When a curve has given `amount` ticks, if it has so many.
#[tactic(auto, using(crate::proofs::Fronts::given))]
pub fn time_to_provide(curve: &[u32], amount: u32) -> Result<Option<u32>, Refusal>
    ensures { Provides curve.now amount result }
{
    required(amount != 0, Ground::ArgumentZero)?;
    required(plain(curve), Ground::NotPlain)?;
    let mut left = amount;
    let mut ahead = curve;
    while let [start, end, behind @ ..] = ahead {
        if left <= end - start {
            return Ok(Some(start + left));
        }
        left -= end - start;
        ahead = behind;
    }
    Ok(None)
}
