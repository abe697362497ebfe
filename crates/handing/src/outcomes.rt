// What the curve calls and the report hand out.
ghost use Rattle.std.specs.Prelude.{◌≡◌};
ghost use Rattle.fitting.specs.declared.Counts.{Counts};
ghost use Rattle.handing_tables.specs.Tables.{number_in, handed};
ghost use Rattle.handing.specs.Handing.{instant_or0};

use fitting::Counts;
use handing_tables::number_in;
use refusals::Refusal;

// Hands out the one number of an accepted call: how many numbers or bytes were written, or an instant.
pub fn hand<T: Copy>(outcome: Result<T, Refusal>, place: &mut T) -> u32
    ensures { (result ≡ number_in outcome) × (place.new ≡ handed (λ n. n) outcome place.old) }
{
    if let Ok(value) = &outcome {
        *place = *value;
    }
    number_in(&outcome)
}

// Hands out how many numbers fitting wrote.
pub fn hand_counts(
    fitted: Result<Counts, Refusal>,
    left: &mut usize,
    served: &mut usize,
    rest: &mut usize,
) -> u32
    ensures { (result ≡ number_in fitted) × (left.new ≡ handed (λ (n : Counts). n.left) fitted left.old)
        × (served.new ≡ handed (λ (n : Counts). n.served) fitted served.old)
        × (rest.new ≡ handed (λ (n : Counts). n.rest) fitted rest.old) }
{
    if let Ok(counts) = fitted {
        *left = counts.left;
        *served = counts.served;
        *rest = counts.rest;
    }
    number_in(&fitted)
}

// Hands out when an amount was provided, 0 if it was not, as the C header says.
pub fn hand_instant(provided: Result<Option<u32>, Refusal>, instant: &mut u32) -> u32
    ensures { (result ≡ number_in provided) × (instant.new ≡ handed instant_or0 provided instant.old) }
{
    hand(provided.map(|reached| reached.unwrap_or(0)), instant)
}
