// Cutting, a piece at a time.
ghost use Rattle.std.specs.Prelude.{◌≡◌, ◌<◌, true};
ghost use Rattle.windows.specs.Windows.{is_plain, cut_at};
ghost use Rattle.walks.specs.Steps.{pieces_ahead, CutSound};

use crate::{OverLimit, Step, Walk};

// The cut of a curve at the multiples of a period: the windows ahead, of the first what starts at `from` or later.
#[derive(Clone, Copy)]
pub struct Cut<'a> {
    pub ahead: &'a [u32],
    pub from: u32,
    pub period: u32,
}

impl<'a> Cut<'a> {
    // The cut of a plain curve.
    #[tactic(auto, using(crate::proofs::Pieces::cut_starts, crate::proofs::Pieces::cut_whole))]
    pub fn of(curve: &'a [u32], period: u32) -> Cut<'a>
        requires { (0 < period) × (is_plain curve.now ≡ true) }
        ensures sound { CutSound result }
        ensures whole { pieces_ahead result ≡ cut_at period curve.now }
    {
        Cut {
            ahead: curve,
            from: 0,
            period,
        }
    }
}

impl<'a> Walk for Cut<'a> {
    ghost ahead = { pieces_ahead };

    ghost sound = { CutSound };

    fn next(self) -> Result<Option<Step<Cut<'a>>>, OverLimit> {
        let [start, end, behind @ ..] = self.ahead else {
            return Ok(None);
        };
        let start = (*start).max(self.from);
        let gap = self.period - start % self.period;
        if gap < end - start {
            let end = start + gap;
            let behind = Cut { from: end, ..self };
            return Ok(Some(Step { start, end, behind }));
        }
        let end = *end;
        let behind = Cut {
            ahead: behind,
            from: 0,
            ..self
        };
        Ok(Some(Step { start, end, behind }))
    }
}
