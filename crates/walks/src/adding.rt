// Adding up, a window at a time.
ghost use Rattle.std.specs.Prelude.{◌≡◌, true};
ghost use Rattle.windows.specs.Windows.{is_plain, add_up};
ghost use Rattle.walks.specs.Steps.{sum_ahead, SumSound, SecondNext, TakeGives};

use crate::{LIMIT, OverLimit, Step, Walk};

// The sum of two curves: the windows ahead in each.
#[derive(Clone, Copy)]
pub struct Sum<'a> {
    pub a: &'a [u32],
    pub b: &'a [u32],
}

impl<'a> Sum<'a> {
    // The sum of two plain curves.
    #[tactic(auto, using(crate::proofs::Sums::sum_starts))]
    pub fn of(a: &'a [u32], b: &'a [u32]) -> Sum<'a>
        requires { (is_plain a.now ≡ true) × (is_plain b.now ≡ true) }
        ensures sound { SumSound result }
        ensures whole { sum_ahead result ≡ add_up a.now b.now }
    {
        Sum { a, b }
    }

    // The next window of the second curve, if it has one.
    fn take_second(self) -> Option<Step<Sum<'a>>>
        requires { SecondNext self }
        ensures { TakeGives self.entry result }
    {
        let [start, end, behind @ ..] = self.b else {
            return None;
        };
        Some(Step {
            start: *start,
            end: *end,
            behind: Sum { b: behind, ..self },
        })
    }

    // The next window of both curves by its start.
    fn take(self) -> Option<Step<Sum<'a>>>
        requires { SumSound self }
        ensures { TakeGives self.entry result }
    {
        let [start, end, behind @ ..] = self.a else {
            return self.take_second();
        };
        let first = Step {
            start: *start,
            end: *end,
            behind: Sum { a: behind, ..self },
        };
        let [other, ..] = self.b else {
            return Some(first);
        };
        if other < start {
            return self.take_second();
        }
        Some(first)
    }
}

impl<'a> Walk for Sum<'a> {
    ghost ahead = { sum_ahead };

    ghost sound = { SumSound };

    #[tactic(auto, using(crate::proofs::Sums::open_over))]
    fn next(self) -> Result<Option<Step<Sum<'a>>>, OverLimit> {
        let Some(first) = self.take() else {
            return Ok(None);
        };
        let mut open = first;
        while let Some(next) = open.behind.take() {
            if open.end < next.start {
                return Ok(Some(open));
            }
            open.end += next.end - next.start;
            if LIMIT < open.end {
                return Err(OverLimit {});
            }
            open.behind = next.behind;
        }
        Ok(Some(open))
    }
}
