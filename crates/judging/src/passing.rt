// Walks along a curve that go on where the last one stopped.
ghost use Rattle.std.specs.Prelude.{◌≡◌, true, false, ◌+◌, ◌-◌, ◌*◌, ◌≤◌, ◌<◌, ◌⊎◌, length, get_or};
ghost use Rattle.windows.specs.Windows.{is_plain, provide};
ghost use Rattle.judging.specs.Passes.{Passes, reached_at, EndsBy, EndsAfter};

// How far a curve has been passed: so many of its windows, which give so many ticks.
// The curve goes beside it: a walk changes this alone, which starts as its default.
#[derive(Clone, Copy, Default)]
pub struct Passed {
    pub windows: usize,
    pub given: u32,
}

// Passes windows as long as `goes_on` answers so of how many ticks they give and where the last of them ends.
fn pass<F: Fn(u32, u32) -> bool>(curve: &[u32], from: Passed, goes_on: F) -> Passed
    requires curve { (is_plain curve.now ≡ true) × Passes curve.now from }
    requires callable { F.IsAlwaysCallable goes_on }
    ensures passes { Passes curve.now result }
    ensures passed { (result ≡ from) ⊎ F.post goes_on result.given (get_or curve.now (2 * result.windows - 1) 0) true }
    ensures stopped { 2 * result.windows < length curve.now → F.post goes_on
        (result.given + (get_or curve.now (2 * result.windows + 1) 0 - get_or curve.now (2 * result.windows) 0))
        (get_or curve.now (2 * result.windows + 1) 0) false }
{
    let mut passed = from;
    while let [start, end, ..] = &curve[2 * passed.windows..] {
        let given = passed.given + (end - start);
        if !goes_on(given, *end) {
            break;
        }
        passed = Passed {
            windows: passed.windows + 1,
            given,
        };
    }
    passed
}

// Passes the windows that, with those before them, give fewer ticks than an amount.
pub fn pass_amount(curve: &[u32], from: Passed, amount: u32) -> Passed
    requires { (is_plain curve.now ≡ true) × Passes curve.now from × (from.given < amount) }
    ensures { Passes curve.now result × (result.given < amount) × (provide curve.now amount ≡ reached_at curve.now result amount) }
{
    pass(curve, from, |given, _| given < amount)
}

// Passes the windows that end at an instant or before it.
pub fn pass_instant(curve: &[u32], from: Passed, instant: u32) -> Passed
    requires { (is_plain curve.now ≡ true) × Passes curve.now from × EndsBy curve.now from.windows instant }
    ensures { Passes curve.now result × EndsBy curve.now result.windows instant × EndsAfter curve.now result.windows instant }
{
    pass(curve, from, |_, end| end <= instant)
}
