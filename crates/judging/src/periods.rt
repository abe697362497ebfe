// The answer of a server, from its free curve.
ghost use Rattle.std.specs.Prelude.{◌≡◌, true, ◌*◌, ◌≤◌};
ghost use Rattle.windows.specs.Windows.{is_plain, cover, upto};
ghost use Rattle.answers.specs.Answers.{short_on, short_of, answer_on};
ghost use Rattle.judging.specs.Passes.{Passes, EndsBy, EndsAfter};

use crate::passing::{Passed, pass_instant};
use answers::ServerAnswer;
use table::Server;

// How many ticks of a curve lie below an instant, once the windows that end there or before it are passed.
fn given_below(curve: &[u32], passed: Passed, instant: u32) -> u32
    requires { (is_plain curve.now ≡ true) × Passes curve.now passed × EndsBy curve.now passed.windows instant
        × EndsAfter curve.now passed.windows instant }
    ensures { result ≡ upto (cover curve.now) instant }
{
    let Some(start) = curve.get(2 * passed.windows) else {
        return passed.given;
    };
    passed.given + instant.saturating_sub(*start)
}

// The first of so many full periods that has fewer free ticks than the capacity.
fn first_short(server: Server, full: u32, free: &[u32]) -> Option<u32>
    requires { (is_plain free.now ≡ true) × (full * server.period ≤ 16000) }
    ensures { result ≡ short_of (short_on free.now server.capacity server.period full) }
{
    let mut passed = Passed::default();
    let mut before = 0;
    for k in 0..full {
        let end = (k + 1) * server.period;
        passed = pass_instant(free, passed, end);
        let given = given_below(free, passed, end);
        if given - before < server.capacity {
            return Some(k);
        }
        before = given;
    }
    None
}

// The answer of a server that has a free curve.
pub fn answer_server(server: Server, span: u32, free: &[u32]) -> ServerAnswer
    requires { (1 ≤ server.period) × (span ≤ 16000) × (is_plain free.now ≡ true) }
    ensures { result ≡ answer_on server span free.now }
{
    let full = span / server.period;
    let short = first_short(server, full, free);
    ServerAnswer { full, short }
}
