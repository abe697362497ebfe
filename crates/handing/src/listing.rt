// The answers of an analysis as plain arrays of numbers. A kind is told by its number in the C header: GROD_WORST is 1, GROD_UNFINISHED 2 and GROD_NONE
// 0; a response, a release or a margin that there is not is 0 there.
ghost use Rattle.std.specs.Prelude.{◌≡◌, ◌*◌, ◌≤◌, ℕ, List, length, refl};
ghost use Rattle.refusals.specs.Outcomes.{front};
ghost use Rattle.entries.specs.Entries.{rows};
ghost use Rattle.handing.specs.Handing.{margin_number, server_answer_row, task_answer_row, server_answers, task_answers, margins};

use answers::{Response, ServerAnswer};
use entries::placing::put_row;

// What stands for no short period: GROD_NEVER of the C header.
pub const NONE: u32 = u32::MAX;

// An answer that is listed as a row of N numbers. An impl of the trait `Row` of `entries` for a type of `answers` would be an orphan here; and a walk for
// both, over entries and a closure, is no plainer: its contract has to say of the closure what `numbers` and `wide` say here.
trait Row<const N: usize>: Copy {
    // its numbers
    ghost numbers: { Self → List ℕ };

    // The row.
    fn row(self) -> [u32; N]
        ensures { result ≡ numbers self };

    // it is as wide as every other
    ghost wide: { (answer : Self) → length (numbers answer) ≡ N };
}

impl Row<2> for ServerAnswer {
    ghost numbers = { server_answer_row };

    fn row(self) -> [u32; 2] {
        [self.full, self.short.unwrap_or(NONE)]
    }

    ghost wide = { λ answer. refl };
}

impl Row<3> for Response {
    ghost numbers = { task_answer_row };

    fn row(self) -> [u32; 3] {
        match self {
            Response::Worst(worst) => [1, worst.response, worst.release],
            Response::Unfinished(release) => [2, 0, release],
            Response::None => [0, 0, 0],
        }
    }

    ghost wide = { λ answer. refl };
}

fn margin_number(response: Response) -> i32
    ensures { result ≡ margin_number response }
{
    match response {
        Response::Worst(worst) => worst.margin,
        Response::Unfinished(_) | Response::None => 0,
    }
}

// Lists answers, a row for each.
fn list_rows<const N: usize, T: Row<N>>(answers: &[T], out: &mut [u32])
    requires { length answers.now * N ≤ length out.old }
    ensures { out.new ≡ front (rows T.numbers answers.now) out.old }
{
    for (i, answer) in answers.iter().enumerate() {
        put_row(&answer.row(), out, N * i);
    }
}

// Lists what is answered of the first n servers, a row for each. Array and count are those of an analysis, which has them as the calls for C hand them
// out; so it is of the two below.
pub fn list_servers(servers: [ServerAnswer; 16], n: usize, out: &mut [u32])
    requires { (n ≤ 16) × (32 ≤ length out.old) }
    ensures { out.new ≡ server_answers n servers out.old }
{
    list_rows(&servers[..n], out);
}

// Lists what is answered of the first n tasks, a row for each, but for the margins.
pub fn list_tasks(tasks: [Response; 64], n: usize, out: &mut [u32])
    requires { (n ≤ 64) × (192 ≤ length out.old) }
    ensures { out.new ≡ task_answers n tasks out.old }
{
    list_rows(&tasks[..n], out);
}

// Lists the margins of the first n tasks, which have signs: so they are no row of `put_row`.
pub fn list_margins(tasks: [Response; 64], n: usize, margin: &mut [i32])
    requires { (n ≤ 64) × (n ≤ length margin.old) }
    ensures { margin.new ≡ margins n tasks margin.old }
{
    for (j, response) in tasks[..n].iter().enumerate() {
        margin[j] = margin_number(*response);
    }
}
