// Runs the curve calls that standard input has, one a line, and writes for each its answer and the whole of every buffer lent to it.
//     1 na a.. nb b.. room         adding up: the numbers of two curves, and the length of the lent buffer
//     2 period na a.. room         cutting
//     3 nd d.. ns s.. r1 r2 r3     fitting a demand into a supply, with room for supply left, served, demand left
//     4 amount na a..              time to provide
// The answer is `count n`, `counts l s r`, `at t`, `not provided`, or `refused number line place`; behind it stands ` |` and the numbers of each lent
// buffer. A line of any other form is answered by `bad`, and so is one of more than 1,048,576 bytes, its line feed counted. The input may have any
// length, and its last line needs no line feed.
#![tactic(auto)]

use batch::fields::Fields;
use batch::output::Output;
use batch::{answer_lines, put_bad};
use curve_lines::printing::{put_fitted, put_provided, put_written};
use curve_lines::reading::{read_curve, read_lent};
use std::fmt;

// Answers the rest of a line that asks for adding up; none where it has another form.
fn answer_add(mut fields: Fields, out: &mut Output) -> Option<fmt::Result> {
    let a = read_curve(&mut fields)?;
    let b = read_curve(&mut fields)?;
    let mut sum = read_lent(&mut fields)?;
    fields.end()?;
    let answer = curves::add(&a, &b, &mut sum);
    Some(put_written(out, answer, &sum))
}

// Answers the rest of a line that asks for cutting.
fn answer_cut(mut fields: Fields, out: &mut Output) -> Option<fmt::Result> {
    let period = fields.next_number()?;
    let curve = read_curve(&mut fields)?;
    let mut parts = read_lent(&mut fields)?;
    fields.end()?;
    let answer = curves::cut(&curve, period, &mut parts);
    Some(put_written(out, answer, &parts))
}

// Answers the rest of a line that asks for fitting.
fn answer_fit(mut fields: Fields, out: &mut Output) -> Option<fmt::Result> {
    let demand = read_curve(&mut fields)?;
    let supply = read_curve(&mut fields)?;
    let mut left = read_lent(&mut fields)?;
    let mut served = read_lent(&mut fields)?;
    let mut rest = read_lent(&mut fields)?;
    fields.end()?;
    let answer = curves::fit(&demand, &supply, &mut left, &mut served, &mut rest);
    Some(put_fitted(out, answer, &left, &served, &rest))
}

// Answers the rest of a line that asks for the time to provide.
fn answer_provide(mut fields: Fields, out: &mut Output) -> Option<fmt::Result> {
    let amount = fields.next_number()?;
    let curve = read_curve(&mut fields)?;
    fields.end()?;
    Some(put_provided(out, curves::time_to_provide(&curve, amount)))
}

// Answers a line.
fn answer_line(line: &[u8], out: &mut Output) -> fmt::Result {
    let mut fields = Fields::of(line);
    let answered = match fields.number() {
        Some(1) => answer_add(fields, out),
        Some(2) => answer_cut(fields, out),
        Some(3) => answer_fit(fields, out),
        Some(4) => answer_provide(fields, out),
        _ => None,
    };
    answered.unwrap_or_else(|| put_bad(out))
}

// Answers the lines of standard input.
fn main() {
    answer_lines(answer_line);
}
