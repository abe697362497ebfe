// The table of a text, written back as text.
#![tactic(auto)]

ghost use Rattle.std.specs.Prelude.{◌≡◌, ◌≤◌, length};
ghost use Rattle.refusals.specs.Outcomes.{front};
ghost use Rattle.rewriting.specs.Rewriting.{rewritten_of};

use printing::put_refused;

// Writes the table of a text, or the line of the refusal, to the front of a buffer, and answers how many bytes these are. A table that was read
// obeys the rules, and the buffer has room for every text: so writing does not refuse it.
pub fn rewrite(text: &[u8], out: &mut [u8]) -> usize
    requires { 2603 ≤ length out.old }
    ensures { (result ≡ length (rewritten_of text.now))
        × (out.new ≡ front (rewritten_of text.now) out.old) × (result ≤ 2603) }
{
    match reading::read(text) {
        Ok(table) => writing::write(table, out).unwrap(),
        Err(refusal) => put_refused(out, refusal),
    }
}
