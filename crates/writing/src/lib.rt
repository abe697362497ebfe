// A table written back as text, the way it is read.
#![tactic(auto)]

mod counting;
mod line_writer;
mod table_writer;

ghost use Rattle.writing.specs.Writing.{Writes};

use counting::text_length;
use refusals::{Ground, Refusal, required};
use table::{Table, obeys_rules};
use table_writer::put_text;

// Writes the text of a table to the front of a buffer, if it fits. Its length is known before the first byte is written.
pub fn write(table: Table, out: &mut [u8]) -> Result<usize, Refusal>
    ensures { Writes table out.old result out.new }
{
    required(obeys_rules(table), Ground::RulesBroken)?;
    let n = text_length(table);
    required(n <= out.len(), Ground::NoRoom)?;
    put_text(out, table);
    Ok(n)
}
