// The report of a table's text, as text.
#![tactic(auto)]

ghost use Rattle.std.specs.Prelude.{◌≡◌, true, ◌≤◌, length, IfOk};
ghost use Rattle.scheduling.specs.Analysing.{analysis_of};
ghost use Rattle.printing.specs.Report.{report_of};
ghost use Rattle.reporting.specs.Reporting.{Reports};

use answers::Analysis;
use opening::ROOM;
use printing::put_report;
use refusals::{Ground, Refusal, required};

// The analysis of a text, on work buffers of its own.
fn analysed(text: &[u8]) -> Result<Analysis, Refusal>
    ensures { result ≡ analysis_of text.now true }
{
    let [
        mut free,
        mut sum,
        mut part,
        mut held,
        mut running,
        mut spare,
    ] = [[0u32; ROOM]; 6];
    scheduling::analyse(
        text,
        &mut free,
        &mut sum,
        &mut part,
        &mut held,
        &mut running,
        &mut spare,
    )
}

// How many bytes the report of an analysis has: what a buffer has no room for is counted too.
fn count(analysis: Result<Analysis, Refusal>) -> usize
    requires { IfOk analysis (λ a. (a.servers_n ≤ 16) × (a.tasks_n ≤ 64)) }
    ensures { result ≡ length (report_of analysis) }
{
    put_report(&mut [], analysis)
}

// Writes the report of a text to the front of a buffer, if it fits.
pub fn report(text: &[u8], out: &mut [u8]) -> Result<usize, Refusal>
    ensures { Reports text.now out.old result out.new }
{
    let analysis = analysed(text);
    let n = count(analysis);
    required(n <= out.len(), Ground::NoRoom)?;
    put_report(out, analysis);
    Ok(n)
}
