// The lines of a report, put on a page.
#![tactic(auto)]

ghost use Rattle.std.specs.Prelude.{ℕ, ◌+◌, ◌*◌, ◌≤◌, List, length, IfOk, Ok};
ghost use Rattle.answers.specs.declared.Response.TheVariants.{Worst};
ghost use Rattle.putting.specs.Puts.{Put};
ghost use Rattle.putting.specs.Pages.{Adds};
ghost use Rattle.printing.specs.Report.{refused_line, span_line, short_field, server_line, response_fields, task_line, numbered, report_of};

use answers::{Analysis, Response, ServerAnswer, WorstJob};
use putting::Page;
use refusals::Refusal;

// Puts the line of a refusal behind what the page has.
pub fn put_refusal(page: &mut Page<'_>, refusal: Refusal)
    requires { page.old.count + 41 ≤ 1000000 }
    ensures adds { Adds page.old page.new (refused_line refusal) }
    ensures most { page.new.count ≤ page.old.count + 41 }
{
    page.put_labelled(b"refused", refusal.number);
    page.put_field(refusal.line);
    page.put_field(refusal.place);
    page.put_byte(b'\n');
}

// Puts the line of a refusal at the front of a buffer, and answers how many bytes it has.
pub fn put_refused(out: &mut [u8], refusal: Refusal) -> usize
    ensures { Put out.old out.new 0 (refused_line refusal) result × (result ≤ 41) }
{
    let mut page = Page::new(out);
    put_refusal(&mut page, refusal);
    page.count
}

// Puts the line of the span.
fn put_span(page: &mut Page<'_>, span: u32)
    requires { page.old.count + 16 ≤ 1000000 }
    ensures adds { Adds page.old page.new (span_line span) }
    ensures most { page.new.count ≤ page.old.count + 16 }
{
    page.put_labelled(b"span", span);
    page.put_byte(b'\n');
}

// Puts the first short period, or that there is none.
#[tactic(auto, unfolding(crate::specs::Report::short_field))]
fn put_short(page: &mut Page<'_>, short: Option<u32>)
    requires { page.old.count + 11 ≤ 1000000 }
    ensures adds { Adds page.old page.new (short_field short) }
    ensures most { page.new.count ≤ page.old.count + 11 }
{
    match short {
        Some(period) => page.put_field(period),
        None => page.put_word(b"\t-"),
    }
}

// Puts a worst response, the release of the job that attains it and the margin.
fn put_worst(page: &mut Page<'_>, worst: WorstJob)
    requires { page.old.count + 40 ≤ 1000000 }
    ensures adds { Adds page.old page.new (response_fields (Worst worst)) }
    ensures most { page.new.count ≤ page.old.count + 40 }
{
    page.put_labelled(b"\tworst", worst.response);
    page.put_field(worst.release);
    page.put_margin(worst.margin);
}

// Puts what is said of a task.
#[tactic(auto, unfolding(crate::specs::Report::response_fields))]
fn put_response(page: &mut Page<'_>, response: Response)
    requires { page.old.count + 40 ≤ 1000000 }
    ensures adds { Adds page.old page.new (response_fields response) }
    ensures most { page.new.count ≤ page.old.count + 40 }
{
    match response {
        Response::Worst(worst) => put_worst(page, worst),
        Response::Unfinished(release) => page.put_labelled(b"\tunfinished", release),
        Response::None => page.put_word(b"\tnone"),
    }
}

// What the report says of one server or of one task: a line with its number.
trait Entry: Copy {
    // the line
    ghost line: { ℕ → Self → List ℕ };

    // how many bytes it has at the most
    ghost most: { ℕ };

    // Puts the line.
    fn put(self, page: &mut Page<'_>, number: u32)
        requires { page.old.count + most ≤ 1000000 }
        ensures adds { Adds page.old page.new (line number self) }
        ensures within { page.new.count ≤ page.old.count + most };
}

impl Entry for ServerAnswer {
    ghost line = { server_line };

    ghost most = { 40 };

    fn put(self, page: &mut Page<'_>, number: u32) {
        page.put_labelled(b"server", number);
        page.put_field(self.full);
        put_short(page, self.short);
        page.put_byte(b'\n');
    }
}

impl Entry for Response {
    ghost line = { task_line };

    ghost most = { 56 };

    fn put(self, page: &mut Page<'_>, number: u32) {
        page.put_labelled(b"task", number);
        put_response(page, self);
        page.put_byte(b'\n');
    }
}

// Puts the lines of all servers or of all tasks, which are numbered from 1 on.
fn put_lines<T: Entry>(page: &mut Page<'_>, entries: &[T])
    requires few { length entries.now ≤ 64 }
    requires room { page.old.count + length entries.now * T.most ≤ 1000000 }
    ensures adds { Adds page.old page.new (numbered T.line entries.now 0) }
    ensures most { page.new.count ≤ page.old.count + length entries.now * T.most }
{
    for (i, entry) in entries.iter().enumerate() {
        entry.put(page, (i as u32) + 1);
    }
}

// Puts the report of an analysis, whose counts stand beside its arrays: that is how the calls for C hand it out.
fn put_analysis(page: &mut Page<'_>, analysis: Analysis)
    requires counts { (analysis.servers_n ≤ 16) × (analysis.tasks_n ≤ 64) }
    requires room { page.old.count + 4240 ≤ 1000000 }
    ensures adds { Adds page.old page.new (report_of (Ok analysis)) }
    ensures most { page.new.count ≤ page.old.count + 4240 }
{
    put_span(page, analysis.span);
    put_lines(page, &analysis.servers[..analysis.servers_n]);
    put_lines(page, &analysis.tasks[..analysis.tasks_n]);
}

// Puts the report of an analysis, or the line of its refusal, at the front of a buffer, and answers how many bytes it has.
#[tactic(auto, unfolding(crate::specs::Report::report_of))]
pub fn put_report(out: &mut [u8], analysis: Result<Analysis, Refusal>) -> usize
    requires { IfOk analysis (λ a. (a.servers_n ≤ 16) × (a.tasks_n ≤ 64)) }
    ensures { Put out.old out.new 0 (report_of analysis) result × (result ≤ 4240) }
{
    let mut page = Page::new(out);
    match analysis {
        Ok(analysis) => put_analysis(&mut page, analysis),
        Err(refusal) => put_refusal(&mut page, refusal),
    }
    page.count
}
