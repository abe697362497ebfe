// The answer of a task, from the ticks in which it runs.
ghost use Rattle.std.specs.Prelude.{◌≡◌, ◌≤◌, Some};
ghost use Rattle.answers.specs.Answers.{none, worse, judged, response_of};
ghost use Rattle.schedule.specs.Curves.{releases_from};
ghost use Rattle.buffers.specs.Parts.{PlainBelow};
ghost use Rattle.demands.specs.Walks.{TaskObeyed};
ghost use Rattle.judging.specs.Judges.{worst_so_far};

use crate::ended::EndedJob;
use crate::passing::{Passed, pass_amount};
use answers::{Response, WorstJob};
use demands::releasing::{first_release, next_release};
use table::Task;

// The worst of those so far and one more: the first of two that are equal stays.
fn worse(sofar: Option<EndedJob>, job: EndedJob) -> EndedJob
    ensures { worst_so_far (Some result) ≡ worse (worst_so_far sofar) job.response job.release }
{
    match sofar {
        Some(worst) if job.response <= worst.response => worst,
        _ => job,
    }
}

// The answer of a task all of whose jobs have ended, the worst so.
fn answer(worst: Option<EndedJob>, deadline: u32) -> Response
    requires { deadline ≤ 16000 }
    ensures { result ≡ response_of deadline (worst_so_far worst) }
{
    let Some(job) = worst else {
        return Response::None;
    };
    Response::Worst(WorstJob {
        response: job.response,
        release: job.release,
        margin: job.margin(deadline),
    })
}

// The answer of a task that runs in the ticks of a curve, in one walk along its releases and the curve.
pub fn judge(task: Task, span: u32, running: &[u32]) -> Response
    requires { TaskObeyed task × (task.deadline ≤ 16000) × (span ≤ 16000) × PlainBelow span running.now }
    ensures { result ≡ response_of task.deadline (judged running.now task.work 1 (releases_from task.release span 0) none) }
{
    let mut worst = None;
    let mut passed = Passed::default();
    let mut amount = task.work;
    let mut release = first_release(task.release);
    // By the next release, as a demand is written: a task that is released once has no period to step by.
    while release < span {
        passed = pass_amount(running, passed, amount);
        let Some(start) = running.get(2 * passed.windows) else {
            return Response::Unfinished(release);
        };
        let end = start + (amount - passed.given);
        let response = end.saturating_sub(release);
        worst = Some(worse(worst, EndedJob { response, release }));
        amount += task.work;
        release = next_release(task.release, release);
    }
    answer(worst, task.deadline)
}
