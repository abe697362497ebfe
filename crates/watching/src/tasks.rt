// What is counted of the tasks: their jobs end in order of release, each when it has run for its work. Margin, worst job and releases stand here
// and in the crates of the curves: the machine's report shares nothing with the analysis that it is held against.
ghost use Rattle.std.specs.Prelude.{◌≤◌, length};

use answers::{Response, WorstJob};
use table::{Release, Task};

// What is known of a task's jobs: the release of the first job not ended, if a job follows; how long it has run; and the answer of those that
// have ended.
#[derive(Clone, Copy)]
struct Jobs {
    release: Option<u32>,
    ran: u32,
    ended: Response,
}

// Deadline minus response: below zero when late.
fn margin(deadline: u32, response: u32) -> i32 {
    i32::try_from(i64::from(deadline) - i64::from(response)).unwrap_or(0)
}

// The worst of the jobs that have ended, with one more: the first of two that are equal stays.
fn with_job(ended: Response, release: u32, finish: u32, deadline: u32) -> Response {
    let response = finish.saturating_sub(release);
    match ended {
        Response::Worst(worst) if response <= worst.response => ended,
        _ => Response::Worst(WorstJob {
            response,
            release,
            margin: margin(deadline, response),
        }),
    }
}

impl Jobs {
    // Before a task's first job.
    fn of(task: Task) -> Self {
        let first = match task.release {
            Release::Once(instant) => instant,
            Release::Every(offset, _) => offset,
        };
        Jobs {
            release: Some(first),
            ran: 0,
            ended: Response::None,
        }
    }

    // Lets the first job run for a tick.
    fn run(&mut self, task: Task, finish: u32) {
        self.ran = self.ran.saturating_add(1);
        if self.ran < task.work {
            return;
        }
        let Some(release) = self.release else {
            return;
        };
        self.ended = with_job(self.ended, release, finish, task.deadline);
        self.ran = 0;
        self.release = task
            .release
            .period()
            .and_then(|period| release.checked_add(period));
    }

    // The answer with the span: a job released in it has not ended, or all have.
    fn response(self, ticks: usize) -> Response {
        match self.release {
            Some(release) if (release as usize) < ticks => Response::Unfinished(release),
            _ => self.ended,
        }
    }
}

// A task's answer, from who runs in each tick.
pub fn task_answer(task: Task, number: u32, runners: &[u32]) -> Response
    requires { length runners.now ≤ 16000 }
{
    let mut jobs = Jobs::of(task);
    for (tick, runner) in runners.iter().enumerate() {
        if *runner == number {
            jobs.run(task, tick as u32 + 1);
        }
    }
    jobs.response(runners.len())
}
