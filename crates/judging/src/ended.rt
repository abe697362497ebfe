// A job that has ended.
ghost use Rattle.std.specs.Prelude.{◌≡◌, ◌≤◌};
ghost use Rattle.answers.specs.Answers.{margin_of};

// How long after its release it ended, and the release.
#[derive(Clone, Copy)]
pub struct EndedJob {
    pub response: u32,
    pub release: u32,
    ghost in_ticks: { response ≤ 16000 },
}

impl EndedJob {
    // Deadline minus response: below zero when late.
    pub fn margin(self, deadline: u32) -> i32
        requires { deadline ≤ 16000 }
        ensures { result ≡ margin_of deadline self.response }
    {
        (deadline as i32) - (self.response as i32)
    }
}
