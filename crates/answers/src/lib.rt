// What the report says of each task and each server: the answers' types, their definitions (specs/) and laws (proofs/).
#![tactic(auto)]

// The worst response, the release of the first job that attains it, and the margin.
#[derive(Clone, Copy)]
pub struct WorstJob {
    pub response: u32,
    pub release: u32,
    pub margin: i32,
}

// A task's answer: the worst response; or the release of the first job that has not ended with the span; or nothing, if no job is released in it.
// It has a `None` of its own, and is no `Option` of the two others: these are three answers in the report's words.
#[derive(Clone, Copy)]
pub enum Response {
    Worst(WorstJob),
    Unfinished(u32),
    None,
}

// A server's answer: how many full periods the span has, and the first short one, counted from 0, if there is one.
#[derive(Clone, Copy)]
pub struct ServerAnswer {
    pub full: u32,
    pub short: Option<u32>,
}

// The answers of a table's servers and tasks, as many as it has, and its span; those beyond its counts have no periods and are `None`.
// That the counts fit (16, 64) is no ghost field: `analysed` of scheduling's specs is the analysis of any table, and has no proof of it to give.
#[derive(Clone, Copy)]
pub struct Analysis {
    pub span: u32,
    pub servers_n: usize,
    pub tasks_n: usize,
    pub servers: [ServerAnswer; 16],
    pub tasks: [Response; 64],
}
