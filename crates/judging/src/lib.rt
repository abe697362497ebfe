// The answer of a task from the ticks in which it runs, of a server from its free curve, and whether a curve covers a tick.
#![tactic(auto)]

pub mod covering;
mod ended;
pub mod jobs;
mod passing;
pub mod periods;
