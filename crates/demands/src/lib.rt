// The demand of a task, and the summed demand of a server, at the front of a buffer.
#![tactic(auto)]

pub mod releasing;
pub mod summing;
