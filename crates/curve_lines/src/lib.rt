// What `curve_calls` is made of: what a line asks for, and the line of an answer.
#![tactic(auto)]

pub mod printing;
pub mod reading;
