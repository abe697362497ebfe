// What the calls for C hand out of curve calls, reports and analyses, through places to write to: counts, instants, and answers as plain numbers.
#![tactic(auto)]

pub mod answered;
pub mod listing;
pub mod outcomes;
