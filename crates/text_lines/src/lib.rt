// The lines of the program `text_calls`: what a line asks for, and a table on one line.
#![tactic(auto)]

pub mod asking;
pub mod tables;
