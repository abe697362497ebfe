// What the curves and the machine say of a text's table, and the table written back, for the program `text_calls`.
#![tactic(auto)]

pub mod reports;
pub mod ticks;
