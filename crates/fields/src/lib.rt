// Lines, fields, words and numbers of a text.
#![tactic(auto)]

pub mod parting;
pub mod values;

// The first word of a line.
#[derive(Clone, Copy)]
pub enum Word {
    Span,
    Server,
    Once,
    Every,
}
