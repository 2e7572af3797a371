// The console program but for reading and writing: the lines' parser, the line function, and the step over a piece of the input.
#![tactic(auto)]

pub mod answer;
pub mod line;
mod show;
pub mod step;
