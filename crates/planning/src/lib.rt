//! The planner's tool: what it answers to the words of a command line and a text of keys.
#![tactic(auto)]

mod arguments;
mod command;
mod no_answer;

pub use command::answer;
pub use no_answer::NoAnswer;
