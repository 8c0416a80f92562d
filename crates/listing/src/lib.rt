//! What is said of a text of keys, one to a line: the code and the groups of each, and how many rows every two share.
#![tactic(auto)]

mod description;
mod sentences;
mod text;
mod typed;

pub use description::describe;
pub use text::number;
pub use typed::Typed;
