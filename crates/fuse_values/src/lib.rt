//! Calls of a file system and their answers as values, for a VMM that makes the calls itself.
#![tactic(auto)]

mod answer;
mod call;
mod placed;
mod received;

pub use answer::FileAnswer;
pub use call::FileCall;
pub use placed::Placed;
pub use received::{Label, Received};
