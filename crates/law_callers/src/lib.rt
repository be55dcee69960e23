//! Callers of the theorems. Each meets a theorem's premises with something that isn't empty: a run of a
//! machine with a chain, a journal with an entry, a walk over a chain. So no theorem holds for want of cases.
#![tactic(auto)]

pub mod machine;
pub mod reads;
pub mod shared;
pub mod tables;
pub mod turns;
pub mod walks;
