//! A run of the device doesn't depend on the bytes that it doesn't read.
#![tactic(auto)]

pub mod laws;
