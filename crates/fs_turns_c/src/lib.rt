//! The machine of a queue's threads over the numbers that C keeps: a function for each event, which the
//! exports of fs_chain_exports call. Their header, pitskhomu_turns.h, lies beside pitskhomu.h.
#![tactic(auto)]

pub mod turns;
