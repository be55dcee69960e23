//! The functions of pitskhomu.h, which lies beside fs_chain_c: 42 exports, each a few lines over that
//! crate, and `pk_build`, which the archive adds; and the 17 of pitskhomu_turns.h there, over fs_turns_c. The
//! modules `.._called` call the exports in ways that meet the hypotheses of its laws.
#![tactic(auto)]

pub mod chains;
pub mod iotlbs;
pub mod laws_called;
pub mod listing;
pub mod logs_called;
pub mod moves_called;
pub mod queues;
pub mod replies;
pub mod turns;
