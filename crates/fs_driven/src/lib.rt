//! A driver of several handles over several queues: any sequence of its calls is a run of the live machine,
//! and the run's events have what the calls returned.
#![tactic(auto)]

pub mod both_served;
mod commands;
mod entries;
pub mod laws;
pub mod new_handles;
mod new_memory;
pub mod tickets;
pub mod two_chains;

pub use commands::{
    DriverCall, Results, drive, drive_abandon, drive_ahead, drive_all, drive_answer, drive_decode,
    drive_give_up, drive_notify, drive_one, drive_pop, drive_push, drive_pushed, drive_reply,
    drive_reset,
};
pub use entries::{ListedEntry, drive_gather};
pub use new_memory::{drive_move, drive_remap};
