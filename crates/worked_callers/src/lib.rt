//! Callers of the handle. Each proves, by the theorems of `fs_chain`, `live_machine` and `fs_notify`, that
//! its calls are a step or a run. So real calls meet the hypotheses of these theorems. In `marks` threads
//! share the marks of `vm_atomic_bitmaps`. `chain_tests` runs them all.
#![tactic(auto)]

pub mod files;
pub mod givers;
pub mod held;
pub mod listings;
pub mod live_queues;
pub mod marks;
pub mod missed_event;
pub mod misses;
pub mod offers;
pub mod takers;
pub mod untouched;
pub mod worked_runs;
