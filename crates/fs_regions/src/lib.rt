//! A guest's memory as regions of host memory, and pops by loads that the caller makes in them.
#![tactic(auto)]

mod ahead;
mod chain;
mod course;
mod entries;
mod fits;
pub mod laws;
mod map;
mod misses;
mod region;
mod regions;
mod step;
mod straight;
mod stretch;
mod using;
mod walk;
mod whole_table;

pub use ahead::LoadAhead;
pub use chain::{range_from, window_from};
pub use course::Course;
pub use entries::EntriesWalk;
pub use fits::count_both;
pub use map::GuestMap;
pub use misses::missing_from;
pub use region::MemoryRegion;
pub use regions::{GuestRegions, RegionsError};
pub use step::CourseStep;
pub use using::uses;
pub use walk::QueueWalk;
