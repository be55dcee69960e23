//! Dirty pages that threads mark and gather without a lock.
#![tactic(auto)]

mod atomic_bitmap;
mod bitmap_pass;
pub mod counts;
mod ranges;

pub use atomic_bitmap::AtomicBitmap;
pub use bitmap_pass::BitmapPass;
