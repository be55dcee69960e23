//! Sets of dirty pages.
#![tactic(auto)]

mod bitmap;
mod offset_bitmap;
pub mod page_bitmap;
pub mod page_words;
mod summary;

pub use bitmap::{Bitmap, NewBitmap, PAGE_SIZE};
pub use offset_bitmap::{BaseSlice, RefSlice};
pub use page_bitmap::PageBitmap;
