//! Readers of requests and writers of replies, over segments (virtiofsd's `descriptor_utils`).
#![tactic(auto)]

mod error;
mod file_reads;
mod reader;
mod writer;
mod zero_copy;

pub use error::Error;
pub use file_reads::{SegmentBuffer, read_segments};
pub use reader::Reader;
pub use writer::Writer;
pub use zero_copy::{ZcReader, ZcWriter};

/// The direction of a descriptor: the device reads its bytes, or writes them (VIRTIO 1.2, 2.7.5).
#[derive(Clone, Copy, Debug, PartialEq, Eq)]
pub enum DescriptorType {
    Readable,
    Writable,
}
