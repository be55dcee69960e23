//! The buffer of a record while it is saved: it allocates nothing.

ghost use Rattle.std.specs.Prelude.{◌≡◌, ◌≤◌, [], Some, false, true, length};
ghost use Rattle.fs_record.specs.Record.{HasKnownBits, Second, record_bytes};

use arrayvec::ArrayVec;
use fs_queue::Queue;
use fs_record::{RecordSink, save_record};
use fuse_base::FsOptions;
use std::io;

/// The longest record: 32 bytes, and 32 for each of 64 queues.
pub const MOST_RECORD_LEN: usize = 2080;

/// The bytes of a record so far. It is full only at the length of the longest record.
#[derive(Drop)]
pub struct RecordPlace {
    /// The bytes.
    pub bytes: ArrayVec<u8, MOST_RECORD_LEN>,
    is_full: bool,
    ghost full: { is_full ≡ true → 2080 ≤ length bytes.items },
}

impl RecordPlace {
    // No bytes yet.
    fn empty() -> RecordPlace
        ensures { (result.bytes.items ≡ []) × (result.is_full ≡ false) }
    {
        RecordPlace {
            bytes: ArrayVec::new(),
            is_full: false,
        }
    }
}

impl RecordSink for RecordPlace {
    ghost sent = { λ s. Some s.bytes.items };

    ghost failed = { λ s. s.is_full };

    fn put(&mut self, bytes: &[u8]) -> io::Result<usize> {
        let len = bytes.len().min(MOST_RECORD_LEN - self.bytes.len());
        if len == 0 {
            self.is_full = true;
            return Ok(0);
        }
        self.bytes.try_extend_from_slice(&bytes[..len]).unwrap();
        Ok(len)
    }
}

/// The record of a device's options, page size and limit, and of its queues.
pub fn record_of(options: FsOptions, queues: &[Queue], page_size: u32, limit: u32) -> RecordPlace
    requires known { HasKnownBits options.0 }
    requires some { 1 ≤ length queues.now }
    requires few { length queues.now ≤ 64 }
    ensures { result.bytes.items ≡ record_bytes (Second page_size limit) options.0 queues.now }
{
    let mut place = RecordPlace::empty();
    match save_record(&mut place, options, queues, page_size, limit) {
        Ok(()) => place,
        Err(_) => unreachable!(),
    }
}
