//! The guest addresses of a reply buffer.

ghost use Rattle.std.specs.Prelude.{◌≡◌, ◌<◌, ◌≤◌, ◌-◌, ◌^◌, min, IfSome, None};
ghost use Rattle.fs_chain_c.specs.Ranges.{FillsRanges, IsReplyRange, RoomEnds};

use fs_chain::ChainHandle;

/// A range of guest addresses.
#[repr(C)]
#[derive(Clone, Copy)]
pub struct FsRange {
    /// The first one.
    pub guest: u64,
    /// How many there are.
    pub len: u64,
}

// The guest range of the reply buffer's bytes from one on, at most so many.
fn range(handle: &ChainHandle, from: u64, most: u64) -> Option<FsRange>
    requires { 0 < most }
    ensures some { IfSome result (IsReplyRange handle.now from most) }
    ensures none { result ≡ None → RoomEnds handle.now from }
    ensures low { IfSome result (λ r. r.len ≤ most) }
{
    match handle.room_range(from) {
        Some((guest, len)) => {
            let len = len.min(most);
            Some(FsRange { guest, len })
        }
        None => None,
    }
}

/// Fills the first of some ranges with those of the reply buffer's bytes from one on. They cover at most
/// `most` bytes, and none past 2^64 - 1. Returns how many ranges it filled.
pub fn fill_ranges(handle: &ChainHandle, from: u64, most: u64, ranges: &mut [FsRange]) -> usize
    ensures { FillsRanges handle.now from (min most (2 ^ 64 - 1 - from)) ranges.old ranges.new result }
{
    let (mut at, mut left) = (from, most.min(u64::MAX - from));
    for k in 0..ranges.len() {
        if left == 0 {
            return k;
        }
        let Some(range) = range(handle, at, left) else {
            return k;
        };
        ranges[k] = range;
        left -= range.len;
        at += range.len;
    }
    ranges.len()
}
