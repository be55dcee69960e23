//! The layout of a queue: the addresses of its three parts, which the driver sets (VIRTIO 1.2, 2.7).

ghost use Rattle.std.specs.Prelude.{◌≡◌, ◌+◌, ◌*◌, ◌<◌, ◌≤◌, ◌^◌, Ok, Err, MatchResult, None, Some, nat_le};
ghost use Rattle.fs_queue.specs.Lawful.{layout_error};

use crate::fault::QueueLayoutError;

/// A queue's size and the guest addresses of its parts. A descriptor has 16 bytes in the table, 2 in the
/// available ring and 8 in the used ring; each ring has 6 bytes besides.
#[derive(Clone, Copy, Debug)]
pub struct QueueLayout {
    size: u16,
    desc: u64,
    avail: u64,
    used: u64,
    pub ghost lawful: { layout_error size desc avail used ≡ None },
    pub ghost sized: { 0 < size },
    pub ghost table: { desc + 16 * size < 2 ^ 64 },
    pub ghost available: { avail + (6 + 2 * size) < 2 ^ 64 },
    pub ghost used_ring: { used + (6 + 8 * size) < 2 ^ 64 },
}

// Whether `len` bytes from an address on end past 2^64 - 1.
fn ends_past(addr: u64, len: u64) -> bool
    ensures { result ≡ nat_le (2 ^ 64) (addr + len) }
{
    addr > u64::MAX - len
}

impl QueueLayout {
    /// The layout of a queue of `size` descriptors whose parts begin at these guest addresses. Errors,
    /// in this order:
    /// - `BadSize` if the size is no power of two,
    /// - `Misaligned` unless table, available ring and used ring are aligned to 16, 2 and 4 bytes,
    /// - `EndOverflow` if one of them ends past 2^64 - 1.
    pub fn new(size: u16, desc: u64, avail: u64, used: u64) -> Result<QueueLayout, QueueLayoutError>
        ensures { MatchResult result
            (λ l. (layout_error size desc avail used ≡ None)
            × (l.size ≡ size)
            × (l.desc ≡ desc)
            × (l.avail ≡ avail)
            × (l.used ≡ used))
            (λ e. layout_error size desc avail used ≡ Some e) }
    {
        if !size.is_power_of_two() {
            return Err(QueueLayoutError::BadSize);
        }
        if desc % 16 != 0 || avail % 2 != 0 || used % 4 != 0 {
            return Err(QueueLayoutError::Misaligned);
        }
        let size_bytes = u64::from(size);
        if ends_past(desc, 16 * size_bytes)
            || ends_past(avail, 6 + 2 * size_bytes)
            || ends_past(used, 6 + 8 * size_bytes)
        {
            return Err(QueueLayoutError::EndOverflow);
        }
        Ok(QueueLayout {
            size,
            desc,
            avail,
            used,
        })
    }

    /// The number of descriptors in the table: a power of two from 1 to 32768.
    pub fn size(&self) -> u16
        ensures { result ≡ self.now.size }
    {
        self.size
    }

    /// The guest address of the descriptor table.
    pub fn desc(&self) -> u64
        ensures { result ≡ self.now.desc }
    {
        self.desc
    }

    /// The guest address of the available ring.
    pub fn avail(&self) -> u64
        ensures { result ≡ self.now.avail }
    {
        self.avail
    }

    /// The guest address of the used ring.
    pub fn used(&self) -> u64
        ensures { result ≡ self.now.used }
    {
        self.used
    }
}

// The entries of a position.
impl QueueLayout {
    ghost use Rattle.fs_queue.specs.Queue.{element_at, index_at, ring_entry_at, slot};
    ghost use Rattle.fs_queue.specs.WalkingView.{at_position};

    // The index of a position's entry in a ring.
    #[inline(always)]
    fn slot(&self, position: u16) -> u16
        ensures at { result ≡ slot (at_position self.now position) }
        ensures inside { result < self.now.size }
    {
        position % self.size
    }

    /// The offset of a position's entry in the available ring, in bytes.
    #[inline(always)]
    pub(crate) fn entry_offset(&self, position: u16) -> u32
        ensures at { self.now.avail + result ≡ ring_entry_at (at_position self.now position) }
        ensures inside { result + 2 ≤ 4 + 2 * self.now.size }
    {
        4 + 2 * u32::from(self.slot(position))
    }

    /// The guest address of a position's used element. Its eight bytes end below 2^64.
    #[inline(always)]
    pub fn used_element_at(&self, position: u16) -> u64
        ensures at { result ≡ element_at (at_position self.now position) }
        ensures fits { result + 8 < 2 ^ 64 }
    {
        self.used + 4 + 8 * u64::from(self.slot(position))
    }

    /// The guest address of the used index. Its two bytes end below 2^64.
    #[inline(always)]
    pub fn used_index_at(&self) -> u64
        ensures at { result ≡ index_at (at_position self.now 0) }
        ensures fits { result + 2 < 2 ^ 64 }
    {
        self.used + 2
    }
}
