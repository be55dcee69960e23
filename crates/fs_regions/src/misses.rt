//! Misses: addresses that a pop needs, and the table doesn't map.

ghost use Rattle.std.specs.Prelude.{◌≡◌};
ghost use Rattle.fs_queue.specs.Taking.{access_of, of_direction};
ghost use Rattle.fs_queue.specs.WalkingView.{at_position};
ghost use Rattle.fs_regions.specs.Misses.{OfReturn, area_from, areas_of, buffers_of, first_miss};
ghost use Rattle.fs_regions.specs.Misses.{miss_of, needed_at};
ghost use Rattle.fs_regions.specs.Places.{places_in};

use crate::chain::access_of;
use crate::map::GuestMap;
use fs_queue::{Descriptor, QueueLayout};
use vm_memory_core::{IovaRange, Permissions};

// Where the last page of the device's addresses begins. A table of whole pages of 4096 bytes never maps that
// page: it ends at 2^64, and a mapping ends below.
const LAST_PAGE: u64 = 0xffff_ffff_ffff_f000;

impl GuestMap {
    /// The first of `len` addresses that the table doesn't map, with the unmapped ones right after it, and
    /// the access that they are needed for. None if there is none, or one of the addresses is in the last
    /// page: nobody could map it.
    #[cold]
    #[inline(never)]
    pub fn miss(
        &self,
        addr: u64,
        len: usize,
        access: Permissions,
    ) -> Option<(IovaRange, Permissions)>
        ensures { result ≡ miss_of (places_in self.now)
            (record { from = addr; len = len; access = access }) }
    {
        if addr > LAST_PAGE || len as u64 > LAST_PAGE - addr {
            return None;
        }
        match self.first_miss(addr, len) {
            Some(range) => Some((range, access)),
            None => None,
        }
    }
}

/// The first miss among the fields that the push of a chain needs: the used element, the used index, and the
/// available flags.
#[cold]
#[inline(never)]
pub(crate) fn return_miss(
    regions: &GuestMap,
    layout: QueueLayout,
    position: u16,
) -> Option<(IovaRange, Permissions)>
    ensures { result ≡ first_miss (places_in regions.now)
        (needed_at (at_position layout position) OfReturn) }
{
    let element = layout.used_element_at(position);
    match regions.miss(element, 8, Permissions::Write) {
        Some(miss) => return Some(miss),
        None => {}
    }
    match regions.miss(layout.used_index_at(), 2, Permissions::Write) {
        Some(miss) => Some(miss),
        None => regions.miss(layout.avail(), 2, Permissions::Read),
    }
}

// The first miss among the buffers of one direction of a chain.
fn direction_miss(
    regions: &GuestMap,
    descriptors: &[Descriptor],
    write_only: bool,
) -> Option<(IovaRange, Permissions)>
    ensures { result ≡ first_miss (places_in regions.now)
        (areas_of (access_of write_only) (of_direction write_only descriptors.now)) }
{
    for descriptor in descriptors {
        if descriptor.is_write_only() == write_only {
            let len = descriptor.len as usize;
            match regions.miss(descriptor.addr, len, access_of(write_only)) {
                Some(miss) => return Some(miss),
                None => {}
            }
        }
    }
    None
}

/// The first miss among the buffers of a chain: those of its request, and then those of its reply buffer.
#[cold]
#[inline(never)]
pub(crate) fn buffers_miss(
    regions: &GuestMap,
    descriptors: &[Descriptor],
) -> Option<(IovaRange, Permissions)>
    ensures { result ≡ first_miss (places_in regions.now) (buffers_of descriptors.now) }
{
    match direction_miss(regions, descriptors, false) {
        Some(miss) => Some(miss),
        None => direction_miss(regions, descriptors, true),
    }
}

/// The first miss of a descriptor's buffer at or after an address, with the access that the buffer needs.
pub fn missing_from(
    regions: &GuestMap,
    descriptor: &Descriptor,
    from: u64,
) -> Option<(IovaRange, Permissions)>
    ensures { result ≡ miss_of (places_in regions.now) (area_from descriptor.now from) }
{
    let start = descriptor.addr.max(from);
    let len = u64::from(descriptor.len).saturating_sub(start - descriptor.addr) as usize;
    regions.miss(start, len, access_of(descriptor.is_write_only()))
}
