//! Where a queue's rings are in the host's memory.

ghost use Rattle.std.specs.Prelude.{◌≡◌, option_map};
ghost use Rattle.vm_iotlb.specs.declared.permissions.Permissions.TheVariants.{Write};
ghost use Rattle.vm_memory.specs.Memory.{location};
ghost use Rattle.fs_regions.specs.Places.{places_in};
ghost use Rattle.fs_chain.specs.Rings.{host_place, is_same_ring, ring_of};

use fs_queue::QueueLayout;
use fs_regions::GuestMap;
use vm_memory_core::Permissions;

/// A byte of the host's memory.
#[derive(Clone, Copy, Debug)]
pub struct HostPlace {
    /// The number of its region's block.
    pub(crate) block: usize,
    /// Its offset there.
    pub(crate) offset: usize,
}

/// Where a queue's rings are, as far as a table may move them: where the used index is.
#[derive(Clone, Copy, Debug)]
pub enum RingPlace {
    /// There is no table: the rings have addresses of the regions.
    Physical,
    /// The table maps the used index there.
    Translated(HostPlace),
    /// The table doesn't map the used index.
    Unmapped,
}

// The place of the byte at an address that is written.
#[cold]
#[inline(never)]
fn host_place(regions: &GuestMap, addr: u64) -> Option<HostPlace>
    ensures { result ≡ option_map host_place (location (places_in regions.now) Write addr) }
{
    match regions.window_at(addr, 1, Permissions::Write) {
        Some(window) => Some(HostPlace {
            block: window.block(),
            offset: window.block_offset(),
        }),
        None => None,
    }
}

impl RingPlace {
    /// Where a queue's rings are.
    #[inline(always)]
    pub(crate) fn of(regions: &GuestMap, layout: &QueueLayout) -> RingPlace
        ensures { result ≡ ring_of (places_in regions.now) layout.now.used }
    {
        if !regions.translates() {
            return RingPlace::Physical;
        }
        match host_place(regions, layout.used_index_at()) {
            Some(place) => RingPlace::Translated(place),
            None => RingPlace::Unmapped,
        }
    }

    /// Whether two places are the same. A place that isn't mapped is none.
    #[inline(always)]
    pub(crate) fn is_same(&self, other: &RingPlace) -> bool
        ensures { result ≡ is_same_ring self.now other.now }
    {
        match (self, other) {
            (RingPlace::Physical, RingPlace::Physical) => true,
            (RingPlace::Translated(mine), RingPlace::Translated(there)) => {
                mine.block == there.block && mine.offset == there.offset
            }
            _ => false,
        }
    }
}
