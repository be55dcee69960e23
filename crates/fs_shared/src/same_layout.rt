//! Equality of layouts.

ghost use Rattle.std.specs.Prelude.{◌≡◌, ◌↔◌, IsTrue};

use vm_memory::{GuestMemoryBackend, GuestMemoryMmap, GuestMemoryRegion, GuestRegionMmap};
use vm_memory_core::MemoryRegionAddress;

// Whether two regions have the same base, length and block.
fn same_region(one: &GuestRegionMmap, other: &GuestRegionMmap) -> bool
    ensures { IsTrue result ↔ (other.now ≡ one.now) }
{
    if other.start_addr().0 != one.start_addr().0 || other.len() != one.len() {
        return false;
    }
    let first = MemoryRegionAddress(0);
    match (other.get_host_address(first), one.get_host_address(first)) {
        (Ok(theirs), Ok(mine)) => theirs.block == mine.block,
        _ => false,
    }
}

/// Whether two layouts have the same regions: base, length and block of each.
pub(crate) fn same_layout(one: &GuestMemoryMmap, other: &GuestMemoryMmap) -> bool
    ensures { IsTrue result ↔ (other.now ≡ one.now) }
{
    let mut others = other.iter();
    for region in one.iter() {
        match others.next() {
            Some(their) => {
                if !same_region(region, their) {
                    return false;
                }
            }
            None => return false,
        }
    }
    others.next().is_none()
}
