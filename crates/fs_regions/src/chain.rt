//! The host and guest addresses of a chain's bytes.

ghost use Rattle.std.specs.Prelude.{◌≡◌, ◌≤◌, true, IfSome, None};
ghost use Rattle.fs_queue.specs.Taking.{all_reach, total_len, access_of, of_direction};
ghost use Rattle.fs_regions.specs.Places.{places_in};
ghost use Rattle.fs_regions.specs.Windows.{HasNoWindowFrom, IsRangeFrom, IsWindowFrom};

use crate::map::GuestMap;
use fs_queue::Descriptor;
use vm_memory_core::{Permissions, VolatileSlice};

// The access that a device needs for the bytes of one direction.
pub(crate) fn access_of(write_only: bool) -> Permissions
    ensures { result ≡ access_of write_only }
{
    if write_only {
        Permissions::Write
    } else {
        Permissions::Read
    }
}

/// The longest window of the bytes of one direction of a chain from byte `from` on: in one descriptor
/// and one region, and mapped in one piece. None past their end, or if byte `from` isn't mapped or
/// its address exceeds 64 bits.
pub fn window_from(
    regions: &GuestMap,
    descriptors: &[Descriptor],
    write_only: bool,
    from: u64,
) -> Option<VolatileSlice>
    ensures some { IfSome result (IsWindowFrom regions.now write_only descriptors.now from) }
    ensures none { result ≡ None
        → all_reach (places_in regions.now) (access_of write_only) (of_direction write_only descriptors.now)
        ≡ true
        → total_len (of_direction write_only descriptors.now) ≤ from }
    ensures unmapped { result ≡ None → HasNoWindowFrom regions.now write_only descriptors.now from }
{
    let mut skip = from;
    for descriptor in descriptors {
        if descriptor.is_write_only() == write_only {
            let len = u64::from(descriptor.len);
            if skip < len {
                if skip > u64::MAX - descriptor.addr {
                    return None;
                }
                return regions.window_at(
                    descriptor.addr + skip,
                    (len - skip) as usize,
                    access_of(write_only),
                );
            }
            skip -= len;
        }
    }
    None
}

/// The guest addresses of the bytes of one direction of a chain from byte `from` on, up to the end of
/// their descriptor: the first address, modulo 2^64, and their number. None past their end.
pub fn range_from(descriptors: &[Descriptor], write_only: bool, from: u64) -> Option<(u64, u64)>
    ensures some { IfSome result (λ r. IsRangeFrom write_only descriptors.now from r.0 r.1) }
    ensures none { result ≡ None → total_len (of_direction write_only descriptors.now) ≤ from }
{
    let mut skip = from;
    for descriptor in descriptors {
        if descriptor.is_write_only() == write_only {
            let len = u64::from(descriptor.len);
            if skip < len {
                return Some((descriptor.addr.wrapping_add(skip), len - skip));
            }
            skip -= len;
        }
    }
    None
}
