//! Whether the addresses of a chain and of its return are mapped.

ghost use Rattle.std.specs.Prelude.{◌≡◌, ◌-◌, ◌^◌, [], ◌∷◌, min};
ghost use Rattle.vm_memory.specs.Memory.{reach};
ghost use Rattle.fs_queue.specs.Taking.{all_reach, access_of, chain_fault, of_direction, return_fault};
ghost use Rattle.fs_queue.specs.Taking.{total_len};
ghost use Rattle.fs_queue.specs.WalkingView.{at_position};

use crate::access::reaches;
use crate::descriptor::Descriptor;
use crate::fault::{ChainFault, QueueError};
use crate::layout::QueueLayout;
use std::alloc::Global;
use vm_memory::GuestMemory;
use vm_memory_core::{HostBlocks, Permissions};

/// Which guest addresses are mapped: by a memory, or by its regions alone.
pub trait AddressMap {
    ghost use Rattle.vm_memory.specs.Memory.{Memory};

    // the memory with these mapped addresses
    ghost places: { Self → Memory };

    /// Whether each of the `len` addresses from `addr` on is mapped for an access. False if they end
    /// past 2^64 - 1.
    fn has_places(&self, addr: u64, len: usize, access: Permissions) -> bool
        ensures { result ≡ reach (places self.now) access addr len };
}

/// The addresses that a memory over a host maps.
#[derive(Drop)]
pub(crate) struct HostAddressMap<'a, M: GuestMemory, H: HostBlocks> {
    pub(crate) alloc: Global,
    pub(crate) host: &'a H,
    pub(crate) mem: &'a M,
}

impl<'a, M: GuestMemory, H: HostBlocks> AddressMap for HostAddressMap<'a, M, H> {
    ghost places = { λ p. M.memory p.mem.now (H.host p.host.now) };

    fn has_places(&self, addr: u64, len: usize, access: Permissions) -> bool {
        len as u64 <= u64::MAX - addr && reaches(self.alloc, self.host, self.mem, addr, len, access)
    }
}

/// Why the chain at a position of a queue can't be returned: `UsedUnreachable`, then
/// `AvailFlagsUnreachable`. None if it can (VIRTIO 1.2, 2.7.8 and 2.7.7).
pub fn return_fault<P: AddressMap>(
    places: &P,
    layout: QueueLayout,
    position: u16,
) -> Option<QueueError>
    ensures { result ≡ return_fault (P.places places.now) (at_position layout position) }
{
    let element = layout.used_element_at(position);
    let index = layout.used_index_at();
    if !places.has_places(element, 8, Permissions::Write)
        || !places.has_places(index, 2, Permissions::Write)
    {
        return Some(QueueError::UsedUnreachable);
    }
    if !places.has_places(layout.avail(), 2, Permissions::Read) {
        return Some(QueueError::AvailFlagsUnreachable);
    }
    None
}

/// The number of bytes of a chain's descriptors in one direction, at most 2^64 - 1. With `write_only` it
/// counts those that the device writes, else those that it reads. A chain with more than its limit in
/// one of them is `OverLimit`.
pub fn count_bytes(descriptors: &[Descriptor], write_only: bool) -> u64
    ensures { result ≡ min (total_len (of_direction write_only descriptors.now)) (2 ^ 64 - 1) }
{
    let mut sum = 0u64;
    for descriptor in descriptors {
        if descriptor.is_write_only() == write_only {
            sum = sum.saturating_add(u64::from(descriptor.len));
        }
    }
    sum
}

// The access that the device needs to the descriptors of a direction.
#[inline]
pub(crate) fn access_of(write_only: bool) -> Permissions
    ensures { result ≡ access_of write_only }
{
    if write_only {
        Permissions::Write
    } else {
        Permissions::Read
    }
}

// Whether a descriptor is of the other direction, or all of its bytes are mapped.
fn has_descriptor<P: AddressMap>(places: &P, descriptor: &Descriptor, write_only: bool) -> bool
    ensures { result ≡ all_reach (P.places places.now) (access_of write_only)
        (of_direction write_only (descriptor.now ∷ [])) }
{
    if descriptor.is_write_only() == write_only {
        places.has_places(
            descriptor.addr,
            descriptor.len as usize,
            access_of(write_only),
        )
    } else {
        true
    }
}

// Whether all bytes of one direction of a chain are mapped.
fn has_bytes<P: AddressMap>(places: &P, descriptors: &[Descriptor], write_only: bool) -> bool
    ensures { result ≡ all_reach (P.places places.now) (access_of write_only)
        (of_direction write_only descriptors.now) }
{
    for descriptor in descriptors {
        if !has_descriptor(places, descriptor, write_only) {
            return false;
        }
    }
    true
}

/// Why a chain has no request and room, None if it has (VIRTIO 1.2, 2.7.5): `OverLimit` if one of them
/// has more than `limit` bytes, then `RequestUnreachable`, then `RoomUnreachable`.
pub fn chain_fault<P: AddressMap>(
    places: &P,
    limit: u32,
    descriptors: &[Descriptor],
) -> Option<ChainFault>
    ensures { result ≡ chain_fault (P.places places.now) limit descriptors.now }
{
    let limit = u64::from(limit);
    if count_bytes(descriptors, false) > limit || count_bytes(descriptors, true) > limit {
        return Some(ChainFault::OverLimit);
    }
    if !has_bytes(places, descriptors, false) {
        return Some(ChainFault::RequestUnreachable);
    }
    if !has_bytes(places, descriptors, true) {
        return Some(ChainFault::RoomUnreachable);
    }
    None
}
