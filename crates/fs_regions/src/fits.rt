//! Tests of a chain without a fault: whether its buffers are mapped and short enough, and its push can be
//! made. Each takes few look-ups, and says no more than yes. And the lengths of a chain's buffers.

ghost use Rattle.std.specs.Prelude.{◌≡◌, ◌-◌, ◌^◌, [], ◌∷◌, IfSome, None, min, true};
ghost use Rattle.vm_iotlb.specs.declared.permissions.Permissions.TheVariants.{Read, Write};
ghost use Rattle.fs_queue.specs.Chain.{is_writable};
ghost use Rattle.fs_queue.specs.Taking.{access_of, all_reach, chain_fault, readable, return_fault, total_len};
ghost use Rattle.fs_queue.specs.Taking.{writable};
ghost use Rattle.fs_queue.specs.WalkingView.{at_position};
ghost use Rattle.fs_regions.specs.Pieces.{HasDescriptor, IsPiece};
ghost use Rattle.fs_regions.specs.Places.{places_in};

use crate::map::GuestMap;
use fs_queue::{Descriptor, QueueLayout, return_fault};
use vm_memory_core::Permissions;

// How many bytes of a descriptor the device reads, and how many it writes: one of them is 0.
#[inline(always)]
fn lens_of(descriptor: &Descriptor) -> (u64, u64)
    ensures reads { result.0 ≡ total_len (readable (descriptor.now ∷ [])) }
    ensures writes { result.1 ≡ total_len (writable (descriptor.now ∷ [])) }
{
    let len = u64::from(descriptor.len);
    if descriptor.is_write_only() {
        (0, len)
    } else {
        (len, 0)
    }
}

// The access that the device needs to a descriptor's bytes.
#[inline(always)]
fn access_to(descriptor: &Descriptor) -> Permissions
    ensures { result ≡ access_of (is_writable descriptor.now) }
{
    if descriptor.is_write_only() {
        Permissions::Write
    } else {
        Permissions::Read
    }
}

// Whether all bytes of a descriptor are mapped for the access that the device needs.
#[inline(always)]
#[tactic(auto, using(crate::proofs::Fitting::reads_by, crate::proofs::Fitting::writes_by))]
fn is_mapped(regions: &GuestMap, descriptor: &Descriptor) -> bool
    ensures reads { result ≡ true
        → all_reach (places_in regions.now) Read (readable (descriptor.now ∷ [])) ≡ true }
    ensures writes { result ≡ true
        → all_reach (places_in regions.now) Write (writable (descriptor.now ∷ [])) ≡ true }
{
    regions.reaches(
        descriptor.addr,
        descriptor.len as usize,
        access_to(descriptor),
    )
}

// Whether the buffers of a chain have no fault, without a table.
#[inline(always)]
fn has_buffers_untranslated(regions: &GuestMap, limit: u32, descriptors: &[Descriptor]) -> bool
    ensures { result ≡ true → chain_fault (places_in regions.now) limit descriptors.now ≡ None }
{
    let mut request = u64::from(limit);
    let mut reply = u64::from(limit);
    for descriptor in descriptors {
        let (reads, writes) = lens_of(descriptor);
        if reads > request || writes > reply || !is_mapped(regions, descriptor) {
            return false;
        }
        request -= reads;
        reply -= writes;
    }
    true
}

// Addresses that are mapped in one piece: the first one, the one behind the last, and the access.
#[derive(Clone, Copy)]
struct Piece {
    from: u64,
    end: u64,
    write_only: bool,
}

impl Piece {
    // Whether it has all bytes of a descriptor, for the access that the device needs.
    #[inline(always)]
    fn has(&self, descriptor: &Descriptor) -> bool
        ensures { result ≡ true → HasDescriptor self.now descriptor.now }
    {
        descriptor.is_write_only() == self.write_only
            && self.from <= descriptor.addr
            && descriptor.addr <= self.end
            && u64::from(descriptor.len) <= self.end - descriptor.addr
    }
}

// The piece in which all bytes of a descriptor are mapped.
#[inline(never)]
#[tactic(auto, using(crate::proofs::Fitting::piece_found))]
fn piece_of(regions: &GuestMap, descriptor: &Descriptor) -> Option<Piece>
    ensures piece { IfSome result (IsPiece (places_in regions.now)) }
    ensures has { IfSome result (λ p. HasDescriptor p descriptor.now) }
{
    let from = descriptor.addr;
    match regions.piece_len(from, access_to(descriptor)) {
        Some(len) => {
            let end = from + len as u64;
            if u64::from(descriptor.len) > end - from {
                return None;
            }
            Some(Piece {
                from,
                end,
                write_only: descriptor.is_write_only(),
            })
        }
        None => None,
    }
}

// Whether all bytes of a descriptor are mapped. If they are in another piece than that found last, this
// one takes its place.
#[inline(always)]
#[tactic(auto, using(crate::proofs::Fitting::piece_reads, crate::proofs::Fitting::piece_writes))]
fn is_mapped_near(regions: &GuestMap, piece: &mut Piece, descriptor: &Descriptor) -> bool
    requires { IsPiece (places_in regions.now) piece.old }
    ensures piece { IsPiece (places_in regions.now) piece.new }
    ensures reads { result ≡ true
        → all_reach (places_in regions.now) Read (readable (descriptor.now ∷ [])) ≡ true }
    ensures writes { result ≡ true
        → all_reach (places_in regions.now) Write (writable (descriptor.now ∷ [])) ≡ true }
{
    if piece.has(descriptor) {
        return true;
    }
    match piece_of(regions, descriptor) {
        Some(found) => {
            *piece = found;
            true
        }
        None => is_mapped(regions, descriptor),
    }
}

// Whether the buffers of a chain have no fault. Of descriptors in one piece only the first is looked up.
#[cold]
#[inline(never)]
fn has_buffers_translated(regions: &GuestMap, limit: u32, descriptors: &[Descriptor]) -> bool
    ensures { result ≡ true → chain_fault (places_in regions.now) limit descriptors.now ≡ None }
{
    let mut request = u64::from(limit);
    let mut reply = u64::from(limit);
    let mut piece = Piece {
        from: 0,
        end: 0,
        write_only: false,
    };
    for descriptor in descriptors {
        let (reads, writes) = lens_of(descriptor);
        if reads > request || writes > reply {
            return false;
        }
        if !is_mapped_near(regions, &mut piece, descriptor) {
            return false;
        }
        request -= reads;
        reply -= writes;
    }
    true
}

/// Whether the buffers of a chain with these descriptors have no fault, in one pass over them.
#[inline(always)]
pub(crate) fn has_buffers(regions: &GuestMap, limit: u32, descriptors: &[Descriptor]) -> bool
    ensures { result ≡ true → chain_fault (places_in regions.now) limit descriptors.now ≡ None }
{
    if regions.translates() {
        has_buffers_translated(regions, limit, descriptors)
    } else {
        has_buffers_untranslated(regions, limit, descriptors)
    }
}

/// How many bytes of a chain's descriptors the device reads, and how many it writes, each at most 2^64 - 1:
/// in one pass over them.
#[inline(always)]
pub fn count_both(descriptors: &[Descriptor]) -> (u64, u64)
    ensures reads { result.0 ≡ min (total_len (readable descriptors.now)) (2 ^ 64 - 1) }
    ensures writes { result.1 ≡ min (total_len (writable descriptors.now)) (2 ^ 64 - 1) }
{
    let mut request = 0u64;
    let mut reply = 0u64;
    for descriptor in descriptors {
        let (reads, writes) = lens_of(descriptor);
        request = request.saturating_add(reads);
        reply = reply.saturating_add(writes);
    }
    (request, reply)
}

/// Whether the chain at a position of a queue can be pushed. If the whole used ring is mapped, one look-up
/// finds element and index.
#[inline(always)]
#[tactic(auto, using(crate::proofs::Fitting::push_made))]
pub(crate) fn may_push(regions: &GuestMap, layout: QueueLayout, position: u16) -> bool
    ensures { result ≡ true
        → return_fault (places_in regions.now) (at_position layout position) ≡ None }
{
    let ring = 4 + 8 * usize::from(layout.size());
    if regions.reaches(layout.used(), ring, Permissions::Write) {
        return regions.reaches(layout.avail(), 2, Permissions::Read);
    }
    return_fault(regions, layout, position).is_none()
}
