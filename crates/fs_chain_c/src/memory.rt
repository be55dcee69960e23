//! The memory of pops: regions that C passes, in any order.

ghost use Rattle.std.specs.Prelude.{◌≡◌, ◌⊎◌, ◌<◌, ◌≤◌, true, false, Err, None, All, IsPermutation, IfOk};
ghost use Rattle.std.specs.Prelude.{IfErr, IfSome, IfNone, OnOk, OnSome, map, length};
ghost use Rattle.fs_chain.specs.declared.error.ChainError.TheVariants.{BadArgument, OutOfMemory};
ghost use Rattle.memory_requests.specs.Refused.{RoomWasRefused};
ghost use Rattle.std.specs.List.Sorted.{IsNonDecreasingBy};
ghost use Rattle.vm_memory.specs.Collecting.{fault_of};
ghost use Rattle.fs_chain_c.specs.Memory.{HasNoRegion, HaveFault, IsMemory, IsNoMemory, IsNoSortedMemory};
ghost use Rattle.fs_chain_c.specs.Memory.{IsRegion, StandApart, region_of};
ghost use Rattle.fs_chain_c.specs.Statuses.{region_status};
ghost use Rattle.fs_chain_c.specs.declared.memory.FsRegion.{FsRegion};

use crate::status::{
    BAD_REGION_END, BAD_REGION_GUEST, BAD_REGION_HOST, BAD_REGION_LEN, EMPTY_REGION,
    REGIONS_OVERLAP, StatusRefusal, TOO_MANY_REGIONS,
};
use arrayvec::ArrayVec;
use fs_chain::ChainError;
use fs_regions::{GuestRegions, MemoryRegion, RegionsError};
use memory_requests::list_with_room;
use std::alloc::Global;
use vm_bitmaps::PAGE_SIZE;

/// How many regions there are at most.
const MOST_REGIONS: usize = 512;

/// A region of the guest's memory.
#[repr(C)]
#[derive(Clone, Copy, Default)]
pub struct FsRegion {
    /// The guest address of its first byte.
    pub guest: u64,
    /// How many bytes it has.
    pub len: u64,
    /// The host address of its first byte.
    pub host: usize,
}

// The region of these numbers; None if they aren't a region's.
fn region_of(region: &FsRegion) -> Option<MemoryRegion>
    ensures region { IfSome result (λ r. r ≡ region_of region.now) }
    ensures is { OnSome result (IsRegion region.now) }
    ensures none { IfNone result (IsRegion region.now → ⊥) }
{
    let Some(made) = MemoryRegion::new(region.guest, region.len, region.host) else {
        return None;
    };
    if region.host % PAGE_SIZE != 0 || region.host as u64 > u64::MAX - (region.len - 1) {
        return None;
    }
    Some(made)
}

// The status of numbers that aren't a region's.
fn region_status(region: &FsRegion) -> u32
    ensures { result ≡ region_status region.now }
{
    if region.len == 0 {
        EMPTY_REGION
    } else if region.host % PAGE_SIZE != 0 {
        BAD_REGION_HOST
    } else if region.guest % PAGE_SIZE as u64 != 0 {
        BAD_REGION_GUEST
    } else if region.len % PAGE_SIZE as u64 != 0 {
        BAD_REGION_LEN
    } else {
        BAD_REGION_END
    }
}

// The status of the first of these that isn't a region; None if each is one.
fn region_refusal(regions: &[FsRegion]) -> Option<u32>
    ensures are { result ≡ None → All IsRegion regions.now }
    ensures others { IfSome result (HasNoRegion regions.now) }
{
    for region in regions {
        if region_of(region).is_none() {
            return Some(region_status(region));
        }
    }
    None
}

// The regions of these numbers, in the same order.
fn regions_of(alloc: Global, regions: &[FsRegion]) -> Result<Vec<MemoryRegion>, ChainError>
    ensures ok { IfOk result (λ made. made.items ≡ map region_of regions.now) }
    ensures are { OnOk result (All IsRegion regions.now) }
    ensures bad { result ≡ Err BadArgument → All IsRegion regions.now → ⊥ }
    ensures err { IfErr result (λ e. (e ≡ BadArgument)
        ⊎ ((e ≡ OutOfMemory) × RoomWasRefused (length regions.now))) }
{
    let Ok(mut made) = list_with_room(alloc, regions.len()) else {
        return Err(ChainError::OutOfMemory);
    };
    for region in regions {
        let Some(region) = region_of(region) else {
            return Err(ChainError::BadArgument);
        };
        made.push(region).unwrap();
    }
    Ok(made)
}

// Whether these regions ascend and have no address in common.
fn stand_apart(regions: &[FsRegion]) -> bool
    requires some { 0 < length regions.now }
    requires are { All IsRegion regions.now }
    ensures apart { result ≡ true → fault_of (map region_of regions.now) ≡ None }
    ensures fault { result ≡ false → HaveFault regions.now }
{
    for at in 1..regions.len() {
        let before = &regions[at - 1];
        if regions[at].guest <= before.guest + (before.len - 1) {
            return false;
        }
    }
    true
}

// The memory of regions that ascend, if no two have an address in common. That is checked before any
// allocation.
fn memory_of_sorted(alloc: Global, regions: &[FsRegion]) -> Result<GuestRegions, StatusRefusal>
    requires are { All IsRegion regions.now }
    ensures ok { IfOk result (λ memory. memory ≡ map region_of regions.now) }
    ensures apart { IfOk result (λ memory. StandApart memory) }
    ensures err { IfErr result (IsNoSortedMemory regions.now) }
{
    if regions.is_empty() {
        return Ok(GuestRegions::none(alloc));
    }
    if !stand_apart(regions) {
        return Err(StatusRefusal::Invalid(REGIONS_OVERLAP));
    }
    let made = match regions_of(alloc, regions) {
        Ok(made) => made,
        Err(error) => return Err(StatusRefusal::Of(error)),
    };
    match GuestRegions::of_regions(alloc, made) {
        Ok(memory) => Ok(memory),
        Err(RegionsError::OutOfMemory) => Err(StatusRefusal::Of(ChainError::OutOfMemory)),
        Err(_) => Err(StatusRefusal::Invalid(REGIONS_OVERLAP)),
    }
}

// The same regions by ascending address; None if they are too many.
fn sorted(regions: &[FsRegion]) -> Option<ArrayVec<FsRegion, MOST_REGIONS>>
    ensures permutation { IfSome result (λ found. IsPermutation regions.now found.items) }
    ensures ascending { IfSome result (λ found. IsNonDecreasingBy (λ (r : FsRegion). r.guest) found.items) }
    ensures few { OnSome result (length regions.now ≤ 512) }
    ensures many { IfNone result (512 < length regions.now) }
{
    let mut found = ArrayVec::<FsRegion, MOST_REGIONS>::new();
    if found.try_extend_from_slice(regions).is_err() {
        return None;
    }
    found
        .as_mut_slice()
        .sort_unstable_by_key(|region| region.guest);
    Some(found)
}

/// The memory of some regions, or why there is none.
pub fn memory_of(alloc: Global, regions: &[FsRegion]) -> Result<GuestRegions, StatusRefusal>
    ensures ok { IfOk result (IsMemory regions.now) }
    ensures err { IfErr result (IsNoMemory regions.now) }
{
    if let Some(status) = region_refusal(regions) {
        return Err(StatusRefusal::Invalid(status));
    }
    match sorted(regions) {
        Some(sorted) => memory_of_sorted(alloc, sorted.as_slice()),
        None => Err(StatusRefusal::Invalid(TOO_MANY_REGIONS)),
    }
}
