//! A pop with loads that the caller made ahead.

ghost use Rattle.std.specs.Prelude.{◌≡◌, ◌≤◌, true, false, length, take};
ghost use Rattle.smallvec.specs.SmallVec.{HasRoomFor};
ghost use Rattle.fs_regions.specs.Places.{places_in};
ghost use Rattle.fs_regions.specs.Walks.{IsThere, asked_entries, queue_of};
ghost use Rattle.fs_regions.specs.Ahead.{ProceedsAhead, BeginsAhead, IsLoadOf, IsOtherLoad, LeavesLoad};
ghost use Rattle.fs_regions.specs.Ahead.{loads_ahead};

use crate::course::Course;
use crate::map::GuestMap;
use crate::step::CourseStep;
use crate::walk::QueueWalk;
use fs_queue::Descriptors;
use vm_memory_core::Permissions;

/// A load that the caller made ahead of a pop.
#[repr(C)]
#[derive(Clone, Copy, Debug)]
pub struct LoadAhead {
    /// Where it was made: the number of the region plus the offset in the region, modulo 2^64. That is the
    /// host address, if each region's number is its host address. Other numbers must lie at least a region's
    /// size apart; else one `at` can mean places in two regions, and a pop doesn't know them apart.
    pub at: usize,
    /// How many bytes it has.
    pub len: usize,
}

impl LoadAhead {
    // Whether it is of all bytes that a walk asks for.
    #[inline(always)]
    #[tactic(auto, using(crate::proofs::GoingStraight::load_there))]
    fn is_of(&self, regions: &GuestMap, walk: &QueueWalk) -> bool
        ensures is { result ≡ true → IsLoadOf regions.now walk.now self.now }
        ensures other { result ≡ false → IsOtherLoad regions.now walk.now self.now }
        ensures there { result ≡ true → IsThere (places_in regions.now) walk.now }
    {
        let len = walk.len();
        if len == 0 || self.len != len {
            return false;
        }
        match regions.place_at(walk.address(), len, Permissions::Read) {
            Some(at) => at == self.at,
            None => false,
        }
    }

    /// Whether a walk takes it now: it is what the walk asks for, all its bytes are there, and the list has
    /// room for the descriptors.
    #[inline(always)]
    pub(crate) fn is_due(
        &self,
        regions: &GuestMap,
        walk: &QueueWalk,
        bytes: &[u8],
        descriptors: &Descriptors,
    ) -> bool
        ensures is { result ≡ true → IsLoadOf regions.now walk.now self.now
            × (self.now.len ≤ length bytes.now)
            × HasRoomFor descriptors.now (asked_entries walk.now) }
        ensures there { result ≡ true → IsThere (places_in regions.now) walk.now }
        ensures left { result ≡ false → LeavesLoad regions.now walk.now
            (record { load = self.now; bytes = take self.now.len bytes.now }) descriptors.now }
    {
        self.len <= bytes.len()
            && descriptors.capacity() - descriptors.len() >= walk.entries()
            && self.is_of(regions, walk)
    }
}

impl Course {
    // Goes on with loads that were made ahead.
    #[inline(never)]
    #[tactic(auto, using(crate::proofs::Going::proceeds_nowhere))]
    fn go_ahead(
        &self,
        regions: &GuestMap,
        step: CourseStep,
        ahead: &[LoadAhead],
        bytes: &[u8],
        descriptors: &mut Descriptors,
    ) -> CourseStep
        ensures { ProceedsAhead regions.now self.now.limit (queue_of self.now)
            (loads_ahead ahead.now bytes.now)
            descriptors.old step descriptors.new result }
    {
        let mut step = step;
        let mut rest = bytes;
        for one in ahead {
            match step {
                CourseStep::Load(walk) => {
                    if !one.is_due(regions, &walk, rest, descriptors) {
                        return CourseStep::Load(walk);
                    }
                    let (mine, behind) = rest.split_at(one.len);
                    step = self.give(regions, walk, mine, descriptors);
                    rest = behind;
                }
                other => return other,
            }
        }
        step
    }

    /// Begins a pop, and goes on with loads that were made ahead, step by step. Their bytes lie one behind
    /// another. A load is taken only if it is just the one that the pop asks for.
    #[inline(never)]
    #[tactic(auto, using(crate::proofs::Going::begins_so))]
    pub fn begin_stepwise(
        &self,
        regions: &GuestMap,
        ahead: &[LoadAhead],
        bytes: &[u8],
        descriptors: &mut Descriptors,
    ) -> CourseStep
        ensures { BeginsAhead regions.now self.now.limit (queue_of self.now) (loads_ahead ahead.now bytes.now)
            descriptors.new result }
    {
        let begun = self.begin(regions, descriptors);
        self.go_ahead(regions, begun, ahead, bytes, descriptors)
    }
}
