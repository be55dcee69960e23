//! A pop over the regions of a guest's memory: its steps from load to load.

ghost use Rattle.std.specs.Prelude.{◌≡◌, ℕ, ◌*◌, ◌-◌, [], List, Option, Some, length, true, false};
ghost use Rattle.smallvec.specs.SmallVec.{HasRoomFor};
ghost use Rattle.vm_iotlb.specs.declared.permissions.Permissions.TheVariants.{Read};
ghost use Rattle.vm_memory.specs.Memory.{reach};
ghost use Rattle.fs_queue.specs.Chain.{IsChain, entry_address, first_visit};
ghost use Rattle.fs_queue.specs.Loads.{Reads, ahead_at, asks_entry, chain_exactly};
ghost use Rattle.fs_queue.specs.Queue.{avail_index_at, ring_entry_at};
ghost use Rattle.fs_queue.specs.RingingView.{by_index};
ghost use Rattle.fs_queue.specs.SteppingView.{ahead_of, visit_of, IfWants};
ghost use Rattle.fs_queue.specs.declared.chain_walk.WalkEnd.{WalkEnd};
ghost use Rattle.fs_queue.specs.declared.chain_walk.Progress.{Progress};
ghost use Rattle.fs_queue.specs.declared.chain_walk.WalkEnd.{WalkEnd};
ghost use Rattle.fs_queue.specs.Taking.{chain_fault, return_fault};
ghost use Rattle.fs_queue.specs.WalkingView.{at_position, found_of};
ghost use Rattle.fs_regions.specs.Places.{places_in};
ghost use Rattle.fs_regions.specs.Stretches.{AsksFor};
ghost use Rattle.fs_regions.specs.Walks.{Loaded, nothing, asked_len, asked_entries, queue_of, IsCourseOf};
ghost use Rattle.fs_regions.specs.Walks.{ReportsBy, StandsAfterIndex, HeadBeginsWalk, IsWalkAt, ComesBy};
ghost use Rattle.fs_regions.specs.Walks.{IsCourseStep, HeadMayBePushed, Brings, FindsBy};

use crate::entries::{ENTRY_LEN, EntriesWalk};
use crate::map::GuestMap;
use crate::misses::{buffers_miss, return_miss};
use crate::step::CourseStep;
use crate::stretch::{read_stretch, stretch_len};
use crate::walk::QueueWalk;
use fs_queue::{
    ChainFault, ChainWalk, Descriptor, Descriptors, IndexWalk, Progress, Queue, QueueError,
    QueueLayout, RingEntryWalk, Walk, WalkEnd, chain_fault, return_fault,
};
use vm_memory_core::Permissions;

/// The queue, position and limit of a pop. A request or a reply buffer of more than `limit` bytes makes a
/// chain faulty.
#[derive(Clone, Copy, Debug)]
pub struct Course {
    /// The size of the queue, and the addresses of its parts.
    pub layout: QueueLayout,
    /// The available ring position: how many chains were popped before, modulo 2^16.
    pub position: u16,
    /// The most bytes of a request, and of a reply buffer.
    pub limit: u32,
}

// Two bytes.
pub(crate) fn pair(bytes: &[u8]) -> [u8; 2]
    requires { length bytes.now ≡ 2 }
    ensures { result ≡ bytes.now }
{
    let mut pair = [0u8; 2];
    // The length as a number, so that the compiler makes a load of it.
    pair.copy_from_slice(&bytes[..2]);
    pair
}

// Whether the entry that a walk needs is of an indirect table.
fn is_indirect(walk: &ChainWalk) -> bool
    ensures { result ≡ walk.now.table.indirect }
{
    let (table, _) = walk.entry();
    table.indirect
}

impl Course {
    /// The course of a pop at a queue's position.
    pub fn of_queue(queue: &Queue, limit: u32) -> Course
        ensures { IsCourseOf queue.now limit result }
    {
        Course {
            layout: queue.layout(),
            position: queue.position(),
            limit,
        }
    }

    /// Begins the pop: no load was made yet. The list of descriptors is emptied.
    #[inline(always)]
    pub fn begin(&self, regions: &GuestMap, descriptors: &mut Descriptors) -> CourseStep
        ensures empty { descriptors.new.items ≡ [] }
        ensures comes { IsCourseStep (places_in regions.now) self.now.limit (queue_of self.now) nothing
            descriptors.new.items result }
    {
        descriptors.clear();
        match Walk::begin(self.layout, self.position) {
            Walk::Index(walk) => {
                if regions.reaches(walk.address(), 2, Permissions::Read) {
                    CourseStep::Load(QueueWalk::Index(walk))
                } else {
                    self.without_index(regions, walk, descriptors)
                }
            }
            other => self.step_of(regions, other, descriptors),
        }
    }

    /// Takes the bytes of the load that a walk asked for, and returns the next step. The list has the
    /// descriptors of the chain so far, and space for one more for each entry that the walk asked for.
    /// The walk uses all of those entries before it asks for another load.
    #[inline(always)]
    pub fn give(
        &self,
        regions: &GuestMap,
        walk: QueueWalk,
        bytes: &[u8],
        descriptors: &mut Descriptors,
    ) -> CourseStep
        requires bytes { length bytes.now ≡ asked_len walk }
        requires room { HasRoomFor descriptors.old (asked_entries walk) }
        ensures { (loaded : Loaded)
            → IsWalkAt (places_in regions.now) (queue_of self.now) loaded descriptors.old.items walk
            → ComesBy (places_in regions.now) self.now.limit (queue_of self.now) loaded walk bytes.now
            descriptors.new.items result }
    {
        match walk {
            QueueWalk::Index(walk) => {
                self.at_index(regions, walk.give(Some(pair(bytes))), descriptors)
            }
            QueueWalk::RingEntry(walk) => {
                self.step_of(regions, walk.give(Some(pair(bytes))), descriptors)
            }
            QueueWalk::Entries(walk) => self.give_entries(regions, walk, bytes, descriptors),
        }
    }

    // The step after the bytes of a stretch of a table.
    #[inline(always)]
    fn give_entries(
        &self,
        regions: &GuestMap,
        stretch: EntriesWalk,
        bytes: &[u8],
        descriptors: &mut Descriptors,
    ) -> CourseStep
        requires bytes { length bytes.now ≡ 16 * stretch.entries }
        requires room { HasRoomFor descriptors.old stretch.entries }
        ensures { (loaded : Loaded)
            → IsWalkAt (places_in regions.now) (queue_of self.now) loaded descriptors.old.items
            (QueueWalk.Entries stretch)
            → ComesBy (places_in regions.now) self.now.limit (queue_of self.now) loaded
            (QueueWalk.Entries stretch) bytes.now descriptors.new.items result }
    {
        let (head, entries) = (stretch.head, stretch.entries);
        let progress = read_stretch(stretch.walk, entries, bytes, descriptors);
        self.at_progress(regions, head, progress, descriptors)
    }

    // The step if the available index isn't mapped: a miss, or a refusal.
    #[cold]
    #[inline(never)]
    fn without_index(
        &self,
        regions: &GuestMap,
        walk: IndexWalk,
        descriptors: &[Descriptor],
    ) -> CourseStep
        requires at { at_position walk.layout walk.position ≡ queue_of self.now }
        requires away { reach (places_in regions.now) Read (avail_index_at (queue_of self.now)) 2 ≡ false }
        ensures { descriptors.now ≡ []
            → IsCourseStep (places_in regions.now) self.now.limit (queue_of self.now) nothing
            descriptors.now result }
    {
        match regions.miss(walk.address(), 2, Permissions::Read) {
            Some((range, access)) => CourseStep::Missing(range, access),
            None => self.step_of(regions, walk.give(None), descriptors),
        }
    }

    // The step if the available ring's entry isn't mapped: a miss, or a refusal.
    #[cold]
    #[inline(never)]
    fn without_ring_entry(
        &self,
        regions: &GuestMap,
        walk: RingEntryWalk,
        descriptors: &[Descriptor],
    ) -> CourseStep
        requires { reach (places_in regions.now) Read
            (ring_entry_at (at_position walk.layout walk.position)) 2 ≡ false }
        ensures { (index : List ℕ)
            → at_position walk.layout walk.position ≡ queue_of self.now
            → length index ≡ 2
            → asks_entry (by_index (queue_of self.now) (Some index)) ≡ true
            → descriptors.now ≡ []
            → IsCourseStep (places_in regions.now) self.now.limit (queue_of self.now)
            (record nothing { index = Some index }) descriptors.now result }
    {
        match regions.miss(walk.address(), 2, Permissions::Read) {
            Some((range, access)) => CourseStep::Missing(range, access),
            None => self.step_of(regions, walk.give(None), descriptors),
        }
    }

    // The step after the available index was loaded.
    #[inline(always)]
    fn at_index(&self, regions: &GuestMap, walk: Walk, descriptors: &[Descriptor]) -> CourseStep
        ensures { (index : Option (List ℕ))
            → StandsAfterIndex (places_in regions.now) (queue_of self.now) index walk
            → descriptors.now ≡ []
            → IsCourseStep (places_in regions.now) self.now.limit (queue_of self.now)
            (record nothing { index = index }) descriptors.now result }
    {
        match walk {
            Walk::RingEntry(walk) => {
                if regions.reaches(walk.address(), 2, Permissions::Read) {
                    CourseStep::Load(QueueWalk::RingEntry(walk))
                } else {
                    self.without_ring_entry(regions, walk, descriptors)
                }
            }
            other => self.step_of(regions, other, descriptors),
        }
    }

    // The step after the ring's loads: a chain, none, or a refusal.
    #[inline(always)]
    fn step_of(&self, regions: &GuestMap, walk: Walk, descriptors: &[Descriptor]) -> CourseStep
        ensures { (loaded : Loaded)
            → ReportsBy (places_in regions.now) (queue_of self.now) loaded walk
            → descriptors.now ≡ []
            → IsCourseStep (places_in regions.now) self.now.limit (queue_of self.now) loaded
            descriptors.now result }
    {
        match walk {
            Walk::Refused(error) => CourseStep::Refused(error),
            Walk::Chain(head, progress) => self.at_head(regions, head, progress, descriptors),
            // The ring's loads are done: no other is made.
            Walk::Idle | Walk::Index(_) | Walk::RingEntry(_) => CourseStep::Idle,
        }
    }

    // The step after the ring's loads returned a head.
    #[inline(always)]
    fn at_head(
        &self,
        regions: &GuestMap,
        head: u16,
        progress: Progress,
        descriptors: &[Descriptor],
    ) -> CourseStep
        ensures { (loaded : Loaded)
            → HeadBeginsWalk (places_in regions.now) (queue_of self.now) loaded head progress
            → descriptors.now ≡ []
            → IsCourseStep (places_in regions.now) self.now.limit (queue_of self.now) loaded
            descriptors.now result }
    {
        match return_fault(regions, self.layout, self.position) {
            Some(error) => self.without_return(regions, error),
            None => self.at_progress(regions, head, progress, descriptors),
        }
    }

    // The step if the fields that the push of the chain needs aren't all mapped: a miss, or a refusal.
    #[cold]
    #[inline(never)]
    fn without_return(&self, regions: &GuestMap, error: QueueError) -> CourseStep
        requires { return_fault (places_in regions.now) (queue_of self.now) ≡ Some error }
        ensures { (loaded : Loaded) (head : ℕ) (progress : Progress)
            → HeadBeginsWalk (places_in regions.now) (queue_of self.now) loaded head progress
            → IsCourseStep (places_in regions.now) self.now.limit (queue_of self.now) loaded [] result }
    {
        match return_miss(regions, self.layout, self.position) {
            Some((range, access)) => CourseStep::Missing(range, access),
            None => CourseStep::Refused(error),
        }
    }

    // The step of a walk through a chain.
    #[inline(always)]
    fn at_progress(
        &self,
        regions: &GuestMap,
        head: u16,
        progress: Progress,
        descriptors: &[Descriptor],
    ) -> CourseStep
        ensures comes { (loaded : Loaded)
            → HeadMayBePushed (places_in regions.now) (queue_of self.now) loaded head
            → IfWants progress (λ w. w.size ≡ self.now.layout.size)
            → Brings self.now.layout.size loaded.entries (ahead_at self.now.layout.size
            (first_visit (queue_of self.now) head)) descriptors.now (ahead_of progress)
            → IsCourseStep (places_in regions.now) self.now.limit (queue_of self.now) loaded
            descriptors.now result }
        ensures asks { AsksFor progress result }
    {
        match progress {
            Progress::Wants(walk) => self.at_entry(regions, head, walk, descriptors),
            Progress::Ends(walked) => self.ended(regions, head, walked, descriptors),
        }
    }

    /// How many descriptors may still join a chain that has some.
    pub(crate) fn may_join(&self, descriptors: &[Descriptor]) -> usize
        ensures { result ≡ self.now.layout.size - length descriptors.now }
    {
        usize::from(self.layout.size()).saturating_sub(descriptors.len())
    }

    // A walk that needs an entry of a table asks for a stretch from it on. It ends if the entry isn't
    // mapped.
    #[inline(always)]
    fn at_entry(
        &self,
        regions: &GuestMap,
        head: u16,
        walk: ChainWalk,
        descriptors: &[Descriptor],
    ) -> CourseStep
        ensures comes { (loaded : Loaded)
            → HeadMayBePushed (places_in regions.now) (queue_of self.now) loaded head
            → walk.size ≡ self.now.layout.size
            → Brings self.now.layout.size loaded.entries (ahead_at self.now.layout.size
            (first_visit (queue_of self.now) head)) descriptors.now (Reads (visit_of walk))
            → IsCourseStep (places_in regions.now) self.now.limit (queue_of self.now) loaded
            descriptors.now result }
        ensures asks { AsksFor (Progress.Wants walk) result }
    {
        if regions.reaches(walk.address(), ENTRY_LEN, Permissions::Read) {
            let entries = stretch_len(regions, &walk, self.may_join(descriptors));
            return CourseStep::Load(QueueWalk::Entries(EntriesWalk {
                head,
                walk,
                entries,
            }));
        }
        self.without_entry(regions, head, &walk, descriptors)
    }

    // The step of a walk that needs an entry of a table which isn't mapped: a miss, a refusal, or a fault.
    #[cold]
    #[inline(never)]
    fn without_entry(
        &self,
        regions: &GuestMap,
        head: u16,
        walk: &ChainWalk,
        descriptors: &[Descriptor],
    ) -> CourseStep
        requires { reach (places_in regions.now) Read (entry_address (visit_of walk.now)) 16 ≡ false }
        ensures comes { (loaded : Loaded)
            → HeadMayBePushed (places_in regions.now) (queue_of self.now) loaded head
            → Brings self.now.layout.size loaded.entries (ahead_at self.now.layout.size
            (first_visit (queue_of self.now) head)) descriptors.now (Reads (visit_of walk.now))
            → IsCourseStep (places_in regions.now) self.now.limit (queue_of self.now) loaded
            descriptors.now result }
        ensures asks { AsksFor (Progress.Wants walk.now) result }
    {
        match regions.miss(walk.address(), ENTRY_LEN, Permissions::Read) {
            Some((range, access)) => CourseStep::Missing(range, access),
            None => {
                if is_indirect(walk) {
                    CourseStep::Chain(head, Some(ChainFault::TableUnreachable))
                } else {
                    CourseStep::Refused(QueueError::DescriptorUnreachable)
                }
            }
        }
    }

    // The step of a chain whose request or reply buffer can't be had: a miss, or a fault.
    #[cold]
    #[inline(never)]
    fn without_buffers(
        &self,
        regions: &GuestMap,
        head: u16,
        fault: ChainFault,
        descriptors: &[Descriptor],
    ) -> CourseStep
        requires { chain_fault (places_in regions.now) self.now.limit descriptors.now ≡ Some fault }
        ensures comes { (loaded : Loaded)
            → HeadMayBePushed (places_in regions.now) (queue_of self.now) loaded head
            → FindsBy (places_in regions.now) (queue_of self.now) loaded head (IsChain descriptors.now)
            → IsCourseStep (places_in regions.now) self.now.limit (queue_of self.now) loaded
            descriptors.now result }
        ensures asks { (walked : WalkEnd) → AsksFor (Progress.Ends walked) result }
    {
        match fault {
            ChainFault::OverLimit => CourseStep::Chain(head, Some(ChainFault::OverLimit)),
            _ => match buffers_miss(regions, descriptors) {
                Some((range, access)) => CourseStep::Missing(range, access),
                None => CourseStep::Chain(head, Some(fault)),
            },
        }
    }

    // The step of a walk that has ended.
    #[inline(always)]
    fn ended(
        &self,
        regions: &GuestMap,
        head: u16,
        walked: WalkEnd,
        descriptors: &[Descriptor],
    ) -> CourseStep
        ensures comes { (loaded : Loaded)
            → HeadMayBePushed (places_in regions.now) (queue_of self.now) loaded head
            → chain_exactly loaded.entries (queue_of self.now) head ≡ Some (found_of walked descriptors.now)
            → IsCourseStep (places_in regions.now) self.now.limit (queue_of self.now) loaded
            descriptors.now result }
        ensures asks { AsksFor (Progress.Ends walked) result }
    {
        match walked {
            WalkEnd::Stopped => CourseStep::Refused(QueueError::DescriptorUnreachable),
            WalkEnd::Faulty(fault) => CourseStep::Chain(head, Some(fault)),
            WalkEnd::Chain => match chain_fault(regions, self.limit, descriptors) {
                None => CourseStep::Chain(head, None),
                Some(fault) => self.without_buffers(regions, head, fault, descriptors),
            },
        }
    }
}
