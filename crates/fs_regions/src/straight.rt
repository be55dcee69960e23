//! A pop straight through loads that were made ahead: of a chain without a fault, which needs no other load.

ghost use Rattle.std.specs.Prelude.{◌≡◌, [], None, IfSome};
ghost use Rattle.fs_queue.specs.RingingView.{BeginsChain};
ghost use Rattle.fs_queue.specs.SteppingView.{IfWants};
ghost use Rattle.fs_regions.specs.Ahead.{BeginsAhead, loads_ahead};
ghost use Rattle.fs_regions.specs.Straight.{EndsChain, ProceedsAt, ProceedsByHead, ProceedsFrom, IsCounted};
ghost use Rattle.fs_regions.specs.Straight.{ReadsAhead};
ghost use Rattle.fs_regions.specs.Walks.{queue_of};
ghost use Rattle.fs_regions.specs.declared.step.CourseStep.TheVariants as step;
ghost use Rattle.fs_regions.specs.declared.walk.QueueWalk.TheVariants as at;

use crate::ahead::LoadAhead;
use crate::course::{Course, pair};
use crate::entries::EntriesWalk;
use crate::fits::{has_buffers, may_push};
use crate::map::GuestMap;
use crate::stretch::most_entries;
use crate::walk::QueueWalk;
use crate::whole_table::read_table;
use fs_queue::{
    ChainWalk, Descriptor, Descriptors, IndexWalk, Progress, RingEntryWalk, Walk, WalkEnd,
};

impl Course {
    // Reads a stretch of a table from a load that was made ahead, if the load is of all entries that the walk
    // may ask for.
    #[inline(always)]
    fn read_ahead(
        &self,
        regions: &GuestMap,
        head: u16,
        walk: ChainWalk,
        one: &LoadAhead,
        bytes: &[u8],
        descriptors: &mut Descriptors,
    ) -> Option<Progress>
        requires { IsCounted self.now.layout.size descriptors.old.items walk }
        ensures reads { IfSome result (ReadsAhead regions.now (queue_of self.now) head walk
            descriptors.old.items one.now bytes.now descriptors.new.items) }
        ensures counts { IfSome result
            (λ after. IfWants after (IsCounted self.now.layout.size descriptors.new.items)) }
    {
        let entries = most_entries(&walk, self.may_join(descriptors));
        let asked = QueueWalk::Entries(EntriesWalk {
            head,
            walk,
            entries,
        });
        if !one.is_due(regions, &asked, bytes, descriptors) {
            return None;
        }
        let (mine, _) = bytes.split_at(one.len);
        match asked {
            QueueWalk::Entries(stretch) => Some(read_table(
                stretch.walk,
                entries,
                mine,
                descriptors,
            )),
            _ => None,
        }
    }

    // The head of a chain whose walk has ended, if the chain has no fault.
    #[inline(always)]
    fn straight_end(
        &self,
        regions: &GuestMap,
        head: u16,
        walked: WalkEnd,
        descriptors: &[Descriptor],
    ) -> Option<u16>
        ensures { IfSome result (EndsChain regions.now self.now.limit walked descriptors.now head) }
    {
        match walked {
            WalkEnd::Chain => {
                if has_buffers(regions, self.limit, descriptors) {
                    Some(head)
                } else {
                    None
                }
            }
            _ => None,
        }
    }

    // Straight through the further stretches of a chain's tables. It recurses for each but the second: at
    // most twice.
    #[inline(never)]
    #[tactic(auto, using(crate::proofs::GoingStraight::proceeds_further))]
    fn straight_far(
        &self,
        regions: &GuestMap,
        head: u16,
        walk: ChainWalk,
        ahead: &[LoadAhead],
        bytes: &[u8],
        descriptors: &mut Descriptors,
    ) -> Option<u16>
        requires { IsCounted self.now.layout.size descriptors.old.items walk }
        ensures { IfSome result (ProceedsFrom regions.now self.now.limit (queue_of self.now) head walk
            descriptors.old (loads_ahead ahead.now bytes.now) descriptors.new) }
    {
        match ahead.split_first() {
            Some((one, more)) => {
                match self.read_ahead(regions, head, walk, one, bytes, descriptors) {
                    Some(Progress::Ends(walked)) => {
                        self.straight_end(regions, head, walked, descriptors)
                    }
                    Some(Progress::Wants(next)) => {
                        let (_, behind) = bytes.split_at(one.len);
                        self.straight_far(regions, head, next, more, behind, descriptors)
                    }
                    None => None,
                }
            }
            None => None,
        }
    }

    // The same of the first stretch, and of those behind it. A chain mostly ends in its first.
    #[inline(always)]
    #[tactic(auto, using(crate::proofs::GoingStraight::proceeds_further))]
    fn straight_at_table(
        &self,
        regions: &GuestMap,
        head: u16,
        walk: ChainWalk,
        ahead: &[LoadAhead],
        bytes: &[u8],
        descriptors: &mut Descriptors,
    ) -> Option<u16>
        requires { IsCounted self.now.layout.size descriptors.old.items walk }
        ensures { IfSome result (ProceedsFrom regions.now self.now.limit (queue_of self.now) head walk
            descriptors.old (loads_ahead ahead.now bytes.now) descriptors.new) }
    {
        match ahead.split_first() {
            Some((one, more)) => {
                match self.read_ahead(regions, head, walk, one, bytes, descriptors) {
                    Some(Progress::Ends(walked)) => {
                        self.straight_end(regions, head, walked, descriptors)
                    }
                    Some(Progress::Wants(next)) => {
                        let (_, behind) = bytes.split_at(one.len);
                        self.straight_far(regions, head, next, more, behind, descriptors)
                    }
                    None => None,
                }
            }
            None => None,
        }
    }

    // Straight on from a head that the ring's entry has, if the push of its chain can be made.
    #[inline(always)]
    fn straight_at_head(
        &self,
        regions: &GuestMap,
        walk: Walk,
        ahead: &[LoadAhead],
        bytes: &[u8],
        descriptors: &mut Descriptors,
    ) -> Option<u16>
        requires begins { BeginsChain self.now.layout walk }
        requires none { descriptors.old.items ≡ [] }
        ensures { IfSome result (ProceedsByHead regions.now self.now.limit (queue_of self.now) walk
            descriptors.old (loads_ahead ahead.now bytes.now) descriptors.new) }
    {
        match walk {
            Walk::Chain(head, Progress::Wants(next)) => {
                if may_push(regions, self.layout, self.position) {
                    self.straight_at_table(regions, head, next, ahead, bytes, descriptors)
                } else {
                    None
                }
            }
            _ => None,
        }
    }

    // Straight on from the ring's entry.
    #[inline(always)]
    fn straight_at_entry(
        &self,
        regions: &GuestMap,
        walk: RingEntryWalk,
        ahead: &[LoadAhead],
        bytes: &[u8],
        descriptors: &mut Descriptors,
    ) -> Option<u16>
        requires here { walk.layout ≡ self.now.layout }
        requires none { descriptors.old.items ≡ [] }
        ensures { IfSome result (ProceedsAt regions.now self.now.limit (queue_of self.now) (at.RingEntry walk)
            descriptors.old (loads_ahead ahead.now bytes.now) descriptors.new) }
    {
        match ahead.split_first() {
            Some((one, more)) => {
                let asked = QueueWalk::RingEntry(walk);
                if !one.is_due(regions, &asked, bytes, descriptors) {
                    return None;
                }
                let (mine, behind) = bytes.split_at(one.len);
                match asked {
                    QueueWalk::RingEntry(walk) => {
                        let given = walk.give(Some(pair(mine)));
                        self.straight_at_head(regions, given, more, behind, descriptors)
                    }
                    _ => None,
                }
            }
            None => None,
        }
    }

    // Straight on from the available index.
    #[inline(always)]
    fn straight_at_index(
        &self,
        regions: &GuestMap,
        walk: IndexWalk,
        ahead: &[LoadAhead],
        bytes: &[u8],
        descriptors: &mut Descriptors,
    ) -> Option<u16>
        requires here { walk.layout ≡ self.now.layout }
        requires none { descriptors.old.items ≡ [] }
        ensures { IfSome result (ProceedsAt regions.now self.now.limit (queue_of self.now) (at.Index walk)
            descriptors.old (loads_ahead ahead.now bytes.now) descriptors.new) }
    {
        match ahead.split_first() {
            Some((one, more)) => {
                let asked = QueueWalk::Index(walk);
                if !one.is_due(regions, &asked, bytes, descriptors) {
                    return None;
                }
                let (mine, behind) = bytes.split_at(one.len);
                match asked {
                    QueueWalk::Index(walk) => match walk.give(Some(pair(mine))) {
                        Walk::RingEntry(next) => {
                            self.straight_at_entry(regions, next, more, behind, descriptors)
                        }
                        _ => None,
                    },
                    _ => None,
                }
            }
            None => None,
        }
    }

    /// Pops a chain straight through loads that were made ahead: its head. None if the pop asks for another
    /// load, or for fewer than three or more than five, or has another result than a chain without a fault;
    /// then the list has any descriptors.
    #[inline(always)]
    #[tactic(auto, using(crate::proofs::GoingStraight::proceeds_straight))]
    pub fn straight(
        &self,
        regions: &GuestMap,
        ahead: &[LoadAhead],
        bytes: &[u8],
        descriptors: &mut Descriptors,
    ) -> Option<u16>
        ensures { IfSome result (λ head. BeginsAhead regions.now self.now.limit (queue_of self.now)
            (loads_ahead ahead.now bytes.now) descriptors.new (step.Chain head None)) }
    {
        if ahead.len() < 3 || ahead.len() > 5 {
            return None;
        }
        descriptors.clear();
        match Walk::begin(self.layout, self.position) {
            Walk::Index(walk) => self.straight_at_index(regions, walk, ahead, bytes, descriptors),
            _ => None,
        }
    }
}
