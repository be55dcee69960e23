//! A pop by loads that the caller made ahead.

ghost use Rattle.std.specs.Prelude.{◌≡◌, List, Some, None, IfOk, IfErr, OnOk, OnErr, true};
ghost use Rattle.fs_regions.specs.Ahead.{AheadBytes, loads_ahead};
ghost use Rattle.fs_regions.specs.Places.{places_in};
ghost use Rattle.fs_chain.specs.Ahead.{PopsAhead, ahead_error};
ghost use Rattle.fs_chain.specs.AheadSteps.{PopsAheadBy};
ghost use Rattle.fs_chain.specs.Events.{event_fault};
ghost use Rattle.fs_chain.specs.Queues.{may_take};
ghost use Rattle.fs_chain.specs.Walks.{IsAllBut, StaysForLoad, left_of, queue_after, state_after};
ghost use Rattle.fs_chain.specs.Walks.{outcome_of};
ghost use Rattle.fs_chain.specs.declared.state.ChainState.TheVariants as at;
ghost use Rattle.fs_chain.specs.declared.loads.LoadOutcome.TheVariants as proceeds;

use crate::chain_handle::ChainHandle;
use crate::error::ChainError;
use crate::loads::LoadOutcome;
use crate::popping::PopOutcome;
use crate::queue::QueueState;
use crate::state::{ChainState, PopId};
use fs_queue::QueueError;
use fs_regions::{Course, CourseStep, LoadAhead};

impl ChainHandle {
    // Keeps the result of a pop that didn't go straight, and returns it. It is a function of its own so that
    // the frequent way doesn't go through its memory.
    #[cold]
    #[inline(never)]
    fn settle_stepwise(
        &mut self,
        queue: &mut QueueState,
        course: Course,
        pop_id: PopId,
        step: CourseStep,
    ) -> PopOutcome
        ensures returned { result ≡ outcome_of self.new.descriptors.items step }
        ensures state { self.new.state ≡ state_after course pop_id self.new.descriptors.items step }
        ensures left { self.new.descriptors.items ≡ left_of step self.old.descriptors.items }
        ensures stays { StaysForLoad step self.old.descriptors self.new.descriptors }
        ensures same { IsAllBut self.old self.new }
        ensures apart { (self.new.part ≡ self.old.part) × (self.new.session ≡ self.old.session) }
        ensures queue { queue.new ≡ queue_after queue.old step }
    {
        self.settle(queue, course, pop_id, step)
    }

    // Begins a pop at the queue's position, and goes on with loads that were made ahead.
    #[inline(always)]
    fn begin_there_ahead(
        &mut self,
        queue: &mut QueueState,
        ahead: &[LoadAhead],
        bytes: &[u8],
    ) -> PopOutcome
        requires free { self.old.state ≡ at.Free }
        requires proceeds { queue.old.stopped ≡ None }
        requires events { event_fault (places_in self.old.regions) queue.old ≡ None }
        requires room { may_take queue.old ≡ true }
        ensures pops { PopsAhead (loads_ahead ahead.now bytes.now) self.old self.new queue.old queue.new
            (proceeds.On result) }
    {
        let course = Course {
            layout: queue.layout,
            position: queue.next_avail,
            limit: self.limit,
        };
        let pop_id = queue.pop_id(&self.regions);
        match course.straight(&self.regions, ahead, bytes, &mut self.descriptors) {
            Some(head) => {
                let step = CourseStep::Chain(head, None);
                let walked = self.settle(queue, course, pop_id, step);
                self.clear_part();
                walked
            }
            None => {
                let step = course.begin_stepwise(
                    &self.regions,
                    ahead,
                    bytes,
                    &mut self.descriptors,
                );
                let walked = self.settle_stepwise(queue, course, pop_id, step);
                self.clear_part();
                walked
            }
        }
    }

    // The result of a pop whose used_event or avail_event isn't mapped.
    #[cold]
    #[inline(never)]
    fn begin_lacking(&mut self, queue: &mut QueueState, error: QueueError) -> PopOutcome
        requires free { self.old.state ≡ at.Free }
        requires proceeds { queue.old.stopped ≡ None }
        requires events { event_fault (places_in self.old.regions) queue.old ≡ Some error }
        requires room { may_take queue.old ≡ true }
        ensures pops { (ahead : List AheadBytes)
            → PopsAhead ahead self.old self.new queue.old queue.new (proceeds.On result) }
    {
        let walked = self.begin_without_events(queue, error);
        self.clear_part();
        walked
    }

    // Begins a pop of a queue that may have one more chain in flight.
    #[inline(always)]
    fn begin_course_ahead(
        &mut self,
        queue: &mut QueueState,
        ahead: &[LoadAhead],
        bytes: &[u8],
    ) -> PopOutcome
        requires free { self.old.state ≡ at.Free }
        requires room { may_take queue.old ≡ true }
        ensures pops { PopsAhead (loads_ahead ahead.now bytes.now) self.old self.new queue.old queue.new
            (proceeds.On result) }
    {
        match queue.stopped {
            Some(_) => {
                self.clear_part();
                PopOutcome::Refused(QueueError::Stopped)
            }
            None => match queue.event_fault(&self.regions) {
                Some(error) => self.begin_lacking(queue, error),
                None => self.begin_there_ahead(queue, ahead, bytes),
            },
        }
    }

    /// Pops the next chain of a queue as calls of `pop` do one after another: the first without bytes, and
    /// then one with each load that was made ahead, as long as the next load is just the one that the pop
    /// asks for, by its place and length. The bytes of the loads lie one behind another. Any list is
    /// allowed: where the next load is another one, or there is no room for its descriptors, the pop asks
    /// for its load, and goes on by `pop`. After an error nothing changed:
    /// - `WrongOrder`: the handle isn't free.
    /// - `ChainInFlight`: the queue has as many chains in flight as it may.
    pub fn pop_ahead(
        &mut self,
        queue: &mut QueueState,
        ahead: &[LoadAhead],
        bytes: &[u8],
    ) -> Result<PopOutcome, ChainError>
        ensures error { IfErr result (λ e. ahead_error self.old.state queue.old ≡ Some e) }
        ensures ok { OnOk result (ahead_error self.old.state queue.old ≡ None) }
        ensures same { OnErr result ((self.new ≡ self.old) × (queue.new ≡ queue.old)) }
        ensures pops { IfOk result (λ returned. PopsAhead (loads_ahead ahead.now bytes.now) self.old self.new
            queue.old queue.new (proceeds.On returned)) }
        ensures step { IfOk result (PopsAheadBy (loads_ahead ahead.now bytes.now) self.old self.new queue.old
            queue.new) }
    {
        match &self.state {
            ChainState::Free => {
                if !queue.may_take() {
                    return Err(ChainError::ChainInFlight);
                }
                Ok(self.begin_course_ahead(queue, ahead, bytes))
            }
            _ => Err(ChainError::WrongOrder),
        }
    }
}
