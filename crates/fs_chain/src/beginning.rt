//! The beginning of a pop, without bytes.

ghost use Rattle.std.specs.Prelude.{◌≡◌, Some, None, IfErr, IfOk, OnOk, OnErr, length};
ghost use Rattle.fs_regions.specs.Places.{places_in};
ghost use Rattle.fs_chain.specs.Events.{event_miss};
ghost use Rattle.fs_chain.specs.Orders.{begin_error};
ghost use Rattle.fs_chain.specs.Queues.{pop_id_of};
ghost use Rattle.fs_chain.specs.Walks.{BeginsOn, BeginsPop, LacksEvents, course_of};
ghost use Rattle.fs_chain.specs.declared.state.ChainState.TheVariants as at;

use crate::chain_handle::ChainHandle;
use crate::error::ChainError;
use crate::popping::PopOutcome;
use crate::queue::QueueState;
use fs_queue::QueueError;
use fs_regions::Course;

impl ChainHandle {
    // Begins a pop at the queue's position, unless its used_event or avail_event isn't mapped.
    #[inline(always)]
    fn begin_course(&mut self, queue: &mut QueueState) -> PopOutcome
        requires free { self.old.state ≡ at.Free }
        requires proceeds { queue.old.stopped ≡ None }
        ensures begins { BeginsPop self.old self.new queue.old queue.new result }
        ensures apart { (self.new.part ≡ self.old.part) × (self.new.session ≡ self.old.session) }
    {
        match queue.event_fault(&self.regions) {
            Some(error) => self.begin_without_events(queue, error),
            None => self.begin_there(queue),
        }
    }

    // The result of a pop if the queue's used_event or avail_event isn't mapped: a miss, or a refusal. The
    // descriptors of an earlier pop are dropped, as by any pop that begins: `missing_at` is for this one.
    #[cold]
    #[inline(never)]
    pub(crate) fn begin_without_events(
        &mut self,
        queue: &mut QueueState,
        error: QueueError,
    ) -> PopOutcome
        ensures lacks { LacksEvents error (event_miss (places_in self.old.regions) queue.old) self.old
            self.new queue.old queue.new result }
        ensures apart { (self.new.part ≡ self.old.part) × (self.new.session ≡ self.old.session) }
    {
        self.descriptors.clear();
        match queue.event_miss(&self.regions) {
            Some((range, access)) => PopOutcome::Missing { range, access },
            None => {
                queue.stopped = Some(error);
                PopOutcome::Refused(error)
            }
        }
    }

    // Begins a pop at the queue's position.
    #[inline(always)]
    fn begin_there(&mut self, queue: &mut QueueState) -> PopOutcome
        requires { self.old.state ≡ at.Free }
        ensures begins { BeginsOn (course_of queue.old self.old.limit) (pop_id_of self.old.regions queue.old)
            self.old self.new queue.old queue.new result }
        ensures apart { (self.new.part ≡ self.old.part) × (self.new.session ≡ self.old.session) }
    {
        let course = Course {
            layout: queue.layout,
            position: queue.next_avail,
            limit: self.limit,
        };
        let step = course.begin(&self.regions, &mut self.descriptors);
        let pop_id = queue.pop_id(&self.regions);
        self.settle(queue, course, pop_id, step)
    }

    /// Begins a pop, without bytes. A stopped queue refuses it.
    #[inline(always)]
    pub(crate) fn begin_walk(
        &mut self,
        queue: &mut QueueState,
        loaded: &[u8],
    ) -> Result<PopOutcome, ChainError>
        requires free { self.old.state ≡ at.Free }
        ensures error { IfErr result (λ e. begin_error queue.old (length loaded.now) ≡ Some e) }
        ensures ok { OnOk result (begin_error queue.old (length loaded.now) ≡ None) }
        ensures memory { IfErr result (λ e. e ≡ ChainError.OutOfMemory → ⊥) }
        ensures same { OnErr result ((self.new ≡ self.old) × (queue.new ≡ queue.old)) }
        ensures begins { IfOk result (λ walked. BeginsPop self.old self.new queue.old queue.new walked) }
        ensures apart { (self.new.part ≡ self.old.part) × (self.new.session ≡ self.old.session) }
    {
        if !loaded.is_empty() {
            return Err(ChainError::BadArgument);
        }
        if !queue.may_take() {
            return Err(ChainError::ChainInFlight);
        }
        match queue.stopped {
            Some(_) => Ok(PopOutcome::Refused(QueueError::Stopped)),
            None => Ok(self.begin_course(queue)),
        }
    }
}
