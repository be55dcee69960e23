//! The result of a pop of the next available chain, and how the handle keeps it.

ghost use Rattle.std.specs.Prelude.{◌≡◌, [], Some, None};
ghost use Rattle.fs_chain.specs.Queues.{took};
ghost use Rattle.fs_chain.specs.Walks.{IsAllBut, StaysForLoad, left_of, queue_after, state_after};
ghost use Rattle.fs_chain.specs.Walks.{outcome_of};
ghost use Rattle.fs_chain.specs.declared.state.ChainState.TheVariants as at;

use crate::chain_handle::ChainHandle;
use crate::queue::QueueState;
use crate::state::{ChainReply, ChainState, InFlight, PopId};
use fs_queue::{ChainFault, QueueError};
use fs_regions::{Course, CourseStep, count_both};
use vm_memory_core::{IovaRange, Permissions};

/// The result of a pop.
#[derive(Clone, Copy, Debug, PartialEq, Eq)]
pub enum PopOutcome {
    /// The pop asks for a load of this many bytes.
    Load(usize),
    /// No chain is available.
    Idle,
    /// The pop is refused with this error, and the queue is stopped.
    Refused(QueueError),
    /// A chain was popped.
    Chain {
        /// The index of its first descriptor in the queue's table.
        head: u16,
        /// The length of its request in bytes.
        request_len: usize,
        /// The length of its reply buffer in bytes.
        room_len: usize,
    },
    /// The pop needs a range of addresses for an access, and the table doesn't map it. Nothing was popped:
    /// the handle is free, and the queue as it was. `missing_at` returns the missing ranges of the buffers
    /// of the descriptors that were read.
    Missing {
        /// The first missing addresses.
        range: IovaRange,
        /// The access that the pop needs.
        access: Permissions,
    },
    /// A faulty chain was popped: it is pushed without a reply.
    Faulty {
        /// The index of its first descriptor in the queue's table.
        head: u16,
        /// The fault that it has.
        fault: ChainFault,
    },
}

impl ChainHandle {
    // Keeps a chain without a fault, which is in flight then.
    #[inline(always)]
    fn take(
        &mut self,
        queue: &mut QueueState,
        course: Course,
        pop_id: PopId,
        head: u16,
    ) -> PopOutcome
        ensures returned { result ≡ outcome_of self.old.descriptors.items (CourseStep.Chain head None) }
        ensures kept { self.new ≡ record self.old {
          state = state_after course pop_id self.old.descriptors.items (CourseStep.Chain head None);
        } }
        ensures queue { queue.new ≡ took queue.old }
    {
        let (request_len, room_len) = count_both(&self.descriptors);
        let (request_len, room_len) = (request_len as usize, room_len as usize);
        queue.take();
        self.state = ChainState::Popped(InFlight {
            course,
            pop_id,
            head,
            request_len,
            room_len,
        });
        PopOutcome::Chain {
            head,
            request_len,
            room_len,
        }
    }

    // Keeps a faulty chain, which is in flight then: it has no windows, and no reply.
    fn take_faulty(
        &mut self,
        queue: &mut QueueState,
        course: Course,
        pop_id: PopId,
        head: u16,
        fault: ChainFault,
    ) -> PopOutcome
        ensures returned { result ≡ PopOutcome.Faulty head fault }
        ensures state { self.new.state
            ≡ state_after course pop_id self.new.descriptors.items (CourseStep.Chain head (Some fault)) }
        ensures empty { self.new.descriptors.items ≡ [] }
        ensures same { IsAllBut self.old self.new }
        ensures apart { (self.new.part ≡ self.old.part) × (self.new.session ≡ self.old.session) }
        ensures queue { queue.new ≡ took queue.old }
    {
        self.descriptors.clear();
        queue.take();
        let out = InFlight {
            course,
            pop_id,
            head,
            request_len: 0,
            room_len: 0,
        };
        let reply = ChainReply {
            front: None,
            behind: 0,
        };
        self.state = ChainState::Replied(out, reply);
        PopOutcome::Faulty { head, fault }
    }

    /// Ends the walk: the handle is free.
    #[inline(never)]
    pub(crate) fn end_walk(&mut self)
        ensures { self.new ≡ record self.old { state = at.Free } }
    {
        self.state = ChainState::Free;
    }

    /// Keeps the result of a pop, and returns it.
    #[inline(always)]
    pub(crate) fn settle(
        &mut self,
        queue: &mut QueueState,
        course: Course,
        pop_id: PopId,
        step: CourseStep,
    ) -> PopOutcome
        ensures returned { result ≡ outcome_of self.new.descriptors.items step }
        ensures state { self.new.state ≡ state_after course pop_id self.new.descriptors.items step }
        ensures left { self.new.descriptors.items ≡ left_of step self.old.descriptors.items }
        ensures stays { StaysForLoad step self.old.descriptors self.new.descriptors }
        ensures same { IsAllBut self.old self.new }
        ensures apart { (self.new.part ≡ self.old.part) × (self.new.session ≡ self.old.session) }
        ensures queue { queue.new ≡ queue_after queue.old step }
    {
        match step {
            CourseStep::Load(walk) => {
                let len = walk.len();
                self.state = ChainState::Popping(course, pop_id, walk);
                PopOutcome::Load(len)
            }
            CourseStep::Idle => {
                self.end_walk();
                PopOutcome::Idle
            }
            CourseStep::Refused(error) => {
                self.end_walk();
                queue.stopped = Some(error);
                PopOutcome::Refused(error)
            }
            CourseStep::Missing(range, access) => {
                self.end_walk();
                PopOutcome::Missing { range, access }
            }
            CourseStep::Chain(head, None) => self.take(queue, course, pop_id, head),
            CourseStep::Chain(head, Some(fault)) => {
                self.take_faulty(queue, course, pop_id, head, fault)
            }
        }
    }
}
