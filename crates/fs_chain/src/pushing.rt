//! How a chain is pushed to its queue.

ghost use Rattle.std.specs.Prelude.{◌≡◌, ◌<◌, true, nat_lt, IfSome, None, Some, false, Err, IfErr, IfOk};
ghost use Rattle.std.specs.Prelude.{OnOk, OnErr, length};
ghost use Rattle.fs_chain.specs.Events.{notifies_of};
ghost use Rattle.fs_chain.specs.Orders.{end_error, front_len, has_ring, push_error, push_refusal};
ghost use Rattle.fs_chain.specs.Queues.{gave};
ghost use Rattle.fs_chain.specs.Holds.{EndsPushInRun, PushesInRun};
ghost use Rattle.fs_chain.specs.Pushes.{IfReplied, PushesBy, put_front};
ghost use Rattle.fs_chain.specs.Tickets.{freed};
ghost use Rattle.fs_chain.specs.declared.state.ChainState.TheVariants as at;

use crate::chain_handle::ChainHandle;
use crate::error::ChainError;
use crate::queue::QueueState;
use crate::ring_place::RingPlace;
use crate::state::{ChainReply, ChainState, InFlight};
use fs_queue::Return;
use fs_regions::GuestMap;

/// The caller's stores for a push, and its load after them.
#[derive(Clone, Copy, Debug)]
pub struct PushStores {
    /// How many bytes of the front the caller stores at the start of the reply buffer.
    pub front_len: usize,
    /// The used element, the used index, and the guest address of the available flags.
    pub used: Return,
    /// The guest address of the two bytes that the caller loads then, behind a full barrier. They
    /// decide whether to notify the driver.
    pub seen_at: u64,
}

// Copies a reply's front over the first bytes of a buffer. Returns its length, or none if the buffer is
// shorter.
fn copy_front(reply: &ChainReply, front: &mut [u8]) -> Option<usize>
    ensures short { result ≡ None
        → (nat_lt (length front.old) (front_len reply.now) ≡ true)
        × (front.new ≡ front.old)
        × (length front.old < 160) }
    ensures copied { IfSome result (λ n. (nat_lt (length front.old) (front_len reply.now) ≡ false)
        × (n ≡ front_len reply.now)
        × (front.new ≡ put_front reply.now front.old)) }
{
    match &reply.front {
        Some(bytes) => {
            let bytes = bytes.bytes();
            if front.len() < bytes.len() {
                return None;
            }
            front[..bytes.len()].copy_from_slice(bytes);
            Some(bytes.len())
        }
        None => Some(0),
    }
}

// Copies the front of a chain's reply over the first bytes of a buffer, and returns the stores of its
// push.
fn stores_of(
    regions: &GuestMap,
    queue: &QueueState,
    out: &InFlight,
    reply: &ChainReply,
    front: &mut [u8],
) -> Result<PushStores, ChainError>
    ensures error { IfErr result
        (λ e. push_error (has_ring (at.Replied out.now reply.now) regions.now)
        (at.Replied out.now reply.now) queue.now (length front.old) ≡ Some e) }
    ensures ring { OnOk result (has_ring (at.Replied out.now reply.now) regions.now ≡ true) }
    ensures ok { OnOk result
        (push_refusal (at.Replied out.now reply.now) queue.now (length front.old) ≡ None) }
    ensures short { result ≡ Err ChainError.ShortBuffer → length front.old < 160 }
    ensures same { OnErr result (front.new ≡ front.old) }
    ensures stores { IfOk result (λ s. PushesBy queue.now out.now reply.now s) }
    ensures front { OnOk result (front.new ≡ put_front reply.now front.old) }
{
    if !queue.has_out(out) {
        return Err(ChainError::OtherQueue);
    }
    if queue.pushing {
        return Err(ChainError::Pushing);
    }
    if !out
        .pop_id
        .ring
        .is_same(&RingPlace::of(regions, &out.course.layout))
    {
        return Err(ChainError::OtherTable);
    }
    let layout = out.course.layout;
    let Some(front_len) = copy_front(reply, front) else {
        return Err(ChainError::ShortBuffer);
    };
    let len = front_len.saturating_add(reply.behind).min(out.room_len);
    let used = Return::new(
        layout,
        queue.next_used,
        out.head,
        len.min(u32::MAX as usize) as u32,
    );
    let seen_at = queue.seen_at(&layout);
    Ok(PushStores {
        front_len,
        used,
        seen_at,
    })
}

impl ChainHandle {
    /// Begins a chain's push: copies its reply's front over the first bytes of `front`, and returns the
    /// stores. They are those of the queue's next position in the used ring. No other chain of the queue
    /// is pushed until `pushed` ends this one. After an error handle and queue are as they were:
    /// - `WrongOrder`: no chain is in flight whose reply is known.
    /// - `OtherQueue`: the chain isn't in flight in this queue.
    /// - `Pushing`: another chain of the queue is being pushed.
    /// - `OtherTable`: the chain was popped with another table, or with none, or its table is taken away; or
    ///   the table has the used ring elsewhere. The chain can be pushed with the right one.
    /// - `ShortBuffer`: the buffer is shorter than the front, for which 160 bytes always suffice.
    pub fn push(
        &mut self,
        queue: &mut QueueState,
        front: &mut [u8],
    ) -> Result<PushStores, ChainError>
        ensures error { IfErr result (λ e. push_error (has_ring self.old.state self.old.regions)
            self.old.state queue.old (length front.old) ≡ Some e) }
        ensures ok { OnOk result (push_refusal self.old.state queue.old (length front.old) ≡ None) }
        ensures ring { OnOk result (has_ring self.old.state self.old.regions ≡ true) }
        ensures short { result ≡ Err ChainError.ShortBuffer → length front.old < 160 }
        ensures same { OnErr result ((self.new ≡ self.old)
            × (front.new ≡ front.old)
            × (queue.new ≡ queue.old)) }
        ensures pushing { OnOk result
            (IfReplied self.old.state (λ out reply. self.new ≡ record self.old { state = at.Pushing out })) }
        ensures queue { OnOk result (queue.new ≡ record queue.old { pushing = true }) }
        ensures stores { IfOk result
            (λ s. IfReplied self.old.state (λ out reply. PushesBy queue.old out reply s)) }
        ensures front { OnOk result
            (IfReplied self.old.state (λ out reply. front.new ≡ put_front reply front.old)) }
        ensures step { IfOk result (λ s. PushesInRun self.old self.new queue.old front.new s) }
    {
        match &self.state {
            ChainState::Replied(out, reply) => {
                match stores_of(&self.regions, queue, out, reply, front) {
                    Ok(stores) => {
                        // Field by field, and last: so the compiler leaves them where they are.
                        let out = InFlight {
                            course: out.course,
                            pop_id: out.pop_id,
                            head: out.head,
                            request_len: out.request_len,
                            room_len: out.room_len,
                        };
                        self.state = ChainState::Pushing(out);
                        queue.pushing = true;
                        Ok(stores)
                    }
                    Err(error) => Err(error),
                }
            }
            _ => Err(ChainError::WrongOrder),
        }
    }

    /// Ends a push after its stores were made: the queue's next chain is pushed at the next position, and
    /// the handle is free. Returns whether the driver wants a notification, by the two bytes that the
    /// caller loaded. `WrongOrder` if no push was begun, `OtherQueue` if it was another queue's.
    #[tactic(auto, using(crate::proofs::HoldsPushed::ends_push))]
    pub fn pushed(&mut self, queue: &mut QueueState, seen: [u8; 2]) -> Result<bool, ChainError>
        ensures error { IfErr result (λ e. end_error self.old.state queue.old ≡ Some e) }
        ensures ok { OnOk result (end_error self.old.state queue.old ≡ None) }
        ensures same { OnErr result ((self.new ≡ self.old) × (queue.new ≡ queue.old)) }
        ensures free { OnOk result (self.new ≡ freed self.old) }
        ensures queue { OnOk result (queue.new ≡ gave queue.old) }
        ensures notifies { IfOk result (λ notify. notify ≡ notifies_of queue.old seen) }
        ensures step { IfOk result (λ notice. EndsPushInRun self.old queue.old queue.new seen notice) }
    {
        match &self.state {
            ChainState::Pushing(out) => {
                if !queue.has_out(out) || !queue.pushing {
                    return Err(ChainError::OtherQueue);
                }
                let notify = queue.notifies(seen);
                self.free();
                queue.pushed();
                Ok(notify)
            }
            _ => Err(ChainError::WrongOrder),
        }
    }
}
