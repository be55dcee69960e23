//! How a chain is given up before its request is decoded.

ghost use Rattle.std.specs.Prelude.{◌≡◌, Some, None, IfErr, OnOk, OnErr, if◌then◌else◌};
ghost use Rattle.fs_chain.specs.Holds.{GivesUpInRun};
ghost use Rattle.fs_chain.specs.HoldsAround.{AbandonsInRun};
ghost use Rattle.fs_chain.specs.Orders.{give_up_error, is_out};
ghost use Rattle.fs_chain.specs.Queues.{gave_up};
ghost use Rattle.fs_chain.specs.Pushes.{IsFreed};
ghost use Rattle.fs_chain.specs.Tickets.{freed};
ghost use Rattle.fs_chain.specs.declared.state.ChainState.TheVariants as at;

use crate::chain_handle::ChainHandle;
use crate::error::ChainError;
use crate::queue::QueueState;
use crate::state::{ChainState, InFlight};

impl ChainHandle {
    // Gives up a chain in flight whose request wasn't decoded. It stays in flight if the queue is another
    // one, or if other chains were popped after it.
    fn unpop_chain(&mut self, queue: &mut QueueState, out: InFlight) -> Result<(), ChainError>
        requires { self.old.state ≡ at.Popped out }
        ensures error { IfErr result (λ e. give_up_error (at.Popped out) queue.old ≡ Some e) }
        ensures ok { OnOk result (give_up_error (at.Popped out) queue.old ≡ None) }
        ensures same { OnErr result ((self.new ≡ self.old) × (queue.new ≡ queue.old)) }
        ensures free { OnOk result ((self.new ≡ freed self.old) × (queue.new ≡ gave_up queue.old)) }
    {
        if !queue.has_out(&out) {
            return Err(ChainError::OtherQueue);
        }
        if !queue.popped_last(&out) {
            return Err(ChainError::WrongOrder);
        }
        queue.unpop();
        self.free();
        Ok(())
    }

    /// Gives up a pop, or a chain whose request wasn't decoded. The handle is then free, and the queue's
    /// next pop finds the same chain and reads it again. After an error nothing changed:
    /// - `OtherQueue`: the chain isn't in flight in this queue.
    /// - `WrongOrder`: its request was decoded, so only a push ends it, with a reply or without (`reply`).
    ///   Or it isn't the last chain that was popped.
    #[tactic(auto, using(crate::proofs::HoldsEnded::gives_up, crate::proofs::HoldsEnded::gives_up_from))]
    pub fn give_up(&mut self, queue: &mut QueueState) -> Result<(), ChainError>
        ensures error { IfErr result (λ e. give_up_error self.old.state queue.old ≡ Some e) }
        ensures ok { OnOk result (give_up_error self.old.state queue.old ≡ None) }
        ensures same { OnErr result ((self.new ≡ self.old) × (queue.new ≡ queue.old)) }
        ensures free { OnOk result (self.new ≡ freed self.old) }
        ensures queue { OnOk result (queue.new ≡ (if is_out self.old.state then gave_up queue.old
            else queue.old)) }
        ensures step { OnOk result (GivesUpInRun self.old self.new queue.old queue.new) }
    {
        match &self.state {
            ChainState::Free | ChainState::Popping(_, _, _) => {
                self.free();
                Ok(())
            }
            ChainState::Popped(out) => {
                let out = *out;
                self.unpop_chain(queue, out)
            }
            _ => Err(ChainError::WrongOrder),
        }
    }

    /// Frees a handle whose queue was reset while its chain was in flight, or during its pop. The queue
    /// doesn't change, and the handle keeps no part of a load.
    #[tactic(auto, using(crate::proofs::HoldsAround::abandons))]
    pub fn abandon(&mut self)
        ensures free { IsFreed self.old self.new }
        ensures step { AbandonsInRun self.old self.new }
    {
        self.free();
        self.part.clear();
    }
}
