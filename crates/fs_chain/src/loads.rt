//! A pop whose loads the caller makes: in parts, if one crosses the end of a region or of a mapping.

ghost use Rattle.std.specs.Prelude.{◌≡◌, ◌⊎◌, ◌<◌, ◌≤◌, ◌+◌, ◌++◌, [], Some, None, true, false, length, take};
ghost use Rattle.std.specs.Prelude.{IfOk, IfErr, IfSome, OnOk, OnErr, vec_capacity};
ghost use Rattle.memory_requests.specs.Refused.{RoomWasRefused};
ghost use Rattle.fs_chain.specs.Ending.{EndsSoon};
ghost use Rattle.fs_chain.specs.Holds.{PopsBy};
ghost use Rattle.fs_chain.specs.Loads.{AreDue, AreOthers, AreWanted, AreWhole, ProceedsSo, HasNoPlace};
ghost use Rattle.fs_chain.specs.Loads.{IsLoadWindow, IsSame, RefusesAPop, came, due_len, whole};
ghost use Rattle.fs_chain.specs.Orders.{load_len, walk_error};
ghost use Rattle.fs_chain.specs.Walks.{IsAllBut, IsAllButPart, LacksRoom, WalksOn};

use crate::chain_handle::ChainHandle;
use crate::error::ChainError;
use crate::popping::PopOutcome;
use crate::queue::QueueState;
use memory_requests::reserve;
use std::mem;
use vm_memory_core::VolatileSlice;

/// The result of a call of `pop`.
#[derive(Clone, Copy, Debug, PartialEq, Eq)]
pub enum LoadOutcome {
    /// The bytes are a part of the load, and the pop needs more of it.
    Part,
    /// The pop continued.
    On(PopOutcome),
}

impl ChainHandle {
    /// The window of the bytes that a pop still needs: the rest of its load, up to the end of their
    /// region, and 4096 bytes at most. None if it needs none, or if they aren't mapped.
    #[inline(always)]
    pub fn still_wanted(&self) -> Option<VolatileSlice>
        ensures some { IfSome result (IsLoadWindow self.now (came self.now)) }
        ensures none { result ≡ None → HasNoPlace self.now (came self.now) }
        ensures few { IfSome result (λ window. window.len ≤ 4096) }
    {
        self.load_window(self.part.len())
    }

    // Whether a pop needs just `len` bytes next, which aren't a whole load.
    fn are_wanted(&self, len: usize) -> bool
        requires { AreWhole self.now len → ⊥ }
        ensures wanted { result ≡ true → AreWanted self.now len }
        ensures others { result ≡ false → AreOthers self.now len }
    {
        match self.still_wanted() {
            Some(window) => window.len() == len,
            None => false,
        }
    }

    // Puts some bytes behind the first ones of the load.
    fn join_part(&mut self, loaded: &[u8]) -> Result<(), ChainError>
        ensures joined { OnOk result (self.new.part.items ≡ self.old.part.items ++ loaded.now) }
        ensures memory { IfErr result (λ e. (e ≡ ChainError.OutOfMemory)
            × (vec_capacity self.old.part < came self.old + length loaded.now)
            × RoomWasRefused (length loaded.now)) }
        ensures same { OnErr result (self.new.part.items ≡ self.old.part.items) }
        ensures apart { self.new ≡ record self.old { part = self.new.part } }
        ensures stays { IsAllButPart self.old self.new }
    {
        if reserve(&mut self.part, loaded.len()).is_err() {
            return Err(ChainError::OutOfMemory);
        }
        self.part.extend_from_slice(loaded).unwrap();
        Ok(())
    }

    // Moves the first bytes of the load out of the handle.
    fn take_part(&mut self) -> Vec<u8>
        ensures taken { result ≡ self.old.part }
        ensures apart { self.new ≡ record self.old { part = self.new.part } }
        ensures stays { IsAllButPart self.old self.new }
    {
        mem::replace(&mut self.part, Vec::new(self.alloc))
    }

    // Keeps some first bytes of the load, or none.
    fn keep_part(&mut self, part: Vec<u8>)
        ensures kept { self.new.part ≡ part }
        ensures apart { self.new ≡ record self.old { part = self.new.part } }
        ensures stays { IsAllButPart self.old self.new }
    {
        self.part = part;
    }

    // Drops the first bytes of the load.
    pub(crate) fn clear_part(&mut self)
        ensures cleared { self.new.part.items ≡ [] }
        ensures apart { self.new ≡ record self.old { part = self.new.part } }
        ensures stays { IsAllButPart self.old self.new }
    {
        self.part.clear();
    }

    // Gives the pop its load, which is complete. After a refusal only the first `before` bytes stay.
    #[inline(never)]
    fn walk_joined(
        &mut self,
        queue: &mut QueueState,
        before: usize,
    ) -> Result<PopOutcome, ChainError>
        ensures error { IfErr result (λ e. (walk_error self.old.state queue.old (came self.old) ≡ Some e)
            ⊎ ((e ≡ ChainError.OutOfMemory) × (walk_error self.old.state queue.old (came self.old) ≡ None))) }
        ensures ok { OnOk result (walk_error self.old.state queue.old (came self.old) ≡ None) }
        ensures memory { IfErr result (λ e. e ≡ ChainError.OutOfMemory → LacksRoom self.old) }
        ensures same { OnErr result (IsAllBut self.old self.new
            × (self.new.state ≡ self.old.state)
            × (self.new.descriptors.items ≡ self.old.descriptors.items)
            × (queue.new ≡ queue.old)) }
        ensures part { OnErr result (self.new.part.items ≡ take before self.old.part.items) }
        ensures none { OnOk result (self.new.part.items ≡ []) }
        ensures session { self.new.session ≡ self.old.session }
        ensures walks { IfOk result
            (λ walked. WalksOn self.old.part.items self.old self.new queue.old queue.new walked) }
    {
        let mut part = self.take_part();
        match self.walk_load(queue, &part) {
            Ok(walked) => {
                part.clear();
                self.keep_part(part);
                Ok(walked)
            }
            Err(error) => {
                part.truncate(before);
                self.keep_part(part);
                Err(error)
            }
        }
    }

    // Gives the pop its whole load, or begins it: the handle has no part of a load.
    #[inline(always)]
    fn walk_whole(
        &mut self,
        queue: &mut QueueState,
        loaded: &[u8],
    ) -> Result<LoadOutcome, ChainError>
        requires whole { whole self.old loaded.now ≡ loaded.now }
        requires due { AreDue self.old loaded.now }
        requires len { length loaded.now ≡ due_len self.old loaded.now }
        ensures proceeds { IfOk result (λ outcome. ProceedsSo self.old queue.old loaded.now outcome self.new
            queue.new) }
        ensures error { IfErr result (RefusesAPop self.old queue.old loaded.now) }
        ensures same { OnErr result (IsSame self.old self.new × (queue.new ≡ queue.old)) }
    {
        match self.walk_load(queue, loaded) {
            Ok(walked) => {
                self.clear_part();
                Ok(LoadOutcome::On(walked))
            }
            Err(error) => Err(error),
        }
    }

    // Takes some bytes of the load for which the pop asks.
    #[tactic(auto, using(crate::proofs::LoadLemmas::fits))]
    fn give_part(
        &mut self,
        queue: &mut QueueState,
        loaded: &[u8],
    ) -> Result<LoadOutcome, ChainError>
        requires { 0 < load_len self.old.state }
        ensures proceeds { IfOk result (λ outcome. ProceedsSo self.old queue.old loaded.now outcome self.new
            queue.new) }
        ensures error { IfErr result (RefusesAPop self.old queue.old loaded.now) }
        ensures same { OnErr result (IsSame self.old self.new × (queue.new ≡ queue.old)) }
    {
        let asked = self.load_len();
        let before = self.part.len();
        if before == 0 && loaded.len() == asked {
            return self.walk_whole(queue, loaded);
        }
        if !self.are_wanted(loaded.len()) {
            return Err(ChainError::BadArgument);
        }
        if let Some(error) = self.pop_refusal(queue, asked) {
            return Err(error);
        }
        if let Err(error) = self.join_part(loaded) {
            return Err(error);
        }
        if self.part.len() != asked {
            return Ok(LoadOutcome::Part);
        }
        match self.walk_joined(queue, before) {
            Ok(walked) => Ok(LoadOutcome::On(walked)),
            Err(error) => Err(error),
        }
    }

    /// Pops the next chain of a queue: first without bytes, then with the bytes of each load that it asks
    /// for. The caller gives a load whole, even if it crosses the end of a region or of a mapping, or in
    /// parts. A part is the window that is still needed (`still_wanted`), until the pop goes on. It ends
    /// after at most size + 4 loads, whatever they find.
    ///
    /// After an error nothing changed:
    /// - `WrongOrder`: a chain is in flight.
    /// - `BadArgument`: the bytes have another length than these, or a pop begins with some.
    /// - `OtherQueue`: the pop is another queue's, or a chain was popped or given up since it began.
    /// - `ChainInFlight`: the queue has as many chains in flight as it may.
    /// - `OutOfMemory`: no room for the descriptors of the entries that are asked for, or for a part of a
    ///   load.
    #[tactic(auto, using(crate::proofs::HoldsPopped::pops_from, crate::proofs::Ending::ends_soon))]
    pub fn pop(&mut self, queue: &mut QueueState, loaded: &[u8]) -> Result<LoadOutcome, ChainError>
        ensures proceeds { IfOk result (λ outcome. ProceedsSo self.old queue.old loaded.now outcome self.new
            queue.new) }
        ensures error { IfErr result (RefusesAPop self.old queue.old loaded.now) }
        ensures same { OnErr result (IsSame self.old self.new × (queue.new ≡ queue.old)) }
        ensures step { IfOk result
            (λ outcome. PopsBy self.old.state self.old self.new queue.old queue.new loaded.now outcome) }
        ensures few { IfOk result (EndsSoon self.old.state self.new queue.old.layout.size) }
    {
        if self.load_len() != 0 {
            return self.give_part(queue, loaded);
        }
        self.walk_whole(queue, loaded)
    }
}
