//! Requests for memory. Each function asks the allocator once and does nothing else. Only these contracts say
//! that an allocation failed. So a function that ensures such a failure has called one of these.
#![tactic(auto)]

ghost use Rattle.std.specs.Prelude.{◌≡◌, ◌≤◌, ◌<◌, ◌+◌, [], IfErr, IfOk, IsOk, OnErr, OnOk};
ghost use Rattle.std.specs.Arc.{arc_value};
ghost use Rattle.std.specs.Vec.{vec_capacity, vec_len};
ghost use Rattle.smallvec.specs.SmallVec.{HasRoomFor};
ghost use Rattle.memory_requests.specs.Refused.{MemoryWasRefused, RoomWasRefused};

use smallvec::SmallVec;
use std::alloc::{AllocError, AllocFailed, Global};
use std::boxed::Box;
use std::default::MadeWith;
use std::sync::Arc;

/// An empty list with room for `len` elements. AllocError if the allocation fails.
#[tactic(auto, using(crate::proofs::Asking::room_was_refused, crate::proofs::Asking::memory_was_refused))]
pub fn list_with_room<T>(alloc: Global, len: usize) -> Result<Vec<T>, AllocError>
    ensures empty { IfOk result (λ list. list.items ≡ []) }
    ensures len { IfOk result (λ list. vec_len list ≡ 0) }
    ensures room { IfOk result (λ list. vec_capacity list ≡ len) }
    ensures asked { OnErr result (RoomWasRefused len) }
    ensures refused { OnErr result MemoryWasRefused }
{
    Vec::with_capacity(alloc, len)
}

/// Reserves room for `more` elements behind those of a list. AllocError if the allocation fails: the list is
/// unchanged.
#[tactic(auto, using(crate::proofs::Asking::room_was_refused, crate::proofs::Asking::memory_was_refused))]
pub fn reserve<T>(list: &mut Vec<T>, more: usize) -> Result<(), AllocError>
    ensures items { list.new.items ≡ list.old.items }
    ensures len { vec_len list.new ≡ vec_len list.old }
    ensures room { OnOk result (vec_len list.new + more ≤ vec_capacity list.new) }
    ensures preserved { OnErr result (vec_capacity list.new ≡ vec_capacity list.old) }
    ensures full { OnErr result (vec_capacity list.old < vec_len list.old + more) }
    ensures asked { OnErr result (RoomWasRefused more) }
    ensures refused { OnErr result MemoryWasRefused }
{
    list.reserve(more)
}

/// The same for a list whose first `N` elements need no allocation.
#[tactic(auto, using(crate::proofs::Asking::room_was_refused, crate::proofs::Asking::memory_was_refused))]
pub fn reserve_small<T: MadeWith<Global> + Drop, const N: usize>(
    list: &mut SmallVec<T, N>,
    more: usize,
) -> Result<(), AllocError>
    ensures items { list.new.items ≡ list.old.items }
    ensures room { OnOk result (HasRoomFor list.new more) }
    ensures preserved { OnErr result (list.new ≡ list.old) }
    ensures full { OnErr result (HasRoomFor list.old more → ⊥) }
    ensures asked { OnErr result (RoomWasRefused more) }
    ensures refused { OnErr result MemoryWasRefused }
{
    list.reserve(more)
}

/// An `Arc` of a value. AllocFailed, which holds the value, if the allocation fails.
#[tactic(auto, using(crate::proofs::Asking::room_was_refused, crate::proofs::Asking::memory_was_refused))]
pub fn shared<T>(alloc: Global, value: T) -> Result<Arc<T, Global>, AllocFailed<T>>
    ensures shared { IfOk result (λ arc. arc_value arc ≡ value) }
    ensures preserved { IfErr result (λ failed. failed.value ≡ value) }
    ensures asked { OnErr result (RoomWasRefused 1) }
    ensures refused { OnErr result MemoryWasRefused }
{
    Arc::new(alloc, value)
}

/// A `Box` of a value. AllocFailed, which holds the value, if the allocation fails.
#[tactic(auto, using(crate::proofs::Asking::room_was_refused, crate::proofs::Asking::memory_was_refused))]
pub fn boxed<T>(alloc: Global, value: T) -> Result<Box<T, Global>, AllocFailed<T>>
    ensures boxed { IfOk result (λ made. made.value ≡ value) }
    ensures preserved { IfErr result (λ failed. failed.value ≡ value) }
    ensures asked { OnErr result (RoomWasRefused 1) }
    ensures refused { OnErr result MemoryWasRefused }
{
    Box::new(alloc, value)
}

/// Another reference to a shared value. AllocError if the reference count can't grow.
#[tactic(auto, using(crate::proofs::Asking::room_was_refused, crate::proofs::Asking::memory_was_refused))]
pub fn held_again<T>(value: &Arc<T, Global>) -> Result<Arc<T, Global>, AllocError>
    ensures again { IfOk result (λ again. arc_value again ≡ arc_value value.now) }
    ensures asked { OnErr result (RoomWasRefused 1) }
    ensures refused { OnErr result MemoryWasRefused }
{
    Arc::try_clone(value)
}
