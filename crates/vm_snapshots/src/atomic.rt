//! Guest memory that one thread replaces while others use it (vm-memory's `GuestMemoryAtomic`).

ghost use Rattle.std.specs.Prelude.{◌≡◌, true, IfErr, IfOk, OnErr};
ghost use Rattle.std.specs.Arc.{arc_value};
ghost use Rattle.std.specs.Fn.{FnOnceReturnsAt};
ghost use Rattle.std.specs.Sync.RwLock.{write_guard_value};
ghost use Rattle.memory_requests.specs.Refused.{RoomWasRefused};

use crate::address_space::GuestAddressSpace;
use crate::law::MemoryLaw;
use memory_requests::{held_again, shared};
use std::alloc::{AllocError, Global};
use std::marker::{Model, PhantomData};
use std::ops::Deref;
use std::sync::{Arc, Mutex, MutexGuard, RwLock, RwLockWriteGuard, Wait};
use vm_memory::GuestMemory;

// The newest snapshot. The law allows its memory.
#[derive(Drop)]
struct Newest<M: Drop, L: MemoryLaw<M>> {
    snapshot: Arc<M, Global>,
    law: PhantomData<L>,
    ghost was_put: { L.allows (arc_value snapshot) ≡ true },
}

// The newest snapshot, and the mutex for replacing it.
#[derive(Drop)]
struct Snapshots<M: Drop, L: MemoryLaw<M>> {
    newest: RwLock<Newest<M, L>>,
    turn: Mutex<()>,
}

/// Guest memory that several threads share, and that one at a time replaces (vm-memory's
/// `GuestMemoryAtomic`). `memory` returns the newest snapshot, which the caller keeps as it is. If a
/// `MemoryLaw` allows each memory that is put there, it allows each that is lent.
#[derive(Drop)]
pub struct GuestMemoryAtomic<M: Drop, L: MemoryLaw<M>> {
    shared: Arc<Snapshots<M, L>, Global>,
}

/// A snapshot. It doesn't change if the memory is replaced (vm-memory's `GuestMemoryLoadGuard`).
#[derive(Drop)]
pub struct GuestMemoryLoadGuard<M: Drop> {
    snapshot: Arc<M, Global>,
}

impl<M: Drop> Model for GuestMemoryLoadGuard<M> {
    ghost use Rattle.std.specs.Arc.{arc_value};

    ghost Value = { M };

    ghost view = { λ guard. arc_value guard.snapshot };
}

/// The exclusive right to replace the memory (vm-memory's `GuestMemoryExclusiveGuard`).
#[derive(Drop)]
pub struct GuestMemoryExclusiveGuard<'a, M: Drop, L: MemoryLaw<M>> {
    newest: &'a RwLock<Newest<M, L>>,
    turn: MutexGuard<'a, ()>,
}

/// The write lock with the new snapshot. A thread that asks for the memory waits until this guard is
/// dropped, and then gets that snapshot.
#[derive(Drop)]
pub struct GuestMemoryReplaceGuard<'a, M: Drop, L: MemoryLaw<M>> {
    newest: RwLockWriteGuard<'a, Newest<M, L>>,
    lock: &'a RwLock<Newest<M, L>>,
    turn: MutexGuard<'a, ()>,
}

impl<M: GuestMemory + Drop, L: MemoryLaw<M>> GuestMemoryAtomic<M, L> {
    /// Shared memory whose first snapshot is `memory`. AllocError if an allocation fails.
    pub fn new(alloc: Global, memory: M) -> Result<GuestMemoryAtomic<M, L>, AllocError>
        requires { L.allows memory ≡ true }
        ensures refused { OnErr result (RoomWasRefused 1) }
    {
        let newest = Newest {
            snapshot: shared(alloc, memory)?,
            law: PhantomData,
        };
        let snapshots = Snapshots {
            newest: RwLock::new(newest),
            turn: Mutex::new(()),
        };
        Ok(GuestMemoryAtomic {
            shared: shared(alloc, snapshots)?,
        })
    }

    /// Another handle of the same shared memory (vm-memory's `clone`). AllocError if it can't be shared
    /// again.
    pub fn try_clone(&self) -> Result<GuestMemoryAtomic<M, L>, AllocError>
        ensures same { IfOk result (λ other. arc_value other.shared ≡ arc_value self.now.shared) }
        ensures refused { OnErr result (RoomWasRefused 1) }
    {
        Ok(GuestMemoryAtomic {
            shared: held_again(&self.shared)?,
        })
    }

    /// The newest snapshot, once no other thread replaces it. AllocError if it can't be shared again.
    pub fn memory<R: Wait>(&self, rt: &R) -> Result<GuestMemoryLoadGuard<M>, AllocError>
        ensures lent { IfOk result (λ guard. L.allows guard ≡ true) }
        ensures refused { OnErr result (RoomWasRefused 1) }
    {
        let newest = self.shared.newest.read(rt);
        Ok(GuestMemoryLoadGuard {
            snapshot: held_again(&newest.snapshot)?,
        })
    }

    /// The right to replace the memory, once no other thread has it (vm-memory's
    /// `GuestMemoryAtomic::lock`).
    pub fn lock<R: Wait>(&self, rt: &R) -> GuestMemoryExclusiveGuard<'_, M, L>
        ensures { result.newest.now ≡ (arc_value self.now.shared).newest }
    {
        GuestMemoryExclusiveGuard {
            newest: &self.shared.newest,
            turn: self.shared.turn.lock(rt),
        }
    }
}

impl<M: Drop> GuestMemoryLoadGuard<M> {
    /// The snapshot as an `Arc`, which others may share (vm-memory's `into_inner`).
    pub fn into_inner(self) -> Arc<M, Global>
        ensures { arc_value result ≡ self }
    {
        let GuestMemoryLoadGuard { snapshot } = self;
        snapshot
    }

    /// Another guard of the same snapshot (vm-memory's `clone`). AllocError if it can't be shared again.
    pub fn try_clone(&self) -> Result<GuestMemoryLoadGuard<M>, AllocError>
        ensures same { IfOk result (λ guard. guard ≡ self.now) }
        ensures refused { OnErr result (RoomWasRefused 1) }
    {
        Ok(GuestMemoryLoadGuard {
            snapshot: held_again(&self.snapshot)?,
        })
    }

    /// The memory as it was when the snapshot was taken.
    pub fn get(&self) -> &M
        ensures { result.now ≡ self.now }
    {
        &*self.snapshot
    }
}

impl<'a, M: GuestMemory + Drop, L: MemoryLaw<M>> GuestMemoryExclusiveGuard<'a, M, L> {
    /// Replaces the newest snapshot; guards of older ones keep them. A thread that asks for the memory
    /// waits until the returned guard is dropped. If an allocation fails, the error is `memory` itself,
    /// and the newest snapshot stays (vm-memory's `GuestMemoryExclusiveGuard::replace`).
    pub fn replace<R: Wait>(
        self,
        rt: &R,
        alloc: Global,
        memory: M,
    ) -> Result<GuestMemoryReplaceGuard<'a, M, L>, M>
        requires { L.allows memory ≡ true }
        ensures put { IfOk result (λ guard. arc_value (write_guard_value guard.newest).snapshot ≡ memory) }
        ensures lock { IfOk result (λ guard. guard.lock.now ≡ self.entry.newest.now) }
        ensures preserved { IfErr result (λ m. m ≡ memory) }
        ensures refused { OnErr result (RoomWasRefused 1) }
    {
        let GuestMemoryExclusiveGuard { newest: lock, turn } = self;
        match shared(alloc, memory) {
            Ok(snapshot) => {
                let mut newest = lock.write(rt);
                *newest = Newest {
                    snapshot,
                    law: PhantomData,
                };
                Ok(GuestMemoryReplaceGuard { newest, lock, turn })
            }
            Err(refused) => Err(refused.value),
        }
    }
}

impl<M: Drop, L: MemoryLaw<M>> GuestMemoryReplaceGuard<'_, M, L> {
    /// The new snapshot's memory.
    pub fn get(&self) -> &M
        ensures { result.now ≡ arc_value (write_guard_value self.now.newest).snapshot }
    {
        &*self.newest.snapshot
    }
}

// The lock is held for reading while `f` runs: a replacement inside `f` never returns.
impl<M: GuestMemory + Drop, L: MemoryLaw<M>> GuestAddressSpace for GuestMemoryAtomic<M, L> {
    type M = M;

    ghost Lends = { λ space m. L.allows m ≡ true };

    fn memory<R: Wait, T, F: FnOnce(&M) -> T>(&self, rt: &R, f: F) -> T {
        f(&*self.shared.newest.read(rt).snapshot)
    }
}
