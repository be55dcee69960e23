//! Owners of guest memory that lend it for a call (vm-memory's `GuestAddressSpace`).

ghost use Rattle.std.specs.Prelude.{◌≡◌};
ghost use Rattle.std.specs.Fn.{FnOnceReturnsAt};

use std::alloc::Global;
use std::rc::Rc;
use std::sync::{Arc, Wait};
use vm_memory::GuestMemory;

/// A reference, an `Rc`, an `Arc` or a `GuestMemoryAtomic`, which lends guest memory for one call at a
/// time (vm-memory's `GuestAddressSpace`, whose `memory` returns a guard).
pub trait GuestAddressSpace {
    /// The type of the memory that it lends.
    type M: GuestMemory;

    // the memory that it may lend
    ghost Lends: { Self → Self.M → Type 0 };

    /// Calls `f` once with the memory, and returns the result of `f`. It may wait for a thread that
    /// replaces the memory.
    fn memory<R: Wait, T, F: FnOnce(&Self::M) -> T>(&self, rt: &R, f: F) -> T
        requires { F.IsAlwaysCallable f }
        ensures lent { (m : _) × Lends self.now m × FnOnceReturnsAt F.FnOnce f m result };
}

impl<M: GuestMemory> GuestAddressSpace for &M {
    type M = M;

    ghost Lends = { λ space m. m ≡ space.now };

    fn memory<R: Wait, T, F: FnOnce(&M) -> T>(&self, _rt: &R, f: F) -> T {
        f(&**self)
    }
}

impl<M: GuestMemory> GuestAddressSpace for Rc<M, Global> {
    ghost use Rattle.std.specs.Rc.{rc_value};

    type M = M;

    ghost Lends = { λ space m. m ≡ rc_value space };

    fn memory<R: Wait, T, F: FnOnce(&M) -> T>(&self, _rt: &R, f: F) -> T {
        f(&**self)
    }
}

impl<M: GuestMemory> GuestAddressSpace for Arc<M, Global> {
    ghost use Rattle.std.specs.Arc.{arc_value};

    type M = M;

    ghost Lends = { λ space m. m ≡ arc_value space };

    fn memory<R: Wait, T, F: FnOnce(&M) -> T>(&self, _rt: &R, f: F) -> T {
        f(&**self)
    }
}
