//! Windows of a range of guest memory (vm-memory's `GuestMemorySliceIterator`).

ghost use Rattle.std.specs.Prelude.{◌≡◌, List, length, Option, Result, Some, None, IfOk, MatchResult};
ghost use Rattle.std.specs.Iterator.{at_most, Drains};
ghost use Rattle.vm_memory_core.specs.Window.{Window};
ghost use Rattle.vm_memory.specs.Slices.{AreWindowsOf, GivesSlice, GivesWindow, Slices, first_error};
ghost use Rattle.vm_memory.specs.declared.error.GuestMemoryError.{GuestMemoryError};

use crate::error::GuestMemoryError;
use vm_memory_core::VolatileSlice;

/// Windows of some addresses, one after another. The last item is an error if an address has no place
/// (vm-memory's `GuestMemorySliceIterator`).
pub trait GuestMemorySliceIterator: Iterator<Item = Result<VolatileSlice, GuestMemoryError>> {
    // the places of addresses, and the addresses that are left
    ghost slices: { Self → Slices };

    /// The error that `next` returns, if it returns one.
    fn next_error(&self) -> Option<GuestMemoryError>
        ensures { result ≡ first_error (slices self.now) };

    // `next` may always be called
    ghost callable: { (s : Self) → Self.can_next s };

    // `next` returns the window or the error of the first addresses that are left
    ghost by_address: { (s : Self) (r : Option (Result Window GuestMemoryError)) (t : Self)
        → Self.next_gives s r t → GivesSlice (slices s) r (slices t) };

    /// The windows before the first error; that error, if it is the first item.
    final fn stop_on_error(self) -> Result<SlicesBeforeError<Self>, GuestMemoryError>
    where
        Self: Sized,
        ensures outcome { MatchResult result (λ s. (first_error (slices self) ≡ None)
            × (slices s.slices ≡ slices self))
            (λ e. first_error (slices self) ≡ Some e) }
        ensures joined { IfOk result (λ s. (windows : List Window)
            → Drains (λ s r t. GivesWindow (slices s.slices) r (slices t.slices)) s windows
            → AreWindowsOf (slices self) windows) }
    {
        match self.next_error() {
            Some(error) => Err(error),
            None => Ok(SlicesBeforeError { slices: self }),
        }
    }
}

/// Windows up to the first address without a place: the result of `stop_on_error`.
#[derive(Drop)]
pub struct SlicesBeforeError<I: GuestMemorySliceIterator> {
    slices: I,
}

impl<I: GuestMemorySliceIterator> Iterator for SlicesBeforeError<I> {
    type Item = VolatileSlice;

    ghost next_gives = { λ s r t. GivesWindow (I.slices s.slices) r (I.slices t.slices) };

    ghost remaining = { λ s. at_most (length (I.slices s.slices).left) };

    fn next(&mut self) -> Option<VolatileSlice> {
        match self.slices.next() {
            Some(Ok(window)) => Some(window),
            Some(Err(_)) => None,
            None => None,
        }
    }
}
