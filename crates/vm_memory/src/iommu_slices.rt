//! Windows of a range of I/O addresses (vm-memory's `IommuMemorySliceIterator`).

ghost use Rattle.std.specs.Prelude.{◌≡◌, ◌+◌, ◌<◌, ◌^◌, length, true};
ghost use Rattle.std.specs.Iterator.{at_most};
ghost use Rattle.vm_iotlb.specs.AddressRuns.{may_all};
ghost use Rattle.vm_memory.specs.Memory.{circular, table_in};
ghost use Rattle.vm_memory.specs.Slices.{GivesSlice};
ghost use Rattle.vm_memory.specs.Translated.{ranges_in, slices_translated};

use crate::backend::GuestMemoryBackend;
use crate::error::GuestMemoryError;
use crate::slices::GuestMemorySliceIterator;
use crate::translated::translated_window;
use std::marker::Model;
use vm_memory_core::{GuestAddress, HostBlocks, Iotlb, Permissions, VolatileSlice};

/// The windows of consecutive I/O addresses that are mapped throughout (vm-memory's
/// `IommuMemorySliceIterator`). The last item is an error if an address has no place:
/// InvalidGuestAddress.
#[derive(Drop)]
pub struct IommuMemorySliceIterator<'a, M: GuestMemoryBackend> {
    backend: &'a M,
    table: Option<&'a Iotlb>,
    set: usize,
    access: Permissions,
    addr: u64,
    count: usize,
}

impl<'a, M: GuestMemoryBackend> Model for IommuMemorySliceIterator<'a, M> {
    ghost use Rattle.std.specs.Prelude.{◌≡◌, ◌+◌, ◌<◌, ◌^◌, true};
    ghost use Rattle.vm_iotlb.specs.AddressRuns.{may_all};
    ghost use Rattle.vm_iotlb.specs.Ranges.{table_held};
    ghost use Rattle.vm_memory.specs.Memory.{circular};
    ghost use Rattle.vm_memory.specs.Translated.{TranslatedSlices, ranges_of};

    ghost Value = { TranslatedSlices };

    ghost view = { λ i. record {
      layout = M.layout i.backend.now;
      ranges = ranges_of i.table;
      set = i.set;
      access = i.access;
      left = circular i.addr i.count;
    } };

    ghost invariant = { λ i. (i.addr + i.count < 2 ^ 64)
        × (may_all (table_held (ranges_of i.table)) i.access i.addr i.count ≡ true) };
}

impl<'a, M: GuestMemoryBackend> IommuMemorySliceIterator<'a, M> {
    // The windows of the `count` addresses from `addr` on, which a table of the host maps throughout.
    // Writes through them mark a set of I/O pages.
    pub(crate) fn new<H: HostBlocks>(
        backend: &'a M,
        h: &'a H,
        table: usize,
        set: usize,
        access: Permissions,
        addr: GuestAddress,
        count: usize,
    ) -> IommuMemorySliceIterator<'a, M>
        requires ends { addr.0 + count < 2 ^ 64 }
        requires mapped { may_all (table_in (H.host h.now) table) access addr.0 count ≡ true }
        ensures { result ≡ record {
          layout = M.layout backend.now;
          ranges = ranges_in (H.host h.now) table;
          set = set;
          access = access;
          left = circular addr.0 count;
        } }
    {
        IommuMemorySliceIterator {
            backend,
            table: h.table(table),
            set,
            access,
            addr: addr.0,
            count,
        }
    }
}

impl<'a, M: GuestMemoryBackend> Iterator for IommuMemorySliceIterator<'a, M> {
    type Item = Result<VolatileSlice, GuestMemoryError>;

    ghost next_gives = { λ s r t. GivesSlice (slices_translated s) r (slices_translated t) };

    ghost remaining = { λ s. at_most (length s.left) };

    fn next(&mut self) -> Option<Result<VolatileSlice, GuestMemoryError>> {
        if self.count == 0 {
            return None;
        }
        let addr = self.addr;
        let Some(table) = self.table else {
            return None;
        };
        match translated_window(self.backend, table, self.set, self.access, addr, self.count) {
            Some(window) => {
                self.addr = addr + window.len() as u64;
                self.count -= window.len();
                Some(Ok(window))
            }
            None => {
                self.count = 0;
                Some(Err(GuestMemoryError::InvalidGuestAddress(GuestAddress(addr))))
            }
        }
    }
}

impl<'a, M: GuestMemoryBackend> GuestMemorySliceIterator for IommuMemorySliceIterator<'a, M> {
    ghost slices = { slices_translated };

    ghost callable = { λ s. tt };

    ghost by_address = { λ s r t gives. gives };

    fn next_error(&self) -> Option<GuestMemoryError> {
        if self.count == 0 {
            return None;
        }
        let Some(table) = self.table else {
            return None;
        };
        match translated_window(
            self.backend,
            table,
            self.set,
            self.access,
            self.addr,
            self.count,
        ) {
            Some(_) => None,
            None => Some(GuestMemoryError::InvalidGuestAddress(GuestAddress(self.addr))),
        }
    }
}
