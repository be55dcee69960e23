//! Windows of I/O addresses, by the pieces to which a table maps them.

ghost use Rattle.std.specs.Prelude.{◌≡◌, ◌+◌, ◌-◌, ◌<◌, ◌^◌, ℕ, List, ◌∷◌, None, IfSome, MatchOption, min};
ghost use Rattle.std.specs.Prelude.{true};
ghost use Rattle.vm_iotlb.specs.Table.{Table};
ghost use Rattle.vm_iotlb.specs.AddressRuns.{may_all, pieces};
ghost use Rattle.vm_iotlb.specs.declared.permissions.Permissions.{Permissions};
ghost use Rattle.vm_iotlb.specs.Ranges.{table_held};
ghost use Rattle.vm_memory_core.specs.Window.{LiesIn};
ghost use Rattle.vm_memory.specs.Layout.{AreHeld};
ghost use Rattle.vm_memory.specs.Slices.{IsWindowAt};
ghost use Rattle.vm_memory.specs.Translated.{translated, translated_left, AreLeft, MappedLeft};

use crate::backend::GuestMemoryBackend;
use crate::slice_iterator::window_at;
use vm_memory_core::{GuestAddress, Iotlb, IotlbIterator, MappedRange, Permissions, VolatileSlice};

// The longest window from an I/O address on, of at most `most` bytes, which are all mapped with the
// permission. None if the address has no place. Writes through it mark a set of I/O pages.
#[inline]
pub(crate) fn translated_window<M: GuestMemoryBackend>(
    backend: &M,
    table: &Iotlb,
    set: usize,
    access: Permissions,
    addr: u64,
    most: usize,
) -> Option<VolatileSlice>
    requires some { 0 < most }
    requires ends { addr + most < 2 ^ 64 }
    requires mapped { may_all (table_held table.now) access addr most ≡ true }
    ensures none { result ≡ None
        → translated (M.layout backend.now) (table_held table.now) set access addr ≡ None }
    ensures some { IfSome result
        (IsWindowAt (translated (M.layout backend.now) (table_held table.now) set access) addr most) }
    ensures longest { IfSome result
        (λ w. w.len ≡ min most (translated_left (M.layout backend.now) (table_held table.now) addr)) }
    ensures held { (lengths : List ℕ)
        → AreHeld lengths (M.layout backend.now)
        → IfSome result (LiesIn lengths) }
{
    let Some(piece) = table.first_piece(GuestAddress(addr), most) else {
        return None;
    };
    match window_at(backend, piece.base.0, piece.length) {
        Some(window) => Some(window.replace_bitmap(set, addr)),
        None => None,
    }
}

// The pieces to which the addresses that are left are mapped: the rest of a piece, and the pieces after
// it.
#[derive(Drop)]
pub(crate) struct PiecesLeft<'a> {
    piece: MappedRange,
    rest: IotlbIterator<'a>,
}

impl<'a> PiecesLeft<'a> {
    // Nothing of these pieces was used yet.
    #[inline]
    pub(crate) fn new(pieces: IotlbIterator<'a>) -> PiecesLeft<'a>
        ensures { result
            ≡ record { piece = record { base = record { 0 = 0 }; length = 0 }; rest = pieces.entry } }
    {
        let none = MappedRange {
            base: GuestAddress(0),
            length: 0,
        };
        PiecesLeft {
            piece: none,
            rest: pieces,
        }
    }

    // The first piece that is left.
    #[inline]
    fn first(&mut self) -> Option<MappedRange>
        requires fits { self.old.piece.base.0 + self.old.piece.length < 2 ^ 64 }
        ensures fits { IfSome result (λ p. p.base.0 + p.length < 2 ^ 64) }
        ensures first { (table : Table) (a n : ℕ) → 0 < n → AreLeft table a n self.old.piece self.old.rest →
            MatchOption result ⊥ (λ p. pieces table a n ≡ p ∷ self.new.rest) }
    {
        if 0 < self.piece.length {
            return Some(self.piece);
        }
        self.rest.next()
    }

    // The longest window from `addr` on, the first address that is left; its part is removed from the
    // pieces. None if the address has no place. Writes through it mark a set of I/O pages.
    #[inline]
    pub(crate) fn next_window<M: GuestMemoryBackend>(
        &mut self,
        backend: &M,
        set: usize,
        addr: u64,
    ) -> Option<VolatileSlice>
        requires { (table : Table) × (access : Permissions) × (n : ℕ)
            × MappedLeft table access addr n self.old.piece self.old.rest }
        ensures none { (table : Table) (access : Permissions) (n : ℕ)
            → MappedLeft table access addr n self.old.piece self.old.rest
            →
            result ≡ None
            → translated (M.layout backend.now) table set access addr ≡ None }
        ensures some { (table : Table) (access : Permissions) (n : ℕ)
            → MappedLeft table access addr n self.old.piece self.old.rest
            →
            IfSome result (IsWindowAt (translated (M.layout backend.now) table set access) addr n) }
        ensures longest { (table : Table) (access : Permissions) (n : ℕ)
            → MappedLeft table access addr n self.old.piece self.old.rest
            →
            IfSome result (λ w. w.len ≡ min n (translated_left (M.layout backend.now) table addr)) }
        ensures left { (table : Table) (access : Permissions) (n : ℕ)
            → MappedLeft table access addr n self.old.piece self.old.rest
            →
            IfSome result (λ w. AreLeft table (addr + w.len) (n - w.len) self.new.piece self.new.rest) }
        ensures held { (lengths : List ℕ)
            → AreHeld lengths (M.layout backend.now)
            → IfSome result (LiesIn lengths) }
    {
        let Some(piece) = self.first() else {
            return None;
        };
        let Some(window) = window_at(backend, piece.base.0, piece.length) else {
            return None;
        };
        self.piece = MappedRange {
            base: GuestAddress(piece.base.0 + window.len() as u64),
            length: piece.length - window.len(),
        };
        Some(window.replace_bitmap(set, addr))
    }
}
