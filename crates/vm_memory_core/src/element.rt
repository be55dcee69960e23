//! Values, and arrays of values, in a window (vm-memory's `VolatileRef`, `VolatileArrayRef`).

ghost use Rattle.std.specs.Prelude.{◌≡◌, ◌==◌, ◌+◌, ◌*◌, ◌<◌, ◌≤◌, length, map, take, drop};
ghost use Rattle.vm_values.specs.Fields.{AllFit, spelled};
ghost use Rattle.vm_memory_core.specs.Host.{lengths, shape};
ghost use Rattle.vm_memory_core.specs.Window.{LiesIn, Stores, byte_in, places_of};
ghost use Rattle.vm_memory_core.specs.Parts.{EachFits, elements_copied, part_of, spelled_all, sub_elements};
ghost use Rattle.vm_memory_core.specs.Parts.{sub_window};

use crate::error::VolatileMemoryError;
use crate::host::HostMemory;
use crate::window::VolatileSlice;
use std::marker::{Model, PhantomData};
use vm_bitmaps::NewBitmap;
use vm_values::ByteValued;

// The greatest number of bytes, and of values, of an array: the greatest `isize`.
const MOST_BYTES: usize = 0x7fff_ffff_ffff_ffff;

/// The place of a value in host memory: a window of its size (vm-memory's `VolatileRef`).
#[derive(Clone, Copy, Debug)]
pub struct VolatileRef<T: ByteValued> {
    place: VolatileSlice,
    of: PhantomData<T>,
}

impl<T: ByteValued> Model for VolatileRef<T> {
    ghost use Rattle.std.specs.Prelude.{◌≡◌};
    ghost use Rattle.vm_memory_core.specs.Window.{Window};

    ghost Value = { Window };

    ghost view = { λ r. r.place };

    ghost invariant = { λ r. r.place.len ≡ T.SIZE };

    ghost inverse = { λ w. record { place = w; of = record {} } };
}

impl<T: ByteValued> VolatileRef<T> {
    /// Reads the value from its bytes.
    pub fn load<B: NewBitmap>(&self, h: &HostMemory<B>) -> T
        requires { LiesIn (lengths h.now) self.now }
        ensures bytes { spelled (T.fields result) ≡ map (byte_in h.now) (places_of self.now) }
        ensures fits { AllFit (T.fields result) }
    {
        T::get_bytes(h.bytes(self.place))
    }

    /// Writes a value's bytes, and marks their pages.
    pub fn store<B: NewBitmap>(&self, h: &mut HostMemory<B>, value: T)
        requires { LiesIn (lengths h.old) self.now }
        ensures stored { Stores h.old h.new (places_of self.now) (spelled (T.fields value)) }
        ensures shape { shape h.new ≡ shape h.old }
    {
        let mut buffer = [0; 256];
        value.put_bytes(&mut buffer[..T::SIZE]);
        h.write(self.place, &buffer[..T::SIZE]);
    }

    /// The number of bytes of the value.
    pub fn len(&self) -> usize
        ensures size { result ≡ T.SIZE }
        ensures len { result ≡ self.now.len }
    {
        self.place.len()
    }

    /// The window of the value's bytes.
    pub fn to_slice(&self) -> VolatileSlice
        ensures { result ≡ self.now }
    {
        self.place
    }
}

/// The places of consecutive values in host memory (vm-memory's `VolatileArrayRef`).
#[derive(Clone, Copy, Debug)]
pub struct VolatileArrayRef<T: ByteValued> {
    window: VolatileSlice,
    count: usize,
    of: PhantomData<T>,
}

impl<T: ByteValued> Model for VolatileArrayRef<T> {
    ghost use Rattle.std.specs.Prelude.{◌≡◌, ◌*◌, ◌<◌, ◌^◌};
    ghost use Rattle.vm_memory_core.specs.Parts.{Elements};

    ghost Value = { Elements };

    ghost view = { λ a. record { window = a.window; count = a.count } };

    ghost invariant = { λ a. (a.window.len ≡ a.count * T.SIZE) × (a.window.len < 2 ^ 64) };

    ghost inverse = { λ e. record { window = e.window; count = e.count; of = record {} } };
}

impl<T: ByteValued> VolatileArrayRef<T> {
    /// The number of values.
    pub fn len(&self) -> usize
        ensures count { result ≡ self.now.count }
        ensures size { self.now.window.len ≡ self.now.count * T.SIZE }
    {
        self.count
    }

    /// Whether there are no values.
    pub fn is_empty(&self) -> bool
        ensures { result ≡ (self.now.count == 0) }
    {
        self.count == 0
    }

    /// The number of bytes of a value.
    pub fn element_size(&self) -> usize
        ensures { result ≡ T.SIZE }
    {
        T::SIZE
    }

    /// The place of the value at `index`.
    #[tactic(auto, using(crate::proofs::ValueLemmas::below_end))]
    pub fn ref_at(&self, index: usize) -> VolatileRef<T>
        requires { index < self.now.count }
        ensures place { result ≡ part_of self.now.window (index * T.SIZE) T.SIZE }
        ensures inside { index * T.SIZE + T.SIZE ≤ self.now.window.len }
    {
        let window = self.window;
        VolatileRef {
            place: window.part(index * T::SIZE, T::SIZE),
            of: PhantomData,
        }
    }

    /// Reads the value at `index`.
    pub fn load<B: NewBitmap>(&self, h: &HostMemory<B>, index: usize) -> T
        requires lies { LiesIn (lengths h.now) self.now.window }
        requires some { index < self.now.count }
        ensures bytes { spelled (T.fields result)
            ≡ map (byte_in h.now) (places_of (part_of self.now.window (index * T.SIZE) T.SIZE)) }
        ensures fits { AllFit (T.fields result) }
    {
        self.ref_at(index).load(h)
    }

    /// Writes the bytes of the value at `index`, and marks their pages.
    pub fn store<B: NewBitmap>(&self, h: &mut HostMemory<B>, index: usize, value: T)
        requires lies { LiesIn (lengths h.old) self.now.window }
        requires some { index < self.now.count }
        ensures stored { Stores h.old h.new (places_of (part_of self.now.window (index * T.SIZE) T.SIZE))
            (spelled (T.fields value)) }
        ensures shape { shape h.new ≡ shape h.old }
    {
        self.ref_at(index).store(h, value);
    }

    /// Reads its first values, as many as both it and `values` have, and returns their number. Values of 0
    /// bytes aren't read.
    #[tactic(auto, using(crate::proofs::ValueLemmas::whole_elements_is))]
    pub fn copy_to<B: NewBitmap>(&self, h: &HostMemory<B>, values: &mut [T]) -> usize
        requires { LiesIn (lengths h.now) self.now.window }
        ensures count { result ≡ elements_copied T.SIZE self.now.count (length values.old) }
        ensures bytes { spelled_all T.fields (take result values.new)
            ≡ map (byte_in h.now) (places_of (part_of self.now.window 0 (result * T.SIZE))) }
        ensures fits { EachFits T.fields (take result values.new) }
        ensures rest { drop result values.new ≡ drop result values.old }
    {
        self.window.copy_to(h, values)
    }

    /// Writes its first values, as many as both it and `values` have, and marks their pages. Values of 0
    /// bytes aren't written.
    #[tactic(auto, using(crate::proofs::ValueLemmas::whole_elements_is))]
    pub fn copy_from<B: NewBitmap>(&self, h: &mut HostMemory<B>, values: &[T])
        requires { LiesIn (lengths h.old) self.now.window }
        ensures stored { Stores h.old h.new (places_of self.now.window)
            (spelled_all T.fields
            (take (elements_copied T.SIZE self.now.count (length values.now)) values.now)) }
        ensures shape { shape h.new ≡ shape h.old }
    {
        self.window.copy_from(h, values);
    }

    /// Copies its first bytes, as many as both have, to a window, and marks the pages there. If the two
    /// overlap, it copies the bytes that it had before.
    pub fn copy_to_volatile_slice<B: NewBitmap>(&self, h: &mut HostMemory<B>, dest: VolatileSlice)
        requires source { LiesIn (lengths h.old) self.now.window }
        requires dest { LiesIn (lengths h.old) dest }
        ensures stored { Stores h.old h.new (places_of dest)
            (map (byte_in h.old) (places_of self.now.window)) }
        ensures shape { shape h.new ≡ shape h.old }
    {
        self.window.copy_to_volatile_slice(h, dest);
    }

    /// The window that the values fill.
    pub fn to_slice(&self) -> VolatileSlice
        ensures { result ≡ self.now.window }
    {
        self.window
    }
}

impl VolatileSlice {
    /// The place of a value at `offset` (vm-memory's `VolatileSlice::get_ref`). Overflow if its end doesn't
    /// fit 64 bits. OutOfBounds if the window doesn't have all of it.
    pub fn get_ref<T: ByteValued>(
        &self,
        offset: usize,
    ) -> Result<VolatileRef<T>, VolatileMemoryError>
        ensures { result ≡ sub_window self.now offset T.SIZE }
    {
        match self.subslice(offset, T::SIZE) {
            Ok(place) => Ok(VolatileRef {
                place,
                of: PhantomData,
            }),
            Err(error) => Err(error),
        }
    }

    /// The places of `n` values from `offset` on (vm-memory's `VolatileSlice::get_array_ref`). TooBig if `n`
    /// or their bytes are 2^63 or more. Overflow if their end doesn't fit 64 bits. OutOfBounds if the window
    /// doesn't have all of them.
    pub fn get_array_ref<T: ByteValued>(
        &self,
        offset: usize,
        n: usize,
    ) -> Result<VolatileArrayRef<T>, VolatileMemoryError>
        ensures { result ≡ sub_elements self.now offset n T.SIZE }
    {
        let nbytes = match n.checked_mul(T::SIZE) {
            Some(nbytes) if n <= MOST_BYTES && nbytes <= MOST_BYTES => nbytes,
            _ => {
                let size = T::SIZE;
                return Err(VolatileMemoryError::TooBig { nelements: n, size });
            }
        };
        match self.subslice(offset, nbytes) {
            Ok(window) => Ok(VolatileArrayRef {
                window,
                count: n,
                of: PhantomData,
            }),
            Err(error) => Err(error),
        }
    }
}

/// The bytes of a window, as values.
impl From<VolatileSlice> for VolatileArrayRef<u8> {
    ghost from_gives = { λ w a. a ≡ record { window = w; count = w.len } };

    fn from(window: VolatileSlice) -> VolatileArrayRef<u8> {
        VolatileArrayRef {
            window,
            count: window.len(),
            of: PhantomData,
        }
    }
}
