//! Copies between windows and lists of values, and from one window to another.

ghost use Rattle.std.specs.Prelude.{◌≡◌, ◌+◌, ◌*◌, ◌<◌, ◌≤◌, ◌++◌, length, map, take, drop, min};
ghost use Rattle.vm_memory_core.specs.Host.{lengths, shape};
ghost use Rattle.vm_memory_core.specs.Window.{LiesIn, Stores, byte_in, places_of};
ghost use Rattle.vm_memory_core.specs.Parts.{EachFits, part_of, spelled_all, whole_elements};

use crate::host::HostMemory;
use crate::window::VolatileSlice;
use vm_bitmaps::NewBitmap;
use vm_values::ByteValued;

/// Copies bytes into a buffer from offset `at` on.
pub fn put_at(buffer: &mut [u8], at: usize, bytes: &[u8])
    requires { at + length bytes.now ≤ length buffer.old }
    ensures stored { buffer.new ≡ take at buffer.old ++ bytes.now ++ drop (at + length bytes.now) buffer.old }
    ensures len { length buffer.new ≡ length buffer.old }
{
    buffer[at..at + bytes.len()].copy_from_slice(bytes);
}

// Reads values from their bytes, one after another.
fn get_values<T: ByteValued>(bytes: &[u8], out: &mut [T])
    requires { length bytes.now ≡ length out.old * T.SIZE }
    ensures bytes { spelled_all T.fields out.new ≡ bytes.now }
    ensures fits { EachFits T.fields out.new }
{
    let mut at = 0;
    for k in 0..out.len() {
        out[k] = T::get_bytes(&bytes[at..at + T::SIZE]);
        at += T::SIZE;
    }
}

// Writes the bytes of values, one after another, to a buffer from offset `at` on.
pub(crate) fn put_values<T: ByteValued>(buffer: &mut [u8], at: usize, values: &[T])
    requires { at + length values.now * T.SIZE ≤ length buffer.old }
    ensures stored { buffer.new ≡ take at buffer.old ++ spelled_all T.fields values.now
        ++ drop (at + length values.now * T.SIZE) buffer.old }
    ensures count { length (spelled_all T.fields values.now) ≡ length values.now * T.SIZE }
    ensures len { length buffer.new ≡ length buffer.old }
{
    let mut place = at;
    for k in 0..values.len() {
        values[k].put_bytes(&mut buffer[place..place + T::SIZE]);
        place += T::SIZE;
    }
}

// The smaller of `count` and the number of whole values in `len` bytes; 0 for values of 0 bytes.
fn whole_values<T: ByteValued>(len: usize, count: usize) -> usize
    ensures whole { result ≡ whole_elements T.SIZE len count }
    ensures fits { result * T.SIZE ≤ len }
    ensures most { result ≤ count }
{
    if T::SIZE == 0 {
        0
    } else {
        (len / T::SIZE).min(count)
    }
}

impl VolatileSlice {
    /// Reads as many whole values as both it and `values` have, and returns their number (vm-memory's
    /// `VolatileSlice::copy_to`). Values of 0 bytes aren't read.
    pub fn copy_to<T: ByteValued, B: NewBitmap>(&self, h: &HostMemory<B>, values: &mut [T]) -> usize
        requires { LiesIn (lengths h.now) self.now }
        ensures count { result ≡ whole_elements T.SIZE self.now.len (length values.old) }
        ensures bytes { spelled_all T.fields (take result values.new)
            ≡ map (byte_in h.now) (places_of (part_of self.now 0 (result * T.SIZE))) }
        ensures fits { EachFits T.fields (take result values.new) }
        ensures rest { drop result values.new ≡ drop result values.old }
    {
        let count = whole_values::<T>(self.len(), values.len());
        let part = self.part(0, count * T::SIZE);
        get_values(h.bytes(part), &mut values[..count]);
        count
    }

    /// Writes as many whole values as both it and `values` have, and marks their pages (vm-memory's
    /// `VolatileSlice::copy_from`). Values of 0 bytes aren't written.
    pub fn copy_from<T: ByteValued, B: NewBitmap>(&self, h: &mut HostMemory<B>, values: &[T])
        requires { LiesIn (lengths h.old) self.now }
        ensures stored { Stores h.old h.new (places_of self.now)
            (spelled_all T.fields
            (take (whole_elements T.SIZE self.now.len (length values.now)) values.now)) }
        ensures shape { shape h.new ≡ shape h.old }
    {
        let count = whole_values::<T>(self.len(), values.len());
        h.write_values(*self, &values[..count]);
    }

    /// Copies its first bytes, as many as both windows have, to `dest`, and marks the pages there
    /// (vm-memory's `VolatileSlice::copy_to_volatile_slice`). If the two overlap, it copies the bytes that
    /// it had before.
    pub fn copy_to_volatile_slice<B: NewBitmap>(&self, h: &mut HostMemory<B>, dest: VolatileSlice)
        requires source { LiesIn (lengths h.old) self.now }
        requires dest { LiesIn (lengths h.old) dest }
        ensures stored { Stores h.old h.new (places_of dest) (map (byte_in h.old) (places_of self.now)) }
        ensures shape { shape h.new ≡ shape h.old }
    {
        let count = self.len().min(dest.len());
        h.copy_window(self.part(0, count), dest.part(0, count));
    }
}
