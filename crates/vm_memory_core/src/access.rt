//! Reads and writes of bytes by their address (vm-memory's `Bytes`).

ghost use Rattle.std.specs.Prelude.{◌≡◌, ◌==◌, ◌≤◌, ℕ, List, Result, Ok, length, if◌then◌else◌};
ghost use Rattle.vm_values.specs.Fields.{spelled};
ghost use Rattle.vm_memory_core.specs.Host.{Host, Place, lengths, shape};
ghost use Rattle.vm_memory_core.specs.Window.{LiesIn};
ghost use Rattle.vm_memory_core.specs.Access.{ReadsAll, ReadsSome, ReadsValue, WritesAll, WritesSome};
ghost use Rattle.vm_memory_core.specs.Access.{reached_places};
ghost use Rattle.vm_memory_core.specs.ReachedProof.{length-reached_places};
ghost use Rattle.vm_iotlb.specs.declared.permissions.Permissions.{Permissions};
ghost use Rattle.vm_memory_core.specs.declared.error.VolatileMemoryError.TheVariants.{PartialBuffer};

use crate::copy::put_at;
use crate::error::VolatileMemoryError;
use crate::host::HostMemory;
use crate::window::VolatileSlice;
use vm_bitmaps::NewBitmap;
use vm_iotlb::Permissions;
use vm_values::ByteValued;

/// Memory whose bytes are read and written by their address (vm-memory's `Bytes`). Each call borrows the
/// host.
pub trait Bytes<A> {
    /// The error of a refused access (vm-memory's `Bytes::E`).
    type E;

    // whether a host has this memory
    ghost IsHeld: { Self → Host → Type 0 };

    // an access of n bytes from an address on may reach these places, or be refused with this error
    ghost Reaches: { Self → Host → A → ℕ → Permissions → Result (List Place) Self.E → Type 0 };

    // the error of an access to n bytes of which it reaches only k
    ghost partial: { ℕ → ℕ → Self.E };

    /// Reads as many bytes as the memory has there, at most the buffer's length, and returns their number
    /// (vm-memory's `Bytes::read`). With an error it reads none.
    fn read<B: NewBitmap>(
        &self,
        h: &HostMemory<B>,
        buf: &mut [u8],
        addr: A,
    ) -> Result<usize, Self::E>
        requires { IsHeld self.now h.now }
        ensures { ReadsSome (Reaches self.now h.now addr (length buf.old) Permissions.Read) h.now buf.old
            buf.new result };

    /// Writes as many bytes as the memory has there, at most the buffer's length, marks their pages, and
    /// returns their number (vm-memory's `Bytes::write`). With an error it writes none.
    fn write<B: NewBitmap>(
        &self,
        h: &mut HostMemory<B>,
        buf: &[u8],
        addr: A,
    ) -> Result<usize, Self::E>
        requires { IsHeld self.now h.old }
        ensures written { WritesSome (Reaches self.now h.old addr (length buf.now) Permissions.Write) buf.now
            h.old h.new result }
        ensures held { IsHeld self.now h.new }
        ensures shape { shape h.new ≡ shape h.old };

    /// Fills a buffer (vm-memory's `Bytes::read_slice`). If the memory has only some of the bytes there, it
    /// reads these, and the error is `partial`, such as PartialBuffer. Other errors are those of `read`.
    fn read_slice<B: NewBitmap>(
        &self,
        h: &HostMemory<B>,
        buf: &mut [u8],
        addr: A,
    ) -> Result<(), Self::E>
        requires { IsHeld self.now h.now }
        ensures { ReadsAll (Reaches self.now h.now addr (length buf.old) Permissions.Read) partial h.now
            buf.old buf.new result };

    /// Writes all of a buffer, and marks the pages (vm-memory's `Bytes::write_slice`). If the memory has only
    /// some of the bytes there, it writes these, and the error is `partial`, such as PartialBuffer. Other
    /// errors are those of `write`.
    fn write_slice<B: NewBitmap>(
        &self,
        h: &mut HostMemory<B>,
        buf: &[u8],
        addr: A,
    ) -> Result<(), Self::E>
        requires { IsHeld self.now h.old }
        ensures written { WritesAll (Reaches self.now h.old addr (length buf.now) Permissions.Write) partial
            buf.now h.old h.new result }
        ensures held { IsHeld self.now h.new }
        ensures shape { shape h.new ≡ shape h.old };

    /// Reads a value from its bytes at an address, by `ByteValued` (vm-memory's `Bytes::read_obj`). The
    /// errors are those of `read_slice`.
    final fn read_obj<T: ByteValued, B: NewBitmap>(
        &self,
        h: &HostMemory<B>,
        addr: A,
    ) -> Result<T, Self::E>
        requires { IsHeld self.now h.now }
        ensures { ReadsValue (Reaches self.now h.now addr T.SIZE Permissions.Read) partial T.fields T.SIZE
            h.now result }
    {
        let mut buffer = [0; 256];
        let bytes = &mut buffer[..T::SIZE];
        match self.read_slice(h, bytes, addr) {
            Ok(()) => Ok(T::get_bytes(bytes)),
            Err(error) => Err(error),
        }
    }

    /// Writes a value's bytes at an address, and marks their pages (vm-memory's `Bytes::write_obj`). The
    /// errors are those of `write_slice`: with `partial` some of the bytes are written.
    final fn write_obj<T: ByteValued, B: NewBitmap>(
        &self,
        h: &mut HostMemory<B>,
        value: T,
        addr: A,
    ) -> Result<(), Self::E>
        requires { IsHeld self.now h.old }
        ensures written { WritesAll (Reaches self.now h.old addr T.SIZE Permissions.Write) partial
            (spelled (T.fields value)) h.old h.new result }
        ensures held { IsHeld self.now h.new }
        ensures shape { shape h.new ≡ shape h.old }
    {
        let mut buffer = [0; 256];
        value.put_bytes(&mut buffer[..T::SIZE]);
        self.write_slice(h, &buffer[..T::SIZE], addr)
    }

    // an access reaches at most as many places as it asks for
    ghost at_most: { (m : Self) (h : Host) (a : A) (n : ℕ) (p : Permissions) (places : List Place)
        → Reaches m h a n p (Ok places)
        → length places ≤ n };
}

/// A window's bytes, addressed from its start. OutOfBounds if it has no byte at the start of an access that
/// isn't empty. PartialBuffer if `read_slice`, `write_slice` or their like reach only some of the bytes.
impl Bytes<usize> for VolatileSlice {
    type E = VolatileMemoryError;

    ghost IsHeld = { λ w h. LiesIn (lengths h) w };

    ghost Reaches = { λ w h a n p places. places ≡ reached_places w a n };

    ghost partial = { λ n k. PartialBuffer n k };

    ghost at_most = { λ w h a n p places e. length-reached_places w a n places e };

    fn read<B: NewBitmap>(
        &self,
        h: &HostMemory<B>,
        buf: &mut [u8],
        addr: usize,
    ) -> Result<usize, VolatileMemoryError> {
        match self.reached_part(addr, buf.len()) {
            Ok(window) => {
                put_at(buf, 0, h.bytes(window));
                Ok(window.len())
            }
            Err(error) => Err(error),
        }
    }

    fn write<B: NewBitmap>(
        &self,
        h: &mut HostMemory<B>,
        buf: &[u8],
        addr: usize,
    ) -> Result<usize, VolatileMemoryError> {
        match self.reached_part(addr, buf.len()) {
            Ok(window) => {
                h.write(window, &buf[..window.len()]);
                Ok(window.len())
            }
            Err(error) => Err(error),
        }
    }

    fn read_slice<B: NewBitmap>(
        &self,
        h: &HostMemory<B>,
        buf: &mut [u8],
        addr: usize,
    ) -> Result<(), VolatileMemoryError> {
        match self.read(h, buf, addr) {
            Ok(completed) => in_full(buf.len(), completed),
            Err(error) => Err(error),
        }
    }

    fn write_slice<B: NewBitmap>(
        &self,
        h: &mut HostMemory<B>,
        buf: &[u8],
        addr: usize,
    ) -> Result<(), VolatileMemoryError> {
        match self.write(h, buf, addr) {
            Ok(completed) => in_full(buf.len(), completed),
            Err(error) => Err(error),
        }
    }
}

// Ok if an access reached all of its bytes, else PartialBuffer.
fn in_full(expected: usize, completed: usize) -> Result<(), VolatileMemoryError>
    ensures { result ≡ if completed == expected then Ok tt else Err (PartialBuffer expected completed) }
{
    if completed == expected {
        Ok(())
    } else {
        Err(VolatileMemoryError::PartialBuffer {
            expected,
            completed,
        })
    }
}
