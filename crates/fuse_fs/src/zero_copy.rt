//! Files that are read and written at an offset, and the writers and readers that serve them.

ghost use Rattle.std.specs.Prelude.{◌≡◌, ℕ, ◌+◌, ◌≤◌, List, [], ◌++◌, length, take, drop, Result, Ok, Err};
ghost use Rattle.std.specs.Prelude.{IfOk, IfErr};
ghost use Rattle.std.specs.Prelude.{Option, option_map, vec_len, vec_capacity, sum};
ghost use Rattle.fuse_fs.specs.Lengths.{past, up_to};
ghost use Rattle.fuse_fs.specs.Transfers.{bytes_answer, moved, ReadsSegments, Spends};

use fuse_base::Errno;

/// The flags of a write at an offset, as of `pwritev2(2)` (`RWF_` in linux/fs.h).
#[derive(Clone, Copy, Debug, PartialEq, Eq)]
pub struct WritevFlags(pub u32);

/// A file that is read and written at an offset, in bytes from its start. The implementer's
/// relations `read_gives` and `write_gives` define its errors.
pub trait PositionedFile {
    // What one read may answer: state before, the most bytes to read, offset, answer, state after.
    ghost read_gives: { Self → ℕ → ℕ → Result (List ℕ) ℕ → Self → Type 0 };

    // What one write may answer: state before, bytes, offset, flags, answer, state after.
    ghost write_gives: { Self → List ℕ → ℕ → Option ℕ → Result ℕ ℕ → Self → Type 0 };

    /// Reads to the front of a buffer, and returns the number of bytes, or an errno of the file's
    /// own. The buffer may hold bytes of a guest, which are no input. The bytes behind those read
    /// stay as they were. With an errno all bytes do.
    fn read_at(&mut self, buf: &mut [u8], off: u64) -> Result<usize, Errno>
        ensures within { IfOk result (λ n. n ≤ length buf.old) }
        ensures rest { buf.new ≡ take (moved result) buf.new ++ drop (moved result) buf.old }
        ensures gives { read_gives self.old (length buf.old) off (bytes_answer result buf.new) self.new };

    /// Writes a buffer's bytes from the first on, and returns how many it wrote, or an errno of the
    /// file's own.
    fn write_at(&mut self, buf: &[u8], off: u64, flags: Option<WritevFlags>) -> Result<usize, Errno>
        ensures within { IfOk result (λ n. n ≤ length buf.now) }
        ensures gives { write_gives self.old buf.now off (option_map (λ f. f.0) flags) result self.new };

    /// Reads at most `most` bytes to the end of a buffer with capacity for them, and returns their number. An
    /// errno is the file's own, and leaves the buffer's bytes as they were. A file whose bytes lie in memory
    /// may copy them directly. The default sets the new bytes to zero, and then calls `read_at`.
    fn append_at(&mut self, out: &mut Vec<u8>, most: usize, off: u64) -> Result<usize, Errno>
        requires { vec_len out.old + most ≤ vec_capacity out.old }
        ensures ok { IfOk result (λ n. (part : List ℕ)
            × (out.new.items ≡ out.old.items ++ part)
            × (n ≡ length part)
            × (n ≤ most)
            × read_gives self.old most off (Ok part) self.new) }
        ensures err { IfErr result (λ e. (out.new.items ≡ out.old.items)
            × read_gives self.old most off (Err e) self.new) }
        ensures capacity { vec_capacity out.old ≤ vec_capacity out.new }
    {
        let from = out.len();
        out.resize(from + most, 0).unwrap();
        match self.read_at(&mut out[from..], off) {
            Ok(n) => {
                out.truncate(from + n);
                Ok(n)
            }
            Err(e) => {
                out.truncate(from);
                Err(e)
            }
        }
    }
}

/// The buffer that a file system reads a file into (virtiofsd's `ZeroCopyWriter`).
pub trait ZeroCopyWriter {
    // These bytes were put in, and nothing else changed: state before, bytes, state after.
    ghost Puts: { Self → List ℕ → Self → Type 0 };

    // The number of bytes that still fit.
    ghost room: { Self → ℕ };

    // The lengths of the segments that these bytes fit into.
    ghost rooms: { Self → List ℕ };

    /// The number of bytes that still fit.
    fn available_bytes(&self) -> usize
        ensures { result ≡ room self.now };

    /// Reads a file at an offset, in bytes from its start, and returns the number of bytes. Each
    /// read fills the rest of one segment. It ends when `count` bytes are read, no room is left, or
    /// the file answers 0 or an errno. EIO if room is left for an offset past 2^64 - 1.
    fn read_from_file_at<F: PositionedFile>(
        &mut self,
        file: &mut F,
        count: usize,
        off: u64,
    ) -> Result<usize, Errno>
        ensures { (bytes : List ℕ)
            × Puts self.old bytes self.new
            × (room self.old ≡ room self.new + length bytes)
            × (rooms self.new ≡ past (length bytes) (rooms self.old))
            × (sum (rooms self.old) ≡ room self.old)
            × ReadsSegments F.read_gives file.old (up_to count (rooms self.old)) off bytes result file.new };

    // putting no bytes in changes nothing
    ghost puts_none: { (w : Self) → Puts w [] w };

    // bytes that are put in after others follow them
    ghost puts_more: { (a b c : Self) (xs ys : List ℕ) → Puts a xs b → Puts b ys c → Puts a (xs ++ ys) c };
}

/// The writer behind a reference. The reference stays the same.
impl<Inner: ZeroCopyWriter> ZeroCopyWriter for &mut Inner {
    ghost use Rattle.std.specs.Prelude.{◌≡◌, refl};
    ghost use Rattle.std.proofs.Common.{◌∙◌};

    ghost Puts = { λ old bytes new. (new.ghost_name ≡ old.ghost_name) × Inner.Puts old.now bytes new.now };

    ghost room = { λ w. Inner.room w.now };

    ghost rooms = { λ w. Inner.rooms w.now };

    ghost puts_none = { λ w. (refl, Inner.puts_none w.now) };

    ghost puts_more = { λ a b c xs ys first second.
        (second.0 ∙ first.0, Inner.puts_more a.now b.now c.now xs ys first.1 second.1) };

    fn available_bytes(&self) -> usize {
        (**self).available_bytes()
    }

    fn read_from_file_at<F: PositionedFile>(
        &mut self,
        file: &mut F,
        count: usize,
        off: u64,
    ) -> Result<usize, Errno> {
        (**self).read_from_file_at(file, count, off)
    }
}

/// The bytes that a file system writes to a file (virtiofsd's `ZeroCopyReader`).
pub trait ZeroCopyReader {
    // The bytes that are left.
    ghost left: { Self → List ℕ };

    // The lengths of the segments that hold them.
    ghost segments: { Self → List ℕ };

    // The number of bytes taken so far.
    ghost read: { Self → ℕ };

    /// The number of bytes that are left.
    fn available_bytes(&self) -> usize
        ensures { result ≡ length (left self.now) };

    /// Writes the bytes that are left to a file at an offset, in bytes from its start, and returns their
    /// number. Each write is of the rest of one segment. It ends when `count` bytes are written, none is
    /// left, or the file answers 0 or an errno. EIO if a byte is left for an offset past 2^64 - 1.
    fn write_to_file_at<F: PositionedFile>(
        &mut self,
        file: &mut F,
        count: usize,
        off: u64,
        flags: Option<WritevFlags>,
    ) -> Result<usize, Errno>
        ensures { (n : ℕ)
            × (n ≤ length (left self.old))
            × (left self.new ≡ drop n (left self.old))
            × (segments self.new ≡ past n (segments self.old))
            × (read self.new ≡ read self.old + n)
            × Spends F.write_gives file.old (take count (left self.old)) (up_to count (segments self.old)) off
            (option_map (λ f. f.0) flags)
            n result file.new };
}

impl<Inner: ZeroCopyReader> ZeroCopyReader for &mut Inner {
    ghost left = { λ r. Inner.left r.now };

    ghost segments = { λ r. Inner.segments r.now };

    ghost read = { λ r. Inner.read r.now };

    fn available_bytes(&self) -> usize {
        (**self).available_bytes()
    }

    fn write_to_file_at<F: PositionedFile>(
        &mut self,
        file: &mut F,
        count: usize,
        off: u64,
        flags: Option<WritevFlags>,
    ) -> Result<usize, Errno> {
        (**self).write_to_file_at(file, count, off, flags)
    }
}
