//! Reads of a file into a buffer in segments, one read for each segment.

ghost use Rattle.std.specs.Prelude.{◌≡◌, ℕ, ◌+◌, List, [], ◌++◌, length, min, sum};
ghost use Rattle.fuse_fs.specs.Lengths.{filled, first, past, up_to};
ghost use Rattle.fuse_fs.specs.Transfers.{ReadsOnce, ReadsSegments};

use crate::writer::Writer;
use fuse_fs::PositionedFile;
use fuse_wire::Errno;

/// A buffer in segments that a file reads into.
pub trait SegmentBuffer {
    // These bytes were put in, and nothing else changed: state before, bytes, state after.
    ghost Puts: { Self → List ℕ → Self → Type 0 };

    // The number of bytes that still fit.
    ghost room: { Self → ℕ };

    // The lengths of the segments that these bytes fit into.
    ghost rooms: { Self → List ℕ };

    /// The number of bytes that still fit.
    fn free_bytes(&self) -> usize
        ensures free { result ≡ room self.now }
        ensures all { sum (rooms self.now) ≡ room self.now }
        ensures some { filled (rooms self.now) ≡ rooms self.now };

    /// Reads from a file, by one call, at most `count` bytes into the first segment with free bytes.
    /// Returns the number of bytes read. Without a free byte, or with `count` 0, it makes no call and
    /// returns 0. An errno is the file's own; nothing is then put in.
    fn read_once<F: PositionedFile>(
        &mut self,
        file: &mut F,
        count: usize,
        off: u64,
    ) -> Result<usize, Errno>
        ensures { (bytes : List ℕ)
            × Puts self.old bytes self.new
            × (room self.old ≡ room self.new + length bytes)
            × (rooms self.new ≡ past (length bytes) (rooms self.old))
            × ReadsOnce F.read_gives file.old (min count (first (rooms self.old))) off bytes
            result file.new };

    // putting no bytes in changes nothing
    ghost puts_none: { (b : Self) → Puts b [] b };

    // bytes that are put in after others follow them
    ghost puts_more: { (a b c : Self) (xs ys : List ℕ) → Puts a xs b → Puts b ys c → Puts a (xs ++ ys) c };
}

impl SegmentBuffer for Writer {
    ghost use Rattle.std.proofs.Common.{◌∙◌, append-nil, append_assoc, ap, sym, refl};
    ghost use Rattle.server_segments.specs.ReaderAndWriterView.{rooms};

    ghost Puts = { λ old bytes new. (new.written ≡ old.written ++ bytes)
        × (new.segments ≡ old.segments)
        × (new.rejoin ≡ old.rejoin)
        × (new.spare ≡ old.spare) };

    ghost room = { λ w. w.free };

    ghost rooms = { λ w. rooms w };

    ghost puts_none = { λ w. (sym (append-nil w.written), refl, refl, refl) };

    ghost puts_more = { λ a b c xs ys first second. (
      second.0 ∙ ap (λ front. front ++ ys) first.0 ∙ append_assoc a.written xs ys,
      second.1 ∙ first.1,
      second.2 ∙ first.2,
      second.3 ∙ first.3,
    ) };

    fn free_bytes(&self) -> usize {
        self.available_bytes()
    }

    #[inline(always)]
    fn read_once<F: PositionedFile>(
        &mut self,
        file: &mut F,
        count: usize,
        off: u64,
    ) -> Result<usize, Errno> {
        self.read_from_file_at(file, count, off)
    }
}

/// Reads a file at an offset into one segment after another, and returns the number of bytes. It ends
/// when `count` bytes are read, no room is left, or the file answers 0 or an errno. EIO if room is left
/// for an offset past 2^64 - 1.
#[inline(always)]
pub fn read_segments<B: SegmentBuffer, F: PositionedFile>(
    buffer: &mut B,
    file: &mut F,
    count: usize,
    off: u64,
) -> Result<usize, Errno>
    ensures { (bytes : List ℕ)
        × B.Puts buffer.old bytes buffer.new
        × (B.room buffer.old ≡ B.room buffer.new + length bytes)
        × (B.rooms buffer.new ≡ past (length bytes) (B.rooms buffer.old))
        × (sum (B.rooms buffer.old) ≡ B.room buffer.old)
        × ReadsSegments F.read_gives file.old (up_to count (B.rooms buffer.old)) off bytes result file.new }
{
    let most = count.min(buffer.free_bytes());
    let mut done = 0;
    while done < most {
        let Some(place) = off.checked_add(done as u64) else {
            return Err(Errno::EIO);
        };
        let n = buffer.read_once(file, most - done, place)?;
        if n == 0 {
            return Ok(done);
        }
        done += n;
    }
    Ok(done)
}
