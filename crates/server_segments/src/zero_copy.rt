//! A file writes from these readers, and reads into these writers (virtiofsd's `ZcReader` and `ZcWriter`).

ghost use Rattle.std.specs.Prelude.{◌≡◌, ℕ, ◌+◌, List, ◌++◌, length, sum};
ghost use Rattle.fuse_fs.specs.Lengths.{past, up_to};
ghost use Rattle.fuse_fs.specs.Transfers.{ReadsSegments};
ghost use Rattle.server_segments.specs.ReaderAndWriterView.{rooms};

use crate::file_reads::read_segments;
use crate::reader::Reader;
use crate::writer::Writer;
use fuse_fs::{PositionedFile, WritevFlags, ZeroCopyReader, ZeroCopyWriter};
use fuse_wire::Errno;

/// A reader of the data of a WRITE. It passes a file one segment after another.
#[derive(Drop)]
pub struct ZcReader<'a> {
    pub reader: Reader<'a>,
}

impl<'a> ZeroCopyReader for ZcReader<'a> {
    ghost left = { λ z. z.reader.left };

    ghost segments = { λ z. z.reader.segments };

    ghost read = { λ z. z.reader.read };

    fn available_bytes(&self) -> usize {
        self.reader.available_bytes()
    }

    fn write_to_file_at<F: PositionedFile>(
        &mut self,
        file: &mut F,
        count: usize,
        off: u64,
        flags: Option<WritevFlags>,
    ) -> Result<usize, Errno> {
        let most = count.min(self.reader.available_bytes());
        let mut done = 0;
        while done < most {
            let Some(place) = off.checked_add(done as u64) else {
                return Err(Errno::EIO);
            };
            let n = self
                .reader
                .write_to_file_at(file, most - done, place, flags)?;
            if n == 0 {
                return Ok(done);
            }
            done += n;
        }
        Ok(done)
    }
}

/// A writer of the data of a READ. A file reads into one segment after another.
#[derive(Drop)]
pub struct ZcWriter {
    pub writer: Writer,
}

impl ZeroCopyWriter for ZcWriter {
    ghost use Rattle.std.proofs.Common.{◌∙◌, append-nil, append_assoc, ap, sym};

    ghost Puts = { λ old bytes new. new.writer.written ≡ old.writer.written ++ bytes };

    ghost room = { λ z. z.writer.free };

    ghost rooms = { λ z. rooms z.writer };

    ghost puts_none = { λ z. sym (append-nil z.writer.written) };

    ghost puts_more = { λ a b c xs ys first second. second ∙ ap (λ front. front ++ ys) first
        ∙ append_assoc a.writer.written xs ys };

    fn available_bytes(&self) -> usize {
        self.writer.available_bytes()
    }

    #[inline(always)]
    fn read_from_file_at<F: PositionedFile>(
        &mut self,
        file: &mut F,
        count: usize,
        off: u64,
    ) -> Result<usize, Errno>
        ensures puts { (bytes : List ℕ)
            × (self.new.writer.written ≡ self.old.writer.written ++ bytes)
            × (self.old.writer.free ≡ self.new.writer.free + length bytes)
            × (rooms self.new.writer ≡ past (length bytes) (rooms self.old.writer))
            × (sum (rooms self.old.writer) ≡ self.old.writer.free)
            × ReadsSegments F.read_gives file.old (up_to count (rooms self.old.writer)) off bytes
            result file.new }
        ensures segments { self.new.writer.segments ≡ self.old.writer.segments }
        ensures rejoin { self.new.writer.rejoin ≡ self.old.writer.rejoin }
        ensures spare { self.new.writer.spare ≡ self.old.writer.spare }
    {
        read_segments(&mut self.writer, file, count, off)
    }
}
