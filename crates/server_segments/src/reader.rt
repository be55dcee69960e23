//! The reader of a request (virtiofsd's `Reader`).

ghost use Rattle.std.specs.Prelude.{◌≡◌, ◌+◌, ◌<◌, ◌≤◌, ◌^◌, min, sum, [], ◌∷◌, ◌++◌, length, take, drop};
ghost use Rattle.std.specs.Prelude.{cond, nat_le};
ghost use Rattle.std.specs.Prelude.{Some, IsOk, IfOk, OnOk, IfErr, OnErr, IfSome, OnSome, IfNone, option_map};
ghost use Rattle.std.specs.Io.{ReadsAtMost};
ghost use Rattle.std.specs.Io.KnownBytes.{Consumes, ReadConsumes};
ghost use Rattle.std.specs.IoError.{error_kind};
ghost use Rattle.vm_values.specs.Fields.{spelled, AllFit};
ghost use Rattle.fuse_fs.specs.Lengths.{filled, first, past, up_to};
ghost use Rattle.server_segments.specs.Segments.{joined, all_of, segment_lengths};
ghost use Rattle.fuse_fs.specs.Transfers.{moved, WritesOnce};

use crate::error::Error;
use fuse_fs::{PositionedFile, WritevFlags};
use fuse_wire::Errno;
use std::alloc::Global;
use std::collections::VecDeque;
use std::io::{ErrorKind, Read};
use std::marker::Model;
use std::{io, mem};
use vm_values::ByteValued;

/// A reader: the unread bytes of a request, in segments.
#[derive(Drop)]
pub struct Reader<'a> {
    first: &'a [u8],
    later: VecDeque<&'a [u8]>,
    left: usize,
    read: usize,
}

impl<'a> Model for Reader<'a> {
    ghost use Rattle.std.specs.Prelude.{◌≡◌, ◌+◌, ◌<◌, ◌^◌, [], ◌∷◌, length};
    ghost use Rattle.server_segments.specs.ReaderAndWriterView.{ReaderView};
    ghost use Rattle.fuse_fs.specs.Lengths.{filled};
    ghost use Rattle.server_segments.specs.Segments.{all_of, segment_lengths};

    ghost Value = { ReaderView };

    ghost view = { λ r. record {
      left = all_of r.first.now r.later.items;
      segments = filled (length r.first.now ∷ segment_lengths r.later.items);
      read = r.read;
    } };

    ghost invariant = { λ r. (r.left ≡ length (all_of r.first.now r.later.items)) × (r.left + r.read < 2 ^ 64)
        × (length r.first.now ≡ 0 → r.later.items ≡ []) };
}

// The first of `segment` and `later` that isn't empty, removed from `later` with all before it. An
// empty segment if all are empty.
fn next_filled<'a>(segment: &'a [u8], later: &mut VecDeque<&'a [u8]>) -> &'a [u8]
    ensures all { all_of result.now later.new.items ≡ all_of segment.now later.old.items }
    ensures segments { filled (length result.now ∷ segment_lengths later.new.items)
        ≡ filled (length segment.now ∷ segment_lengths later.old.items) }
    ensures end { length result.now ≡ 0 → later.new.items ≡ [] }
{
    let mut current = segment;
    while current.is_empty() {
        match later.pop_front() {
            Some(next) => current = next,
            None => return current,
        }
    }
    current
}

// Removes the first `offset` bytes from a queue of segments. Returns them as a queue, with the rest
// of the segment in which they end.
#[tactic(auto, using(crate::proofs::Cutting::nothing_past))]
fn take_front<'a>(
    alloc: Global,
    queue: &mut VecDeque<&'a [u8]>,
    offset: usize,
) -> Result<(VecDeque<&'a [u8]>, &'a [u8]), Error>
    requires { offset ≤ length (joined queue.old.items) }
    ensures front { IfOk result (λ p. joined p.0.items ≡ take offset (joined queue.old.items)) }
    ensures rest { IfOk result (λ p. all_of p.1.now queue.new.items ≡ drop offset (joined queue.old.items)) }
    ensures before { IfOk result
        (λ p. filled (segment_lengths p.0.items) ≡ up_to offset (filled (segment_lengths queue.old.items))) }
    ensures behind { IfOk result
        (λ p. filled (length p.1.now ∷ segment_lengths queue.new.items)
        ≡ past offset (filled (segment_lengths queue.old.items))) }
    ensures err { IfErr result (λ e. (e ≡ Error.OutOfMemory) × (queue.new ≡ queue.old)) }
{
    let Ok(mut front) = VecDeque::with_capacity(alloc, queue.len()) else {
        return Err(Error::OutOfMemory);
    };
    let mut rest: &'a [u8] = &[];
    let mut part = offset;
    while part > 0 {
        match queue.pop_front() {
            Some(segment) => {
                let n = part.min(segment.len());
                front.push_back(&segment[..n]).unwrap();
                rest = &segment[n..];
                part -= n;
            }
            None => return Ok((front, rest)),
        }
    }
    Ok((front, rest))
}

// Overwrites the first bytes of `buf`.
pub(crate) fn write_front(buf: &mut [u8], front: &[u8])
    requires { length front.now ≤ length buf.old }
    ensures { buf.new ≡ front.now ++ drop (length front.now) buf.old }
{
    buf[..front.len()].copy_from_slice(front);
}

// Overwrites the bytes of `buf` from `at` on.
#[tactic(auto, using(crate::proofs::Filling::placed))]
fn write_at(buf: &mut [u8], at: usize, bytes: &[u8])
    requires { at + length bytes.now ≤ length buf.old }
    ensures { buf.new ≡ take at buf.old ++ bytes.now ++ drop (at + length bytes.now) buf.old }
{
    write_front(&mut buf[at..], bytes);
}

impl<'a> Reader<'a> {
    /// A reader of these segments, one after another. `DescriptorChainOverflow` if the sum of their
    /// lengths doesn't fit usize.
    pub fn new(segments: Vec<&'a [u8]>) -> Result<Reader<'a>, Error>
        ensures ok { IfOk result
            (λ r. (r.left ≡ joined segments.entry.items)
            × (r.segments ≡ filled (segment_lengths segments.entry.items))
            × (r.read ≡ 0)) }
        ensures fits { OnOk result (length (joined segments.entry.items) < 2 ^ 64) }
        ensures err { IfErr result (λ e. (e ≡ Error.DescriptorChainOverflow)
            × (2 ^ 64 ≤ length (joined segments.entry.items))) }
    {
        let mut total: usize = 0;
        for segment in &segments {
            let Some(more) = total.checked_add(segment.len()) else {
                return Err(Error::DescriptorChainOverflow);
            };
            total = more;
        }
        Ok(Reader::over(&[], VecDeque::from(segments), total))
    }

    /// A reader of one segment. It allocates nothing.
    pub fn of_slice(alloc: Global, bytes: &'a [u8]) -> Reader<'a>
        ensures left { result.left ≡ bytes.now }
        ensures segments { result.segments ≡ filled (length bytes.now ∷ []) }
        ensures read { result.read ≡ 0 }
    {
        Reader {
            first: bytes,
            later: VecDeque::new(alloc),
            left: bytes.len(),
            read: 0,
        }
    }

    // A reader of these segments, `left` bytes in all.
    fn over(segment: &'a [u8], later: VecDeque<&'a [u8]>, left: usize) -> Reader<'a>
        requires { left ≡ length (all_of segment.now later.items) }
        ensures left { result.left ≡ all_of segment.entry.now later.entry.items }
        ensures segments { result.segments
            ≡ filled (length segment.entry.now ∷ segment_lengths later.entry.items) }
        ensures read { result.read ≡ 0 }
    {
        let mut later = later;
        let first = next_filled(segment, &mut later);
        Reader {
            first,
            later,
            left,
            read: 0,
        }
    }

    /// The number of unread bytes.
    pub fn available_bytes(&self) -> usize
        ensures left { result ≡ length self.now.left }
        ensures segments { (sum self.now.segments ≡ length self.now.left)
            × (filled self.now.segments ≡ self.now.segments) }
    {
        self.left
    }

    /// The number of bytes read so far.
    pub fn bytes_read(&self) -> usize
        ensures { result ≡ self.now.read }
    {
        self.read
    }

    // The first segment that isn't empty; an empty one if no byte is left.
    #[tactic(auto, using(fuse_fs::proofs::Lengths::first_of))]
    fn segment(&self) -> &'a [u8]
        ensures bytes { result.now ≡ take (first self.now.segments) self.now.left }
        ensures len { length result.now ≡ first self.now.segments }
        ensures within { first self.now.segments ≤ length self.now.left }
        ensures end { first self.now.segments ≡ 0 → self.now.left ≡ [] }
        ensures all { past 0 self.now.segments ≡ self.now.segments }
    {
        self.first
    }

    // Skips the first `n` bytes of the first segment.
    #[tactic(auto, using(fuse_fs::proofs::Lengths::past_first, fuse_fs::proofs::Lengths::first_of))]
    fn advance(&mut self, n: usize)
        requires { n ≤ first self.old.segments }
        ensures left { self.new.left ≡ drop n self.old.left }
        ensures segments { self.new.segments ≡ past n self.old.segments }
        ensures read { self.new.read ≡ self.old.read + n }
    {
        let segment = self.first;
        self.first = next_filled(&segment[n..], &mut self.later);
        self.left -= n;
        self.read += n;
    }

    /// The next `n` bytes, lent without a copy. Returns None and reads nothing if the first segment
    /// has fewer.
    #[inline(always)]
    pub fn read_in_place(&mut self, n: usize) -> Option<&'a [u8]>
        ensures some { IfSome result (λ b. (self.old.left ≡ b.now ++ self.new.left)
            × (length b.now ≡ n)
            × (n ≤ first self.old.segments)) }
        ensures segments { OnSome result (self.new.segments ≡ past n self.old.segments) }
        ensures read { OnSome result (self.new.read ≡ self.old.read + n) }
        ensures none { IfNone result ((first self.old.segments < n) × (self.new ≡ self.old)) }
    {
        let segment = self.segment();
        if segment.len() < n {
            return None;
        }
        self.advance(n);
        Some(&segment[..n])
    }

    // Reads as many bytes as are left and fit in `buf`; returns their number.
    fn fill(&mut self, buf: &mut [u8]) -> usize
        ensures count { result ≡ min (length buf.old) (length self.old.left) }
        ensures bytes { buf.new ≡ take result self.old.left ++ drop result buf.old }
        ensures left { self.new.left ≡ drop result self.old.left }
        ensures segments { self.new.segments ≡ past result self.old.segments }
        ensures read { self.new.read ≡ self.old.read + result }
    {
        let count = buf.len().min(self.available_bytes());
        let mut done = 0;
        while done < count {
            let segment = self.segment();
            let n = segment.len().min(count - done);
            write_at(buf, done, &segment[..n]);
            self.advance(n);
            done += n;
        }
        count
    }

    /// The value of the next bytes. `IoError` of kind `UnexpectedEof` if fewer than `T::SIZE` are
    /// left; they are then read.
    #[inline(always)]
    pub fn read_obj<T: ByteValued>(&mut self) -> Result<T, Error>
        ensures ok { IfOk result (λ x. (self.old.left ≡ spelled (T.fields x) ++ self.new.left)
            × AllFit (T.fields x)
            × (self.new.read ≡ self.old.read + T.SIZE)) }
        ensures segments { OnOk result (self.new.segments ≡ past T.SIZE self.old.segments) }
        ensures err { IfErr result (λ e. (e ≡ Error.IoError ErrorKind.UnexpectedEof)
            × (length self.old.left < T.SIZE)
            × (self.new.left ≡ [])
            × (self.new.segments ≡ past (length self.old.left) self.old.segments)
            × (self.new.read ≡ self.old.read + length self.old.left)) }
    {
        let segment = self.segment();
        if T::SIZE <= segment.len() {
            let value = T::get_bytes(&segment[..T::SIZE]);
            self.advance(T::SIZE);
            return Ok(value);
        }
        let mut buffer = [0; 256];
        if self.fill(&mut buffer[..T::SIZE]) < T::SIZE {
            return Err(Error::IoError(ErrorKind::UnexpectedEof));
        }
        Ok(T::get_bytes(&buffer[..T::SIZE]))
    }

    /// Writes to a file, by one call, at most `count` bytes of the first segment that isn't empty.
    /// Returns the number of bytes that the file took. Without a byte to write it makes no call and
    /// returns 0. An errno is the file's own; nothing is then read.
    pub fn write_to_file_at<F: PositionedFile>(
        &mut self,
        file: &mut F,
        count: usize,
        off: u64,
        flags: Option<WritevFlags>,
    ) -> Result<usize, Errno>
        ensures once { WritesOnce F.write_gives file.old self.old.left self.old.segments count off
            (option_map (λ f. f.0) flags) result file.new }
        ensures left { self.new.left ≡ drop (moved result) self.old.left }
        ensures segments { self.new.segments ≡ past (moved result) self.old.segments }
        ensures read { self.new.read ≡ self.old.read + moved result }
        ensures err { OnErr result (self.new ≡ self.old) }
    {
        let segment = self.segment();
        let most = count.min(segment.len());
        if most == 0 {
            return Ok(0);
        }
        match file.write_at(&segment[..most], off, flags) {
            Ok(n) => {
                self.advance(n);
                Ok(n)
            }
            Err(error) => Err(error),
        }
    }

    /// Splits the unread bytes at an offset, in bytes: returns a reader of the bytes behind it.
    /// Errors, in this order; each changes nothing:
    /// - `SplitOutOfBounds`: fewer than `offset` bytes are left
    /// - `OutOfMemory`
    #[tactic(auto, using(crate::proofs::Cutting::take_past, crate::proofs::Cutting::drop_past))]
    pub fn split_at(&mut self, alloc: Global, offset: usize) -> Result<Reader<'a>, Error>
        ensures left { OnOk result ((offset ≤ length self.old.left)
            × (self.new.left ≡ take offset self.old.left)) }
        ensures segments { OnOk result (self.new.segments ≡ up_to offset self.old.segments) }
        ensures read { self.new.read ≡ self.old.read }
        ensures other { IfOk result (λ r. (r.left ≡ drop offset self.old.left) × (r.read ≡ 0)) }
        ensures behind { IfOk result (λ r. r.segments ≡ past offset self.old.segments) }
        ensures err { IfErr result (λ e. (e
            ≡ cond (nat_le offset (length self.old.left)) Error.OutOfMemory (Error.SplitOutOfBounds offset))
            × (self.new ≡ self.old)) }
    {
        if self.left < offset {
            return Err(Error::SplitOutOfBounds(offset));
        }
        let left = self.left - offset;
        let segment = self.first;
        if offset <= segment.len() {
            let later = mem::replace(&mut self.later, VecDeque::new(alloc));
            self.first = &segment[..offset];
            self.left = offset;
            return Ok(Reader::over(&segment[offset..], later, left));
        }
        let (mut later, rest) = take_front(alloc, &mut self.later, offset - segment.len())?;
        mem::swap(&mut later, &mut self.later);
        self.left = offset;
        Ok(Reader::over(rest, later, left))
    }
}

impl<'a> Read for Reader<'a> {
    ghost remaining = { λ r. Some r.left };

    fn read(&mut self, buf: &mut [u8]) -> io::Result<usize>
        ensures bound { ReadsAtMost result buf.new }
        ensures bytes { ReadConsumes (Some self.old.left) (Some self.new.left) result buf.new }
        ensures ok { IsOk result }
        ensures count { IfOk result (λ n. n ≡ min (length buf.old) (length self.old.left)) }
        ensures behind { IfOk result (λ n. buf.new ≡ take n self.old.left ++ drop n buf.old) }
        ensures segments { IfOk result (λ n. self.new.segments ≡ past n self.old.segments) }
        ensures read { IfOk result (λ n. self.new.read ≡ self.old.read + n) }
    {
        Ok(self.fill(buf))
    }

    fn read_exact(&mut self, buf: &mut [u8]) -> io::Result<()>
        ensures bytes { OnOk result (Consumes (Some self.old.left) (Some self.new.left) buf.new) }
        ensures segments { OnOk result (self.new.segments ≡ past (length buf.old) self.old.segments) }
        ensures read { OnOk result (self.new.read ≡ self.old.read + length buf.old) }
        ensures err { IfErr result (λ e. (error_kind e ≡ ErrorKind.UnexpectedEof)
            × (length self.old.left < length buf.old)
            × (self.new.left ≡ [])
            × (self.new.segments ≡ past (length self.old.left) self.old.segments)
            × (self.new.read ≡ self.old.read + length self.old.left)) }
    {
        if self.fill(buf) < buf.len() {
            return Err(io::Error::from(ErrorKind::UnexpectedEof));
        }
        Ok(())
    }
}
