//! The writer of a reply (virtiofsd's `Writer`).

ghost use Rattle.std.specs.Prelude.{◌≡◌, ℕ, ◌+◌, ◌<◌, ◌≤◌, ◌^◌, min, sum, List, [], ◌∷◌, ◌++◌, length, take};
ghost use Rattle.std.specs.Prelude.{drop};
ghost use Rattle.std.specs.Prelude.{cond, nat_lt, nat_le, Some, IsOk, IfOk, OnOk, OnErr, IfErr, IfSome};
ghost use Rattle.std.specs.Prelude.{IfNone, vec_len};
ghost use Rattle.std.specs.Prelude.{vec_capacity};
ghost use Rattle.smallvec.specs.SmallVec.{small_vec_len, HasRoomFor};
ghost use Rattle.std.specs.Io.{WritesAtMost};
ghost use Rattle.std.specs.Io.KnownBytes.{Appends, WriteAppends, Keeps};
ghost use Rattle.std.specs.IoError.{error_kind};
ghost use Rattle.memory_requests.specs.Refused.{MemoryWasRefused, RoomWasRefused};
ghost use Rattle.vm_values.specs.Fields.{spelled, AllFit};
ghost use Rattle.server_segments.specs.SegmentPlaces.{bytes_before, IsIn};
ghost use Rattle.fuse_fs.specs.Lengths.{filled, first, past, up_to};
ghost use Rattle.fuse_fs.specs.Transfers.{moved, read_answer, ReadsOnce};
ghost use Rattle.server_segments.specs.ReaderAndWriterView.{rooms};

use crate::error::Error;
use crate::reader::write_front;
use fuse_fs::PositionedFile;
use fuse_wire::Errno;
use memory_requests::list_with_room;
use smallvec::SmallVec;
use std::alloc::Global;
use std::io;
use std::io::{ErrorKind, Write};
use std::marker::Model;
use vm_values::ByteValued;

// A place in segments: the index of a segment, and the number of its bytes before the place.
#[derive(Clone, Copy)]
struct SegmentPlace {
    segment: usize,
    used: usize,
}

// The place before all segments.
const START: SegmentPlace = SegmentPlace {
    segment: 0,
    used: 0,
};

// The lengths of segments. A list of one needs no allocation.
type Lengths = SmallVec<usize, 1>;

/// A reply with its free bytes, in segments. The writer owns memory for all of them, so writing
/// allocates nothing.
#[derive(Drop)]
pub struct Writer {
    bytes: Vec<u8>,
    room: usize,
    // The length of each segment; none is 0.
    segments: Lengths,
    // The place of the next byte.
    place: SegmentPlace,
    rejoin: usize,
    spare: usize,
}

impl Model for Writer {
    ghost use Rattle.std.specs.Prelude.{◌≡◌, ◌+◌, ◌-◌, ◌≤◌, sum, vec_len, vec_capacity};
    ghost use Rattle.smallvec.specs.SmallVec.{small_vec_len};
    ghost use Rattle.server_segments.specs.ReaderAndWriterView.{WriterView};
    ghost use Rattle.fuse_fs.specs.Lengths.{filled};
    ghost use Rattle.server_segments.specs.SegmentPlaces.{bytes_before, IsIn};

    ghost Value = { WriterView };

    ghost view = { λ w. record {
      written = w.bytes.items;
      free = w.room - vec_len w.bytes;
      segments = w.segments.items;
      rejoin = w.rejoin;
      spare = w.spare;
    } };

    ghost invariant = { λ w. (vec_len w.bytes ≤ w.room)
        × (w.room + w.spare ≤ vec_capacity w.bytes)
        × (small_vec_len w.segments + w.rejoin ≤ w.segments.capacity)
        × (sum w.segments.items ≡ w.room)
        × (filled w.segments.items ≡ w.segments.items)
        × (bytes_before w.segments.items w.place.segment w.place.used ≡ vec_len w.bytes)
        × IsIn w.segments.items w.place.segment w.place.used };
}

// The place `n` bytes behind another one.
#[inline(always)]
fn behind(segments: &[usize], from: SegmentPlace, n: usize) -> SegmentPlace
    requires segment { from.segment ≤ length segments.now }
    requires fits { from.used + n < 2 ^ 64 }
    ensures after { from.segment ≤ result.segment }
    ensures before { bytes_before segments.now result.segment result.used
        ≡ bytes_before segments.now from.segment from.used + n }
    ensures inside { IsIn segments.now result.segment result.used }
{
    let mut segment = from.segment;
    let mut used = from.used + n;
    while segment < segments.len() && segments[segment] <= used {
        used -= segments[segment];
        segment += 1;
    }
    SegmentPlace { segment, used }
}

// The sum of the lengths, or None if it doesn't fit usize.
fn total(lengths: &[usize]) -> Option<usize>
    ensures some { IfSome result (λ n. n ≡ sum lengths.now) }
    ensures none { IfNone result (2 ^ 64 ≤ sum lengths.now) }
{
    let mut total: usize = 0;
    for length in lengths {
        let Some(more) = total.checked_add(*length) else {
            return None;
        };
        total = more;
    }
    Some(total)
}

// Appends a length, unless it is 0.
fn push_filled(segments: &mut Lengths, size: usize)
    requires { HasRoomFor segments.old 1 }
    ensures items { segments.new.items ≡ segments.old.items ++ filled (size ∷ []) }
    ensures len { small_vec_len segments.new ≤ small_vec_len segments.old + 1 }
    ensures capacity { segments.old.capacity ≤ segments.new.capacity }
{
    if 0 < size {
        segments.push_reserved(size);
    }
}

// The lengths that aren't 0.
fn filled_of(alloc: Global, lengths: &[usize]) -> Result<Lengths, Error>
    ensures ok { IfOk result (λ s. s.items ≡ filled lengths.now) }
    ensures err { IfErr result (λ e. e ≡ Error.OutOfMemory) }
{
    let Ok(mut segments) = SmallVec::with_capacity(alloc, lengths.len()) else {
        return Err(Error::OutOfMemory);
    };
    for size in lengths {
        push_filled(&mut segments, *size);
    }
    Ok(segments)
}

// The lengths of the segments behind a place, the rest of the place's own segment first.
fn segments_behind(alloc: Global, segments: &[usize], place: SegmentPlace) -> Result<Lengths, Error>
    requires { IsIn segments.now place.segment place.used }
    ensures ok { IfOk result (λ s. s.items ≡ past place.used (drop place.segment segments.now)) }
    ensures len { IfOk result (λ s. small_vec_len s + place.segment ≡ length segments.now) }
    ensures err { IfErr result (λ e. e ≡ Error.OutOfMemory) }
{
    let SegmentPlace { segment, used } = place;
    let Ok(mut behind) = SmallVec::with_capacity(alloc, segments.len() - segment) else {
        return Err(Error::OutOfMemory);
    };
    if segment == segments.len() {
        return Ok(behind);
    }
    behind.push_reserved(segments[segment] - used);
    behind.extend_from_slice(&segments[segment + 1..]).unwrap();
    Ok(behind)
}

// Cuts the segments off at a place.
fn cut_off(segments: &mut Lengths, place: SegmentPlace)
    requires inside { IsIn segments.old.items place.segment place.used }
    requires room { place.segment < segments.old.capacity }
    ensures items { segments.new.items ≡ take place.segment segments.old.items ++ filled (place.used ∷ []) }
    ensures len { small_vec_len segments.new ≤ place.segment + 1 }
    ensures capacity { segments.old.capacity ≤ segments.new.capacity }
{
    segments.truncate(place.segment);
    push_filled(segments, place.used);
}

// Appends the bytes that one call reads from a file.
#[inline(always)]
fn append_once<F: PositionedFile>(
    bytes: &mut Vec<u8>,
    file: &mut F,
    most: usize,
    off: u64,
) -> Result<usize, Errno>
    requires { vec_len bytes.old + most ≤ vec_capacity bytes.old }
    ensures part { (part : List ℕ)
        × (bytes.new.items ≡ bytes.old.items ++ part)
        × (moved result ≡ length part)
        × (length part ≤ most)
        × F.read_gives file.old most off (read_answer result part) file.new }
    ensures len { vec_len bytes.new ≡ vec_len bytes.old + moved result }
    ensures most { moved result ≤ most }
    ensures capacity { vec_capacity bytes.old ≤ vec_capacity bytes.new }
{
    match file.append_at(bytes, most, off) {
        Ok(n) => Ok(n),
        Err(e) => Err(e),
    }
}

impl Writer {
    /// A writer with segments of these lengths, in bytes. Errors, in this order:
    /// - `DescriptorChainOverflow`: their sum doesn't fit usize
    /// - `OutOfMemory`
    pub fn new(alloc: Global, lengths: &[usize]) -> Result<Writer, Error>
        ensures written { IfOk result (λ w. w.written ≡ []) }
        ensures room { IfOk result (λ w. (w.free ≡ sum lengths.now) × (w.segments ≡ filled lengths.now)) }
        ensures rejoin { IfOk result (λ w. (w.rejoin ≡ 0) × (w.spare ≡ 0)) }
        ensures fits { OnOk result (sum lengths.now < 2 ^ 64) }
        ensures err { IfErr result (λ e. e
            ≡ cond (nat_lt (sum lengths.now) (2 ^ 64)) Error.OutOfMemory Error.DescriptorChainOverflow) }
    {
        let Some(room) = total(lengths) else {
            return Err(Error::DescriptorChainOverflow);
        };
        let segments = filled_of(alloc, lengths)?;
        Writer::over(alloc, room, segments)
    }

    /// A writer with one segment of this length in bytes, or with none if that is 0. `OutOfMemory`
    /// is its only error.
    pub fn of_length(alloc: Global, size: usize) -> Result<Writer, Error>
        ensures written { IfOk result (λ w. w.written ≡ []) }
        ensures room { IfOk result (λ w. (w.free ≡ size) × (w.segments ≡ filled (size ∷ []))) }
        ensures rejoin { IfOk result (λ w. (w.rejoin ≡ 0) × (w.spare ≡ 0)) }
        ensures err { IfErr result (λ e. e ≡ Error.OutOfMemory) }
        ensures asked { OnErr result (RoomWasRefused size) }
        ensures refused { OnErr result MemoryWasRefused }
    {
        let mut segments = SmallVec::new(alloc);
        push_filled(&mut segments, size);
        Writer::over(alloc, size, segments)
    }

    /// A writer without free bytes. It allocates nothing.
    pub fn empty(alloc: Global) -> Writer
        ensures written { result.written ≡ [] }
        ensures room { (result.free ≡ 0) × (result.segments ≡ []) }
        ensures rejoin { (result.rejoin ≡ 0) × (result.spare ≡ 0) }
    {
        Writer {
            bytes: Vec::new(alloc),
            room: 0,
            segments: SmallVec::new(alloc),
            place: START,
            rejoin: 0,
            spare: 0,
        }
    }

    // A writer of `room` bytes, in these segments.
    fn over(alloc: Global, room: usize, segments: Lengths) -> Result<Writer, Error>
        requires sum { sum segments.items ≡ room }
        requires filled { filled segments.items ≡ segments.items }
        ensures written { IfOk result (λ w. w.written ≡ []) }
        ensures room { IfOk result (λ w. (w.free ≡ room) × (w.segments ≡ segments.items)) }
        ensures rejoin { IfOk result (λ w. (w.rejoin ≡ 0) × (w.spare ≡ 0)) }
        ensures err { IfErr result (λ e. e ≡ Error.OutOfMemory) }
        ensures asked { OnErr result (RoomWasRefused room) }
        ensures refused { OnErr result MemoryWasRefused }
    {
        let Ok(bytes) = list_with_room(alloc, room) else {
            return Err(Error::OutOfMemory);
        };
        let place = behind(&segments, START, 0);
        Ok(Writer {
            bytes,
            room,
            segments,
            place,
            rejoin: 0,
            spare: 0,
        })
    }

    /// The number of free bytes.
    pub fn available_bytes(&self) -> usize
        ensures free { result ≡ self.now.free }
        ensures segments { (sum self.now.segments ≡ length self.now.written + self.now.free)
            × (filled self.now.segments ≡ self.now.segments) }
    {
        self.room - self.bytes.len()
    }

    /// The number of bytes written so far.
    pub fn bytes_written(&self) -> usize
        ensures { result ≡ length self.now.written }
    {
        self.bytes.len()
    }

    /// Copies the written bytes to `out`, which has the same length.
    pub fn copy_written(&self, out: &mut [u8])
        requires { length out.old ≡ length self.now.written }
        ensures { out.new ≡ self.now.written }
    {
        out.copy_from_slice(&self.bytes);
    }

    /// The written bytes.
    pub fn into_written(self) -> Vec<u8>
        ensures { result.items ≡ self.written }
    {
        let Writer { bytes, .. } = self;
        bytes
    }

    /// Overwrites the first of the written bytes.
    #[inline(always)]
    pub fn put_front(&mut self, front: &[u8])
        requires { length front.now ≤ length self.old.written }
        ensures written { self.new.written ≡ front.now ++ drop (length front.now) self.old.written }
        ensures free { self.new.free ≡ self.old.free }
        ensures segments { self.new.segments ≡ self.old.segments }
        ensures rejoin { self.new.rejoin ≡ self.old.rejoin }
        ensures spare { self.new.spare ≡ self.old.spare }
    {
        write_front(&mut self.bytes, front);
    }

    /// Removes all written bytes: their room is free again.
    pub fn clear(&mut self)
        ensures written { self.new.written ≡ [] }
        ensures free { self.new.free ≡ self.old.free + length self.old.written }
        ensures segments { self.new.segments ≡ self.old.segments }
        ensures rejoin { self.new.rejoin ≡ self.old.rejoin }
        ensures spare { self.new.spare ≡ self.old.spare }
    {
        self.bytes.clear();
        self.place = behind(&self.segments, START, 0);
    }

    // The number of free bytes in the first segment that has any.
    #[inline(always)]
    fn first_room(&self) -> usize
        ensures first { result ≡ first (rooms self.now) }
        ensures within { result ≤ self.now.free }
    {
        let SegmentPlace { segment, used } = self.place;
        if segment < self.segments.len() {
            self.segments[segment] - used
        } else {
            0
        }
    }

    // Writes as many bytes as fit; returns their number.
    #[inline(always)]
    fn put(&mut self, more: &[u8]) -> usize
        ensures count { result ≡ min (length more.now) self.old.free }
        ensures written { self.new.written ≡ self.old.written ++ take result more.now }
        ensures free { self.new.free + result ≡ self.old.free }
        ensures segments { self.new.segments ≡ self.old.segments }
        ensures rejoin { self.new.rejoin ≡ self.old.rejoin }
        ensures spare { self.new.spare ≡ self.old.spare }
    {
        let n = more.len().min(self.room - self.bytes.len());
        self.bytes.extend_from_slice(&more[..n]).unwrap();
        self.place = behind(&self.segments, self.place, n);
        n
    }

    /// Writes the value's bytes. `IoError` of kind `WriteZero` if they don't fit: the first of them
    /// then fill the free bytes.
    pub fn write_obj<T: ByteValued>(&mut self, value: T) -> Result<(), Error>
        ensures fits { AllFit (T.fields value) }
        ensures ok { OnOk result ((self.new.written ≡ self.old.written ++ spelled (T.fields value))
            × (self.new.free + T.SIZE ≡ self.old.free)) }
        ensures err { IfErr result (λ e. (e ≡ Error.IoError ErrorKind.WriteZero)
            × (self.old.free < T.SIZE)
            × (self.new.free ≡ 0)
            × (self.new.written ≡ self.old.written ++ take self.old.free (spelled (T.fields value)))) }
        ensures segments { self.new.segments ≡ self.old.segments }
        ensures rejoin { self.new.rejoin ≡ self.old.rejoin }
        ensures spare { self.new.spare ≡ self.old.spare }
    {
        let mut buffer = [0; 256];
        value.put_bytes(&mut buffer[..T::SIZE]);
        if self.put(&buffer[..T::SIZE]) < T::SIZE {
            return Err(Error::IoError(ErrorKind::WriteZero));
        }
        Ok(())
    }

    /// Splits the free bytes at an offset, in bytes: returns a writer of the bytes behind it.
    /// Errors, in this order; each changes nothing:
    /// - `SplitOutOfBounds`: fewer than `offset` bytes are free
    /// - `OutOfMemory`
    pub fn split_at(&mut self, alloc: Global, offset: usize) -> Result<Writer, Error>
        ensures written { self.new.written ≡ self.old.written }
        ensures free { OnOk result ((offset ≤ self.old.free) × (self.new.free ≡ offset)) }
        ensures segments { OnOk result
            (self.new.segments ≡ up_to (length self.old.written + offset) self.old.segments) }
        ensures other { IfOk result (λ w. (w.written ≡ [])
            × (w.free + offset ≡ self.old.free)
            × (w.rejoin ≡ 0)
            × (w.spare ≡ 0)) }
        ensures behind { IfOk result
            (λ w. w.segments ≡ past (length self.old.written + offset) self.old.segments) }
        ensures rejoin { IfOk result (λ w. (self.new.rejoin ≡ length w.segments)
            × (self.new.spare ≡ w.free)) }
        ensures err { IfErr result
            (λ e. (e ≡ cond (nat_le offset self.old.free) Error.OutOfMemory (Error.SplitOutOfBounds offset))
            × (self.new ≡ self.old)) }
    {
        let free = self.room - self.bytes.len();
        if free < offset {
            return Err(Error::SplitOutOfBounds(offset));
        }
        let cut = behind(&self.segments, self.place, offset);
        let segments = segments_behind(alloc, &self.segments, cut)?;
        let handed = segments.len();
        let other = Writer::over(alloc, free - offset, segments)?;
        if self.segments.reserve(1).is_err() {
            return Err(Error::OutOfMemory);
        }
        cut_off(&mut self.segments, cut);
        self.place = behind(&self.segments, self.place, 0);
        self.rejoin = handed;
        self.spare = free - offset;
        self.room = self.bytes.len() + offset;
        Ok(other)
    }

    /// Appends the first `count` bytes of a writer that `split_at` returned; the rest of its room is free
    /// again. It may have no more segments and bytes than that writer had. No byte of `self` is free.
    pub fn rejoin(&mut self, other: Writer, count: usize)
        requires full { self.old.free ≡ 0 }
        requires count { count ≤ length other.written }
        requires segments { length other.segments ≤ self.old.rejoin }
        requires bytes { length other.written + other.free ≤ self.old.spare }
        ensures written { self.new.written ≡ self.old.written ++ take count other.written }
        ensures free { self.new.free + count ≡ length other.written + other.free }
        ensures segments { self.new.segments ≡ self.old.segments ++ other.segments }
        ensures rejoin { self.new.rejoin ≡ 0 }
        ensures spare { self.new.spare ≡ 0 }
    {
        let Writer {
            bytes,
            room,
            segments,
            ..
        } = other;
        self.bytes.extend_from_slice(&bytes[..count]).unwrap();
        self.segments.extend_from_slice(&segments).unwrap();
        self.place = behind(&self.segments, self.place, count);
        self.room += room;
        self.rejoin = 0;
        self.spare = 0;
    }

    /// Reads from a file, by one call, at most `count` bytes into the first segment with free
    /// bytes. Returns the number of bytes read. Without a free byte, or with `count` 0, it makes no
    /// call and returns 0. An errno is the file's own; nothing is then written.
    #[inline(always)]
    pub fn read_from_file_at<F: PositionedFile>(
        &mut self,
        file: &mut F,
        count: usize,
        off: u64,
    ) -> Result<usize, Errno>
        ensures once { (bytes : List ℕ)
            × (self.new.written ≡ self.old.written ++ bytes)
            × (self.old.free ≡ self.new.free + length bytes)
            × ReadsOnce F.read_gives file.old (min count (first (rooms self.old))) off bytes result file.new }
        ensures segments { self.new.segments ≡ self.old.segments }
        ensures rejoin { self.new.rejoin ≡ self.old.rejoin }
        ensures spare { self.new.spare ≡ self.old.spare }
    {
        let most = count.min(self.first_room());
        if most == 0 {
            return Ok(0);
        }
        let from = self.bytes.len();
        let answer = append_once(&mut self.bytes, file, most, off);
        self.place = behind(&self.segments, self.place, self.bytes.len() - from);
        answer
    }
}

impl Write for Writer {
    ghost contents = { λ w. Some w.written };

    fn write(&mut self, buf: &[u8]) -> io::Result<usize>
        ensures bound { WritesAtMost result buf.now }
        ensures bytes { WriteAppends (Some self.old.written) (Some self.new.written) result buf.now }
        ensures ok { IsOk result }
        ensures count { IfOk result (λ n. (n ≡ min (length buf.now) self.old.free)
            × (self.new.free + n ≡ self.old.free)) }
        ensures segments { self.new.segments ≡ self.old.segments }
        ensures rejoin { self.new.rejoin ≡ self.old.rejoin }
        ensures spare { self.new.spare ≡ self.old.spare }
    {
        Ok(self.put(buf))
    }

    #[inline(always)]
    fn write_all(&mut self, buf: &[u8]) -> io::Result<()>
        ensures bytes { OnOk result (Appends (Some self.old.written) (Some self.new.written) buf.now) }
        ensures free { OnOk result (self.new.free + length buf.now ≡ self.old.free) }
        ensures err { IfErr result (λ e. (error_kind e ≡ ErrorKind.WriteZero)
            × (self.old.free < length buf.now)
            × (self.new.free ≡ 0)
            × (self.new.written ≡ self.old.written ++ take self.old.free buf.now)) }
        ensures segments { self.new.segments ≡ self.old.segments }
        ensures rejoin { self.new.rejoin ≡ self.old.rejoin }
        ensures spare { self.new.spare ≡ self.old.spare }
    {
        if self.put(buf) < buf.len() {
            return Err(io::Error::from(ErrorKind::WriteZero));
        }
        Ok(())
    }

    fn flush(&mut self) -> io::Result<()>
        ensures bytes { Keeps (Some self.old.written) (Some self.new.written) }
        ensures ok { IsOk result }
        ensures same { self.new ≡ self.old }
    {
        Ok(())
    }
}
