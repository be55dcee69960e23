//! The sources of requests: the bytes behind a header, and the bytes that a call borrows.

ghost use Rattle.std.specs.Prelude.{◌≡◌, ◌+◌, ◌-◌, ◌≤◌, ◌*◌, ◌&&◌, ℕ, Bool, true, false, List, [], ◌++◌};
ghost use Rattle.std.specs.Prelude.{length, Ok, Err, IfOk, IfErr, OnOk};
ghost use Rattle.fuse_values.specs.Places.{StandsIn};
ghost use Rattle.fuse_values.specs.Values.{pairs_in};
ghost use Rattle.server_requests.specs.Reading.{Faults, many, record_parser, read_result, value_of};
ghost use Rattle.server_requests.specs.Fronts.{counted, counted_split, flags2_of, forget_pair, is_split};
ghost use Rattle.server_requests.specs.Fronts.{setxattr_front, setxattr_len, with_bytes};
ghost use Rattle.fuse_fs.specs.Lengths.{past};
ghost use Rattle.server_segments.specs.Errors.{is_memory};

use crate::forgets::{FORGET_ONE_LEN, PairCount};
use crate::names::read_counted;
use crate::records::read_record;
use crate::xattrs::{has_setxattr_ext, with_no_flags};
use fuse_in::{InRecord, InitInCompat, InitInExt, SetxattrIn, SetxattrInCompat};
use fuse_values::Placed;
use fuse_wire::FsOptions;
use server_segments::{Error, Reader};
use std::alloc::Global;
use std::borrow::CowSlice;

// The bit of `InitInCompat::flags` for a longer record.
const INIT_EXT: u32 = 1 << 30;

/// A source of a request's bytes, read front to back. Lent bytes are borrowed for `'a`.
pub trait Source<'a> {
    // The unread bytes.
    ghost left: { Self → List ℕ };

    // The lengths of the segments of the unread bytes.
    ghost segments: { Self → List ℕ };

    // Whether there may be several segments.
    ghost splits: { Bool };

    /// The record in the next bytes, or `DecodeMessage` if there are too few.
    fn record<T: InRecord>(&mut self) -> Result<T, Error>
        ensures reads { read_result result (left self.new) ≡ record_parser T.shape (left self.old) }
        ensures fault { IfErr result (λ e. e ≡ Error.DecodeMessage) }
        ensures segments { OnOk result (segments self.new ≡ past T.SIZE (segments self.old)) };

    /// The bytes of the request, by `len` of its header, behind the header (40 bytes) and a record
    /// of `fixed` bytes. Errors, in this order:
    /// - `InvalidHeaderLength`: `len` is less than 40 + `fixed`
    /// - `DecodeMessage`: the source has fewer bytes
    /// - `OutOfMemory`: only if they lie in several segments
    fn counted(self, len: u32, fixed: u32) -> Result<Placed<'a>, Error>
        requires { fixed ≤ 256 }
        ensures bytes { IfOk result (λ p. Ok p.bytes.now ≡ value_of (counted len fixed (left self))) }
        ensures places { IfOk result
            (λ p. (front : List ℕ) → length front ≡ 40 + fixed → StandsIn (front ++ left self) p) }
        ensures at { IfOk result (λ p. p.at ≡ 40 + fixed) }
        ensures fault { IfErr result (λ e. is_memory e ≡ false
            → Err (Faults e) ≡ value_of (counted len fixed (left self))) }
        ensures in_place { (splits && is_split (len - 40 - fixed) (segments self)) ≡ false
            → IfErr result (λ e. is_memory e ≡ false) }
        ensures segments { past 0 (segments self) ≡ segments self };
}

/// The unread bytes of a request in one piece.
#[derive(Clone, Copy)]
pub struct Flat<'a> {
    pub bytes: &'a [u8],
}

impl<'a> Source<'a> for Flat<'a> {
    ghost left = { λ s. s.bytes.now };

    ghost segments = { λ s. [] };

    ghost splits = { false };

    #[tactic(auto, using(fuse_fs::proofs::Lengths::past_none))]
    fn record<T: InRecord>(&mut self) -> Result<T, Error> {
        let bytes = self.bytes;
        if bytes.len() < T::SIZE {
            return Err(Error::DecodeMessage);
        }
        let (front, rest) = bytes.split_at(T::SIZE);
        self.bytes = rest;
        Ok(T::get_bytes(front))
    }

    #[tactic(auto, using(fuse_fs::proofs::Lengths::past_none, crate::proofs::PlaceLemmas::taken_in))]
    fn counted(self, len: u32, fixed: u32) -> Result<Placed<'a>, Error> {
        let bytes = self.bytes;
        let Some(count) = len.checked_sub(40 + fixed) else {
            return Err(Error::InvalidHeaderLength);
        };
        if bytes.len() < count as usize {
            return Err(Error::DecodeMessage);
        }
        let (bytes, _rest) = bytes.split_at(count as usize);
        Ok(Placed {
            bytes,
            at: 40 + fixed,
        })
    }
}

impl<'a> Flat<'a> {
    /// The bytes of the next pairs of BATCH_FORGET (`struct fuse_forget_one`, 16 bytes each),
    /// which lie behind 48 bytes, or `DecodeMessage` if there are fewer.
    #[tactic(auto, using(crate::proofs::ForgetLemmas::pairs_cut, crate::proofs::ForgetLemmas::pairs_read, crate::proofs::PlaceLemmas::taken_in))]
    pub fn pairs(self, pairs: PairCount) -> Result<Placed<'a>, Error>
        ensures bytes { IfOk result
            (λ p. Ok (pairs_in p.bytes.now) ≡ value_of (many pairs.count forget_pair self.entry.bytes.now)) }
        ensures whole { IfOk result (λ p. length p.bytes.now ≡ 16 * pairs.count) }
        ensures places { IfOk result
            (λ p. (front : List ℕ) → length front ≡ 48 → StandsIn (front ++ self.entry.bytes.now) p) }
        ensures at { IfOk result (λ p. p.at ≡ 48) }
        ensures fault { IfErr result
            (λ e. Err (Faults e) ≡ value_of (many pairs.count forget_pair self.entry.bytes.now)) }
    {
        let bytes = self.bytes;
        let len = pairs.count as usize * FORGET_ONE_LEN;
        if bytes.len() < len {
            return Err(Error::DecodeMessage);
        }
        let (bytes, _rest) = bytes.split_at(len);
        Ok(Placed { bytes, at: 48 })
    }
}

/// The unread bytes of a request, in segments. Lent bytes that lie in several segments are copied to `held`.
#[derive(Drop)]
pub struct Segments<'a, 'r: 'a> {
    pub alloc: Global,
    pub reader: Reader<'r>,
    pub held: &'a mut Vec<u8>,
}

impl<'a, 'r: 'a> Source<'a> for Segments<'a, 'r> {
    ghost left = { λ s. s.reader.left };

    ghost segments = { λ s. s.reader.segments };

    ghost splits = { true };

    #[inline(always)]
    fn record<T: InRecord>(&mut self) -> Result<T, Error> {
        read_record(&mut self.reader)
    }

    #[inline(always)]
    fn counted(self, len: u32, fixed: u32) -> Result<Placed<'a>, Error> {
        let Segments {
            alloc,
            mut reader,
            held,
        } = self;
        match read_counted(alloc, len, fixed, &mut reader) {
            Ok(CowSlice::Borrowed(bytes)) => Ok(Placed {
                bytes,
                at: 40 + fixed,
            }),
            Ok(CowSlice::Owned(bytes)) => {
                *held = bytes;
                Ok(Placed {
                    bytes: &held[..],
                    at: 40 + fixed,
                })
            }
            Err(error) => Err(error),
        }
    }
}

/// The high 32 bits of the client's options. They are in the 48 bytes after the compatible record,
/// if FUSE_INIT_EXT is set in `flags` of `struct fuse_init_in`; else they are 0, and no byte is
/// read. `DecodeMessage` if fewer than 48 bytes are left.
pub fn flags2<'a, S: Source<'a>>(request: &InitInCompat, source: &mut S) -> Result<u32, Error>
    ensures reads { read_result result (S.left source.new) ≡ flags2_of request.now (S.left source.old) }
    ensures fault { IfErr result (λ e. e ≡ Error.DecodeMessage) }
{
    if request.flags & INIT_EXT == 0 {
        return Ok(0);
    }
    match source.record::<InitInExt>() {
        Ok(more) => Ok(more.flags2),
        Err(error) => Err(error),
    }
}

/// A record with the bytes after it, up to the header's `len` (`struct fuse_in_header`).
#[derive(Clone, Copy)]
pub struct RecordAndBytes<'a, T> {
    /// The record, directly behind the request's header.
    pub record: T,
    /// The bytes after it.
    pub bytes: Placed<'a>,
}

/// A record, and the bytes after it up to `len`, the length in the request's header. Errors, in this order:
/// - `DecodeMessage`: the record is cut short
/// - `InvalidHeaderLength`: `len` ends before the record does
/// - `DecodeMessage`: the bytes after it are cut short
/// - `OutOfMemory`: only if these lie in several segments
pub fn record_and_bytes<'a, T: InRecord, S: Source<'a> + Drop>(
    source: S,
    len: u32,
) -> Result<RecordAndBytes<'a, T>, Error>
    ensures reads { IfOk result
        (λ x. Ok (x.record, x.bytes.bytes.now) ≡ value_of (with_bytes T.shape T.SIZE len (S.left source))) }
    ensures fault { IfErr result (λ e. is_memory e ≡ false
        → Err (Faults e) ≡ value_of (with_bytes T.shape T.SIZE len (S.left source))) }
    ensures places { IfOk result (λ x. (header : List ℕ) → length header ≡ 40
        → StandsIn (header ++ S.left source) x.bytes) }
    ensures at { IfOk result (λ x. x.bytes.at ≡ 40 + T.SIZE) }
    ensures in_place { (S.splits && counted_split len T.SIZE (S.segments source)) ≡ false
        → IfErr result (λ e. is_memory e ≡ false) }
{
    let mut source = source;
    match source.record() {
        Ok(record) => match source.counted(len, T::SIZE as u32) {
            Ok(bytes) => Ok(RecordAndBytes { record, bytes }),
            Err(error) => Err(error),
        },
        Err(error) => Err(error),
    }
}

/// The record of SETXATTR (`struct fuse_setxattr_in`: 16 bytes with `SETXATTR_EXT`, else 8), and
/// the bytes after it. The errors are those of `record_and_bytes`.
#[tactic(auto, using(crate::proofs::NameLemmas::setxattr_long))]
pub fn setxattr_and_bytes<'a, S: Source<'a> + Drop>(
    source: S,
    options: FsOptions,
    len: u32,
) -> Result<RecordAndBytes<'a, SetxattrIn>, Error>
    ensures reads { IfOk result
        (λ x. Ok (x.record, x.bytes.bytes.now) ≡ value_of (setxattr_front options.0 len (S.left source))) }
    ensures fault { IfErr result (λ e. is_memory e ≡ false
        → Err (Faults e) ≡ value_of (setxattr_front options.0 len (S.left source))) }
    ensures places { IfOk result (λ x. (header : List ℕ) → length header ≡ 40
        → StandsIn (header ++ S.left source) x.bytes) }
    ensures at { IfOk result (λ x. x.bytes.at ≡ 40 + setxattr_len options.0) }
    ensures in_place { (S.splits && counted_split len (setxattr_len options.0) (S.segments source)) ≡ false
        → IfErr result (λ e. is_memory e ≡ false) }
{
    if has_setxattr_ext(options) {
        return record_and_bytes(source, len);
    }
    match record_and_bytes::<SetxattrInCompat, S>(source, len) {
        Ok(front) => Ok(RecordAndBytes {
            record: with_no_flags(&front.record),
            bytes: front.bytes,
        }),
        Err(error) => Err(error),
    }
}
