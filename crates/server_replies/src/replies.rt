//! Replies, written whole or not at all.

ghost use Rattle.std.specs.Prelude.{◌≡◌, ◌+◌, ◌<◌, ◌≤◌, ◌^◌, [], ◌++◌, length, drop, false};
ghost use Rattle.std.specs.Result.{ForOk};
ghost use Rattle.vm_values.specs.Fields.{spelled};
ghost use Rattle.fuse_wire.specs.Records.{out_header};
ghost use Rattle.server_replies.specs.WholeReplies.{error_bytes, data_header, data_reply};
ghost use Rattle.server_replies.specs.WholeReplies.{with_written, whole_or_none, LeavesWriter};
ghost use Rattle.server_segments.specs.Errors.{lacks_memory};

use crate::fronts::Front;
use fuse_wire::{Errno, OutHeader};
use server_segments::{Error, Writer};
use std::io::Write;
use vm_values::ByteValued;

/// The length of a reply's header in bytes, `struct fuse_out_header`.
pub const OUT_HEADER_LEN: usize = 16;

/// The bytes of a reply's header.
pub(crate) fn header_bytes(len: u32, error: i32, unique: u64) -> [u8; OUT_HEADER_LEN]
    ensures { result ≡ spelled (out_header (record { len = len; error = error; unique = unique })) }
{
    let mut bytes = [0u8; OUT_HEADER_LEN];
    let header = OutHeader { len, error, unique };
    header.put_bytes(&mut bytes);
    bytes
}

/// The bytes of the reply of an error.
#[tactic(auto, unfolding(crate::specs::WholeReplies::error_bytes))]
pub(crate) fn error_reply(unique: u64, error: Errno) -> [u8; OUT_HEADER_LEN]
    ensures { result ≡ error_bytes unique error }
{
    header_bytes(16, -(error.raw() as i32), unique)
}

/// Writes these bytes, which must fit.
#[inline(always)]
pub fn append(w: &mut Writer, bytes: &[u8])
    requires { length bytes.now ≤ w.old.free }
    ensures written { w.new.written ≡ w.old.written ++ bytes.now }
    ensures free { w.new.free + length bytes.now ≡ w.old.free }
    ensures room { length w.new.written + w.new.free ≡ length w.old.written + w.old.free }
{
    w.write_all(bytes).unwrap();
}

/// Writes a reply, its front and the bytes behind it, whole or not at all. Returns its length in
/// bytes, or `EncodeMessage` if it doesn't fit.
#[inline(always)]
#[tactic(auto, using(crate::proofs::ReplyLemmas::sent_long, crate::proofs::ReplyLemmas::sent_fits))]
pub(crate) fn send(w: &mut Writer, front: &[u8], behind: &[u8]) -> Result<usize, Error>
    requires fresh { w.old.written ≡ [] }
    ensures sent { with_written result w.new.written ≡ whole_or_none w.old.free (front.now ++ behind.now) }
    ensures writer { LeavesWriter result w.old w.new }
    ensures memory { lacks_memory result ≡ false }
{
    let room = w.available_bytes();
    if room < front.len() || room - front.len() < behind.len() {
        return Err(Error::EncodeMessage);
    }
    append(w, front);
    if behind.is_empty() {
        return Ok(front.len());
    }
    append(w, behind);
    Ok(front.len() + behind.len())
}

/// Writes a reply that is only a front, whole or not at all. Returns its length in bytes, or
/// `EncodeMessage` if it doesn't fit.
#[inline(always)]
pub fn reply_front(w: &mut Writer, front: &Front) -> Result<usize, Error>
    requires fresh { w.old.written ≡ [] }
    ensures sent { with_written result w.new.written ≡ whole_or_none w.old.free front.now }
    ensures writer { LeavesWriter result w.old w.new }
    ensures memory { lacks_memory result ≡ false }
{
    send(w, front.bytes(), &[])
}

/// Writes the reply of an error: a header with the negative errno. Returns 16, or `EncodeMessage`
/// if it doesn't fit.
pub fn reply_error(w: &mut Writer, unique: u64, error: Errno) -> Result<usize, Error>
    requires fresh { w.old.written ≡ [] }
    ensures sent { with_written result w.new.written ≡ whole_or_none w.old.free (error_bytes unique error) }
    ensures writer { LeavesWriter result w.old w.new }
    ensures memory { lacks_memory result ≡ false }
{
    reply_front(w, &Front::error(unique, error))
}

/// The header of the reply to a READ, for a caller that puts the data elsewhere. The reply of an
/// error is only this header.
pub fn data_header(unique: u64, answer: Result<usize, Errno>) -> [u8; OUT_HEADER_LEN]
    requires { ForOk answer (λ n. 16 + n < 2 ^ 32) }
    ensures { result ≡ data_header unique answer }
{
    match answer {
        Ok(n) => header_bytes((OUT_HEADER_LEN + n) as u32, 0, unique),
        Err(error) => error_reply(unique, error),
    }
}

/// Writes the header before the data, for which 16 bytes are reserved. Or replaces everything by an
/// error. Returns the reply's length in bytes.
#[inline(always)]
pub fn reply_data(w: &mut Writer, unique: u64, answer: Result<usize, Errno>) -> usize
    requires behind { 16 ≤ length w.old.written }
    requires count { ForOk answer (λ n. 16 + n ≡ length w.old.written) }
    requires small { length w.old.written < 2 ^ 32 }
    ensures reply { w.new.written ≡ data_reply unique answer (drop 16 w.old.written) }
    ensures length { result ≡ length w.new.written }
    ensures room { length w.new.written + w.new.free ≡ length w.old.written + w.old.free }
{
    match answer {
        Ok(n) => {
            let len = OUT_HEADER_LEN + n;
            w.put_front(&header_bytes(len as u32, 0, unique));
            len
        }
        Err(error) => {
            w.clear();
            append(w, &error_reply(unique, error));
            OUT_HEADER_LEN
        }
    }
}
