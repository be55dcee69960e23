//! The front of a reply: its header and its record, without data.

ghost use Rattle.std.specs.Prelude.{◌≡◌, ◌+◌, ◌<◌, ◌≤◌, ◌^◌, ◌++◌, [], length, Ok};
ghost use Rattle.vm_values.specs.Fields.{spelled};
ghost use Rattle.server_replies.specs.WholeReplies.{reply_bytes, error_bytes, data_header};

use crate::replies::{OUT_HEADER_LEN, data_header};
use fuse_wire::{Errno, OutHeader};
use std::marker::Model;
use vm_values::ByteValued;

/// The length in bytes of the longest front: header, `struct fuse_entry_out` and `struct
/// fuse_open_out` of CREATE.
pub const MOST_FRONT_LEN: usize = 160;

/// The most data of a reply, in bytes: with the header its length fits 32 bits.
pub(crate) const MOST_DATA_LEN: usize = u32::MAX as usize - OUT_HEADER_LEN;

/// The front of a reply, at most 160 bytes.
#[derive(Drop)]
pub struct Front {
    bytes: [u8; MOST_FRONT_LEN],
    len: usize,
}

impl Model for Front {
    ghost use Rattle.std.specs.Prelude.{ℕ, ◌≤◌, List, take};

    ghost Value = { List ℕ };

    ghost view = { λ f. take f.len f.bytes };

    ghost invariant = { λ f. f.len ≤ 160 };
}

// Writes two parts, one behind the other.
#[inline(always)]
fn put_parts(out: &mut [u8], first: &[u8], second: &[u8])
    requires { length out.old ≡ length first.now + length second.now }
    ensures { out.new ≡ first.now ++ second.now }
{
    let (front, back) = out.split_at_mut(first.len());
    front.copy_from_slice(first);
    back.copy_from_slice(second);
}

// Writes a successful reply that is one record.
#[inline(always)]
fn put_reply<T: ByteValued>(out: &mut [u8], unique: u64, body: &T)
    requires { length out.old ≡ 16 + T.SIZE }
    ensures { out.new ≡ reply_bytes unique (spelled (T.fields body.now)) }
{
    let len = out.len() as u32;
    let (front, back) = out.split_at_mut(OUT_HEADER_LEN);
    let header = OutHeader {
        len,
        error: 0,
        unique,
    };
    header.put_bytes(front);
    body.put_bytes(back);
}

impl Front {
    /// The bytes of the front.
    #[inline(always)]
    pub fn bytes(&self) -> &[u8]
        ensures value { result.now ≡ self.now }
        ensures short { length result.now ≤ 160 }
    {
        &self.bytes[..self.len]
    }

    // A front of two parts.
    #[inline(always)]
    fn of_parts(first: &[u8], second: &[u8]) -> Front
        requires { length first.now + length second.now ≤ 160 }
        ensures { result ≡ first.now ++ second.now }
    {
        let mut bytes = [0; MOST_FRONT_LEN];
        let len = first.len() + second.len();
        put_parts(&mut bytes[..len], first, second);
        Front { bytes, len }
    }

    /// The empty front of a request without a reply.
    pub fn none() -> Front
        ensures { result ≡ [] }
    {
        Front::of_parts(&[], &[])
    }

    /// A successful reply with this body, at most 144 bytes.
    #[inline(always)]
    #[tactic(auto, unfolding(crate::specs::WholeReplies::reply_bytes))]
    pub fn reply(unique: u64, body: &[u8]) -> Front
        requires { length body.now ≤ 144 }
        ensures { result ≡ reply_bytes unique body.now }
    {
        let header = data_header(unique, Ok(body.len()));
        Front::of_parts(&header, body)
    }

    /// A successful reply that is one record, of at most 144 bytes.
    #[inline(always)]
    pub fn record<T: ByteValued>(unique: u64, body: &T) -> Front
        requires { T.SIZE ≤ 144 }
        ensures { result ≡ reply_bytes unique (spelled (T.fields body.now)) }
    {
        let mut bytes = [0; MOST_FRONT_LEN];
        let len = OUT_HEADER_LEN + T::SIZE;
        put_reply(&mut bytes[..len], unique, body);
        Front { bytes, len }
    }

    /// The header of a successful reply with `len` bytes of data. More than `MOST_DATA_LEN` count
    /// as that many.
    #[inline(always)]
    pub fn data(unique: u64, len: usize) -> Front
        ensures { 16 + len < 2 ^ 32 → result ≡ data_header unique (Ok len) }
    {
        let header = data_header(unique, Ok(len.min(MOST_DATA_LEN)));
        Front::of_parts(&header, &[])
    }

    /// The reply of an error: a header, 16 bytes.
    #[inline(always)]
    pub fn error(unique: u64, error: Errno) -> Front
        ensures { result ≡ error_bytes unique error }
    {
        Front::of_parts(&data_header(unique, Err(error)), &[])
    }
}
