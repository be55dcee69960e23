//! The reply of each answer.

ghost use Rattle.std.specs.Prelude.{◌≡◌, ◌+◌, ◌<◌, ◌^◌, ◌++◌, [], length, Ok, false};
ghost use Rattle.vm_values.specs.Fields.{spelled};
ghost use Rattle.fuse_wire.specs.Records.{entry_out, open_out};
ghost use Rattle.server_replies.specs.WholeReplies.{with_written, whole_or_none, bytes_of_answer};
ghost use Rattle.server_replies.specs.WholeReplies.{data_of_answer};
ghost use Rattle.server_replies.specs.WholeReplies.{LeavesWriter};
ghost use Rattle.server_segments.specs.Errors.{lacks_memory};

use crate::fronts::{Front, MOST_DATA_LEN};
use crate::replies::{reply_error, send};
use fuse_fs::replies::{attr_out, getxattr_out, lseek_out, open_out, write_out};
use fuse_fs::{Entry, FileNumber, GetxattrReply, GoodAnswer, ListxattrReply, Silence, Timeout};
use fuse_wire::{Attr, EntryOut, Errno, Kstatfs, OpenOptions, OpenOut, StatVfs, StatfsOut};
use server_segments::{Error, Writer};
use vm_values::ByteValued;

/// An answer with its reply: header and record of a successful call, and the data behind them
/// (linux/fuse.h).
pub trait AsFront: GoodAnswer + Drop {
    /// The front of the reply, and its data. The reply's length must fit the header's 32 bits.
    fn parts(&self, unique: u64) -> (Front, &[u8])
        ensures data { result.1.now ≡ data_of_answer Self.silent (Self.said (Ok self.now)) }
        ensures bytes { 16 + length result.1.now < 2 ^ 32
            → result.0 ++ result.1.now ≡ bytes_of_answer Self.silent unique (Self.said (Ok self.now)) };

    /// The reply of an answer without data: its front alone.
    final fn front(&self, unique: u64) -> Front
        requires { data_of_answer Self.silent (Self.said (Ok self.now)) ≡ [] }
        ensures { result ≡ bytes_of_answer Self.silent unique (Self.said (Ok self.now)) }
    {
        let (front, _data) = self.parts(unique);
        front
    }
}

/// Writes the reply of an answer, whole or not at all: header, record and data, or the error.
/// Returns its length in bytes, 0 if there is none. `EncodeMessage` if it doesn't fit.
#[inline(always)]
pub fn reply_answer<A: AsFront>(
    w: &mut Writer,
    unique: u64,
    answer: Result<A, Errno>,
) -> Result<usize, Error>
    requires fresh { w.old.written ≡ [] }
    requires room { w.old.free < 2 ^ 32 }
    ensures sent { with_written result w.new.written
        ≡ whole_or_none w.old.free (bytes_of_answer A.silent unique (A.said answer)) }
    ensures writer { LeavesWriter result w.old w.new }
    ensures memory { lacks_memory result ≡ false }
{
    match answer {
        Ok(good) => {
            let (front, data) = good.parts(unique);
            if MOST_DATA_LEN < data.len() {
                return Err(Error::EncodeMessage);
            }
            send(w, front.bytes(), data)
        }
        Err(error) => reply_error(w, unique, error),
    }
}

impl<I: FileNumber> AsFront for Entry<I> {
    #[inline(always)]
    fn parts(&self, unique: u64) -> (Front, &[u8]) {
        let entry = EntryOut::from(Entry { ..*self });
        (Front::record(unique, &entry), &[])
    }
}

impl AsFront for Silence {
    #[inline(always)]
    fn parts(&self, unique: u64) -> (Front, &[u8]) {
        (Front::none(), &[])
    }
}

impl AsFront for () {
    #[inline(always)]
    fn parts(&self, unique: u64) -> (Front, &[u8]) {
        (Front::reply(unique, &[]), &[])
    }
}

impl AsFront for (Attr, Timeout) {
    #[inline(always)]
    fn parts(&self, unique: u64) -> (Front, &[u8]) {
        (Front::record(unique, &attr_out(self.0, self.1)), &[])
    }
}

impl<H: FileNumber> AsFront for (Option<H>, OpenOptions) {
    #[inline(always)]
    fn parts(&self, unique: u64) -> (Front, &[u8]) {
        (Front::record(unique, &open_out(self.0, self.1)), &[])
    }
}

impl AsFront for StatVfs {
    #[inline(always)]
    fn parts(&self, unique: u64) -> (Front, &[u8]) {
        let st = Kstatfs::from(*self);
        (Front::record(unique, &StatfsOut { st }), &[])
    }
}

impl AsFront for u32 {
    #[inline(always)]
    fn parts(&self, unique: u64) -> (Front, &[u8]) {
        (Front::record(unique, &write_out(*self)), &[])
    }
}

impl AsFront for u64 {
    #[inline(always)]
    fn parts(&self, unique: u64) -> (Front, &[u8]) {
        (Front::record(unique, &lseek_out(*self)), &[])
    }
}

impl AsFront for Vec<u8> {
    #[inline(always)]
    #[tactic(auto, unfolding(crate::specs::WholeReplies::reply_bytes))]
    fn parts(&self, unique: u64) -> (Front, &[u8]) {
        (Front::data(unique, self.len()), self)
    }
}

impl AsFront for GetxattrReply {
    #[inline(always)]
    #[tactic(auto, unfolding(crate::specs::WholeReplies::reply_bytes))]
    fn parts(&self, unique: u64) -> (Front, &[u8]) {
        match self {
            GetxattrReply::Value(value) => (Front::data(unique, value.len()), value),
            GetxattrReply::Count(count) => (Front::record(unique, &getxattr_out(*count)), &[]),
        }
    }
}

impl AsFront for ListxattrReply {
    #[inline(always)]
    #[tactic(auto, unfolding(crate::specs::WholeReplies::reply_bytes))]
    fn parts(&self, unique: u64) -> (Front, &[u8]) {
        match self {
            ListxattrReply::Names(names) => (Front::data(unique, names.len()), names),
            ListxattrReply::Count(count) => (Front::record(unique, &getxattr_out(*count)), &[]),
        }
    }
}

impl<I: FileNumber, H: FileNumber> AsFront for (Entry<I>, Option<H>, OpenOptions) {
    #[inline(always)]
    fn parts(&self, unique: u64) -> (Front, &[u8]) {
        let mut body = [0; CREATE_OUT_LEN];
        let entry = EntryOut::from(Entry { ..self.0 });
        put_created(&mut body, &entry, &open_out(self.1, self.2));
        (Front::reply(unique, &body), &[])
    }
}

/// The length in bytes of a reply to CREATE without its header: `struct fuse_entry_out` and `struct
/// fuse_open_out`.
const CREATE_OUT_LEN: usize = 144;

// Writes the two records of a reply to CREATE.
fn put_created(body: &mut [u8], entry: &EntryOut, opened: &OpenOut)
    requires { length body.old ≡ 144 }
    ensures { body.new ≡ spelled (entry_out entry.now) ++ spelled (open_out opened.now) }
{
    let (first, second) = body.split_at_mut(128);
    entry.put_bytes(first);
    opened.put_bytes(second);
}
