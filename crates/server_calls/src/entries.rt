//! The entries in answers. The server forgets the node of an entry whose reply doesn't fit.

ghost use Rattle.std.specs.Prelude.{◌≡◌, None, Ok, option_map};
ghost use Rattle.server_calls.specs.Requests.{entry_node};

use fuse_fs::{Entry, FileNumber, GetxattrReply, GoodAnswer};
use fuse_wire::{Errno, OpenOptions};

/// An answer that may have an entry.
pub trait EntryAnswer<I: FileNumber>: GoodAnswer {
    /// The node of the answer's entry, if it has one.
    fn node(&self) -> Option<I>
        ensures { option_map I.number result ≡ entry_node (Self.said (Ok self.now)) };
}

impl<I: FileNumber> EntryAnswer<I> for Entry<I> {
    fn node(&self) -> Option<I> {
        Some(self.inode)
    }
}

impl<I: FileNumber> EntryAnswer<I> for () {
    fn node(&self) -> Option<I> {
        None
    }
}

impl<I: FileNumber> EntryAnswer<I> for GetxattrReply {
    fn node(&self) -> Option<I> {
        None
    }
}

impl<I: FileNumber, H: FileNumber> EntryAnswer<I> for (Entry<I>, Option<H>, OpenOptions) {
    fn node(&self) -> Option<I> {
        Some(self.0.inode)
    }
}

/// The node of the entry in an answer, if it has one.
pub fn answered_node<I: FileNumber, A: EntryAnswer<I>>(answer: &Result<A, Errno>) -> Option<I>
    ensures { option_map I.number result ≡ entry_node (A.said answer.now) }
{
    match answer {
        Ok(good) => good.node(),
        Err(_) => None,
    }
}
