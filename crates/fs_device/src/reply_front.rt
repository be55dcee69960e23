//! The bytes of a reply that are still to be written.

ghost use Rattle.std.specs.Prelude.{◌≡◌};

use crate::answer_by_copy::CopiedReply;
use plain_machine::Fault;
use server_meanings::REPLY_FRONT;

/// The bytes of a reply that are still to be written: all of them, or only the header if the data is
/// already in the reply buffer.
#[derive(Drop)]
pub(crate) enum ReplyFront {
    Reply(Vec<u8>),
    Header([u8; REPLY_FRONT]),
}

ghost use Rattle.fs_device.specs.ReplyFront.{front_bytes};

impl ReplyFront {
    /// The bytes that are still to be written.
    pub(crate) fn bytes(&self) -> &[u8]
        ensures { result.now ≡ front_bytes self.now }
    {
        match self {
            ReplyFront::Reply(bytes) => bytes,
            ReplyFront::Header(bytes) => bytes,
        }
    }
}

/// The answer to a chain that was taken: the bytes of the reply that are still to be written, the
/// length of the whole reply in bytes, and the fault if there is no reply.
#[derive(Drop)]
pub(crate) struct PreparedReply {
    pub front: ReplyFront,
    pub len: usize,
    pub fault: Option<Fault>,
}

impl PreparedReply {
    ghost use Rattle.fs_device.specs.ReplyFront.{whole};

    /// A reply that is still to be written whole, or a fault.
    #[inline(always)]
    pub(crate) fn whole(reply: CopiedReply) -> PreparedReply
        ensures { result ≡ whole reply }
    {
        let len = reply.bytes.len();
        PreparedReply {
            front: ReplyFront::Reply(reply.bytes),
            len,
            fault: reply.fault,
        }
    }
}
