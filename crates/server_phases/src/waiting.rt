//! The state of a request while its call waits for an answer.

ghost use Rattle.std.specs.Prelude.{◌≡◌, []};
ghost use Rattle.fuse_values.specs.Values.{call_of};
ghost use Rattle.server_phases.specs.Waiting.{awaits_of};

use fuse_fs::Context;
use fuse_values::FileCall;

/// The kind of answer that a call can have.
#[derive(Clone, Copy, Debug, PartialEq, Eq)]
pub enum Awaits {
    /// Success.
    Done,
    /// Success without a reply; the call can't fail.
    Forgotten,
    /// Success without a reply.
    NoReply,
    /// Success of DESTROY, the end of the session, without a reply; the call can't fail.
    End,
    /// An error: the call can't succeed.
    Failure,
    /// An entry.
    Entry,
    /// Attributes.
    Attr,
    /// An opened file.
    Open,
    /// An entry and an opened file.
    Create,
    /// Data.
    Bytes,
    /// At most `most` bytes of a file.
    FileBytes { most: usize },
    /// Data, or its length in bytes.
    BytesOrCount,
    /// The statistics of a file system.
    Stats,
    /// The number of bytes written.
    Written,
    /// An offset in a file, in bytes.
    Offset,
    /// INIT's options that the file system wants. `capable` are those of client and server; the
    /// client reads `readahead` bytes ahead.
    InitOptions { capable: u64, readahead: u32 },
    /// The entries of a directory in at most `size` bytes, with their nodes in READDIRPLUS.
    Entries { with_nodes: bool, size: u32 },
}

/// The state of a request whose call waits for an answer; the request's bytes are needed no more. Only
/// `Session::ask` and `ask_front` make one, and an answer consumes it, so each call is answered once.
#[derive(Debug, Drop)]
pub struct Waiting {
    pub(crate) unique: u64,
    pub(crate) context: Context,
    pub(crate) awaits: Awaits,
    pub(crate) room: usize,
}

impl Waiting {
    /// The client's number of the request (`unique` of `struct fuse_in_header`).
    pub fn unique(&self) -> u64
        ensures { result ≡ self.now.unique }
    {
        self.unique
    }

    /// The caller: uid, gid and pid of the request's header.
    pub fn context(&self) -> Context
        ensures { result ≡ self.now.context }
    {
        self.context
    }

    /// The kind of answer that the call can have.
    pub fn awaits(&self) -> Awaits
        ensures { result ≡ self.now.awaits }
    {
        self.awaits
    }

    /// The size of the reply buffer in bytes, with the header.
    pub fn room(&self) -> usize
        ensures { result ≡ self.now.room }
    {
        self.room
    }
}

/// The kind of answer that one call can have.
pub(crate) fn awaits_of(call: &FileCall<'_>) -> Awaits
    ensures { result ≡ awaits_of (call_of [] call.now) }
{
    match call {
        FileCall::Lookup { .. }
        | FileCall::Symlink { .. }
        | FileCall::Mknod { .. }
        | FileCall::Mkdir { .. }
        | FileCall::Link { .. } => Awaits::Entry,
        FileCall::Create { .. } => Awaits::Create,
        FileCall::Getattr { .. } | FileCall::Setattr { .. } => Awaits::Attr,
        FileCall::Open { .. } | FileCall::Opendir { .. } => Awaits::Open,
        FileCall::Readlink { .. } => Awaits::Bytes,
        FileCall::Getxattr { .. } | FileCall::Listxattr { .. } => Awaits::BytesOrCount,
        FileCall::Statfs { .. } => Awaits::Stats,
        FileCall::Write { .. } | FileCall::CopyFileRange { .. } => Awaits::Written,
        FileCall::Lseek { .. } => Awaits::Offset,
        FileCall::Forget { .. } | FileCall::BatchForget { .. } => Awaits::Forgotten,
        FileCall::Getlk
        | FileCall::Setlk
        | FileCall::Setlkw
        | FileCall::Bmap
        | FileCall::Ioctl
        | FileCall::Poll
        | FileCall::NotifyReply => Awaits::NoReply,
        FileCall::Destroy => Awaits::End,
        FileCall::TmpFile => Awaits::Failure,
        FileCall::Read { room, .. } => Awaits::FileBytes { most: *room },
        _ => Awaits::Done,
    }
}
