//! Requests whose contents the server doesn't read: the file system learns only that they arrived.

ghost use Rattle.std.specs.Prelude.{refl};
ghost use Rattle.fuse_fs.specs.Calls as call;

use crate::values::PlainValue;
use fuse_in::InHeader;
use fuse_values::FileCall;

/// GETLK: tests for a lock.
pub struct Getlk;

impl PlainValue for Getlk {
    ghost call = { λ h. call.Getlk };

    ghost shows = { λ h. (refl, (refl, tt)) };

    fn value<'a>(head: &InHeader) -> FileCall<'a> {
        FileCall::Getlk
    }
}

/// SETLK: sets a lock.
pub struct Setlk;

impl PlainValue for Setlk {
    ghost call = { λ h. call.Setlk };

    ghost shows = { λ h. (refl, (refl, tt)) };

    fn value<'a>(head: &InHeader) -> FileCall<'a> {
        FileCall::Setlk
    }
}

/// SETLKW: sets a lock, and waits for it.
pub struct Setlkw;

impl PlainValue for Setlkw {
    ghost call = { λ h. call.Setlkw };

    ghost shows = { λ h. (refl, (refl, tt)) };

    fn value<'a>(head: &InHeader) -> FileCall<'a> {
        FileCall::Setlkw
    }
}

/// BMAP: finds the disk block of a file's block.
pub struct Bmap;

impl PlainValue for Bmap {
    ghost call = { λ h. call.Bmap };

    ghost shows = { λ h. (refl, (refl, tt)) };

    fn value<'a>(head: &InHeader) -> FileCall<'a> {
        FileCall::Bmap
    }
}

/// IOCTL: a command for a device.
pub struct Ioctl;

impl PlainValue for Ioctl {
    ghost call = { λ h. call.Ioctl };

    ghost shows = { λ h. (refl, (refl, tt)) };

    fn value<'a>(head: &InHeader) -> FileCall<'a> {
        FileCall::Ioctl
    }
}

/// POLL: the events that a file is ready for.
pub struct Poll;

impl PlainValue for Poll {
    ghost call = { λ h. call.Poll };

    ghost shows = { λ h. (refl, (refl, tt)) };

    fn value<'a>(head: &InHeader) -> FileCall<'a> {
        FileCall::Poll
    }
}

/// NOTIFY_REPLY: the client's answer to a notification.
pub struct NotifyReply;

impl PlainValue for NotifyReply {
    ghost call = { λ h. call.NotifyReply };

    ghost shows = { λ h. (refl, (refl, tt)) };

    fn value<'a>(head: &InHeader) -> FileCall<'a> {
        FileCall::NotifyReply
    }
}

/// TMPFILE: creates a file without a name. Every file system refuses it.
pub struct TmpFile;

impl PlainValue for TmpFile {
    ghost call = { λ h. call.TmpFile };

    ghost shows = { λ h. (refl, (refl, tt)) };

    fn value<'a>(head: &InHeader) -> FileCall<'a> {
        FileCall::TmpFile
    }
}
