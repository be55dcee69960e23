//! Requests that create a node.

ghost use Rattle.std.specs.Prelude.{◌≡◌, ℕ, List, [], refl};
ghost use Rattle.fuse_values.specs.Places.{CallStandsIn, IsBehind, LabelStandsIn, NameStandsAt, NameStandsIn};
ghost use Rattle.fuse_values.specs.Places.{behind};
ghost use Rattle.fuse_values.specs.Values.{call_of, received_extra};
ghost use Rattle.server_calls.specs.Requests.{mknod_call, mkdir_call, create_call, symlink_call};

use crate::values::NewNameValue;
use fuse_fs::Context;
use fuse_in::{CreateIn, InHeader, MkdirIn, MknodIn};
use fuse_values::{FileCall, Placed, Received};
use fuse_wire::constants::OPEN_KILL_SUIDGID;

/// MKNOD (`struct fuse_mknod_in`): creates a node of the kind in `mode`.
pub struct Mknod;

impl NewNameValue for Mknod {
    type Record = MknodIn;

    ghost call = { mknod_call };

    ghost shows = { λ h r x. (refl, (refl, refl)) };

    fn value<'a>(
        head: &InHeader,
        request: &MknodIn,
        name: Placed<'a>,
        extra: Received<'a>,
    ) -> FileCall<'a> {
        FileCall::Mknod {
            context: Context::from(*head),
            node: head.nodeid,
            name,
            mode: request.mode,
            rdev: request.rdev,
            umask: request.umask,
            extra,
        }
    }
}

/// MKDIR (`struct fuse_mkdir_in`): creates a directory.
pub struct Mkdir;

impl NewNameValue for Mkdir {
    type Record = MkdirIn;

    ghost call = { mkdir_call };

    ghost shows = { λ h r x. (refl, (refl, refl)) };

    fn value<'a>(
        head: &InHeader,
        request: &MkdirIn,
        name: Placed<'a>,
        extra: Received<'a>,
    ) -> FileCall<'a> {
        FileCall::Mkdir {
            context: Context::from(*head),
            node: head.nodeid,
            name,
            mode: request.mode,
            umask: request.umask,
            extra,
        }
    }
}

/// CREATE (`struct fuse_create_in`): creates a file and opens it.
pub struct Create;

impl NewNameValue for Create {
    type Record = CreateIn;

    ghost call = { create_call };

    ghost shows = { λ h r x. (refl, (refl, refl)) };

    fn value<'a>(
        head: &InHeader,
        request: &CreateIn,
        name: Placed<'a>,
        extra: Received<'a>,
    ) -> FileCall<'a> {
        FileCall::Create {
            context: Context::from(*head),
            node: head.nodeid,
            name,
            mode: request.mode,
            kill: request.open_flags & OPEN_KILL_SUIDGID != 0,
            flags: request.flags,
            umask: request.umask,
            extra,
        }
    }
}

/// SYMLINK: creates a symbolic link to `link`.
pub fn symlink_value<'a>(
    head: &InHeader,
    link: Placed<'a>,
    name: Placed<'a>,
    extra: Received<'a>,
) -> FileCall<'a>
    ensures reads { call_of [] result ≡ symlink_call head.now (record {
      name = name.entry.bytes.now;
      link = link.entry.bytes.now;
      extra = received_extra extra.entry;
    }) }
    ensures places { (all : List ℕ) (first : ℕ) → NameStandsAt all name.entry first
        → NameStandsIn all link.entry → IsBehind name.entry link.entry
        → LabelStandsIn all (behind link.entry) extra.entry.secctx → CallStandsIn all first result }
{
    FileCall::Symlink {
        context: Context::from(*head),
        link,
        node: head.nodeid,
        name,
        extra,
    }
}
