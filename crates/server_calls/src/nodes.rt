//! Requests about names and nodes.

ghost use Rattle.std.specs.Prelude.{◌≡◌, bit_and, refl};
ghost use Rattle.server_calls.specs.Requests.{lookup_call, forget_call, getattr_call, setattr_call};
ghost use Rattle.server_calls.specs.Requests.{readlink_call};
ghost use Rattle.server_calls.specs.Requests.{unlink_call, rmdir_call, statfs_call, removexattr_call};
ghost use Rattle.server_calls.specs.Requests.{access_call, syncfs_call, known_setattr};

use crate::values::{NameValue, PlainValue, RecordValue, number_if};
use bitflags::Flags;
use fuse_fs::Context;
use fuse_in::{AccessIn, ForgetIn, GetattrIn, InHeader, SetattrIn};
use fuse_values::{FileCall, Placed};
use fuse_wire::SetattrValid;
use fuse_wire::constants::{FATTR_FH, GETATTR_FH};

/// LOOKUP: the entry of a name in a directory.
pub struct Lookup;

impl NameValue for Lookup {
    ghost call = { lookup_call };

    ghost shows = { λ h name. (refl, (refl, refl)) };

    fn value<'a>(head: &InHeader, name: Placed<'a>) -> FileCall<'a> {
        FileCall::Lookup {
            context: Context::from(*head),
            node: head.nodeid,
            name,
        }
    }
}

/// UNLINK: removes a name.
pub struct Unlink;

impl NameValue for Unlink {
    ghost call = { unlink_call };

    ghost shows = { λ h name. (refl, (refl, tt)) };

    fn value<'a>(head: &InHeader, name: Placed<'a>) -> FileCall<'a> {
        FileCall::Unlink {
            context: Context::from(*head),
            node: head.nodeid,
            name,
        }
    }
}

/// RMDIR: removes an empty directory.
pub struct Rmdir;

impl NameValue for Rmdir {
    ghost call = { rmdir_call };

    ghost shows = { λ h name. (refl, (refl, tt)) };

    fn value<'a>(head: &InHeader, name: Placed<'a>) -> FileCall<'a> {
        FileCall::Rmdir {
            context: Context::from(*head),
            node: head.nodeid,
            name,
        }
    }
}

/// REMOVEXATTR: removes an extended attribute.
pub struct Removexattr;

impl NameValue for Removexattr {
    ghost call = { removexattr_call };

    ghost shows = { λ h name. (refl, (refl, tt)) };

    fn value<'a>(head: &InHeader, name: Placed<'a>) -> FileCall<'a> {
        FileCall::Removexattr {
            context: Context::from(*head),
            node: head.nodeid,
            name,
        }
    }
}

/// FORGET (`struct fuse_forget_in`): decreases the lookup count of a node by `nlookup`.
pub struct Forget;

impl RecordValue for Forget {
    type Record = ForgetIn;

    ghost call = { forget_call };

    ghost shows = { λ h r. (refl, (refl, tt)) };

    fn value<'a>(head: &InHeader, request: &ForgetIn) -> FileCall<'a> {
        FileCall::Forget {
            context: Context::from(*head),
            node: head.nodeid,
            count: request.nlookup,
        }
    }
}

/// GETATTR (`struct fuse_getattr_in`): the attributes of a node.
pub struct Getattr;

impl RecordValue for Getattr {
    type Record = GetattrIn;

    ghost call = { getattr_call };

    ghost shows = { λ h r. (refl, (refl, tt)) };

    fn value<'a>(head: &InHeader, request: &GetattrIn) -> FileCall<'a> {
        FileCall::Getattr {
            context: Context::from(*head),
            node: head.nodeid,
            handle: number_if(request.flags & GETATTR_FH != 0, request.fh),
        }
    }
}

// The known bits of `valid` of `struct fuse_setattr_in`.
#[tactic(auto, using(crate::proofs::Options::known_setattr_are))]
fn known_valid(valid: u32) -> SetattrValid
    ensures { result.0 ≡ bit_and valid known_setattr }
{
    SetattrValid::from_bits_truncate(valid)
}

/// SETATTR (`struct fuse_setattr_in`): sets attributes of a node.
pub struct Setattr;

impl RecordValue for Setattr {
    type Record = SetattrIn;

    ghost call = { setattr_call };

    ghost shows = { λ h r. (refl, (refl, tt)) };

    fn value<'a>(head: &InHeader, request: &SetattrIn) -> FileCall<'a> {
        FileCall::Setattr {
            context: Context::from(*head),
            node: head.nodeid,
            attr: *request,
            handle: number_if(request.valid & FATTR_FH != 0, request.fh),
            valid: known_valid(request.valid),
        }
    }
}

/// ACCESS (`struct fuse_access_in`): checks whether the caller may access a node as `mask` says.
pub struct Access;

impl RecordValue for Access {
    type Record = AccessIn;

    ghost call = { access_call };

    ghost shows = { λ h r. (refl, (refl, tt)) };

    fn value<'a>(head: &InHeader, request: &AccessIn) -> FileCall<'a> {
        FileCall::Access {
            context: Context::from(*head),
            node: head.nodeid,
            mask: request.mask,
        }
    }
}

/// READLINK: the target of a symbolic link.
pub struct Readlink;

impl PlainValue for Readlink {
    ghost call = { readlink_call };

    ghost shows = { λ h. (refl, (refl, tt)) };

    fn value<'a>(head: &InHeader) -> FileCall<'a> {
        FileCall::Readlink {
            context: Context::from(*head),
            node: head.nodeid,
        }
    }
}

/// STATFS: the statistics of the file system.
pub struct Statfs;

impl PlainValue for Statfs {
    ghost call = { statfs_call };

    ghost shows = { λ h. (refl, (refl, tt)) };

    fn value<'a>(head: &InHeader) -> FileCall<'a> {
        FileCall::Statfs {
            context: Context::from(*head),
            node: head.nodeid,
        }
    }
}

/// SYNCFS: writes the whole file system to the disk.
pub struct Syncfs;

impl PlainValue for Syncfs {
    ghost call = { syncfs_call };

    ghost shows = { λ h. (refl, (refl, tt)) };

    fn value<'a>(head: &InHeader) -> FileCall<'a> {
        FileCall::Syncfs {
            context: Context::from(*head),
            node: head.nodeid,
        }
    }
}
