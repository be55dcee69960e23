//! Requests about extended attributes.

ghost use Rattle.std.specs.Prelude.{◌≡◌, ℕ, List, [], bit_and, refl};
ghost use Rattle.fuse_values.specs.Places.{CallStandsIn, IsBehind, NameStandsAt, StandsIn};
ghost use Rattle.fuse_values.specs.Values.{call_of};
ghost use Rattle.server_calls.specs.Requests.{getxattr_call, listxattr_call, setxattr_call, known_setxattr};

use crate::values::{RecordNameValue, RecordValue};
use bitflags::Flags;
use fuse_fs::Context;
use fuse_in::{GetxattrIn, InHeader, SetxattrIn};
use fuse_values::{FileCall, Placed};
use fuse_wire::SetxattrFlags;

/// GETXATTR (`struct fuse_getxattr_in`): the value of an extended attribute.
pub struct Getxattr;

impl RecordNameValue for Getxattr {
    type Record = GetxattrIn;

    ghost call = { getxattr_call };

    ghost shows = { λ h r name. (refl, (refl, tt)) };

    fn value<'a>(head: &InHeader, request: &GetxattrIn, name: Placed<'a>) -> FileCall<'a> {
        FileCall::Getxattr {
            context: Context::from(*head),
            node: head.nodeid,
            name,
            size: request.size,
        }
    }
}

/// LISTXATTR (`struct fuse_getxattr_in`): the names of the extended attributes.
pub struct Listxattr;

impl RecordValue for Listxattr {
    type Record = GetxattrIn;

    ghost call = { listxattr_call };

    ghost shows = { λ h r. (refl, (refl, tt)) };

    fn value<'a>(head: &InHeader, request: &GetxattrIn) -> FileCall<'a> {
        FileCall::Listxattr {
            context: Context::from(*head),
            node: head.nodeid,
            size: request.size,
        }
    }
}

// The known bits of `setxattr_flags` of `struct fuse_setxattr_in`.
#[tactic(auto, using(crate::proofs::Options::known_setxattr_are))]
fn known(flags: u32) -> SetxattrFlags
    ensures { result.0 ≡ bit_and flags known_setxattr }
{
    SetxattrFlags::from_bits_truncate(flags)
}

/// SETXATTR (`struct fuse_setxattr_in`): sets an extended attribute.
pub fn setxattr_value<'a>(
    head: &InHeader,
    request: &SetxattrIn,
    name: Placed<'a>,
    value: Placed<'a>,
) -> FileCall<'a>
    ensures reads { call_of [] result
        ≡ setxattr_call head.now request.now (name.entry.bytes.now, value.entry.bytes.now) }
    ensures places { (all : List ℕ) (first : ℕ) → NameStandsAt all name.entry first
        → StandsIn all value.entry → IsBehind name.entry value.entry → CallStandsIn all first result }
{
    FileCall::Setxattr {
        context: Context::from(*head),
        node: head.nodeid,
        name,
        value,
        flags: request.flags,
        extra: known(request.setxattr_flags),
    }
}
