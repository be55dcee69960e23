//! Requests that add or move names of nodes.

ghost use Rattle.std.specs.Prelude.{refl};
ghost use Rattle.server_calls.specs.Requests.{link_call, rename_call, rename2_call};

use crate::values::{RecordNameValue, TwoNamesValue};
use fuse_fs::Context;
use fuse_in::{InHeader, LinkIn, Rename2In, RenameIn};
use fuse_values::{FileCall, Placed};

/// LINK (`struct fuse_link_in`): adds a name to a node.
pub struct Link;

impl RecordNameValue for Link {
    type Record = LinkIn;

    ghost call = { link_call };

    ghost shows = { λ h r name. (refl, (refl, refl)) };

    fn value<'a>(head: &InHeader, request: &LinkIn, name: Placed<'a>) -> FileCall<'a> {
        FileCall::Link {
            context: Context::from(*head),
            old_node: request.oldnodeid,
            node: head.nodeid,
            name,
        }
    }
}

/// RENAME (`struct fuse_rename_in`): moves a name.
pub struct Rename;

impl TwoNamesValue for Rename {
    type Record = RenameIn;

    ghost call = { rename_call };

    ghost shows = { λ h r names. (refl, (refl, tt)) };

    fn value<'a>(
        head: &InHeader,
        request: &RenameIn,
        old: Placed<'a>,
        new: Placed<'a>,
    ) -> FileCall<'a> {
        FileCall::Rename {
            context: Context::from(*head),
            node: head.nodeid,
            old,
            new_dir: request.newdir,
            new,
            flags: 0,
        }
    }
}

/// The known flags of `renameat2(2)`: RENAME_NOREPLACE, RENAME_EXCHANGE and RENAME_WHITEOUT.
const RENAME_FLAGS: u32 = 7;

/// RENAME2 (`struct fuse_rename2_in`): moves a name, with the known flags of `renameat2(2)`.
pub struct Rename2;

impl TwoNamesValue for Rename2 {
    type Record = Rename2In;

    ghost call = { rename2_call };

    ghost shows = { λ h r names. (refl, (refl, tt)) };

    fn value<'a>(
        head: &InHeader,
        request: &Rename2In,
        old: Placed<'a>,
        new: Placed<'a>,
    ) -> FileCall<'a> {
        FileCall::Rename {
            context: Context::from(*head),
            node: head.nodeid,
            old,
            new_dir: request.newdir,
            new,
            flags: request.flags & RENAME_FLAGS,
        }
    }
}
