//! The fields that C gets of each file call: one row for each.

ghost use Rattle.std.specs.Prelude.{◌≡◌, ℕ, true};
ghost use Rattle.fs_chain_c.specs.Calls.{has_name, is_of_open_file, fill_call};

use crate::answer_kind::{AnswerKind, call_number, listing, sized};
use crate::call::{FsCall, HEADER, behind_header, data_len, filled_attr, span};
use bitflags::Flags;
use fuse_values::FileCall;
use fuse_wire::Opcode;
use server_meanings::REQUEST_FRONT;

// A match over all calls. A row of `of_a_node` is a call that a process makes on a node: the fields to match,
// the answer's kind, and the fields to set. A row of `others` has the fields to match, the call to start
// with, and the fields to set. Other arms follow the rows.
macro_rules! filled {
    ($call:expr, $filled:expr,
        of_a_node { $($name:ident { $($part:tt)* } $kind:ident $(, $field:ident: $value:expr)*;)* }
        others { $($other:ident { $($piece:tt)* } = $start:expr $(, $slot:ident: $given:expr)*;)* }
        $($arm:tt)*) => {
        match $call {
            $(FileCall::$name { context, node, $($part)* } => {
                *$filled = FsCall::made_by(Opcode::$name, AnswerKind::$kind, context, *node);
                $($filled.$field = $value;)*
            })*
            $(FileCall::$other { $($piece)* } => {
                *$filled = $start;
                $($filled.$slot = $given;)*
            })*
            $($arm)*
        }
    };
}

// Fills a call whose request has names, as C gets it.
fn named_call(room: usize, call: &FileCall<'_>, filled: &mut FsCall)
    requires named { has_name call.now ≡ true }
    ensures { (opcode : ℕ) → filled.new ≡ fill_call opcode room call.now }
{
    filled!(call, filled, of_a_node {
        Lookup { name } Entry, name: span(name);
        Symlink { link, name, extra } Entry,
            name: span(name), value: span(link),
            has_group: u8::from(extra.sup_gid.is_some()), group: extra.sup_gid.unwrap_or(0);
        Mknod { name, mode, rdev, umask, extra } Entry,
            name: span(name), mode: *mode, rdev: *rdev, umask: *umask,
            has_group: u8::from(extra.sup_gid.is_some()), group: extra.sup_gid.unwrap_or(0);
        Mkdir { name, mode, umask, extra } Entry,
            name: span(name), mode: *mode, umask: *umask,
            has_group: u8::from(extra.sup_gid.is_some()), group: extra.sup_gid.unwrap_or(0);
        Unlink { name } Done, name: span(name);
        Rmdir { name } Done, name: span(name);
        Rename { old, new_dir, new, flags } Done,
            name: span(old), name2: span(new), node2: *new_dir, flags: *flags;
        Setxattr { name, value, flags, extra } Done,
            name: span(name), value: span(value), flags: *flags, setxattr_flags: extra.bits();
        Getxattr { name, size } Data,
            answer: sized(*size).number(), name: span(name), size: u64::from(*size),
            data_at: HEADER, data_len: data_len(*size, room);
        Removexattr { name } Done, name: span(name);
        Create { name, mode, kill, flags, umask, extra } Create,
            name: span(name), mode: *mode, flags: *flags, umask: *umask,
            kill_priv: u8::from(*kill), has_group: u8::from(extra.sup_gid.is_some()),
            group: extra.sup_gid.unwrap_or(0);
    } others {
        Link { context, old_node, node, name } = FsCall::made_by(Opcode::Link, AnswerKind::Entry, context,
            *old_node), name: span(name), node2: *node;
    } _ => unreachable!())
}

// Fills a call on an open file or directory, which it names by its handle, as C gets it.
fn open_file_call(opcode: u32, room: usize, call: &FileCall<'_>, filled: &mut FsCall)
    requires opened { is_of_open_file call.now ≡ true }
    ensures { filled.new ≡ fill_call opcode room call.now }
{
    filled!(call, filled, of_a_node {
        Read { handle, room: most, size, offset, owner, flags } Data,
            handle: *handle, offset: *offset, size: u64::from(*size), data_at: HEADER, data_len: *most as u64,
            flags: *flags, has_owner: u8::from(owner.is_some()), owner: owner.unwrap_or(0);
        Write { handle, len, size, offset, owner, delayed, kill, flags } Write,
            handle: *handle, offset: *offset, size: u64::from(*size), data_at: REQUEST_FRONT as u64,
            data_len: *len as u64, flags: *flags,
            has_owner: u8::from(owner.is_some()), owner: owner.unwrap_or(0), delayed: u8::from(*delayed),
            kill_priv: u8::from(*kill);
        Release { flags, handle, flush, unlock, owner } Done,
            handle: *handle, flags: *flags, flush: u8::from(*flush), unlock: u8::from(*unlock),
            has_owner: u8::from(owner.is_some()), owner: owner.unwrap_or(0);
        Fsync { data_only, handle } Done, handle: *handle, data_only: u8::from(*data_only);
        Fsyncdir { data_only, handle } Done, handle: *handle, data_only: u8::from(*data_only);
        Flush { handle, owner } Done, handle: *handle, owner: *owner;
        Readdir { handle, size, offset } Entries,
            kind: call_number(listing(opcode)), handle: *handle, offset: *offset, size: u64::from(*size),
            data_at: HEADER, data_len: data_len(*size, room);
        Releasedir { flags, handle } Done, handle: *handle, flags: *flags;
        Fallocate { handle, mode, offset, len } Done, handle: *handle, mode: *mode,
            offset: *offset, size: *len;
        Lseek { handle, offset, whence } Lseek, handle: *handle, offset: *offset, flags: *whence;
        CopyFileRange { handle, offset, node_out, handle_out, offset_out, len, .. } Write,
            handle: *handle, offset: *offset, node2: *node_out, handle2: *handle_out,
            offset2: *offset_out, size: *len;
    } others {} _ => unreachable!())
}

/// Fills a call as C gets it, by the opcode of its request and the length of the reply buffer.
pub(crate) fn fill_call(opcode: u32, room: usize, call: &FileCall<'_>, filled: &mut FsCall)
    ensures { filled.new ≡ fill_call opcode room call.now }
{
    filled!(call, filled, of_a_node {
        Forget { count } None, count: *count;
        Getattr { handle } Attr, has_handle: u8::from(handle.is_some()), handle: handle.unwrap_or(0);
        Setattr { attr, handle, valid } Attr,
            has_handle: u8::from(handle.is_some()), handle: handle.unwrap_or(0), valid: valid.bits(),
            owner: attr.lock_owner, attr: filled_attr(attr);
        Readlink {} Data, data_at: HEADER, data_len: behind_header(room);
        Open { kill, flags } Open, flags: *flags, kill_priv: u8::from(*kill);
        Statfs {} Statfs;
        Listxattr { size } Data, answer: sized(*size).number(), size: u64::from(*size), data_at: HEADER,
            data_len: data_len(*size, room);
        Opendir { flags } Open, flags: *flags;
        Access { mask } Done, mode: *mask;
        Syncfs {} Done;
    } others {
        Init { capable } = FsCall::made(Opcode::Init, AnswerKind::Init), options: capable.bits();
        Destroy {} = FsCall::made(Opcode::Destroy, AnswerKind::Done);
        BatchForget { context, counts } = FsCall::made_by(Opcode::BatchForget, AnswerKind::None, context, 0),
            count: (counts.bytes.len() / 16) as u64, value: span(counts);
        Getlk {} = FsCall::none();
        Setlk {} = FsCall::none();
        Setlkw {} = FsCall::none();
        Bmap {} = FsCall::none();
        Ioctl {} = FsCall::none();
        Poll {} = FsCall::none();
        NotifyReply {} = FsCall::none();
        TmpFile {} = FsCall::none();
    }
        FileCall::Lookup { .. } | FileCall::Symlink { .. } | FileCall::Mknod { .. }
            | FileCall::Mkdir { .. } | FileCall::Unlink { .. } | FileCall::Rmdir { .. }
            | FileCall::Rename { .. } | FileCall::Setxattr { .. } | FileCall::Getxattr { .. }
            | FileCall::Removexattr { .. } | FileCall::Create { .. } | FileCall::Link { .. } =>
            named_call(room, call, filled),
        FileCall::Read { .. } | FileCall::Write { .. } | FileCall::Release { .. }
            | FileCall::Fsync { .. } | FileCall::Fsyncdir { .. } | FileCall::Flush { .. }
            | FileCall::Readdir { .. } | FileCall::Releasedir { .. } | FileCall::Fallocate { .. }
            | FileCall::Lseek { .. } | FileCall::CopyFileRange { .. } =>
            open_file_call(opcode, room, call, filled)
    )
}
