//! Performing calls with names: calls the file system, and writes the reply of its answer.

ghost use Rattle.std.specs.Prelude.{◌≡◌, ◌<◌, ◌^◌, [], false};
ghost use Rattle.fuse_values.specs.Values.{call_of};
ghost use Rattle.server_calls.specs.Callers.{Named, NamedRecord, Made, shape_of};
ghost use Rattle.server_calls.specs.Requests.{owns_memory};
ghost use Rattle.server_meanings.specs.Grammar.{Asks, One};
ghost use Rattle.virtiofsd_fuse.specs.ServerHandles.{ServerHandles, Leaves};

use crate::server::Server;
use fuse_fs::{FileNumber, FileSystem};
use fuse_values::FileCall;
use server_calls::received::{received, received_entry, received_file, received_value};
use server_replies::answers::reply_answer;
use server_requests::extensions::owned_extensions;
use server_segments::{Error, Writer};
use std::alloc::Global;

// A match over calls; the first group may answer an entry. Each row has the call's fields without its
// context, the function that receives its answer, and the file system's method with its other arguments.
macro_rules! performed {
    ($server:ident, $unique:ident, $w:ident, $call:expr,
        entries { $($name:ident { $($field:ident),* } $received:ident $method:ident($($given:expr),*);)* }
        others { $($other:ident { $($part:ident),* } $came:ident $asked:ident($($passed:expr),*);)* }) => {
        match $call {
            $(FileCall::$name { context, $($field),* } => {
                let answer = $received($server.fs.$method(context, $($given),*));
                $server.reply_entry(context, $unique, answer, $w)
            })*
            $(FileCall::$other { context, $($part),* } => {
                let answer = $came($server.fs.$asked(context, $($passed),*));
                reply_answer($w, $unique, answer)
            })*
            _ => unreachable!(),
        }
    };
}

// The same for calls that create a node. Their extensions are copied for the file system.
macro_rules! made {
    ($server:ident, $alloc:ident, $unique:ident, $w:ident, $call:expr,
        { $($name:ident { $($field:ident),* } $received:ident $method:ident($($given:expr),*);)* }) => {
        match $call {
            $(FileCall::$name { context, $($field,)* extra } => match owned_extensions($alloc, extra) {
                Ok(extensions) => {
                    let answer = $received($server.fs.$method(context, $($given,)* extensions));
                    $server.reply_entry(context, $unique, answer, $w)
                }
                Err(error) => Err(error),
            },)*
            _ => unreachable!(),
        }
    };
}

impl<F: FileSystem> Server<F> {
    /// Performs a call whose request is one name.
    #[inline(always)]
    pub(crate) fn perform_named(
        &mut self,
        unique: u64,
        call: FileCall<'_>,
        w: &mut Writer,
    ) -> Result<usize, Error>
        requires fresh { w.old.written ≡ [] }
        requires room { w.old.free < 2 ^ 32 }
        requires shape { shape_of (call_of [] call) ≡ Named }
        ensures handles { ServerHandles F.may self.old w.old.free (Asks (One unique (call_of [] call.entry)))
            result w.new.written self.new }
        ensures rest { Leaves false result w.old w.new self.old self.new }
    {
        performed!(self, unique, w, call, entries {
            Lookup { node, name } received_entry lookup(F::Inode::numbered(node), name.bytes);
        } others {
            Unlink { node, name } received unlink(F::Inode::numbered(node), name.bytes);
            Rmdir { node, name } received rmdir(F::Inode::numbered(node), name.bytes);
            Removexattr { node, name } received removexattr(F::Inode::numbered(node), name.bytes);
        })
    }

    /// Performs a call whose request is one record with one or two names, or with a name and a value.
    #[inline(always)]
    pub(crate) fn perform_recorded(
        &mut self,
        unique: u64,
        call: FileCall<'_>,
        w: &mut Writer,
    ) -> Result<usize, Error>
        requires fresh { w.old.written ≡ [] }
        requires room { w.old.free < 2 ^ 32 }
        requires shape { shape_of (call_of [] call) ≡ NamedRecord }
        ensures handles { ServerHandles F.may self.old w.old.free (Asks (One unique (call_of [] call.entry)))
            result w.new.written self.new }
        ensures rest { Leaves false result w.old w.new self.old self.new }
    {
        performed!(self, unique, w, call, entries {
            Link { old_node, node, name } received_entry link(F::Inode::numbered(old_node),
                F::Inode::numbered(node), name.bytes);
        } others {
            Rename { node, old, new_dir, new, flags } received rename(F::Inode::numbered(node), old.bytes,
                F::Inode::numbered(new_dir), new.bytes, flags);
            Setxattr { node, name, value, flags, extra } received setxattr(F::Inode::numbered(node),
                name.bytes, value.bytes, flags, extra);
            Getxattr { node, name, size } received_value getxattr(F::Inode::numbered(node), name.bytes,
                size);
        })
    }

    /// Performs a call that creates a node. `OutOfMemory`, before any call, if the allocation for
    /// its extensions failed.
    #[inline(always)]
    pub(crate) fn perform_made(
        &mut self,
        alloc: Global,
        unique: u64,
        call: FileCall<'_>,
        w: &mut Writer,
    ) -> Result<usize, Error>
        requires fresh { w.old.written ≡ [] }
        requires room { w.old.free < 2 ^ 32 }
        requires shape { shape_of (call_of [] call) ≡ Made }
        ensures handles { ServerHandles F.may self.old w.old.free (Asks (One unique (call_of [] call.entry)))
            result w.new.written self.new }
        ensures rest { Leaves (owns_memory (call_of [] call.entry)) result w.old w.new self.old self.new }
    {
        made!(self, alloc, unique, w, call, {
            Symlink { link, node, name } received_entry symlink(link.bytes, F::Inode::numbered(node),
                name.bytes);
            Mknod { node, name, mode, rdev, umask } received_entry mknod(F::Inode::numbered(node), name.bytes,
                mode, rdev, umask);
            Mkdir { node, name, mode, umask } received_entry mkdir(F::Inode::numbered(node), name.bytes,
                mode, umask);
            Create { node, name, mode, kill, flags, umask } received_file create(F::Inode::numbered(node),
                name.bytes, mode, kill, flags, umask);
        })
    }
}
