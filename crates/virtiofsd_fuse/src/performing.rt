//! Performing calls: calls the file system, and writes the reply of its answer.

ghost use Rattle.std.specs.Prelude.{◌≡◌, ◌<◌, ◌^◌, [], true, false, option_map};
ghost use Rattle.fuse_values.specs.Values.{call_of};
ghost use Rattle.server_calls.specs.Callers.{Header, OnFile, shape_of, is_plain, is_record};
ghost use Rattle.server_calls.specs.Requests.{owns_memory};
ghost use Rattle.server_meanings.specs.Grammar.{Asks, One};
ghost use Rattle.virtiofsd_fuse.specs.ServerHandles.{ServerHandles, Leaves};

use crate::server::Server;
use crate::session::silence;
use fuse_fs::{FileNumber, FileSystem};
use fuse_values::FileCall;
use server_calls::received::{
    received, received_count, received_names, received_offset, received_opened, silent,
};
use server_replies::answers::reply_answer;
use server_segments::{Error, Writer};
use std::alloc::Global;

// The handle of an open file, if there is one.
fn numbered_if<H: FileNumber>(handle: Option<u64>) -> Option<H>
    ensures { option_map H.number result ≡ handle }
{
    match handle {
        Some(handle) => Some(H::numbered(handle)),
        None => None,
    }
}

// A match over calls. Each row is a call on a node: its other fields, the function that receives
// its answer, and the file system's method with its other arguments. Other arms follow the rows.
macro_rules! performed {
    ($server:ident, $unique:ident, $w:ident, $call:expr, {
        $($name:ident { $($field:ident),* } $received:ident $method:ident($($given:expr),*);)*
    } $($arm:tt)*) => {
        match $call {
            $(FileCall::$name { context, node, $($field),* } => {
                let answer = $received($server.fs.$method(context, F::Inode::numbered(node), $($given),*));
                reply_answer($w, $unique, answer)
            })*
            $($arm)*
        }
    };
}

// A match over calls by the shape of their requests. Each row has the calls of a shape, and an
// expression that performs them.
macro_rules! by_shape {
    ($call:expr, { $($($name:ident)+ => $performed:expr;)* }) => {
        match $call {
            $($(FileCall::$name { .. })|+ => $performed,)*
            _ => unreachable!(),
        }
    };
}

impl<F: FileSystem> Server<F> {
    /// Performs the one call of a request. `OutOfMemory`, before the call, if the allocation for
    /// the extensions of a new node failed.
    #[inline(always)]
    pub(crate) fn perform(
        &mut self,
        alloc: Global,
        unique: u64,
        call: FileCall<'_>,
        w: &mut Writer,
    ) -> Result<usize, Error>
        requires fresh { w.old.written ≡ [] }
        requires room { w.old.free < 2 ^ 32 }
        requires plain { is_plain (call_of [] call) ≡ true }
        ensures handles { ServerHandles F.may self.old w.old.free (Asks (One unique (call_of [] call.entry)))
            result w.new.written self.new }
        ensures rest { Leaves (owns_memory (call_of [] call.entry)) result w.old w.new self.old self.new }
    {
        by_shape!(call, {
            Lookup Unlink Rmdir Removexattr => self.perform_named(unique, call, w);
            Link Rename Setxattr Getxattr => self.perform_recorded(unique, call, w);
            Symlink Mknod Mkdir Create => self.perform_made(alloc, unique, call, w);
            Readlink Statfs Syncfs Destroy Getlk Setlk Setlkw Bmap Ioctl Poll NotifyReply TmpFile =>
                self.perform_header(unique, call, w);
            Forget Getattr Setattr Access Listxattr Open Opendir Release Releasedir Fsync Fsyncdir Flush
                Fallocate Lseek CopyFileRange =>
                self.perform_record(unique, call, w);
        })
    }

    // Performs a call whose request is only its header.
    #[inline(always)]
    fn perform_header(
        &mut self,
        unique: u64,
        call: FileCall<'_>,
        w: &mut Writer,
    ) -> Result<usize, Error>
        requires fresh { w.old.written ≡ [] }
        requires room { w.old.free < 2 ^ 32 }
        requires shape { shape_of (call_of [] call) ≡ Header }
        ensures handles { ServerHandles F.may self.old w.old.free (Asks (One unique (call_of [] call.entry)))
            result w.new.written self.new }
        ensures rest { Leaves false result w.old w.new self.old self.new }
    {
        performed!(self, unique, w, call, {
            Readlink {} received readlink();
            Statfs {} received statfs();
            Syncfs {} received syncfs();
        }
        FileCall::Destroy => {
            self.destroy();
            silence()
        }
        FileCall::Getlk => reply_answer(w, unique, silent(self.fs.getlk())),
        FileCall::Setlk => reply_answer(w, unique, silent(self.fs.setlk())),
        FileCall::Setlkw => reply_answer(w, unique, silent(self.fs.setlkw())),
        FileCall::Bmap => reply_answer(w, unique, silent(self.fs.bmap())),
        FileCall::Ioctl => reply_answer(w, unique, silent(self.fs.ioctl())),
        FileCall::Poll => reply_answer(w, unique, silent(self.fs.poll())),
        FileCall::NotifyReply => reply_answer(w, unique, silent(self.fs.notify_reply())),
        FileCall::TmpFile => reply_answer(w, unique, received(Err::<(), _>(self.fs.tmpfile()))),
        _ => unreachable!())
    }

    // Performs a call whose request is one record.
    #[inline(always)]
    fn perform_record(
        &mut self,
        unique: u64,
        call: FileCall<'_>,
        w: &mut Writer,
    ) -> Result<usize, Error>
        requires fresh { w.old.written ≡ [] }
        requires room { w.old.free < 2 ^ 32 }
        requires shape { is_record (shape_of (call_of [] call)) ≡ true }
        ensures handles { ServerHandles F.may self.old w.old.free (Asks (One unique (call_of [] call.entry)))
            result w.new.written self.new }
        ensures rest { Leaves false result w.old w.new self.old self.new }
    {
        performed!(self, unique, w, call, {
            Getattr { handle } received getattr(numbered_if(handle));
            Setattr { attr, handle, valid } received setattr(attr, numbered_if(handle), valid);
            Access { mask } received access(mask);
            Listxattr { size } received_names listxattr(size);
            Open { kill, flags } received_opened open(kill, flags);
            Opendir { flags } received_opened opendir(flags);
        }
        FileCall::Forget { context, node, count } => {
            self.fs.forget(context, F::Inode::numbered(node), count);
            silence()
        }
        _ => self.perform_file(unique, call, w))
    }

    // Performs a call on an open file or directory whose request is one record.
    #[inline(always)]
    fn perform_file(
        &mut self,
        unique: u64,
        call: FileCall<'_>,
        w: &mut Writer,
    ) -> Result<usize, Error>
        requires fresh { w.old.written ≡ [] }
        requires room { w.old.free < 2 ^ 32 }
        requires shape { shape_of (call_of [] call) ≡ OnFile }
        ensures handles { ServerHandles F.may self.old w.old.free (Asks (One unique (call_of [] call.entry)))
            result w.new.written self.new }
        ensures rest { Leaves false result w.old w.new self.old self.new }
    {
        performed!(self, unique, w, call, {
            Release { flags, handle, flush, unlock, owner } received release(flags,
                F::Handle::numbered(handle), flush, unlock, owner);
            Releasedir { flags, handle } received releasedir(flags, F::Handle::numbered(handle));
            Fsync { data_only, handle } received fsync(data_only, F::Handle::numbered(handle));
            Fsyncdir { data_only, handle } received fsyncdir(data_only, F::Handle::numbered(handle));
            Flush { handle, owner } received flush(F::Handle::numbered(handle), owner);
            Fallocate { handle, mode, offset, len } received fallocate(F::Handle::numbered(handle), mode,
                offset, len);
            Lseek { handle, offset, whence } received_offset lseek(F::Handle::numbered(handle),
                offset, whence);
            CopyFileRange { handle, offset, node_out, handle_out, offset_out, len, flags } received_count
                copyfilerange(F::Handle::numbered(handle), offset, F::Inode::numbered(node_out),
                    F::Handle::numbered(handle_out), offset_out, len, flags);
        }
        _ => unreachable!())
    }
}
