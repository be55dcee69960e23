//! READ: reads bytes of an open file.

ghost use Rattle.std.specs.Prelude.{◌≡◌, ℕ, ◌+◌, ◌<◌, List, length, IfOk, IfErr, IsTrue, OnErr};
ghost use Rattle.fuse_fs.specs.Answers.{data_answer};
ghost use Rattle.server_calls.specs.Requests.{read_call};

use crate::received::received;
use crate::values::number_if;
use fuse_fs::{Context, FileNumber, FileSystem, ZeroCopyWriter};
use fuse_in::{InHeader, ReadIn};
use fuse_wire::Errno;
use fuse_wire::constants::READ_LOCKOWNER;

/// READ (`struct fuse_read_in`): the file system puts bytes of a file into a writer. Returns their
/// number, or the file system's errno, from 1 to 4095.
#[inline(always)]
pub fn make_read_call<F: FileSystem, W: ZeroCopyWriter>(
    fs: &mut F,
    head: &InHeader,
    request: &ReadIn,
    into: &mut W,
) -> Result<usize, Errno>
    ensures read { (bytes : List ℕ) × W.Puts into.old bytes into.new
        × (W.room into.old ≡ W.room into.new + length bytes) × IfOk result (λ n. n ≡ length bytes)
        × F.may fs.old (read_call head.now (W.room into.old) request.now) (data_answer result bytes) fs.new
        × (IsTrue (F.reads_whole fs.old) → OnErr result (length bytes ≡ 0)) }
    ensures errno { IfErr result (λ e. (0 < e) × (e < 4096)) }
{
    received(fs.read(
        Context::from(*head),
        F::Inode::numbered(head.nodeid),
        F::Handle::numbered(request.fh),
        into,
        request.size,
        request.offset,
        number_if(request.read_flags & READ_LOCKOWNER != 0, request.lock_owner),
        request.flags,
    ))
}
