//! WRITE: writes bytes to an open file.

ghost use Rattle.std.specs.Prelude.{◌≡◌, ◌<◌, ◌^◌, IfOk, IfErr};
ghost use Rattle.vm_values.specs.Bits.{has_bit};
ghost use Rattle.fuse_fs.specs.Answers.{written_answer};
ghost use Rattle.server_calls.specs.Requests.{if_set, write_call};

use crate::received::received_count;
use crate::values::number_if;
use fuse_fs::{Context, FileNumber, FileSystem, ZeroCopyReader};
use fuse_in::{InHeader, WriteIn};
use fuse_wire::Errno;
use fuse_wire::constants::{WRITE_CACHE, WRITE_KILL_PRIV, WRITE_LOCKOWNER};

/// The flags of a WRITE (`write_flags` of `struct fuse_write_in`).
#[derive(Clone, Copy)]
pub struct WriteFlags {
    /// The lock owner, if FUSE_WRITE_LOCKOWNER is set.
    pub owner: Option<u64>,
    /// The write is a delayed one of the page cache (FUSE_WRITE_CACHE).
    pub delayed: bool,
    /// The file system drops the set-id bits (FUSE_WRITE_KILL_SUIDGID).
    pub kill: bool,
}

/// The flags of a WRITE's record.
#[inline(always)]
pub fn write_flags(request: &WriteIn) -> WriteFlags
    ensures owner { result.owner ≡ if_set (has_bit request.now.write_flags 1) request.now.lock_owner }
    ensures delayed { result.delayed ≡ has_bit request.now.write_flags 0 }
    ensures kill { result.kill ≡ has_bit request.now.write_flags 2 }
{
    let flags = request.write_flags;
    WriteFlags {
        owner: number_if(flags & WRITE_LOCKOWNER != 0, request.lock_owner),
        delayed: flags & WRITE_CACHE != 0,
        kill: flags & WRITE_KILL_PRIV != 0,
    }
}

/// WRITE (`struct fuse_write_in`): the file system writes the unread bytes of a reader to a file.
/// Returns the number of bytes written, or the file system's errno, from 1 to 4095.
pub fn make_write_call<F: FileSystem, R: ZeroCopyReader>(
    fs: &mut F,
    head: &InHeader,
    request: &WriteIn,
    from: &mut R,
) -> Result<u32, Errno>
    ensures may { F.may fs.old (write_call head.now request.now (R.left from.old))
        (written_answer result) fs.new }
    ensures errno { IfErr result (λ e. (0 < e) × (e < 4096)) }
    ensures count { IfOk result (λ n. n < 2 ^ 32) }
{
    let bits = write_flags(request);
    received_count(fs.write(
        Context::from(*head),
        F::Inode::numbered(head.nodeid),
        F::Handle::numbered(request.fh),
        from,
        request.size,
        request.offset,
        bits.owner,
        bits.delayed,
        bits.kill,
        request.flags,
    ))
}
