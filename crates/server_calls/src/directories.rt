//! READDIR and READDIRPLUS: the entries of an open directory.

ghost use Rattle.std.specs.Prelude.{◌<◌, IfErr};
ghost use Rattle.fuse_fs.specs.Answers.{listed_answer};
ghost use Rattle.server_calls.specs.Requests.{directory_call};

use crate::received::received;
use fuse_fs::{Context, FileNumber, FileSystem};
use fuse_in::{InHeader, ReadIn};
use fuse_wire::Errno;

/// READDIR and READDIRPLUS (`struct fuse_read_in`): the entries of a directory behind an offset. The error
/// is the file system's errno, from 1 to 4095. For READDIRPLUS the server then looks up each entry.
pub fn make_readdir_call<F: FileSystem>(
    fs: &mut F,
    head: &InHeader,
    request: &ReadIn,
) -> Result<F::DirIter, Errno>
    ensures may { F.may fs.old (directory_call head.now request.now)
        (listed_answer F.DirIter.rest result) fs.new }
    ensures errno { IfErr result (λ e. (0 < e) × (e < 4096)) }
{
    received(fs.readdir(
        Context::from(*head),
        F::Inode::numbered(head.nodeid),
        F::Handle::numbered(request.fh),
        request.size,
        request.offset,
    ))
}
