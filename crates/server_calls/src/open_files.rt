//! Requests on open files and directories: each is one record.

ghost use Rattle.std.specs.Prelude.{◌≡◌, ◌||◌, refl};
ghost use Rattle.vm_values.specs.Bits.{has_bit};
ghost use Rattle.server_calls.specs.Requests.{open_call, release_call, fsync_call, fsyncdir_call, flush_call};
ghost use Rattle.server_calls.specs.Requests.{opendir_call};
ghost use Rattle.server_calls.specs.Requests.{releasedir_call, fallocate_call, lseek_call};
ghost use Rattle.server_calls.specs.Requests.{copy_file_range_call, if_set};

use crate::values::{RecordValue, number_if};
use fuse_fs::Context;
use fuse_in::{
    CopyfilerangeIn, FallocateIn, FlushIn, FsyncIn, InHeader, LseekIn, OpenIn, ReleaseIn,
};
use fuse_values::FileCall;
use fuse_wire::constants::{
    FSYNC_FDATASYNC, OPEN_KILL_SUIDGID, RELEASE_FLOCK_UNLOCK, RELEASE_FLUSH,
};

/// OPEN (`struct fuse_open_in`): opens a file.
pub struct Open;

impl RecordValue for Open {
    type Record = OpenIn;

    ghost call = { open_call };

    ghost shows = { λ h r. (refl, (refl, tt)) };

    fn value<'a>(head: &InHeader, request: &OpenIn) -> FileCall<'a> {
        FileCall::Open {
            context: Context::from(*head),
            node: head.nodeid,
            kill: request.open_flags & OPEN_KILL_SUIDGID != 0,
            flags: request.flags,
        }
    }
}

// The lock owner, if FUSE_RELEASE_FLUSH or FUSE_RELEASE_FLOCK_UNLOCK is set.
fn releasing_owner(request: &ReleaseIn) -> Option<u64>
    ensures { result ≡ if_set (has_bit request.now.release_flags 0 || has_bit request.now.release_flags 1)
        request.now.lock_owner }
{
    let is_set = request.release_flags & RELEASE_FLUSH != 0
        || request.release_flags & RELEASE_FLOCK_UNLOCK != 0;
    number_if(is_set, request.lock_owner)
}

/// RELEASE (`struct fuse_release_in`): closes an open file.
pub struct Release;

impl RecordValue for Release {
    type Record = ReleaseIn;

    ghost call = { release_call };

    ghost shows = { λ h r. (refl, (refl, tt)) };

    fn value<'a>(head: &InHeader, request: &ReleaseIn) -> FileCall<'a> {
        FileCall::Release {
            context: Context::from(*head),
            node: head.nodeid,
            flags: request.flags,
            handle: request.fh,
            flush: request.release_flags & RELEASE_FLUSH != 0,
            unlock: request.release_flags & RELEASE_FLOCK_UNLOCK != 0,
            owner: releasing_owner(request),
        }
    }
}

/// FSYNC (`struct fuse_fsync_in`): writes a file to the disk.
pub struct Fsync;

impl RecordValue for Fsync {
    type Record = FsyncIn;

    ghost call = { fsync_call };

    ghost shows = { λ h r. (refl, (refl, tt)) };

    fn value<'a>(head: &InHeader, request: &FsyncIn) -> FileCall<'a> {
        FileCall::Fsync {
            context: Context::from(*head),
            node: head.nodeid,
            data_only: request.fsync_flags & FSYNC_FDATASYNC != 0,
            handle: request.fh,
        }
    }
}

/// FSYNCDIR (`struct fuse_fsync_in`): writes a directory to the disk.
pub struct Fsyncdir;

impl RecordValue for Fsyncdir {
    type Record = FsyncIn;

    ghost call = { fsyncdir_call };

    ghost shows = { λ h r. (refl, (refl, tt)) };

    fn value<'a>(head: &InHeader, request: &FsyncIn) -> FileCall<'a> {
        FileCall::Fsyncdir {
            context: Context::from(*head),
            node: head.nodeid,
            data_only: request.fsync_flags & FSYNC_FDATASYNC != 0,
            handle: request.fh,
        }
    }
}

/// FLUSH (`struct fuse_flush_in`): the client closed a descriptor of an open file.
pub struct Flush;

impl RecordValue for Flush {
    type Record = FlushIn;

    ghost call = { flush_call };

    ghost shows = { λ h r. (refl, (refl, tt)) };

    fn value<'a>(head: &InHeader, request: &FlushIn) -> FileCall<'a> {
        FileCall::Flush {
            context: Context::from(*head),
            node: head.nodeid,
            handle: request.fh,
            owner: request.lock_owner,
        }
    }
}

/// OPENDIR (`struct fuse_open_in`): opens a directory.
pub struct Opendir;

impl RecordValue for Opendir {
    type Record = OpenIn;

    ghost call = { opendir_call };

    ghost shows = { λ h r. (refl, (refl, tt)) };

    fn value<'a>(head: &InHeader, request: &OpenIn) -> FileCall<'a> {
        FileCall::Opendir {
            context: Context::from(*head),
            node: head.nodeid,
            flags: request.flags,
        }
    }
}

/// RELEASEDIR (`struct fuse_release_in`): closes an open directory.
pub struct Releasedir;

impl RecordValue for Releasedir {
    type Record = ReleaseIn;

    ghost call = { releasedir_call };

    ghost shows = { λ h r. (refl, (refl, tt)) };

    fn value<'a>(head: &InHeader, request: &ReleaseIn) -> FileCall<'a> {
        FileCall::Releasedir {
            context: Context::from(*head),
            node: head.nodeid,
            flags: request.flags,
            handle: request.fh,
        }
    }
}

/// FALLOCATE (`struct fuse_fallocate_in`): allocates or frees space of a file.
pub struct Fallocate;

impl RecordValue for Fallocate {
    type Record = FallocateIn;

    ghost call = { fallocate_call };

    ghost shows = { λ h r. (refl, (refl, tt)) };

    fn value<'a>(head: &InHeader, request: &FallocateIn) -> FileCall<'a> {
        FileCall::Fallocate {
            context: Context::from(*head),
            node: head.nodeid,
            handle: request.fh,
            mode: request.mode,
            offset: request.offset,
            len: request.length,
        }
    }
}

/// LSEEK (`struct fuse_lseek_in`): finds data or a hole in a file.
pub struct Lseek;

impl RecordValue for Lseek {
    type Record = LseekIn;

    ghost call = { lseek_call };

    ghost shows = { λ h r. (refl, (refl, tt)) };

    fn value<'a>(head: &InHeader, request: &LseekIn) -> FileCall<'a> {
        FileCall::Lseek {
            context: Context::from(*head),
            node: head.nodeid,
            handle: request.fh,
            offset: request.offset,
            whence: request.whence,
        }
    }
}

/// COPY_FILE_RANGE (`struct fuse_copy_file_range_in`): copies bytes of one file to another.
pub struct CopyFileRange;

impl RecordValue for CopyFileRange {
    type Record = CopyfilerangeIn;

    ghost call = { copy_file_range_call };

    ghost shows = { λ h r. (refl, (refl, tt)) };

    fn value<'a>(head: &InHeader, request: &CopyfilerangeIn) -> FileCall<'a> {
        FileCall::CopyFileRange {
            context: Context::from(*head),
            node: head.nodeid,
            handle: request.fh_in,
            offset: request.off_in,
            node_out: request.nodeid_out,
            handle_out: request.fh_out,
            offset_out: request.off_out,
            len: request.len,
            flags: request.flags,
        }
    }
}
