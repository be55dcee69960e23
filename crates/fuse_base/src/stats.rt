//! The host's `stat(2)` and `statvfs(3)`, and the records of linux/fuse.h made from them.

ghost use Rattle.std.specs.Prelude.{◌≡◌, ◌%◌, ◌^◌, Ok, IfOk, IfErr};
ghost use Rattle.fuse_base.specs.Stats.{pattern, attr_from, kstatfs_from, host_uid, host_gid, FirstError};
ghost use Rattle.fuse_base.specs.Stats.{BothMapped};

use crate::ids::{Errno, GuestGid, GuestUid, HostGid, HostUid};
use crate::records::{Attr, Kstatfs};

/// The attributes of a file on the host (`struct stat` of sys/stat.h). `st_size` counts bytes, and
/// `st_blocks` units of 512 bytes. A time is seconds since 1970 and nanoseconds.
#[derive(Clone, Copy, Debug, Default, PartialEq)]
pub struct Stat {
    pub st_ino: u64,
    pub st_nlink: u64,
    pub st_rdev: u64,
    pub st_size: i64,
    pub st_blocks: i64,
    pub st_blksize: i64,
    pub st_atime: i64,
    pub st_mtime: i64,
    pub st_ctime: i64,
    pub st_atime_nsec: i64,
    pub st_mtime_nsec: i64,
    pub st_ctime_nsec: i64,
    pub st_mode: u32,
    pub st_uid: u32,
    pub st_gid: u32,
}

/// The counts of a file system on the host (`struct statvfs` of sys/statvfs.h). Blocks are counted
/// in units of `f_frsize` bytes.
#[derive(Clone, Copy, Debug, Default, PartialEq)]
pub struct StatVfs {
    pub f_blocks: u64,
    pub f_bfree: u64,
    pub f_bavail: u64,
    pub f_files: u64,
    pub f_ffree: u64,
    pub f_bsize: u64,
    pub f_namemax: u64,
    pub f_frsize: u64,
}

// The two's complement bits of a signed number, as an unsigned one.
fn bits_of(n: &i64) -> u64
    ensures { result ≡ pattern n.now }
{
    n.cast_unsigned()
}

// The low 32 bits of a number.
fn low(n: u64) -> u32
    ensures { result ≡ n % 2 ^ 32 }
{
    (n % 0x1_0000_0000) as u32
}

// The attributes of a file, with the user and group in the guest.
fn attr_of(st: Stat, flags: u32, uid: GuestUid, gid: GuestGid) -> Attr
    ensures { result ≡ attr_from st flags uid gid }
{
    Attr {
        ino: st.st_ino,
        size: bits_of(&st.st_size),
        blocks: bits_of(&st.st_blocks),
        atime: bits_of(&st.st_atime),
        mtime: bits_of(&st.st_mtime),
        ctime: bits_of(&st.st_ctime),
        atimensec: low(bits_of(&st.st_atime_nsec)),
        mtimensec: low(bits_of(&st.st_mtime_nsec)),
        ctimensec: low(bits_of(&st.st_ctime_nsec)),
        mode: st.st_mode,
        nlink: low(st.st_nlink),
        uid,
        gid,
        rdev: low(st.st_rdev),
        blksize: low(bits_of(&st.st_blksize)),
        flags,
    }
}

impl Attr {
    /// The attributes of a file (`struct fuse_attr`) from the host's `stat(2)`, without flags.
    /// Errors, in this order: the errno of `uid_map`, the errno of `gid_map`.
    pub fn try_from_stat<U, G>(st: Stat, uid_map: U, gid_map: G) -> Result<Attr, Errno>
    where
        U: FnOnce(HostUid) -> Result<GuestUid, Errno>,
        G: FnOnce(HostGid) -> Result<GuestGid, Errno>,
        requires uid { U.pre uid_map (host_uid st) }
        requires gid { G.pre gid_map (host_gid st) }
        ensures ok { IfOk result (λ a. BothMapped (λ u. U.post uid_map (host_uid st) (Ok u))
            (λ g. G.post gid_map (host_gid st) (Ok g))
            (λ u g. a ≡ attr_from st 0 u g)) }
        ensures err { IfErr result
            (λ e. FirstError (U.post uid_map (host_uid st)) (G.post gid_map (host_gid st)) e) }
    {
        Attr::try_with_flags(st, 0, uid_map, gid_map)
    }

    /// The attributes of a file (`struct fuse_attr`) from the host's `stat(2)`, with flags
    /// (`FUSE_ATTR_` in linux/fuse.h).
    /// Errors, in this order: the errno of `uid_map`, the errno of `gid_map`.
    pub fn try_with_flags<U, G>(st: Stat, flags: u32, uid_map: U, gid_map: G) -> Result<Attr, Errno>
    where
        U: FnOnce(HostUid) -> Result<GuestUid, Errno>,
        G: FnOnce(HostGid) -> Result<GuestGid, Errno>,
        requires uid { U.pre uid_map (host_uid st) }
        requires gid { G.pre gid_map (host_gid st) }
        ensures ok { IfOk result (λ a. BothMapped (λ u. U.post uid_map (host_uid st) (Ok u))
            (λ g. G.post gid_map (host_gid st) (Ok g))
            (λ u g. a ≡ attr_from st flags u g)) }
        ensures err { IfErr result
            (λ e. FirstError (U.post uid_map (host_uid st)) (G.post gid_map (host_gid st)) e) }
    {
        let uid = uid_map(HostUid(st.st_uid))?;
        let gid = gid_map(HostGid(st.st_gid))?;
        Ok(attr_of(st, flags, uid, gid))
    }
}

impl From<StatVfs> for Kstatfs {
    ghost from_gives = { λ v k. k ≡ kstatfs_from v };

    fn from(v: StatVfs) -> Kstatfs {
        Kstatfs {
            blocks: v.f_blocks,
            bfree: v.f_bfree,
            bavail: v.f_bavail,
            files: v.f_files,
            ffree: v.f_ffree,
            bsize: low(v.f_bsize),
            namelen: low(v.f_namemax),
            frsize: low(v.f_frsize),
            padding: 0,
            spare: [0; 6],
        }
    }
}
