//! File systems that implement fewer calls. `FileSystem` adds the defaults of the others.

ghost use Rattle.std.specs.Prelude.{◌≡◌, ℕ, ◌+◌, List, length, IfOk, OnErr, IsTrue, Bool, option_map};
ghost use Rattle.fuse_fs.specs.Answers.{options_answer, entry_answer, data_answer, done_answer, attr_answer};
ghost use Rattle.fuse_fs.specs.Answers.{opened_answer, created_answer, written_answer, stats_answer};
ghost use Rattle.fuse_fs.specs.Answers.{listed_answer};
ghost use Rattle.fuse_fs.specs.Answers.{extra_of, ForgetsEach};
ghost use Rattle.fuse_fs.specs.Calls.{FileCall};
ghost use Rattle.fuse_fs.specs.Calls as call;
ghost use Rattle.fuse_fs.specs.declared.answers.Context.{Context};
ghost use Rattle.fuse_fs.specs.Lacked.{default_answer, group_of};
ghost use Rattle.fuse_fs.specs.Lacked as group;

use crate::answers::{Context, Entry, Timeout};
use crate::directory::DirectoryIterator;
use crate::extensions::Extensions;
use crate::file_system::FileSystemBase;
use crate::zero_copy::{ZeroCopyReader, ZeroCopyWriter};
use fuse_base::{Attr, Errno, FsOptions, OpenOptions, SetattrValid, StatVfs};
use fuse_in::SetattrIn;

/// The calls that each file system of fewer calls implements, as in `FileSystem`. It is a
/// `FileSystem` if it also implements `OpenCalls` or `OpensNothing`, and `ChangeCalls` or
/// `ChangesNothing`. All other calls have the answers of `defaults`.
pub trait FewCalls: FileSystemBase {
    type DirIter: DirectoryIterator;

    // whether a read that fails puts no byte into its writer
    ghost reads_whole: { Self → Bool };

    /// Whether a read that fails puts no byte into its writer, with any writer and any file.
    fn reads_whole(&self) -> bool
        ensures { result ≡ reads_whole self.now };

    /// Starts a session (FUSE_INIT). Returns the options that the file system asks for, of those
    /// that guest and server support.
    fn init(&mut self, capable: FsOptions) -> Result<FsOptions, Errno>
        ensures may { Self.may self.old (call.Init capable.0) (options_answer result) self.new };

    /// Looks up a name in a directory (FUSE_LOOKUP). The lookup count of a node that it returns rises by 1.
    fn lookup(
        &mut self,
        ctx: Context,
        parent: Self::Inode,
        name: &[u8],
    ) -> Result<Entry<Self::Inode>, Errno>
        ensures may { Self.may self.old (call.Lookup ctx (Self.Inode.number parent) name.now)
            (entry_answer Self.Inode.number result) self.new };

    /// A node's attributes, and how long the guest may cache them (FUSE_GETATTR).
    fn getattr(
        &mut self,
        ctx: Context,
        inode: Self::Inode,
        handle: Option<Self::Handle>,
    ) -> Result<(Attr, Timeout), Errno>
        ensures may { Self.may self.old (call.Getattr ctx (Self.Inode.number inode)
            (option_map Self.Handle.number handle)) (attr_answer result) self.new };

    /// Puts bytes of a file into a writer, and returns their number (FUSE_READ): `Ok(n)` put in exactly n.
    /// With `reads_whole` the writer may be the guest's memory itself (see `defaults::read_whole`).
    fn read<W: ZeroCopyWriter>(
        &mut self,
        ctx: Context,
        inode: Self::Inode,
        handle: Self::Handle,
        w: &mut W,
        size: u32,
        offset: u64,
        lock_owner: Option<u64>,
        flags: u32,
    ) -> Result<usize, Errno>
        ensures { (bytes : List ℕ)
            × W.Puts w.old bytes w.new
            × (W.room w.old ≡ W.room w.new + length bytes)
            × IfOk result (λ n. n ≡ length bytes)
            × Self.may self.old (call.Read ctx (Self.Inode.number inode) (Self.Handle.number handle)
            (W.room w.old) size offset lock_owner flags)
            (data_answer result bytes) self.new
            × (IsTrue (reads_whole self.old) → OnErr result (length bytes ≡ 0)) };

    /// The entries of a directory after the one with this offset, or all for 0 (FUSE_READDIR and
    /// FUSE_READDIRPLUS). The reply has at most `size` bytes. The file system chooses the offsets
    /// of entries; they count no bytes.
    fn readdir(
        &mut self,
        ctx: Context,
        inode: Self::Inode,
        handle: Self::Handle,
        size: u32,
        offset: u64,
    ) -> Result<Self::DirIter, Errno>
        ensures may { Self.may self.old
            (call.Readdir ctx (Self.Inode.number inode) (Self.Handle.number handle) size offset)
            (listed_answer Self.DirIter.rest result) self.new };

    /// Writes a reader's bytes to a file, and returns how many it wrote (FUSE_WRITE). A delayed
    /// write comes from the guest's page cache.
    fn write<R: ZeroCopyReader>(
        &mut self,
        ctx: Context,
        inode: Self::Inode,
        handle: Self::Handle,
        r: &mut R,
        size: u32,
        offset: u64,
        lock_owner: Option<u64>,
        delayed_write: bool,
        kill_priv: bool,
        flags: u32,
    ) -> Result<u32, Errno>
        ensures may { Self.may self.old
            (call.Write ctx (Self.Inode.number inode) (Self.Handle.number handle) (R.left r.old) size offset
            lock_owner delayed_write kill_priv flags) (written_answer result) self.new };

    // Each call of the group Rare may have its default answer, which changes nothing.
    ghost lacks_rare: { (s : Self) (c : FileCall)
        → group_of c ≡ group.Rare
        → Self.may s c (default_answer c) s };

    // BATCH_FORGET may forget its nodes one after another.
    ghost forgets_each: { (s t : Self) (who : Context) (counts : List (ℕ × ℕ))
        → ForgetsEach Self.may s who counts t
        →
        Self.may s (call.BatchForget who counts) call.Done t };
}

/// The calls that open and release files, as in `FileSystem`.
pub trait OpenCalls: FileSystemBase {
    /// Opens a directory (FUSE_OPENDIR). If it returns no handle, later calls get handle 0.
    fn opendir(
        &mut self,
        ctx: Context,
        inode: Self::Inode,
        flags: u32,
    ) -> Result<(Option<Self::Handle>, OpenOptions), Errno>
        ensures may { Self.may self.old (call.Opendir ctx (Self.Inode.number inode) flags)
            (opened_answer Self.Handle.number result) self.new };

    /// The guest closed the last descriptor of an open file (FUSE_RELEASE).
    fn release(
        &mut self,
        ctx: Context,
        inode: Self::Inode,
        flags: u32,
        handle: Self::Handle,
        flush: bool,
        flock_release: bool,
        lock_owner: Option<u64>,
    ) -> Result<(), Errno>
        ensures may { Self.may self.old (call.Release ctx (Self.Inode.number inode) flags
            (Self.Handle.number handle) flush flock_release lock_owner)
            (done_answer result) self.new };

    /// Opens a file (FUSE_OPEN; `open(2)` defines the flags). If it returns no handle, later calls
    /// get handle 0.
    fn open(
        &mut self,
        ctx: Context,
        inode: Self::Inode,
        kill_priv: bool,
        flags: u32,
    ) -> Result<(Option<Self::Handle>, OpenOptions), Errno>
        ensures may { Self.may self.old (call.Open ctx (Self.Inode.number inode) kill_priv flags)
            (opened_answer Self.Handle.number result) self.new };
}

/// A file system without `OpenCalls`: these calls have the answers of `defaults`.
pub trait OpensNothing: FileSystemBase {
    ghost lacks_opening: { (s : Self) (c : FileCall)
        → group_of c ≡ group.Opening
        → Self.may s c (default_answer c) s };
}

/// The calls that change names and attributes, and STATFS, as in `FileSystem`.
pub trait ChangeCalls: FileSystemBase {
    /// The counts of the file system: blocks and files, in all and free (FUSE_STATFS, `statvfs(3)`).
    fn statfs(&mut self, ctx: Context, inode: Self::Inode) -> Result<StatVfs, Errno>
        ensures may { Self.may self.old (call.Statfs ctx (Self.Inode.number inode))
            (stats_answer result) self.new };

    /// Makes a file if there is none, and opens it (FUSE_CREATE). If the reply doesn't fit, the
    /// server undoes the entry with `forget`, but doesn't release the handle. So a file system with
    /// handles has to limit how many a guest may leave open.
    fn create(
        &mut self,
        ctx: Context,
        parent: Self::Inode,
        name: &[u8],
        mode: u32,
        kill_priv: bool,
        flags: u32,
        umask: u32,
        extensions: Extensions,
    ) -> Result<(Entry<Self::Inode>, Option<Self::Handle>, OpenOptions), Errno>
        ensures may { Self.may self.old (call.Create ctx (Self.Inode.number parent) name.now mode kill_priv
            flags umask (extra_of extensions))
            (created_answer Self.Inode.number Self.Handle.number result) self.new };

    /// Renames a file or directory (FUSE_RENAME and FUSE_RENAME2; `renameat2(2)` defines the flags).
    fn rename(
        &mut self,
        ctx: Context,
        olddir: Self::Inode,
        oldname: &[u8],
        newdir: Self::Inode,
        newname: &[u8],
        flags: u32,
    ) -> Result<(), Errno>
        ensures may { Self.may self.old (call.Rename ctx (Self.Inode.number olddir) oldname.now
            (Self.Inode.number newdir) newname.now flags)
            (done_answer result) self.new };

    /// Removes an empty directory (FUSE_RMDIR).
    fn rmdir(&mut self, ctx: Context, parent: Self::Inode, name: &[u8]) -> Result<(), Errno>
        ensures may { Self.may self.old (call.Rmdir ctx (Self.Inode.number parent) name.now)
            (done_answer result) self.new };

    /// Removes a name that isn't a directory's (FUSE_UNLINK).
    fn unlink(&mut self, ctx: Context, parent: Self::Inode, name: &[u8]) -> Result<(), Errno>
        ensures may { Self.may self.old (call.Unlink ctx (Self.Inode.number parent) name.now)
            (done_answer result) self.new };

    /// Makes a directory (FUSE_MKDIR).
    fn mkdir(
        &mut self,
        ctx: Context,
        parent: Self::Inode,
        name: &[u8],
        mode: u32,
        umask: u32,
        extensions: Extensions,
    ) -> Result<Entry<Self::Inode>, Errno>
        ensures may { Self.may self.old
            (call.Mkdir ctx (Self.Inode.number parent) name.now mode umask (extra_of extensions))
            (entry_answer Self.Inode.number result) self.new };

    /// Sets those attributes of a node that `valid` names, and returns all of them (FUSE_SETATTR).
    fn setattr(
        &mut self,
        ctx: Context,
        inode: Self::Inode,
        attr: SetattrIn,
        handle: Option<Self::Handle>,
        valid: SetattrValid,
    ) -> Result<(Attr, Timeout), Errno>
        ensures may { Self.may self.old
            (call.Setattr ctx (Self.Inode.number inode) attr (option_map Self.Handle.number handle) valid.0)
            (attr_answer result) self.new };
}

/// A file system without `ChangeCalls`: these calls have the answers of `defaults`.
pub trait ChangesNothing: FileSystemBase {
    ghost lacks_changing: { (s : Self) (c : FileCall)
        → group_of c ≡ group.Changing
        → Self.may s c (default_answer c) s };
}
