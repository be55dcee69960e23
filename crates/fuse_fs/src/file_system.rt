//! The trait of file systems (virtiofsd's `FileSystem`).

ghost use Rattle.std.specs.Prelude.{◌≡◌, ℕ, ◌^◌, ◌+◌, ◌<◌, List, ◌++◌, length, Result, IfOk, OnErr, IsTrue};
ghost use Rattle.std.specs.Prelude.{Bool, Option, option_map};
ghost use Rattle.fuse_fs.specs.Calls.{FileCall, FileAnswer};
ghost use Rattle.fuse_fs.specs.Calls as call;
ghost use Rattle.fuse_fs.specs.Answers.{options_answer, entry_answer, data_answer, done_answer, attr_answer};
ghost use Rattle.fuse_fs.specs.Answers.{target_answer, opened_answer, created_answer, written_answer};
ghost use Rattle.fuse_fs.specs.Answers.{stats_answer};
ghost use Rattle.fuse_fs.specs.Answers.{value_answer, names_answer, listed_answer, offset_answer};
ghost use Rattle.fuse_fs.specs.Answers.{extra_of, pair_numbers};

use crate::answers::{Context, Entry, GetxattrReply, ListxattrReply, Timeout};
use crate::directory::DirectoryIterator;
use crate::extensions::Extensions;
use crate::zero_copy::{ZeroCopyReader, ZeroCopyWriter};
use fuse_base::{Attr, Errno, FsOptions, OpenOptions, SetattrValid, SetxattrFlags, StatVfs};
use fuse_in::SetattrIn;

/// A type of the file system for the numbers of nodes or of open files.
pub trait FileNumber: From<u64> + Into<u64> + Copy {
    // The number of a value.
    ghost number: { Self → ℕ };

    /// The value with this number.
    final fn numbered(n: u64) -> Self
        ensures { number result ≡ n }
    {
        Self::from(n)
    }

    /// The number of this value.
    final fn as_number(self) -> u64
        ensures { result ≡ number self }
    {
        self.into()
    }

    // `from` makes a value with the given number.
    ghost of_number: { (n : ℕ) (x : Self) → n < 2 ^ 64 → Self.from_gives n x → number x ≡ n };

    // `into` returns the value's number.
    ghost to_number: { (x : Self) (n : ℕ) → Self.converts x n → n ≡ number x };

    // Values with the same number are equal.
    ghost one_number: { (x y : Self) → number x ≡ number y → x ≡ y };
}

impl FileNumber for u64 {
    ghost number = { λ x. x };

    ghost of_number = { λ n x small e. e };

    ghost to_number = { λ x n e. e };

    ghost one_number = { λ x y e. e };
}

/// The part of a file system that the defaults of its calls use: its number types, its relation
/// `may`, and `forget` (virtiofsd's `FileSystem::forget`).
pub trait FileSystemBase {
    type Inode: FileNumber;

    type Handle: FileNumber;

    // The allowed answers of a call: state before, call, answer, state after.
    ghost may: { Self → FileCall → FileAnswer → Self → Type 0 };

    /// Lowers a node's lookup count by `count` (FUSE_FORGET). It can't fail. The server also calls
    /// it to undo an entry whose reply doesn't fit. The node of such an entry may be 0, also that
    /// of `.` and `..` in a READDIRPLUS.
    fn forget(&mut self, ctx: Context, inode: Self::Inode, count: u64)
        ensures may { may self.old (call.Forget ctx (Self.Inode.number inode) count) call.Done self.new };
}

/// A file system (virtiofsd's `FileSystem`). Each call's answer and the state after it satisfy the
/// relation `may`, which the implementer defines. `defaults` implements each call for a file system
/// that does nothing of its own in it. A call that fails returns an errno (errno.h, 1 to 4095) of
/// the implementer's choice that `may` allows. ENOSYS means that the call isn't implemented. The
/// comment of each call names its request in linux/fuse.h. Offsets, sizes and lengths count bytes;
/// offsets count from a file's start. Names from requests have no zero byte. The names that
/// READDIRPLUS looks up are those of the file system's own listing, unchanged.
pub trait FileSystem: FileSystemBase {
    type DirIter: DirectoryIterator;

    // whether a read that fails puts no byte into its writer
    ghost reads_whole: { Self → Bool };

    /// Whether a read that fails puts no byte into its writer, with any writer and any file.
    fn reads_whole(&self) -> bool
        ensures { result ≡ reads_whole self.now };

    /// Starts a session (FUSE_INIT). Returns the options that the file system asks for, of those
    /// that guest and server support.
    fn init(&mut self, capable: FsOptions) -> Result<FsOptions, Errno>
        ensures may { Self.may self.old (call.Init capable.0) (options_answer result) self.new };

    /// Ends a session (FUSE_DESTROY). It can't fail.
    fn destroy(&mut self)
        ensures may { Self.may self.old call.Destroy call.Done self.new };

    /// Looks up a name in a directory (FUSE_LOOKUP). The lookup count of a node that it returns rises by 1.
    fn lookup(
        &mut self,
        ctx: Context,
        parent: Self::Inode,
        name: &[u8],
    ) -> Result<Entry<Self::Inode>, Errno>
        ensures may { Self.may self.old (call.Lookup ctx (Self.Inode.number parent) name.now)
            (entry_answer Self.Inode.number result) self.new };

    /// Lowers the lookup count of each node by the number beside it (FUSE_BATCH_FORGET). It can't fail.
    fn batch_forget(&mut self, ctx: Context, requests: Vec<(Self::Inode, u64)>)
        ensures may { Self.may self.old (call.BatchForget ctx (pair_numbers Self.Inode.number requests.items))
            call.Done self.new };

    /// A node's attributes, and how long the guest may cache them (FUSE_GETATTR).
    fn getattr(
        &mut self,
        ctx: Context,
        inode: Self::Inode,
        handle: Option<Self::Handle>,
    ) -> Result<(Attr, Timeout), Errno>
        ensures may { Self.may self.old (call.Getattr ctx (Self.Inode.number inode)
            (option_map Self.Handle.number handle)) (attr_answer result) self.new };

    /// Sets those attributes of a node that `valid` names, and returns all of them (FUSE_SETATTR).
    fn setattr(
        &mut self,
        ctx: Context,
        inode: Self::Inode,
        attr: SetattrIn,
        handle: Option<Self::Handle>,
        valid: SetattrValid,
    ) -> Result<(Attr, Timeout), Errno>
        ensures may { Self.may self.old
            (call.Setattr ctx (Self.Inode.number inode) attr (option_map Self.Handle.number handle) valid.0)
            (attr_answer result) self.new };

    /// The target of a symbolic link (FUSE_READLINK).
    fn readlink(&mut self, ctx: Context, inode: Self::Inode) -> Result<Vec<u8>, Errno>
        ensures may { Self.may self.old (call.Readlink ctx (Self.Inode.number inode))
            (target_answer result) self.new };

    /// Makes a symbolic link to `linkname` (FUSE_SYMLINK). The lookup count of a node that this
    /// call returns rises by 1, as with each call below that returns an entry.
    fn symlink(
        &mut self,
        ctx: Context,
        linkname: &[u8],
        parent: Self::Inode,
        name: &[u8],
        extensions: Extensions,
    ) -> Result<Entry<Self::Inode>, Errno>
        ensures may { Self.may self.old
            (call.Symlink ctx linkname.now (Self.Inode.number parent) name.now (extra_of extensions))
            (entry_answer Self.Inode.number result) self.new };

    /// Makes a node of the kind in `mode` (FUSE_MKNOD, `mknod(2)`).
    fn mknod(
        &mut self,
        ctx: Context,
        parent: Self::Inode,
        name: &[u8],
        mode: u32,
        rdev: u32,
        umask: u32,
        extensions: Extensions,
    ) -> Result<Entry<Self::Inode>, Errno>
        ensures may { Self.may self.old
            (call.Mknod ctx (Self.Inode.number parent) name.now mode rdev umask (extra_of extensions))
            (entry_answer Self.Inode.number result) self.new };

    /// Makes a directory (FUSE_MKDIR).
    fn mkdir(
        &mut self,
        ctx: Context,
        parent: Self::Inode,
        name: &[u8],
        mode: u32,
        umask: u32,
        extensions: Extensions,
    ) -> Result<Entry<Self::Inode>, Errno>
        ensures may { Self.may self.old
            (call.Mkdir ctx (Self.Inode.number parent) name.now mode umask (extra_of extensions))
            (entry_answer Self.Inode.number result) self.new };

    /// Removes a name that isn't a directory's (FUSE_UNLINK).
    fn unlink(&mut self, ctx: Context, parent: Self::Inode, name: &[u8]) -> Result<(), Errno>
        ensures may { Self.may self.old (call.Unlink ctx (Self.Inode.number parent) name.now)
            (done_answer result) self.new };

    /// Removes an empty directory (FUSE_RMDIR).
    fn rmdir(&mut self, ctx: Context, parent: Self::Inode, name: &[u8]) -> Result<(), Errno>
        ensures may { Self.may self.old (call.Rmdir ctx (Self.Inode.number parent) name.now)
            (done_answer result) self.new };

    /// Renames a file or directory (FUSE_RENAME and FUSE_RENAME2; `renameat2(2)` defines the flags).
    fn rename(
        &mut self,
        ctx: Context,
        olddir: Self::Inode,
        oldname: &[u8],
        newdir: Self::Inode,
        newname: &[u8],
        flags: u32,
    ) -> Result<(), Errno>
        ensures may { Self.may self.old (call.Rename ctx (Self.Inode.number olddir) oldname.now
            (Self.Inode.number newdir) newname.now flags)
            (done_answer result) self.new };

    /// Gives a node one more name (FUSE_LINK).
    fn link(
        &mut self,
        ctx: Context,
        inode: Self::Inode,
        newparent: Self::Inode,
        newname: &[u8],
    ) -> Result<Entry<Self::Inode>, Errno>
        ensures may { Self.may self.old
            (call.Link ctx (Self.Inode.number inode) (Self.Inode.number newparent) newname.now)
            (entry_answer Self.Inode.number result) self.new };

    /// Opens a file (FUSE_OPEN; `open(2)` defines the flags). If it returns no handle, later calls
    /// get handle 0.
    fn open(
        &mut self,
        ctx: Context,
        inode: Self::Inode,
        kill_priv: bool,
        flags: u32,
    ) -> Result<(Option<Self::Handle>, OpenOptions), Errno>
        ensures may { Self.may self.old (call.Open ctx (Self.Inode.number inode) kill_priv flags)
            (opened_answer Self.Handle.number result) self.new };

    /// Makes a file if there is none, and opens it (FUSE_CREATE). If the reply doesn't fit, the
    /// server undoes the entry with `forget`, but doesn't release the handle. So a file system with
    /// handles has to limit how many a guest may leave open.
    fn create(
        &mut self,
        ctx: Context,
        parent: Self::Inode,
        name: &[u8],
        mode: u32,
        kill_priv: bool,
        flags: u32,
        umask: u32,
        extensions: Extensions,
    ) -> Result<(Entry<Self::Inode>, Option<Self::Handle>, OpenOptions), Errno>
        ensures may { Self.may self.old (call.Create ctx (Self.Inode.number parent) name.now mode kill_priv
            flags umask (extra_of extensions))
            (created_answer Self.Inode.number Self.Handle.number result) self.new };

    /// Puts bytes of a file into a writer, and returns their number (FUSE_READ): `Ok(n)` put in exactly n.
    /// With `reads_whole` the writer may be the guest's memory itself (see `defaults::read_whole`).
    fn read<W: ZeroCopyWriter>(
        &mut self,
        ctx: Context,
        inode: Self::Inode,
        handle: Self::Handle,
        w: &mut W,
        size: u32,
        offset: u64,
        lock_owner: Option<u64>,
        flags: u32,
    ) -> Result<usize, Errno>
        ensures { (bytes : List ℕ)
            × W.Puts w.old bytes w.new
            × (W.room w.old ≡ W.room w.new + length bytes)
            × IfOk result (λ n. n ≡ length bytes)
            × Self.may self.old (call.Read ctx (Self.Inode.number inode) (Self.Handle.number handle)
            (W.room w.old) size offset lock_owner flags)
            (data_answer result bytes) self.new
            × (IsTrue (reads_whole self.old) → OnErr result (length bytes ≡ 0)) };

    /// Writes a reader's bytes to a file, and returns how many it wrote (FUSE_WRITE). A delayed
    /// write comes from the guest's page cache.
    fn write<R: ZeroCopyReader>(
        &mut self,
        ctx: Context,
        inode: Self::Inode,
        handle: Self::Handle,
        r: &mut R,
        size: u32,
        offset: u64,
        lock_owner: Option<u64>,
        delayed_write: bool,
        kill_priv: bool,
        flags: u32,
    ) -> Result<u32, Errno>
        ensures may { Self.may self.old
            (call.Write ctx (Self.Inode.number inode) (Self.Handle.number handle) (R.left r.old) size offset
            lock_owner delayed_write kill_priv flags) (written_answer result) self.new };

    /// The guest closed a descriptor of an open file. Others may still be open (FUSE_FLUSH).
    fn flush(
        &mut self,
        ctx: Context,
        inode: Self::Inode,
        handle: Self::Handle,
        lock_owner: u64,
    ) -> Result<(), Errno>
        ensures may { Self.may self.old (call.Flush ctx (Self.Inode.number inode) (Self.Handle.number handle)
            lock_owner) (done_answer result) self.new };

    /// Flushes the writes of a file to storage; with `datasync` only the data (FUSE_FSYNC).
    fn fsync(
        &mut self,
        ctx: Context,
        inode: Self::Inode,
        datasync: bool,
        handle: Self::Handle,
    ) -> Result<(), Errno>
        ensures may { Self.may self.old (call.Fsync ctx (Self.Inode.number inode) datasync
            (Self.Handle.number handle)) (done_answer result) self.new };

    /// Allocates or frees space of a file (FUSE_FALLOCATE; `fallocate(2)` defines the mode).
    fn fallocate(
        &mut self,
        ctx: Context,
        inode: Self::Inode,
        handle: Self::Handle,
        mode: u32,
        offset: u64,
        length: u64,
    ) -> Result<(), Errno>
        ensures may { Self.may self.old
            (call.Fallocate ctx (Self.Inode.number inode) (Self.Handle.number handle) mode offset length)
            (done_answer result) self.new };

    /// The guest closed the last descriptor of an open file (FUSE_RELEASE).
    fn release(
        &mut self,
        ctx: Context,
        inode: Self::Inode,
        flags: u32,
        handle: Self::Handle,
        flush: bool,
        flock_release: bool,
        lock_owner: Option<u64>,
    ) -> Result<(), Errno>
        ensures may { Self.may self.old (call.Release ctx (Self.Inode.number inode) flags
            (Self.Handle.number handle) flush flock_release lock_owner)
            (done_answer result) self.new };

    /// The counts of the file system: blocks and files, in all and free (FUSE_STATFS, `statvfs(3)`).
    fn statfs(&mut self, ctx: Context, inode: Self::Inode) -> Result<StatVfs, Errno>
        ensures may { Self.may self.old (call.Statfs ctx (Self.Inode.number inode))
            (stats_answer result) self.new };

    /// Sets an extended attribute (FUSE_SETXATTR; `setxattr(2)` defines the flags).
    fn setxattr(
        &mut self,
        ctx: Context,
        inode: Self::Inode,
        name: &[u8],
        value: &[u8],
        flags: u32,
        extra_flags: SetxattrFlags,
    ) -> Result<(), Errno>
        ensures may { Self.may self.old (call.Setxattr ctx (Self.Inode.number inode) name.now value.now flags
            extra_flags.0) (done_answer result) self.new };

    /// The value of an extended attribute, of at most `size` bytes (FUSE_GETXATTR). If `size` is 0,
    /// the value's length in bytes.
    fn getxattr(
        &mut self,
        ctx: Context,
        inode: Self::Inode,
        name: &[u8],
        size: u32,
    ) -> Result<GetxattrReply, Errno>
        ensures may { Self.may self.old (call.Getxattr ctx (Self.Inode.number inode) name.now size)
            (value_answer result) self.new };

    /// The names of the extended attributes, in at most `size` bytes (FUSE_LISTXATTR). If `size` is
    /// 0, their length in bytes.
    fn listxattr(
        &mut self,
        ctx: Context,
        inode: Self::Inode,
        size: u32,
    ) -> Result<ListxattrReply, Errno>
        ensures may { Self.may self.old (call.Listxattr ctx (Self.Inode.number inode) size)
            (names_answer result) self.new };

    /// Removes an extended attribute (FUSE_REMOVEXATTR).
    fn removexattr(&mut self, ctx: Context, inode: Self::Inode, name: &[u8]) -> Result<(), Errno>
        ensures may { Self.may self.old (call.Removexattr ctx (Self.Inode.number inode) name.now)
            (done_answer result) self.new };

    /// Opens a directory (FUSE_OPENDIR). If it returns no handle, later calls get handle 0.
    fn opendir(
        &mut self,
        ctx: Context,
        inode: Self::Inode,
        flags: u32,
    ) -> Result<(Option<Self::Handle>, OpenOptions), Errno>
        ensures may { Self.may self.old (call.Opendir ctx (Self.Inode.number inode) flags)
            (opened_answer Self.Handle.number result) self.new };

    /// The entries of a directory after the one with this offset, or all for 0 (FUSE_READDIR and
    /// FUSE_READDIRPLUS). The reply has at most `size` bytes. The file system chooses the offsets
    /// of entries; they count no bytes.
    fn readdir(
        &mut self,
        ctx: Context,
        inode: Self::Inode,
        handle: Self::Handle,
        size: u32,
        offset: u64,
    ) -> Result<Self::DirIter, Errno>
        ensures may { Self.may self.old
            (call.Readdir ctx (Self.Inode.number inode) (Self.Handle.number handle) size offset)
            (listed_answer Self.DirIter.rest result) self.new };

    /// Flushes the changes of a directory to storage; with `datasync` only the data (FUSE_FSYNCDIR).
    fn fsyncdir(
        &mut self,
        ctx: Context,
        inode: Self::Inode,
        datasync: bool,
        handle: Self::Handle,
    ) -> Result<(), Errno>
        ensures may { Self.may self.old (call.Fsyncdir ctx (Self.Inode.number inode) datasync
            (Self.Handle.number handle)) (done_answer result) self.new };

    /// The guest closed the last descriptor of an open directory (FUSE_RELEASEDIR).
    fn releasedir(
        &mut self,
        ctx: Context,
        inode: Self::Inode,
        flags: u32,
        handle: Self::Handle,
    ) -> Result<(), Errno>
        ensures may { Self.may self.old (call.Releasedir ctx (Self.Inode.number inode) flags
            (Self.Handle.number handle)) (done_answer result) self.new };

    /// Ok if the caller may access a node in the ways of `mask` (FUSE_ACCESS; `access(2)` defines the mask).
    fn access(&mut self, ctx: Context, inode: Self::Inode, mask: u32) -> Result<(), Errno>
        ensures may { Self.may self.old (call.Access ctx (Self.Inode.number inode) mask)
            (done_answer result) self.new };

    /// Finds an offset in an open file, in bytes from its start (FUSE_LSEEK). `offset` counts from
    /// the place that `whence` names (`lseek(2)`).
    fn lseek(
        &mut self,
        ctx: Context,
        inode: Self::Inode,
        handle: Self::Handle,
        offset: u64,
        whence: u32,
    ) -> Result<u64, Errno>
        ensures may { Self.may self.old (call.Lseek ctx (Self.Inode.number inode) (Self.Handle.number handle)
            offset whence) (offset_answer result) self.new };

    /// Copies bytes of one open file to another, and returns their number (FUSE_COPY_FILE_RANGE,
    /// `copy_file_range(2)`).
    fn copyfilerange(
        &mut self,
        ctx: Context,
        inode_in: Self::Inode,
        handle_in: Self::Handle,
        offset_in: u64,
        inode_out: Self::Inode,
        handle_out: Self::Handle,
        offset_out: u64,
        len: u64,
        flags: u64,
    ) -> Result<u32, Errno>
        ensures may { Self.may self.old
            (call.CopyFileRange ctx (Self.Inode.number inode_in) (Self.Handle.number handle_in) offset_in
            (Self.Inode.number inode_out) (Self.Handle.number handle_out) offset_out len flags)
            (written_answer result) self.new };

    /// Flushes all writes to storage (FUSE_SYNCFS).
    fn syncfs(&mut self, ctx: Context, inode: Self::Inode) -> Result<(), Errno>
        ensures may { Self.may self.old (call.Syncfs ctx (Self.Inode.number inode))
            (done_answer result) self.new };

    /// Gets the holder of a lock (FUSE_GETLK). The call gets none of the request's fields.
    fn getlk(&mut self) -> Result<(), Errno>
        ensures may { Self.may self.old call.Getlk (done_answer result) self.new };

    /// Takes or releases a lock (FUSE_SETLK). The call gets none of the request's fields.
    fn setlk(&mut self) -> Result<(), Errno>
        ensures may { Self.may self.old call.Setlk (done_answer result) self.new };

    /// Waits for a lock (FUSE_SETLKW). The call gets none of the request's fields.
    fn setlkw(&mut self) -> Result<(), Errno>
        ensures may { Self.may self.old call.Setlkw (done_answer result) self.new };

    /// Controls a device (FUSE_IOCTL, `ioctl(2)`). The call gets none of the request's fields.
    fn ioctl(&mut self) -> Result<(), Errno>
        ensures may { Self.may self.old call.Ioctl (done_answer result) self.new };

    /// Finds a block of a file on its device (FUSE_BMAP). The call gets none of the request's fields.
    fn bmap(&mut self) -> Result<(), Errno>
        ensures may { Self.may self.old call.Bmap (done_answer result) self.new };

    /// Asks which events an open file is ready for (FUSE_POLL). The call gets none of the request's fields.
    fn poll(&mut self) -> Result<(), Errno>
        ensures may { Self.may self.old call.Poll (done_answer result) self.new };

    /// The guest's answer to a notification that asked for bytes (FUSE_NOTIFY_REPLY). The call gets
    /// none of the request's fields.
    fn notify_reply(&mut self) -> Result<(), Errno>
        ensures may { Self.may self.old call.NotifyReply (done_answer result) self.new };

    /// Makes a file without a name (FUSE_TMPFILE). There is no successful answer, so it returns an errno.
    fn tmpfile(&mut self) -> Errno
        ensures may { Self.may self.old call.TmpFile (call.Failed result) self.new };
}
