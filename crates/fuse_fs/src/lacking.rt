//! A file system of fewer calls as a `FileSystem`: the calls that it lacks call their defaults.

ghost use Rattle.std.specs.Prelude.{option_map};
ghost use Rattle.fuse_fs.specs.Answers.{attr_answer, pair_numbers};
ghost use Rattle.fuse_fs.specs.Calls as call;

use crate::answers::{Context, Entry, GetxattrReply, ListxattrReply, Timeout};
use crate::defaults;
use crate::extensions::Extensions;
use crate::few_calls::{ChangeCalls, ChangesNothing, FewCalls, OpenCalls, OpensNothing};
use crate::file_system::{FileSystem, FileSystemBase};
use crate::zero_copy::{ZeroCopyReader, ZeroCopyWriter};
use fuse_base::{Attr, Errno, FsOptions, OpenOptions, SetattrValid, SetxattrFlags, StatVfs};
use fuse_in::SetattrIn;

impl<T: OpensNothing> OpenCalls for T {
    fn opendir(
        &mut self,
        _ctx: Context,
        _inode: T::Inode,
        _flags: u32,
    ) -> Result<(Option<T::Handle>, OpenOptions), Errno> {
        defaults::opendir()
    }

    fn release(
        &mut self,
        _ctx: Context,
        _inode: T::Inode,
        _flags: u32,
        _handle: T::Handle,
        _flush: bool,
        _flock_release: bool,
        _lock_owner: Option<u64>,
    ) -> Result<(), Errno> {
        defaults::release()
    }

    fn open(
        &mut self,
        _ctx: Context,
        _inode: T::Inode,
        _kill_priv: bool,
        _flags: u32,
    ) -> Result<(Option<T::Handle>, OpenOptions), Errno> {
        defaults::open()
    }
}

impl<T: ChangesNothing> ChangeCalls for T {
    fn statfs(&mut self, _ctx: Context, _inode: T::Inode) -> Result<StatVfs, Errno> {
        defaults::statfs()
    }

    fn create(
        &mut self,
        _ctx: Context,
        _parent: T::Inode,
        _name: &[u8],
        _mode: u32,
        _kill_priv: bool,
        _flags: u32,
        _umask: u32,
        _extensions: Extensions,
    ) -> Result<(Entry<T::Inode>, Option<T::Handle>, OpenOptions), Errno> {
        defaults::create()
    }

    fn rename(
        &mut self,
        _ctx: Context,
        _olddir: T::Inode,
        _oldname: &[u8],
        _newdir: T::Inode,
        _newname: &[u8],
        _flags: u32,
    ) -> Result<(), Errno> {
        defaults::rename()
    }

    fn rmdir(&mut self, _ctx: Context, _parent: T::Inode, _name: &[u8]) -> Result<(), Errno> {
        defaults::rmdir()
    }

    fn unlink(&mut self, _ctx: Context, _parent: T::Inode, _name: &[u8]) -> Result<(), Errno> {
        defaults::unlink()
    }

    fn mkdir(
        &mut self,
        _ctx: Context,
        _parent: T::Inode,
        _name: &[u8],
        _mode: u32,
        _umask: u32,
        _extensions: Extensions,
    ) -> Result<Entry<T::Inode>, Errno> {
        defaults::mkdir()
    }

    fn setattr(
        &mut self,
        _ctx: Context,
        _inode: T::Inode,
        _attr: SetattrIn,
        _handle: Option<T::Handle>,
        _valid: SetattrValid,
    ) -> Result<(Attr, Timeout), Errno>
        ensures may { T.may self.old
            (call.Setattr _ctx (T.Inode.number _inode) _attr (option_map T.Handle.number _handle) _valid.0)
            (attr_answer result) self.new }
    {
        defaults::setattr()
    }
}

impl<T: FewCalls + OpenCalls + ChangeCalls> FileSystem for T {
    type DirIter = T::DirIter;

    ghost reads_whole = { λ fs. T.reads_whole fs };

    fn reads_whole(&self) -> bool {
        FewCalls::reads_whole(self)
    }

    fn init(&mut self, capable: FsOptions) -> Result<FsOptions, Errno> {
        FewCalls::init(self, capable)
    }

    fn lookup(
        &mut self,
        ctx: Context,
        parent: T::Inode,
        name: &[u8],
    ) -> Result<Entry<T::Inode>, Errno> {
        FewCalls::lookup(self, ctx, parent, name)
    }

    fn getattr(
        &mut self,
        ctx: Context,
        inode: T::Inode,
        handle: Option<T::Handle>,
    ) -> Result<(Attr, Timeout), Errno>
        ensures may { T.may self.old (call.Getattr ctx (T.Inode.number inode)
            (option_map T.Handle.number handle)) (attr_answer result) self.new }
    {
        FewCalls::getattr(self, ctx, inode, handle)
    }

    fn read<W: ZeroCopyWriter>(
        &mut self,
        ctx: Context,
        inode: T::Inode,
        handle: T::Handle,
        w: &mut W,
        size: u32,
        offset: u64,
        lock_owner: Option<u64>,
        flags: u32,
    ) -> Result<usize, Errno> {
        FewCalls::read(self, ctx, inode, handle, w, size, offset, lock_owner, flags)
    }

    fn readdir(
        &mut self,
        ctx: Context,
        inode: T::Inode,
        handle: T::Handle,
        size: u32,
        offset: u64,
    ) -> Result<T::DirIter, Errno> {
        FewCalls::readdir(self, ctx, inode, handle, size, offset)
    }

    fn write<R: ZeroCopyReader>(
        &mut self,
        ctx: Context,
        inode: T::Inode,
        handle: T::Handle,
        r: &mut R,
        size: u32,
        offset: u64,
        lock_owner: Option<u64>,
        delayed_write: bool,
        kill_priv: bool,
        flags: u32,
    ) -> Result<u32, Errno> {
        FewCalls::write(
            self,
            ctx,
            inode,
            handle,
            r,
            size,
            offset,
            lock_owner,
            delayed_write,
            kill_priv,
            flags,
        )
    }

    fn opendir(
        &mut self,
        ctx: Context,
        inode: T::Inode,
        flags: u32,
    ) -> Result<(Option<T::Handle>, OpenOptions), Errno> {
        OpenCalls::opendir(self, ctx, inode, flags)
    }

    fn release(
        &mut self,
        ctx: Context,
        inode: T::Inode,
        flags: u32,
        handle: T::Handle,
        flush: bool,
        flock_release: bool,
        lock_owner: Option<u64>,
    ) -> Result<(), Errno> {
        OpenCalls::release(
            self,
            ctx,
            inode,
            flags,
            handle,
            flush,
            flock_release,
            lock_owner,
        )
    }

    fn open(
        &mut self,
        ctx: Context,
        inode: T::Inode,
        kill_priv: bool,
        flags: u32,
    ) -> Result<(Option<T::Handle>, OpenOptions), Errno> {
        OpenCalls::open(self, ctx, inode, kill_priv, flags)
    }

    fn statfs(&mut self, ctx: Context, inode: T::Inode) -> Result<StatVfs, Errno> {
        ChangeCalls::statfs(self, ctx, inode)
    }

    fn create(
        &mut self,
        ctx: Context,
        parent: T::Inode,
        name: &[u8],
        mode: u32,
        kill_priv: bool,
        flags: u32,
        umask: u32,
        extensions: Extensions,
    ) -> Result<(Entry<T::Inode>, Option<T::Handle>, OpenOptions), Errno> {
        ChangeCalls::create(
            self, ctx, parent, name, mode, kill_priv, flags, umask, extensions,
        )
    }

    fn rename(
        &mut self,
        ctx: Context,
        olddir: T::Inode,
        oldname: &[u8],
        newdir: T::Inode,
        newname: &[u8],
        flags: u32,
    ) -> Result<(), Errno> {
        ChangeCalls::rename(self, ctx, olddir, oldname, newdir, newname, flags)
    }

    fn rmdir(&mut self, ctx: Context, parent: T::Inode, name: &[u8]) -> Result<(), Errno> {
        ChangeCalls::rmdir(self, ctx, parent, name)
    }

    fn unlink(&mut self, ctx: Context, parent: T::Inode, name: &[u8]) -> Result<(), Errno> {
        ChangeCalls::unlink(self, ctx, parent, name)
    }

    fn mkdir(
        &mut self,
        ctx: Context,
        parent: T::Inode,
        name: &[u8],
        mode: u32,
        umask: u32,
        extensions: Extensions,
    ) -> Result<Entry<T::Inode>, Errno> {
        ChangeCalls::mkdir(self, ctx, parent, name, mode, umask, extensions)
    }

    fn setattr(
        &mut self,
        ctx: Context,
        inode: T::Inode,
        attr: SetattrIn,
        handle: Option<T::Handle>,
        valid: SetattrValid,
    ) -> Result<(Attr, Timeout), Errno>
        ensures may { T.may self.old
            (call.Setattr ctx (T.Inode.number inode) attr (option_map T.Handle.number handle) valid.0)
            (attr_answer result) self.new }
    {
        ChangeCalls::setattr(self, ctx, inode, attr, handle, valid)
    }

    fn destroy(&mut self) {
        defaults::destroy(self);
    }

    fn batch_forget(&mut self, ctx: Context, requests: Vec<(T::Inode, u64)>)
        ensures may { T.may self.old (call.BatchForget ctx (pair_numbers T.Inode.number requests.items))
            call.Done self.new }
    {
        defaults::batch_forget(self, ctx, requests);
    }

    fn readlink(&mut self, _ctx: Context, _inode: T::Inode) -> Result<Vec<u8>, Errno> {
        defaults::readlink()
    }

    fn symlink(
        &mut self,
        _ctx: Context,
        _linkname: &[u8],
        _parent: T::Inode,
        _name: &[u8],
        _extensions: Extensions,
    ) -> Result<Entry<T::Inode>, Errno> {
        defaults::symlink()
    }

    fn mknod(
        &mut self,
        _ctx: Context,
        _parent: T::Inode,
        _name: &[u8],
        _mode: u32,
        _rdev: u32,
        _umask: u32,
        _extensions: Extensions,
    ) -> Result<Entry<T::Inode>, Errno> {
        defaults::mknod()
    }

    fn link(
        &mut self,
        _ctx: Context,
        _inode: T::Inode,
        _newparent: T::Inode,
        _newname: &[u8],
    ) -> Result<Entry<T::Inode>, Errno> {
        defaults::link()
    }

    fn flush(
        &mut self,
        _ctx: Context,
        _inode: T::Inode,
        _handle: T::Handle,
        _lock_owner: u64,
    ) -> Result<(), Errno> {
        defaults::flush()
    }

    fn fsync(
        &mut self,
        _ctx: Context,
        _inode: T::Inode,
        _datasync: bool,
        _handle: T::Handle,
    ) -> Result<(), Errno> {
        defaults::fsync()
    }

    fn fallocate(
        &mut self,
        _ctx: Context,
        _inode: T::Inode,
        _handle: T::Handle,
        _mode: u32,
        _offset: u64,
        _length: u64,
    ) -> Result<(), Errno> {
        defaults::fallocate()
    }

    fn setxattr(
        &mut self,
        _ctx: Context,
        _inode: T::Inode,
        _name: &[u8],
        _value: &[u8],
        _flags: u32,
        _extra_flags: SetxattrFlags,
    ) -> Result<(), Errno> {
        defaults::setxattr()
    }

    fn getxattr(
        &mut self,
        _ctx: Context,
        _inode: T::Inode,
        _name: &[u8],
        _size: u32,
    ) -> Result<GetxattrReply, Errno> {
        defaults::getxattr()
    }

    fn listxattr(
        &mut self,
        _ctx: Context,
        _inode: T::Inode,
        _size: u32,
    ) -> Result<ListxattrReply, Errno> {
        defaults::listxattr()
    }

    fn removexattr(&mut self, _ctx: Context, _inode: T::Inode, _name: &[u8]) -> Result<(), Errno> {
        defaults::removexattr()
    }

    fn fsyncdir(
        &mut self,
        _ctx: Context,
        _inode: T::Inode,
        _datasync: bool,
        _handle: T::Handle,
    ) -> Result<(), Errno> {
        defaults::fsyncdir()
    }

    fn releasedir(
        &mut self,
        _ctx: Context,
        _inode: T::Inode,
        _flags: u32,
        _handle: T::Handle,
    ) -> Result<(), Errno> {
        defaults::releasedir()
    }

    fn access(&mut self, _ctx: Context, _inode: T::Inode, _mask: u32) -> Result<(), Errno> {
        defaults::access()
    }

    fn lseek(
        &mut self,
        _ctx: Context,
        _inode: T::Inode,
        _handle: T::Handle,
        _offset: u64,
        _whence: u32,
    ) -> Result<u64, Errno> {
        defaults::lseek()
    }

    fn copyfilerange(
        &mut self,
        _ctx: Context,
        _inode_in: T::Inode,
        _handle_in: T::Handle,
        _offset_in: u64,
        _inode_out: T::Inode,
        _handle_out: T::Handle,
        _offset_out: u64,
        _len: u64,
        _flags: u64,
    ) -> Result<u32, Errno> {
        defaults::copyfilerange()
    }

    fn syncfs(&mut self, _ctx: Context, _inode: T::Inode) -> Result<(), Errno> {
        defaults::syncfs()
    }

    fn getlk(&mut self) -> Result<(), Errno> {
        defaults::getlk()
    }

    fn setlk(&mut self) -> Result<(), Errno> {
        defaults::setlk()
    }

    fn setlkw(&mut self) -> Result<(), Errno> {
        defaults::setlkw()
    }

    fn ioctl(&mut self) -> Result<(), Errno> {
        defaults::ioctl()
    }

    fn bmap(&mut self) -> Result<(), Errno> {
        defaults::bmap()
    }

    fn poll(&mut self) -> Result<(), Errno> {
        defaults::poll()
    }

    fn notify_reply(&mut self) -> Result<(), Errno> {
        defaults::notify_reply()
    }

    fn tmpfile(&mut self) -> Errno {
        defaults::tmpfile()
    }
}
