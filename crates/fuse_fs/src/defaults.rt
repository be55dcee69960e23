//! Defaults of the calls of `FileSystem` and `SerializableFileSystem`, for a file system's methods
//! to call. A default changes nothing that it isn't passed: neither file system, nor writer, nor
//! stream. ENOSYS is errno 38 (errno.h).

ghost use Rattle.std.specs.Prelude.{◌≡◌, ℕ, ◌+◌, ◌≤◌, List, length, take, drop, Result, Ok, Err, IfOk, OnErr};
ghost use Rattle.std.specs.Prelude.{None, Some, option_map};
ghost use Rattle.std.specs.Result.{result_err};
ghost use Rattle.std.specs.IoError.{error_kind};
ghost use Rattle.fuse_fs.specs.Answers.{ForgetsEach, pair_numbers, default_stats, no_flags};
ghost use Rattle.fuse_fs.specs.Lengths.{past, up_to};
ghost use Rattle.fuse_fs.specs.Transfers.{ReadsSegments, Spends, short_answer, whole_answer};

use crate::answers::{Context, Entry, GetxattrReply, ListxattrReply, Timeout};
use crate::file_system::FileSystemBase;
use crate::zero_copy::{PositionedFile, WritevFlags, ZeroCopyReader, ZeroCopyWriter};
use bitflags::Flags;
use fuse_base::{Attr, Errno, FsOptions, OpenOptions, StatVfs};
use std::io::{self, ErrorKind};

/// Default of virtiofsd's `FileSystem::init`: it asks for no options. It never fails.
pub fn init() -> Result<FsOptions, Errno>
    ensures { result ≡ Ok no_flags }
{
    Ok(FsOptions::from_bits_retain(0))
}

/// Default of virtiofsd's `FileSystem::destroy`: it does nothing.
pub fn destroy<F: FileSystemBase>(_fs: &mut F)
    ensures { _fs.new ≡ _fs.old }
{}

/// Default of virtiofsd's `FileSystem::forget`: it does nothing.
pub fn forget<F: FileSystemBase>(_fs: &mut F)
    ensures { _fs.new ≡ _fs.old }
{}

/// Default of virtiofsd's `FileSystem::batch_forget`: it calls the file system's `forget` for each
/// node, in order.
pub fn batch_forget<F: FileSystemBase>(fs: &mut F, ctx: Context, requests: Vec<(F::Inode, u64)>)
    ensures { ForgetsEach F.may fs.old ctx (pair_numbers F.Inode.number requests.items) fs.new }
{
    for (inode, count) in &requests {
        fs.forget(ctx, *inode, *count);
    }
}

/// Default of virtiofsd's `FileSystem::lookup`: no such call, ENOSYS.
pub fn lookup<I>() -> Result<Entry<I>, Errno>
    ensures { result ≡ Err 38 }
{
    Err(Errno::ENOSYS)
}

/// Default of virtiofsd's `FileSystem::getattr`: no such call, ENOSYS.
pub fn getattr() -> Result<(Attr, Timeout), Errno>
    ensures { result ≡ Err 38 }
{
    Err(Errno::ENOSYS)
}

/// Default of virtiofsd's `FileSystem::setattr`: no such call, ENOSYS.
pub fn setattr() -> Result<(Attr, Timeout), Errno>
    ensures { result ≡ Err 38 }
{
    Err(Errno::ENOSYS)
}

/// Default of virtiofsd's `FileSystem::readlink`: no such call, ENOSYS.
pub fn readlink() -> Result<Vec<u8>, Errno>
    ensures { result ≡ Err 38 }
{
    Err(Errno::ENOSYS)
}

/// Default of virtiofsd's `FileSystem::symlink`: no such call, ENOSYS.
pub fn symlink<I>() -> Result<Entry<I>, Errno>
    ensures { result ≡ Err 38 }
{
    Err(Errno::ENOSYS)
}

/// Default of virtiofsd's `FileSystem::mknod`: no such call, ENOSYS.
pub fn mknod<I>() -> Result<Entry<I>, Errno>
    ensures { result ≡ Err 38 }
{
    Err(Errno::ENOSYS)
}

/// Default of virtiofsd's `FileSystem::mkdir`: no such call, ENOSYS.
pub fn mkdir<I>() -> Result<Entry<I>, Errno>
    ensures { result ≡ Err 38 }
{
    Err(Errno::ENOSYS)
}

/// Default of virtiofsd's `FileSystem::unlink`: no such call, ENOSYS.
pub fn unlink() -> Result<(), Errno>
    ensures { result ≡ Err 38 }
{
    Err(Errno::ENOSYS)
}

/// Default of virtiofsd's `FileSystem::rmdir`: no such call, ENOSYS.
pub fn rmdir() -> Result<(), Errno>
    ensures { result ≡ Err 38 }
{
    Err(Errno::ENOSYS)
}

/// Default of virtiofsd's `FileSystem::rename`: no such call, ENOSYS.
pub fn rename() -> Result<(), Errno>
    ensures { result ≡ Err 38 }
{
    Err(Errno::ENOSYS)
}

/// Default of virtiofsd's `FileSystem::link`: no such call, ENOSYS.
pub fn link<I>() -> Result<Entry<I>, Errno>
    ensures { result ≡ Err 38 }
{
    Err(Errno::ENOSYS)
}

/// Default of virtiofsd's `FileSystem::open`: no handle and no options. It never fails.
pub fn open<H>() -> Result<(Option<H>, OpenOptions), Errno>
    ensures { result ≡ Ok (None, no_flags) }
{
    Ok((None, OpenOptions::from_bits_retain(0)))
}

/// Default of virtiofsd's `FileSystem::create`: no such call, ENOSYS.
pub fn create<I, H>() -> Result<(Entry<I>, Option<H>, OpenOptions), Errno>
    ensures { result ≡ Err 38 }
{
    Err(Errno::ENOSYS)
}

/// Default of virtiofsd's `FileSystem::read`: no such call, ENOSYS. It puts nothing into the writer.
pub fn read() -> Result<usize, Errno>
    ensures { result ≡ Err 38 }
{
    Err(Errno::ENOSYS)
}

/// A read for a `FileSystem::read` with `reads_whole`. It puts nothing in if it fails, with any file. If the
/// file fails after some bytes, the read is short: it returns their number instead of the errno.
pub fn read_whole<F: PositionedFile, W: ZeroCopyWriter>(
    file: &mut F,
    w: &mut W,
    count: usize,
    off: u64,
) -> Result<usize, Errno>
    ensures read { (bytes : List ℕ)
        × W.Puts w.old bytes w.new
        × (W.room w.old ≡ W.room w.new + length bytes)
        × (W.rooms w.new ≡ past (length bytes) (W.rooms w.old))
        × IfOk result (λ n. n ≡ length bytes)
        × OnErr result (length bytes ≡ 0)
        × ((answer : Result ℕ ℕ)
        × (result ≡ whole_answer answer bytes)
        × ReadsSegments F.read_gives file.old (up_to count (W.rooms w.old)) off bytes answer file.new) }
{
    let room = w.available_bytes();
    match w.read_from_file_at(file, count, off) {
        Ok(n) => Ok(n),
        Err(error) => {
            let done = room - w.available_bytes();
            if done == 0 { Err(error) } else { Ok(done) }
        }
    }
}

/// Default of virtiofsd's `FileSystem::write`: no such call, ENOSYS.
pub fn write() -> Result<u32, Errno>
    ensures { result ≡ Err 38 }
{
    Err(Errno::ENOSYS)
}

/// A write for a `FileSystem::write` that returns a short count, with any file. If the file fails
/// after some bytes, it returns their number instead of the errno. Each write of the file is of one
/// window of the guest's memory.
pub fn write_whole<F: PositionedFile, R: ZeroCopyReader>(
    file: &mut F,
    r: &mut R,
    count: usize,
    off: u64,
    flags: Option<WritevFlags>,
) -> Result<usize, Errno>
    ensures write { (n : ℕ)
        × (n ≤ length (R.left r.old))
        × (R.left r.new ≡ drop n (R.left r.old))
        × (R.segments r.new ≡ past n (R.segments r.old))
        × (R.read r.new ≡ R.read r.old + n)
        × IfOk result (λ k. k ≡ n)
        × OnErr result (n ≡ 0)
        × ((answer : Result ℕ ℕ)
        × (result ≡ short_answer answer n)
        × Spends F.write_gives file.old (take count (R.left r.old)) (up_to count (R.segments r.old)) off
        (option_map (λ f. f.0) flags) n answer file.new) }
{
    let left = r.available_bytes();
    match r.write_to_file_at(file, count, off, flags) {
        Ok(n) => Ok(n),
        Err(error) => {
            let done = left - r.available_bytes();
            if done == 0 { Err(error) } else { Ok(done) }
        }
    }
}

/// Default of virtiofsd's `FileSystem::flush`: no such call, ENOSYS.
pub fn flush() -> Result<(), Errno>
    ensures { result ≡ Err 38 }
{
    Err(Errno::ENOSYS)
}

/// Default of virtiofsd's `FileSystem::fsync`: no such call, ENOSYS.
pub fn fsync() -> Result<(), Errno>
    ensures { result ≡ Err 38 }
{
    Err(Errno::ENOSYS)
}

/// Default of virtiofsd's `FileSystem::fallocate`: no such call, ENOSYS.
pub fn fallocate() -> Result<(), Errno>
    ensures { result ≡ Err 38 }
{
    Err(Errno::ENOSYS)
}

/// Default of virtiofsd's `FileSystem::release`: no such call, ENOSYS.
pub fn release() -> Result<(), Errno>
    ensures { result ≡ Err 38 }
{
    Err(Errno::ENOSYS)
}

/// Default of virtiofsd's `FileSystem::statfs`: all counts are 0, a name has at most 255 bytes, and
/// a block has 512 (`statvfs(3)`). It never fails.
pub fn statfs() -> Result<StatVfs, Errno>
    ensures { result ≡ Ok default_stats }
{
    Ok(StatVfs {
        f_namemax: 255,
        f_bsize: 512,
        ..StatVfs::default()
    })
}

/// Default of virtiofsd's `FileSystem::setxattr`: no such call, ENOSYS.
pub fn setxattr() -> Result<(), Errno>
    ensures { result ≡ Err 38 }
{
    Err(Errno::ENOSYS)
}

/// Default of virtiofsd's `FileSystem::getxattr`: no such call, ENOSYS.
pub fn getxattr() -> Result<GetxattrReply, Errno>
    ensures { result ≡ Err 38 }
{
    Err(Errno::ENOSYS)
}

/// Default of virtiofsd's `FileSystem::listxattr`: no such call, ENOSYS.
pub fn listxattr() -> Result<ListxattrReply, Errno>
    ensures { result ≡ Err 38 }
{
    Err(Errno::ENOSYS)
}

/// Default of virtiofsd's `FileSystem::removexattr`: no such call, ENOSYS.
pub fn removexattr() -> Result<(), Errno>
    ensures { result ≡ Err 38 }
{
    Err(Errno::ENOSYS)
}

/// Default of virtiofsd's `FileSystem::opendir`: no handle and no options. It never fails.
pub fn opendir<H>() -> Result<(Option<H>, OpenOptions), Errno>
    ensures { result ≡ Ok (None, no_flags) }
{
    Ok((None, OpenOptions::from_bits_retain(0)))
}

/// Default of virtiofsd's `FileSystem::readdir`: no such call, ENOSYS.
pub fn readdir<D>() -> Result<D, Errno>
    ensures { result ≡ Err 38 }
{
    Err(Errno::ENOSYS)
}

/// Default of virtiofsd's `FileSystem::fsyncdir`: no such call, ENOSYS.
pub fn fsyncdir() -> Result<(), Errno>
    ensures { result ≡ Err 38 }
{
    Err(Errno::ENOSYS)
}

/// Default of virtiofsd's `FileSystem::releasedir`: no such call, ENOSYS.
pub fn releasedir() -> Result<(), Errno>
    ensures { result ≡ Err 38 }
{
    Err(Errno::ENOSYS)
}

/// Default of virtiofsd's `FileSystem::access`: no such call, ENOSYS.
pub fn access() -> Result<(), Errno>
    ensures { result ≡ Err 38 }
{
    Err(Errno::ENOSYS)
}

/// Default of virtiofsd's `FileSystem::lseek`: no such call, ENOSYS.
pub fn lseek() -> Result<u64, Errno>
    ensures { result ≡ Err 38 }
{
    Err(Errno::ENOSYS)
}

/// Default of virtiofsd's `FileSystem::copyfilerange`: no such call, ENOSYS.
pub fn copyfilerange() -> Result<u32, Errno>
    ensures { result ≡ Err 38 }
{
    Err(Errno::ENOSYS)
}

/// Default of virtiofsd's `FileSystem::syncfs`: no such call, ENOSYS.
pub fn syncfs() -> Result<(), Errno>
    ensures { result ≡ Err 38 }
{
    Err(Errno::ENOSYS)
}

/// Default of virtiofsd's `FileSystem::getlk`: no such call, ENOSYS.
pub fn getlk() -> Result<(), Errno>
    ensures { result ≡ Err 38 }
{
    Err(Errno::ENOSYS)
}

/// Default of virtiofsd's `FileSystem::setlk`: no such call, ENOSYS.
pub fn setlk() -> Result<(), Errno>
    ensures { result ≡ Err 38 }
{
    Err(Errno::ENOSYS)
}

/// Default of virtiofsd's `FileSystem::setlkw`: no such call, ENOSYS.
pub fn setlkw() -> Result<(), Errno>
    ensures { result ≡ Err 38 }
{
    Err(Errno::ENOSYS)
}

/// Default of virtiofsd's `FileSystem::ioctl`: no such call, ENOSYS.
pub fn ioctl() -> Result<(), Errno>
    ensures { result ≡ Err 38 }
{
    Err(Errno::ENOSYS)
}

/// Default of virtiofsd's `FileSystem::bmap`: no such call, ENOSYS.
pub fn bmap() -> Result<(), Errno>
    ensures { result ≡ Err 38 }
{
    Err(Errno::ENOSYS)
}

/// Default of virtiofsd's `FileSystem::poll`: no such call, ENOSYS.
pub fn poll() -> Result<(), Errno>
    ensures { result ≡ Err 38 }
{
    Err(Errno::ENOSYS)
}

/// Default of virtiofsd's `FileSystem::notify_reply`: no such call, ENOSYS.
pub fn notify_reply() -> Result<(), Errno>
    ensures { result ≡ Err 38 }
{
    Err(Errno::ENOSYS)
}

/// Default of virtiofsd's `FileSystem::tmpfile`: no such call, ENOSYS.
pub fn tmpfile() -> Errno
    ensures { result ≡ 38 }
{
    Errno::ENOSYS
}

/// Default of virtiofsd's `SerializableFileSystem::prepare_serialization`: it prepares nothing.
pub fn prepare_serialization<F>(_fs: &mut F)
    ensures { _fs.new ≡ _fs.old }
{}

/// Default of virtiofsd's `SerializableFileSystem::serialize`: not supported, `ErrorKind::Unsupported`. It
/// writes nothing to the stream.
pub fn serialize() -> io::Result<()>
    ensures { option_map error_kind (result_err result) ≡ Some ErrorKind.Unsupported }
{
    Err(io::Error::from(ErrorKind::Unsupported))
}

/// Default of virtiofsd's `SerializableFileSystem::deserialize_and_apply`: not supported,
/// `ErrorKind::Unsupported`. It reads nothing from the stream.
pub fn deserialize_and_apply() -> io::Result<()>
    ensures { option_map error_kind (result_err result) ≡ Some ErrorKind.Unsupported }
{
    Err(io::Error::from(ErrorKind::Unsupported))
}
