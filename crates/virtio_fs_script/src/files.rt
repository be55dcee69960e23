//! The program's file system: a root with one file. It logs its calls.

ghost use Rattle.std.specs.Prelude.{⊤, ◌≤◌, ◌+◌, ◌↔◌, IsTrue, drop};
ghost use Rattle.virtio_fs_script.specs.Root.{root_entries};

use crate::calls::{Call, FirstCalls};
use bitflags::Flags;
use fuse_wire::{Attr, Errno, FsOptions};
use std::cell::Cell;
use virtiofsd_fuse::{
    ChangesNothing, Context, DirEntry, DirectoryIterator, Entry, FewCalls, FileSystemBase,
    OpensNothing, PositionedFile, Timeout, WritevFlags, ZeroCopyReader, ZeroCopyWriter, defaults,
};

// The root's node ID (FUSE_ROOT_ID in linux/fuse.h).
const ROOT: u64 = 1;

// The file's node ID.
const FILE: u64 = 2;

const FILE_NAME: &[u8] = b"a";

// The file's bytes at first.
const FILE_BYTES: &[u8] = b"hello";

// The greatest length of the file in bytes.
const MOST_FILE_BYTES: usize = 4096;

const BLOCK_BYTES: u32 = 4096;

// The seconds that the guest may cache an entry and its attributes.
const TIMEOUT_SECONDS: u64 = 1;

// The error of a write past the greatest length (EFBIG in errno.h).
fn file_too_large() -> Errno {
    Errno::new(27).unwrap()
}

// Whether the file can hold `count` bytes at an offset.
fn fits(off: u64, count: usize) -> bool
    ensures { IsTrue result ↔ (off + count ≤ 4096) }
{
    off <= MOST_FILE_BYTES as u64 && count <= MOST_FILE_BYTES - off as usize
}

// The file, in an array. It never gets shorter, so the bytes after its end are still the zeros that they were
// at first.
#[derive(Drop)]
struct SmallFile {
    bytes: [u8; MOST_FILE_BYTES],
    len: usize,
    ghost in_place: { len ≤ 4096 },
}

impl SmallFile {
    fn new() -> SmallFile {
        let mut bytes = [0; MOST_FILE_BYTES];
        bytes[..FILE_BYTES.len()].copy_from_slice(FILE_BYTES);
        SmallFile {
            bytes,
            len: FILE_BYTES.len(),
        }
    }
}

impl PositionedFile for SmallFile {
    ghost read_gives = { λ f n off r g. ⊤ };

    ghost write_gives = { λ f bytes off flags r g. ⊤ };

    fn read_at(&mut self, buf: &mut [u8], off: u64) -> Result<usize, Errno> {
        let bytes = &self.bytes[..self.len];
        if off >= bytes.len() as u64 {
            return Ok(0);
        }
        let rest = &bytes[off as usize..];
        let count = rest.len().min(buf.len());
        buf[..count].copy_from_slice(&rest[..count]);
        Ok(count)
    }

    fn write_at(
        &mut self,
        buf: &[u8],
        off: u64,
        _flags: Option<WritevFlags>,
    ) -> Result<usize, Errno> {
        if !fits(off, buf.len()) {
            return Err(file_too_large());
        }
        let from = off as usize;
        self.bytes[from..][..buf.len()].copy_from_slice(buf);
        self.len = self.len.max(from + buf.len());
        Ok(buf.len())
    }
}

// The time that the guest may cache an entry and its attributes.
fn timeout() -> Timeout {
    Timeout::new(TIMEOUT_SECONDS, 0).unwrap()
}

// The attributes of the root.
fn root_attr() -> Attr {
    Attr {
        ino: ROOT,
        mode: 0o40_755,
        nlink: 2,
        blksize: BLOCK_BYTES,
        ..Attr::default()
    }
}

/// The root's entries from number `at` on.
#[derive(Drop)]
pub struct RootEntries {
    at: u64,
}

impl DirectoryIterator for RootEntries {
    ghost rest = { λ entries. drop entries.at root_entries };

    fn next(&mut self) -> Option<DirEntry<'_>> {
        let at = self.at;
        if at > 1 {
            return None;
        }
        self.at = at + 1;
        Some(match at {
            0 => DirEntry {
                ino: ROOT,
                offset: 1,
                type_: 4,
                name: b".",
            },
            _ => DirEntry {
                ino: FILE,
                offset: 2,
                type_: 8,
                name: b"a",
            },
        })
    }
}

/// The root, node 1, with the file `a`, node 2. The calls that it implements itself are logged: INIT, LOOKUP,
/// FORGET, GETATTR, READ, WRITE and READDIR.
#[derive(Drop)]
pub struct LoggingFiles<'a> {
    log: &'a Cell<FirstCalls>,
    contents: SmallFile,
}

impl<'a> LoggingFiles<'a> {
    /// The file system with `hello` in its file.
    pub fn new(log: &'a Cell<FirstCalls>) -> LoggingFiles<'a> {
        LoggingFiles {
            log,
            contents: SmallFile::new(),
        }
    }

    fn note(&self, call: Call) {
        let mut log = self.log.take();
        log.note(call);
        self.log.set(log);
    }

    // The attributes of the file.
    fn file_attr(&self) -> Attr {
        Attr {
            ino: FILE,
            size: self.contents.len as u64,
            mode: 0o100_644,
            nlink: 1,
            blksize: BLOCK_BYTES,
            ..Attr::default()
        }
    }
}

// The relation allows every answer: tests show the answers.
impl<'a> FileSystemBase for LoggingFiles<'a> {
    type Inode = u64;

    type Handle = u64;

    ghost may = { λ s c a t. ⊤ };

    fn forget(&mut self, _ctx: Context, inode: u64, count: u64) {
        self.note(Call::Forget { node: inode, count });
    }
}

impl<'a> FewCalls for LoggingFiles<'a> {
    type DirIter = RootEntries;

    ghost use Rattle.std.specs.Prelude.{false};

    ghost reads_whole = { λ fs. false };

    fn reads_whole(&self) -> bool {
        false
    }

    fn init(&mut self, _capable: FsOptions) -> Result<FsOptions, Errno> {
        self.note(Call::Init);
        Ok(FsOptions::from_bits_retain(0))
    }

    fn lookup(&mut self, _ctx: Context, parent: u64, name: &[u8]) -> Result<Entry<u64>, Errno> {
        self.note(Call::lookup(parent, name));
        if parent != ROOT || name != FILE_NAME {
            return Err(Errno::ENOENT);
        }
        Ok(Entry {
            inode: FILE,
            generation: 0,
            attr: self.file_attr(),
            attr_timeout: timeout(),
            entry_timeout: timeout(),
        })
    }

    fn getattr(
        &mut self,
        _ctx: Context,
        inode: u64,
        _handle: Option<u64>,
    ) -> Result<(Attr, Timeout), Errno>
        ensures may { ⊤ }
    {
        self.note(Call::Getattr { node: inode });
        match inode {
            ROOT => Ok((root_attr(), timeout())),
            FILE => Ok((self.file_attr(), timeout())),
            _ => Err(Errno::ENOENT),
        }
    }

    fn read<W: ZeroCopyWriter>(
        &mut self,
        _ctx: Context,
        inode: u64,
        _handle: u64,
        w: &mut W,
        size: u32,
        offset: u64,
        _lock_owner: Option<u64>,
        _flags: u32,
    ) -> Result<usize, Errno> {
        self.note(Call::Read { node: inode });
        if inode != FILE {
            return Err(Errno::ENOENT);
        }
        w.read_from_file_at(&mut self.contents, size as usize, offset)
    }

    fn readdir(
        &mut self,
        _ctx: Context,
        inode: u64,
        _handle: u64,
        _size: u32,
        offset: u64,
    ) -> Result<RootEntries, Errno> {
        self.note(Call::Readdir { node: inode });
        if inode != ROOT {
            return Err(Errno::ENOENT);
        }
        Ok(RootEntries { at: offset })
    }

    // EFBIG comes before a byte of the request's data is read.
    fn write<R: ZeroCopyReader>(
        &mut self,
        _ctx: Context,
        inode: u64,
        _handle: u64,
        r: &mut R,
        size: u32,
        offset: u64,
        _lock_owner: Option<u64>,
        _delayed_write: bool,
        _kill_priv: bool,
        _flags: u32,
    ) -> Result<u32, Errno> {
        self.note(Call::Write { node: inode });
        if inode != FILE {
            return Err(Errno::ENOENT);
        }
        if !fits(offset, size as usize) {
            return Err(file_too_large());
        }
        let count = defaults::write_whole(&mut self.contents, r, size as usize, offset, None)?;
        Ok(count.min(size as usize) as u32)
    }

    ghost lacks_rare = { λ s c rare. record {} };

    ghost forgets_each = { λ s t who counts each. record {} };
}

impl<'a> OpensNothing for LoggingFiles<'a> {
    ghost lacks_opening = { λ s c opening. record {} };
}

impl<'a> ChangesNothing for LoggingFiles<'a> {
    ghost lacks_changing = { λ s c changing. record {} };
}
