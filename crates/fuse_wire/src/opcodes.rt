//! The numbers of requests, notifications and extensions.

ghost use Rattle.std.specs.Prelude.{◌≡◌, Some, slice_get};
ghost use Rattle.fuse_wire.specs.Opcodes.{named, opcode_of, notice_number, read_opcode, read_ext_type};

/// The operation of a request (`enum fuse_opcode`).
#[derive(Clone, Copy, Debug, PartialEq, Eq)]
pub enum Opcode {
    Lookup = 1,
    Forget = 2,
    Getattr = 3,
    Setattr = 4,
    Readlink = 5,
    Symlink = 6,
    Mknod = 8,
    Mkdir = 9,
    Unlink = 10,
    Rmdir = 11,
    Rename = 12,
    Link = 13,
    Open = 14,
    Read = 15,
    Write = 16,
    Statfs = 17,
    Release = 18,
    Fsync = 20,
    Setxattr = 21,
    Getxattr = 22,
    Listxattr = 23,
    Removexattr = 24,
    Flush = 25,
    Init = 26,
    Opendir = 27,
    Readdir = 28,
    Releasedir = 29,
    Fsyncdir = 30,
    Getlk = 31,
    Setlk = 32,
    Setlkw = 33,
    Access = 34,
    Create = 35,
    Interrupt = 36,
    Bmap = 37,
    Destroy = 38,
    Ioctl = 39,
    Poll = 40,
    NotifyReply = 41,
    BatchForget = 42,
    Fallocate = 43,
    Readdirplus = 44,
    Rename2 = 45,
    Lseek = 46,
    CopyFileRange = 47,
    SetupMapping = 48,
    RemoveMapping = 49,
    Syncfs = 50,
    TmpFile = 51,
}

/// The kind of a notification (`enum fuse_notify_code`).
#[derive(Clone, Copy, Debug, PartialEq, Eq)]
pub enum NotifyOpcode {
    Poll = 1,
    InvalInode = 2,
    InvalEntry = 3,
    Store = 4,
    Retrieve = 5,
    Delete = 6,
    CodeMax = 7,
}

/// The kind of a request's extension (`enum fuse_ext_type`).
#[derive(Clone, Copy, Debug, PartialEq, Eq)]
pub enum ExtType {
    /// The number of security contexts, at most 31.
    SecCtx(u32),
    /// Supplementary groups of the caller.
    SupGroups,
}

impl Opcode {
    /// The opcode's number, which `Opcode::try_from` converts back.
    pub fn number(self) -> u32
        ensures { opcode_of result ≡ Some self }
    {
        self as u32
    }
}

impl NotifyOpcode {
    /// The notification's number, which is the `error` field of its header (`struct fuse_out_header`).
    pub fn number(self) -> u32
        ensures { result ≡ notice_number self }
    {
        self as u32
    }
}

// The opcodes in the order of their numbers. A hyphen is a number without an opcode.
macro_rules! by_number {
    (@ -) => { None };
    (@ $name:ident) => { Some(Opcode::$name) };
    ($($name:tt)*) => { [$(by_number!(@ $name)),*] };
}

static OPCODES: [Option<Opcode>; 52] = by_number!(
    - Lookup Forget Getattr Setattr Readlink Symlink - Mknod Mkdir Unlink Rmdir Rename Link Open
    Read Write Statfs Release - Fsync Setxattr Getxattr Listxattr Removexattr Flush Init Opendir
    Readdir Releasedir Fsyncdir Getlk Setlk Setlkw Access Create Interrupt Bmap Destroy Ioctl Poll
    NotifyReply BatchForget Fallocate Readdirplus Rename2 Lseek CopyFileRange SetupMapping
    RemoveMapping Syncfs TmpFile
);

// The opcode at an index of a table, if there is one.
fn entry(table: &[Option<Opcode>], n: usize) -> Option<Opcode>
    ensures { result ≡ named (slice_get table.now n) }
{
    match table.get(n) {
        Some(opcode) => *opcode,
        None => None,
    }
}

impl TryFrom<u32> for Opcode {
    type Error = ();

    ghost try_from_gives = { λ n r. r ≡ read_opcode n };

    fn try_from(n: u32) -> Result<Opcode, ()> {
        match entry(&OPCODES, n as usize) {
            Some(opcode) => Ok(opcode),
            None => Err(()),
        }
    }
}

impl TryFrom<u32> for ExtType {
    type Error = ();

    ghost try_from_gives = { λ n r. r ≡ read_ext_type n };

    fn try_from(n: u32) -> Result<ExtType, ()> {
        match n {
            0..=31 => Ok(ExtType::SecCtx(n)),
            32 => Ok(ExtType::SupGroups),
            _ => Err(()),
        }
    }
}
