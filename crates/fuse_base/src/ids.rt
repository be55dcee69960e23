//! User IDs, group IDs and error numbers.

ghost use Rattle.std.specs.Prelude.{◌≡◌, [], ◌∷◌, refl, ℕ, ◌↔◌, ◌≤◌, IsSome, IfSome};
ghost use Rattle.std.proofs.Common.{rules};
ghost use Rattle.vm_values.specs.Fields.{d};

use std::marker::Model;
use thiserror::Error;
use vm_values::ByteValued;

/// A user ID in the guest: 4 bytes, little-endian.
#[derive(Clone, Copy, Debug, Default, PartialEq, Eq)]
pub struct GuestUid(pub u32);

impl From<u32> for GuestUid {
    ghost from_gives = { λ n r. r.0 ≡ n };

    fn from(n: u32) -> Self {
        GuestUid(n)
    }
}

impl ByteValued for GuestUid {
    ghost SIZE = { 4 };

    const SIZE: usize = 4;

    ghost fields = { λ x. d x.0 ∷ [] };

    fn put_bytes(&self, out: &mut [u8]) {
        let GuestUid(number) = *self;
        number.put_bytes(out);
    }

    fn get_bytes(bytes: &[u8]) -> Self {
        GuestUid(u32::get_bytes(bytes))
    }

    ghost lawful = { (λ x y. refl, λ x y h. Prim.search rules, Prim.search rules) };
}

/// A group ID in the guest: 4 bytes, little-endian.
#[derive(Clone, Copy, Debug, Default, PartialEq, Eq)]
pub struct GuestGid(pub u32);

impl From<u32> for GuestGid {
    ghost from_gives = { λ n r. r.0 ≡ n };

    fn from(n: u32) -> Self {
        GuestGid(n)
    }
}

impl ByteValued for GuestGid {
    ghost SIZE = { 4 };

    const SIZE: usize = 4;

    ghost fields = { λ x. d x.0 ∷ [] };

    fn put_bytes(&self, out: &mut [u8]) {
        let GuestGid(number) = *self;
        number.put_bytes(out);
    }

    fn get_bytes(bytes: &[u8]) -> Self {
        GuestGid(u32::get_bytes(bytes))
    }

    ghost lawful = { (λ x y. refl, λ x y h. Prim.search rules, Prim.search rules) };
}

/// A user ID on the host.
#[derive(Clone, Copy, Debug, Default, PartialEq, Eq)]
pub struct HostUid(pub u32);

impl From<u32> for HostUid {
    ghost from_gives = { λ n r. r.0 ≡ n };

    fn from(n: u32) -> Self {
        HostUid(n)
    }
}

/// A group ID on the host.
#[derive(Clone, Copy, Debug, Default, PartialEq, Eq)]
pub struct HostGid(pub u32);

impl From<u32> for HostGid {
    ghost from_gives = { λ n r. r.0 ≡ n };

    fn from(n: u32) -> Self {
        HostGid(n)
    }
}

/// An error number (errno(3); Linux include/uapi/asm-generic/errno.h), from 1 to 4095. Constants
/// name the errors that file systems answer.
#[derive(Clone, Copy, Debug, PartialEq, Eq, Error)]
#[error("error number {number}")]
pub struct Errno {
    number: u32,
}

impl Model for Errno {
    ghost Value = { ℕ };

    ghost view = { λ e. e.number };

    ghost invariant = { λ e. (1 ≤ e.number) × (e.number ≤ 4095) };

    ghost inverse = { λ n. record { number = n } };
}

impl Errno {
    /// Operation not permitted.
    pub const EPERM: Errno = Errno { number: 1 };
    /// No such file or directory.
    pub const ENOENT: Errno = Errno { number: 2 };
    /// Interrupted call.
    pub const EINTR: Errno = Errno { number: 4 };
    /// An input or output error.
    pub const EIO: Errno = Errno { number: 5 };
    /// No such device or address; of `lseek(2)`, no data from an offset on.
    pub const ENXIO: Errno = Errno { number: 6 };
    /// A bad file handle.
    pub const EBADF: Errno = Errno { number: 9 };
    /// Try again.
    pub const EAGAIN: Errno = Errno { number: 11 };
    /// Out of memory.
    pub const ENOMEM: Errno = Errno { number: 12 };
    /// Permission denied.
    pub const EACCES: Errno = Errno { number: 13 };
    /// Device or resource busy.
    pub const EBUSY: Errno = Errno { number: 16 };
    /// The file exists.
    pub const EEXIST: Errno = Errno { number: 17 };
    /// A link across file systems.
    pub const EXDEV: Errno = Errno { number: 18 };
    /// No such device.
    pub const ENODEV: Errno = Errno { number: 19 };
    /// Not a directory.
    pub const ENOTDIR: Errno = Errno { number: 20 };
    /// Is a directory.
    pub const EISDIR: Errno = Errno { number: 21 };
    /// An invalid argument.
    pub const EINVAL: Errno = Errno { number: 22 };
    /// Too many open files in the system.
    pub const ENFILE: Errno = Errno { number: 23 };
    /// Too many open files.
    pub const EMFILE: Errno = Errno { number: 24 };
    /// No such ioctl.
    pub const ENOTTY: Errno = Errno { number: 25 };
    /// A program file is busy.
    pub const ETXTBSY: Errno = Errno { number: 26 };
    /// A file too large.
    pub const EFBIG: Errno = Errno { number: 27 };
    /// No space left.
    pub const ENOSPC: Errno = Errno { number: 28 };
    /// An invalid seek.
    pub const ESPIPE: Errno = Errno { number: 29 };
    /// A read-only file system.
    pub const EROFS: Errno = Errno { number: 30 };
    /// Too many links.
    pub const EMLINK: Errno = Errno { number: 31 };
    /// A broken pipe.
    pub const EPIPE: Errno = Errno { number: 32 };
    /// A buffer too small, or a result out of range.
    pub const ERANGE: Errno = Errno { number: 34 };
    /// A deadlock was avoided.
    pub const EDEADLK: Errno = Errno { number: 35 };
    /// A name too long.
    pub const ENAMETOOLONG: Errno = Errno { number: 36 };
    /// No locks available.
    pub const ENOLCK: Errno = Errno { number: 37 };
    /// The call isn't implemented.
    pub const ENOSYS: Errno = Errno { number: 38 };
    /// A directory that isn't empty.
    pub const ENOTEMPTY: Errno = Errno { number: 39 };
    /// Too many symbolic links.
    pub const ELOOP: Errno = Errno { number: 40 };
    /// No such extended attribute.
    pub const ENODATA: Errno = Errno { number: 61 };
    /// A protocol error.
    pub const EPROTO: Errno = Errno { number: 71 };
    /// A value too large for its type.
    pub const EOVERFLOW: Errno = Errno { number: 75 };
    /// An operation that isn't supported.
    pub const EOPNOTSUPP: Errno = Errno { number: 95 };
    /// A call that timed out.
    pub const ETIMEDOUT: Errno = Errno { number: 110 };
    /// A stale file handle.
    pub const ESTALE: Errno = Errno { number: 116 };
    /// Disk quota exceeded.
    pub const EDQUOT: Errno = Errno { number: 122 };

    /// The error with this number. None unless the number is from 1 to 4095.
    pub fn new(number: u32) -> Option<Errno>
        ensures some { IsSome result ↔ ((1 ≤ number) × (number ≤ 4095)) }
        ensures value { IfSome result (λ e. e ≡ number) }
    {
        if 1 <= number && number <= 4095 {
            Some(Errno { number })
        } else {
            None
        }
    }

    /// The error's number, from 1 to 4095.
    pub fn raw(self) -> u32
        ensures number { result ≡ self }
        ensures range { (1 ≤ result) × (result ≤ 4095) }
    {
        self.number
    }
}

// The named errors have the numbers of errno.h.
const _: () = prove!(Errno::EPERM.number == 1);

const _: () = prove!(Errno::ENOENT.number == 2);

const _: () = prove!(Errno::EINTR.number == 4);

const _: () = prove!(Errno::EIO.number == 5);

const _: () = prove!(Errno::ENXIO.number == 6);

const _: () = prove!(Errno::EBADF.number == 9);

const _: () = prove!(Errno::EAGAIN.number == 11);

const _: () = prove!(Errno::ENOMEM.number == 12);

const _: () = prove!(Errno::EACCES.number == 13);

const _: () = prove!(Errno::EBUSY.number == 16);

const _: () = prove!(Errno::EEXIST.number == 17);

const _: () = prove!(Errno::EXDEV.number == 18);

const _: () = prove!(Errno::ENODEV.number == 19);

const _: () = prove!(Errno::ENOTDIR.number == 20);

const _: () = prove!(Errno::EISDIR.number == 21);

const _: () = prove!(Errno::EINVAL.number == 22);

const _: () = prove!(Errno::ENFILE.number == 23);

const _: () = prove!(Errno::EMFILE.number == 24);

const _: () = prove!(Errno::ENOTTY.number == 25);

const _: () = prove!(Errno::ETXTBSY.number == 26);

const _: () = prove!(Errno::EFBIG.number == 27);

const _: () = prove!(Errno::ENOSPC.number == 28);

const _: () = prove!(Errno::ESPIPE.number == 29);

const _: () = prove!(Errno::EROFS.number == 30);

const _: () = prove!(Errno::EMLINK.number == 31);

const _: () = prove!(Errno::EPIPE.number == 32);

const _: () = prove!(Errno::ERANGE.number == 34);

const _: () = prove!(Errno::EDEADLK.number == 35);

const _: () = prove!(Errno::ENAMETOOLONG.number == 36);

const _: () = prove!(Errno::ENOLCK.number == 37);

const _: () = prove!(Errno::ENOSYS.number == 38);

const _: () = prove!(Errno::ENOTEMPTY.number == 39);

const _: () = prove!(Errno::ELOOP.number == 40);

const _: () = prove!(Errno::ENODATA.number == 61);

const _: () = prove!(Errno::EPROTO.number == 71);

const _: () = prove!(Errno::EOVERFLOW.number == 75);

const _: () = prove!(Errno::EOPNOTSUPP.number == 95);

const _: () = prove!(Errno::ETIMEDOUT.number == 110);

const _: () = prove!(Errno::ESTALE.number == 116);

const _: () = prove!(Errno::EDQUOT.number == 122);
