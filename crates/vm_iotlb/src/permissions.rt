//! The permissions of addresses and accesses.

ghost use Rattle.std.specs.Prelude.{◌≡◌};
ghost use Rattle.vm_iotlb.specs.Table.{HasEither, HasShared, allows, can_read, can_write};

use std::ops::{BitAnd, BitOr};

/// The accesses that an address allows, or those that a caller asks for (vm-memory's `Permissions`).
#[derive(Clone, Copy, Debug, PartialEq, Eq)]
pub enum Permissions {
    /// Neither reading nor writing.
    No,
    /// Reading alone.
    Read,
    /// Writing alone.
    Write,
    /// Reading and writing.
    ReadWrite,
}

impl Permissions {
    // The permission with reading if `read`, and with writing if `write`.
    fn of(read: bool, write: bool) -> Permissions
        ensures read { can_read result ≡ read }
        ensures write { can_write result ≡ write }
    {
        match (read, write) {
            (false, false) => Permissions::No,
            (true, false) => Permissions::Read,
            (false, true) => Permissions::Write,
            (true, true) => Permissions::ReadWrite,
        }
    }

    // Whether it allows reading.
    fn has_read(&self) -> bool
        ensures { result ≡ can_read self.now }
    {
        match self {
            Permissions::Read | Permissions::ReadWrite => true,
            Permissions::No | Permissions::Write => false,
        }
    }

    /// Whether it allows writing (vm-memory's `Permissions::has_write`).
    pub fn has_write(&self) -> bool
        ensures { result ≡ can_write self.now }
    {
        match self {
            Permissions::Write | Permissions::ReadWrite => true,
            Permissions::No | Permissions::Read => false,
        }
    }

    /// Whether it allows all accesses of `access` (vm-memory's `Permissions::allow`).
    pub fn allow(&self, access: Permissions) -> bool
        ensures { result ≡ allows self.now access }
    {
        (self.has_read() || !access.has_read()) && (self.has_write() || !access.has_write())
    }
}

impl BitOr for Permissions {
    type Output = Permissions;

    ghost bitor_gives = { HasEither };

    fn bitor(self, other: Permissions) -> Permissions {
        Permissions::of(
            self.has_read() || other.has_read(),
            self.has_write() || other.has_write(),
        )
    }
}

impl BitAnd for Permissions {
    type Output = Permissions;

    ghost bitand_gives = { HasShared };

    fn bitand(self, other: Permissions) -> Permissions {
        Permissions::of(
            self.has_read() && other.has_read(),
            self.has_write() && other.has_write(),
        )
    }
}
