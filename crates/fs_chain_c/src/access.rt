//! The numbers of accesses, as those of linux/vhost_types.h.

ghost use Rattle.std.specs.Prelude.{◌≡◌};
ghost use Rattle.fs_chain_c.specs.Iotlbs.{access_number, access_of};

use vm_memory_core::Permissions;

/// The number of an access.
pub fn access_number(access: Permissions) -> u32
    ensures { result ≡ access_number access }
{
    match access {
        Permissions::No => 0,
        Permissions::Read => 1,
        Permissions::Write => 2,
        Permissions::ReadWrite => 3,
    }
}

/// The access of a number; None if it isn't an access's.
pub fn access_of(number: u32) -> Option<Permissions>
    ensures { result ≡ access_of number }
{
    match number {
        0 => Some(Permissions::No),
        1 => Some(Permissions::Read),
        2 => Some(Permissions::Write),
        3 => Some(Permissions::ReadWrite),
        _ => None,
    }
}
