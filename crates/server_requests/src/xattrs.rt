//! The record of SETXATTR, which has two lengths.

ghost use Rattle.std.specs.Prelude.{◌≡◌};
ghost use Rattle.vm_values.specs.Bits.{has_bit};
ghost use Rattle.server_requests.specs.Fronts.{without_flags};

use bitflags::Flags;
use fuse_in::{SetxattrIn, SetxattrInCompat};
use fuse_wire::FsOptions;

// Whether SETXATTR has its longer record (FUSE_SETXATTR_EXT).
pub(crate) fn has_setxattr_ext(options: FsOptions) -> bool
    ensures { result ≡ has_bit options.0 29 }
{
    (options & FsOptions::SETXATTR_EXT).bits() != 0
}

// The longer record for a client that sends the shorter one: its further flags are 0.
pub(crate) fn with_no_flags(request: &SetxattrInCompat) -> SetxattrIn
    ensures { result ≡ without_flags request.now }
{
    SetxattrIn {
        size: request.size,
        flags: request.flags,
        setxattr_flags: 0,
        padding: 0,
    }
}
