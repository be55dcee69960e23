//! The options of a session.

ghost use Rattle.std.specs.Prelude.{◌≡◌, bit_and};
ghost use Rattle.server_meanings.specs.Grammar.{known_options};
ghost use Rattle.server_meanings.specs.Serving.{agreed};

use bitflags::Flags;
use fuse_wire::FsOptions;

/// The known options among these bits.
#[tactic(auto, using(crate::proofs::Options::known_bits_are, crate::proofs::Options::known_twice))]
pub fn known(bits: u64) -> FsOptions
    ensures options { result.0 ≡ bit_and bits known_options }
    ensures known { bit_and result.0 known_options ≡ result.0 }
{
    FsOptions::from_bits_truncate(bits)
}

/// The agreed options: those of `capable` that the file system wants, or that are agreed by default.
#[tactic(auto, using(crate::proofs::Options::some_known))]
pub fn agree(capable: FsOptions, wanted: FsOptions) -> FsOptions
    requires { bit_and capable.0 known_options ≡ capable.0 }
    ensures options { result.0 ≡ agreed capable.0 wanted.0 }
    ensures known { bit_and result.0 known_options ≡ result.0 }
{
    capable & (wanted | FsOptions::DEFAULT)
}
