//! INIT and DESTROY: the start and the end of a session.

ghost use Rattle.std.specs.Prelude.{IsTrue, refl};
ghost use Rattle.fuse_fs.specs.Calls as call;
ghost use Rattle.fuse_fs.specs.Answers.{options_answer};
ghost use Rattle.fuse_fs.specs.Calls.{suits, Init};

use crate::received::received;
use crate::values::PlainValue;
use bitflags::Flags;
use fuse_fs::FileSystem;
use fuse_in::InHeader;
use fuse_values::FileCall;
use fuse_wire::{Errno, FsOptions};

/// DESTROY: ends the session.
pub struct Destroy;

impl PlainValue for Destroy {
    ghost call = { λ h. call.Destroy };

    ghost shows = { λ h. (refl, (refl, tt)) };

    fn value<'a>(head: &InHeader) -> FileCall<'a> {
        FileCall::Destroy
    }
}

/// INIT (`struct fuse_init_in`): passes `capable`, the options of client and server, to the file
/// system. Returns the options that it wants, or its errno, from 1 to 4095.
pub fn make_init_call<F: FileSystem>(fs: &mut F, capable: FsOptions) -> Result<FsOptions, Errno>
    ensures may { F.may fs.old (Init capable.0) (options_answer result) fs.new }
    ensures suits { IsTrue (suits (Init capable.0) (options_answer result)) }
{
    match received(fs.init(capable)) {
        Ok(wanted) => {
            // for the proof: options fit 64 bits.
            let _bits = wanted.bits();
            Ok(wanted)
        }
        Err(error) => Err(error),
    }
}
