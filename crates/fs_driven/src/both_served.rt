//! The worked run of two chains in flight: each pop is served.

ghost use Rattle.std.specs.Prelude.{◌≡◌, [], List};
ghost use Rattle.fuse_fs.specs.Calls.{Destroy, Done};
ghost use Rattle.live_machine.specs.Live.{LiveEvent, LiveRun};
ghost use Rattle.live_machine.specs.Overlap.{at_positions, state};
ghost use Rattle.fs_driven.specs.Served.{any_end, pops_on, pushes_on};

use crate::laws::law_served;
use fuse_fs::FileSystem;
use live_machine::law_examples;

/// Both pops of the run find a chain, and both chains are pushed.
pub fn serve_both<F: FileSystem>()
    ensures { (before after : F)
        → F.may before Destroy Done after
        → (es : List LiveEvent)
        × LiveRun F.may (state before (at_positions 0 0) 1 []) es (state after (at_positions 2 2) 0 [])
        × (pops_on any_end 0 es ≡ 2)
        × (pushes_on 0 es ≡ 2) }
{
    law_examples::<F>();
    law_served::<F>();
}
