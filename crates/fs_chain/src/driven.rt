//! Calls of a handle one behind another: their theorems compose, without a law.

ghost use Rattle.std.specs.Prelude.{IfOk};
ghost use Rattle.fs_chain.specs.Holds.{EndsPushInRun};

use crate::chain_handle::ChainHandle;
use crate::error::ChainError;
use crate::queue::QueueState;

/// Pushes a chain whose reply is known, in two calls: the event `PushesChain`.
#[tactic(auto, using(crate::proofs::HoldsDriven::whole_push))]
pub fn push_whole(
    handle: &mut ChainHandle,
    queue: &mut QueueState,
    front: &mut [u8],
    seen: [u8; 2],
) -> Result<bool, ChainError>
    ensures step { IfOk result (λ notice. EndsPushInRun handle.old queue.old queue.new seen notice) }
{
    let _stores = handle.push(queue, front)?;
    handle.pushed(queue, seen)
}
