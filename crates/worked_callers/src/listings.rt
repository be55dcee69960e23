//! A listing amid which another handle's chain is pushed.

ghost use Rattle.std.specs.Prelude.{◌≡◌, IfOk};
ghost use Rattle.fuse_fs.specs.Answers.{listed};
ghost use Rattle.fs_chain.specs.declared.listing.AddOutcome.TheVariants as added;
ghost use Rattle.worked_callers.specs.AmidListings.{PushesAmid};

use fs_chain::laws::{law_listings, law_together};
use fs_chain::{AddOutcome, ChainError, ChainHandle, QueueState, push_whole};
use fuse_fs::{DirEntry, Entry};

/// Adds an entry to a handle's listing, pushes the chain of another handle, and adds one more entry. The
/// handles are of one run: between the two entries each still has its chain.
pub fn push_amid_listing(
    lister: &mut ChainHandle,
    pusher: &mut ChainHandle,
    queue: &mut QueueState,
    front: &mut [u8],
    seen: [u8; 2],
    list: &mut [u8],
    one: (&DirEntry<'_>, Entry<u64>),
    other: (&DirEntry<'_>, Entry<u64>),
) -> Result<(AddOutcome, bool, AddOutcome), ChainError>
    ensures run { IfOk result (λ r. r.0 ≡ added.In → r.2 ≡ added.In
        → PushesAmid lister.old lister.new pusher.old pusher.new queue.old queue.new list.old list.new
        (listed one.entry.0.now, one.entry.1) (listed other.entry.0.now, other.entry.1) seen r.1) }
{
    law_together();
    law_listings();
    let ticket = lister.ticket();
    let first = lister.add_with_node(ticket, list, one.0, one.1)?;
    let notice = push_whole(pusher, queue, front, seen)?;
    let second = lister.add_with_node(ticket, list, other.0, other.1)?;
    Ok((first, notice, second))
}
