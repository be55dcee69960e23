//! Callers of the theorems on what a run reads.

ghost use Rattle.std.specs.Prelude.{◌≡◌, ◌++◌, [], ◌∷◌};
ghost use Rattle.vm_memory.specs.Memory.{Memory};
ghost use Rattle.fs_queue.specs.OfferLoads.{HasLoads};
ghost use Rattle.fs_queue.specs.Queue.{avail_index_at, ring_entry_at};
ghost use Rattle.fs_queue.specs.Taking.{offer};
ghost use Rattle.plain_machine.specs.Examples.{queue, with_one_request};
ghost use Rattle.plain_machine.specs.Run.{RunReported};
ghost use Rattle.fs_confinement.specs.ByLoads.{all_came, came_at, request_came};
ghost use Rattle.fs_confinement.specs.Confinement.{AllowsToo};
ghost use Rattle.fs_confinement.specs.ReadSet.{offer_reads, walk_reads};
ghost use Rattle.law_callers.specs.Worked.{machine, one_read, tiny, unknown_loads};

use fs_confinement::laws::{law_confinement, law_reads_are_loads};
use fuse_fs::FileSystem;

/// The walk through a chain reads the entries of its two descriptors, and each offer of the queue reads the
/// addresses of its loads.
pub fn read_loads()
    ensures walk { walk_reads with_one_request queue 0 ≡ all_came unknown_loads.entries }
    ensures offers { (m : Memory) (h : HasLoads m 0x101000 queue)
        → offer_reads m 0x101000 queue
        ≡ came_at (avail_index_at queue) h.index ++ came_at (ring_entry_at queue) h.entry
        ++ all_came h.entries ++ request_came queue h.entries h.request (offer m 0x101000 queue) }
{
    law_reads_are_loads();
}

/// The guest reads a byte. The same read is a run over a machine whose next byte is another one.
pub fn confine_a_read<F: FileSystem>()
    ensures { (files : F)
        → (ran : RunReported F.may (machine (tiny 7) files) one_read ([] ∷ []) (machine (tiny 7) files))
        × AllowsToo F.may (machine (tiny 7) files) (machine (tiny 9) files) (machine (tiny 7) files) one_read
        ([] ∷ []) ran }
{
    law_confinement::<F>();
}
