//! Theorems on the reads of a run: each is the contract of a function that does nothing but call
//! another.

ghost use Rattle.fs_confinement.specs.ByLoads.{OffersReadTheirLoads, WalksReadTheirLoads};
ghost use Rattle.fs_confinement.specs.Confinement.{Confinement};

use fuse_fs::FileSystem;

/// Before its calls a step reads just the addresses of its loads. If the loads are those of one memory,
/// a walk's read set is the addresses of its loads, in their order. The read set of an offer is the
/// addresses of the index, the ring's entry, the tables' entries and the request. Each offer has such
/// loads (`fs_queue::laws::law_loads`).
pub fn law_reads_are_loads()
    ensures walks { WalksReadTheirLoads }
    ensures offers { OffersReadTheirLoads }
{}

/// A run doesn't depend on bytes outside its read set, if it has no image and no harvest. Two states
/// that differ only there allow the same run, with the same answers, exchanges, notifications and
/// calls. It reads and writes the same places in both, and they still differ only in bytes that
/// differed before and weren't written.
pub fn law_confinement<F: FileSystem>()
    ensures { Confinement F.may }
{}
