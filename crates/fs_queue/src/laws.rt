//! Theorems about the definitions, each the contract of a function that does nothing.

ghost use Rattle.fs_queue.specs.AnyLoads.{FewLoads, LoadsEnd, EndsAreRead, Once, EntriesApart};
ghost use Rattle.fs_queue.specs.Laws.{WalksEnd};
ghost use Rattle.fs_queue.specs.Loads.{Still, Finds, LeavesTheRest, CutOffIsStill, Confined, InTurn};
ghost use Rattle.fs_queue.specs.Loads.{RingIsStill};
ghost use Rattle.fs_queue.specs.OfferLoads.{OfferIsStill, OfferFinds, OnlyPlacesCount, OffersAreConfined};
ghost use Rattle.fs_queue.specs.Returning.{ReturnsByStores};
ghost use Rattle.fs_queue.specs.Paths.{WalksArePaths, PathsAreFronts, NothingFollows, WalksFind};

/// A walk ends within its bound of size + 2 steps.
pub fn law_walks_end()
    ensures { WalksEnd }
{}

/// The walk from a head is the longest path that the standard's words allow (VIRTIO 1.2, 2.7.5 and
/// 2.7.5.3). It finds a chain exactly if each of its steps passes. Else it finds the first fault of its
/// last step, or a stop of the queue.
pub fn law_paths()
    ensures path { WalksArePaths }
    ensures longest { PathsAreFronts }
    ensures ends { NothingFollows }
    ensures finds { WalksFind }
{}

/// A walk by loads that read a memory is the walk in that memory. Each walk has loads of the memory that
/// are exactly those that it asks for. The same holds for the offer of a queue. Besides its loads an
/// offer depends only on whether the addresses of its return and its chain are mapped.
pub fn law_loads()
    ensures still { Still }
    ensures finds { Finds }
    ensures confined { Confined }
    ensures in_turn { InTurn }
    ensures ring { RingIsStill }
    ensures offer { OfferIsStill }
    ensures offer_finds { OfferFinds }
    ensures rest { LeavesTheRest }
    ensures cut_off { CutOffIsStill }
    ensures places { OnlyPlacesCount }
    ensures offers_confined { OffersAreConfined }
{}

/// A return writes the reply and then its stores.
pub fn law_returns()
    ensures { ReturnsByStores }
{}

/// For a guest that writes meanwhile, so that the loads may have any bytes: a walk makes few loads and
/// ends. Each chain, fault and stop follows from the loaded bytes. An entry is loaded again only if the
/// chain visits it again.
pub fn law_any_loads()
    ensures few { FewLoads }
    ensures end { LoadsEnd }
    ensures read { EndsAreRead }
    ensures once { Once }
    ensures apart { EntriesApart }
{}
