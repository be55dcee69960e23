//! Theorems on the definitions: each is the contract of a function that does nothing.

ghost use Rattle.fs_regions.specs.Laws.{MissesCanBeMapped, OffersAreTheMemorys, ReadOutIsTheMemorys};
ghost use Rattle.fs_regions.specs.Using.{OthersStay};

/// The result of a pop over regions is the queue's offer, in each memory of these regions that has its loads.
pub fn law_offers()
    ensures { OffersAreTheMemorys }
{}

/// A memory that has the bytes of a stretch has each entry that a walk reads out of them.
pub fn law_read_out()
    ensures { ReadOutIsTheMemorys }
{}

/// If a VMM removes or changes mappings of addresses that a chain doesn't use (`uses`), the chain's own
/// mappings stay as they were.
pub fn law_others_stay()
    ensures { OthersStay }
{}

/// A table of whole pages can map the addresses that a pop misses: none of them is in the last page.
pub fn law_misses_can_be_mapped()
    ensures { MissesCanBeMapped }
{}
