//! Theorems about the definitions, as contracts of functions that do nothing.

ghost use Rattle.fs_chain.specs.Filling.{HandleFillsBuffer, HandleFillsRange};
ghost use Rattle.fs_chain.specs.Held.{AskedIsMapped, HeldIsUnreplied, LoadsAreFew, LoadsCount};
ghost use Rattle.fs_chain.specs.HoldsListings.{BeginsListing, GathersDecoded, LeavesOut, ListingIsHeld};
ghost use Rattle.fs_chain.specs.HoldsListings.{LooksUpEntries, ReadsDirectory};
ghost use Rattle.fs_chain.specs.Laws.{WalksAreOffers};
ghost use Rattle.fs_chain.specs.Moves.{HandleMovesDevice};
ghost use Rattle.fs_chain.specs.Tickets.{TicketsDiffer};
ghost use Rattle.fs_chain.specs.Together.{FindsOwn, JoinsOthers, KeepsOthers, LeavesOthers};

use fs_regions::laws::law_offers;
use fuse_fs::FileSystem;

/// The result of a pop that ended is the offer of each memory that has all its loads in the run's mappings:
/// no chain, a refusal, or the chain, with its fault or with its request and the addresses of its reply
/// buffer. `pop` ensures how a pop ends (`step`). Only one refusal is the pop's own: used_event or
/// avail_event isn't mapped.
pub fn law_walks()
    ensures { WalksAreOffers }
{
    law_offers();
}

/// Several handles of one run. A call of one of them, by which it keeps, gets or loses its chain, leaves the
/// others what they hold.
pub fn law_together()
    ensures finds { FindsOwn }
    ensures keeps { KeepsOthers }
    ensures leaves { LeavesOthers }
    ensures joins { JoinsOthers }
{}

/// What a handle holds of a run. Its pop has at most size + 4 loads, each of mapped addresses. A chain
/// without a reply may be given its caller's own bytes.
pub fn law_held()
    ensures few { LoadsAreFew }
    ensures count { LoadsCount }
    ensures mapped { AskedIsMapped }
    ensures unreplied { HeldIsUnreplied }
{}

/// The number with which an answer names its chain (`ChainHandle::ticket`). Of 2^32 successive chains of a
/// handle no two have the same one, as long as the caller chooses none (`number_from`).
pub fn law_tickets()
    ensures { TicketsDiffer }
{}

/// A handle that decoded a request for a listing gathers it, and holds its chain until the end. Each file
/// call is answered without the handle, which holds the same afterwards: the reading of the directory, the
/// look-ups of its entries, and the FORGET of an entry that isn't added.
pub fn law_listings()
    ensures begins { BeginsListing }
    ensures decoded { GathersDecoded }
    ensures held { ListingIsHeld }
    ensures reads { ReadsDirectory }
    ensures looks_up { LooksUpEntries }
    ensures leaves_out { LeavesOut }
{}

/// These are events of a run between the calls of its handles, while the guest writes and any other chains
/// are in flight:
/// - storing data in the windows, or the ranges, of a reply buffer. A window is found by the mappings of its
///   chain's pop
/// - while no chain is in flight, a record that is made here and read elsewhere
pub fn law_handles<F: FileSystem>()
    ensures fills_buffer { HandleFillsBuffer F.may }
    ensures fills_range { HandleFillsRange F.may }
    ensures moves_device { HandleMovesDevice F.may }
{}
