//! Callers of the theorems on walks: over a chain of two descriptors, by its loads.

ghost use Rattle.std.specs.Prelude.{◌≡◌, ℕ, ◌+◌, ◌<◌, ◌≤◌, [], ◌∷◌};
ghost use Rattle.std.specs.Prelude.{◌++◌, flat_map, length, List, Option, Some, zip};
ghost use Rattle.vm_memory.specs.Memory.{Memory};
ghost use Rattle.fs_queue.specs.AnyLoads.{IsReadIn, OneForEach, ahead_of_head, loads_by};
ghost use Rattle.fs_queue.specs.Chain.{Found, IsChain, Visit, chain, entry_address, first_visit, path, walk};
ghost use Rattle.fs_queue.specs.Loads.{AreEntriesOf, Load, chain_by, chain_exactly, found_in_turn};
ghost use Rattle.fs_queue.specs.Loads.{RingStill, ahead_at};
ghost use Rattle.fs_queue.specs.OfferLoads.{AreLoadsOf, HasLoads, SameReach, offer_by};
ghost use Rattle.fs_queue.specs.Paths.{ComesTo, Follows, IsFront, IsPath};
ghost use Rattle.fs_queue.specs.Returning.{stores_after_reply, writes, writes_of};
ghost use Rattle.fs_queue.specs.Taking.{Offer, offer};
ghost use Rattle.plain_machine.specs.Examples.{blank, queue, with_one_request};
ghost use Rattle.law_callers.specs.Worked.{first_load, second_step, two_descriptors, unknown_loads, visit_at};

use fs_queue::laws::{law_any_loads, law_loads, law_paths, law_returns, law_walks_end};

/// Any greater bound gives the walk through the chain.
pub fn bound_a_walk()
    ensures { (n : ℕ)
        → 6 ≤ n
        → path with_one_request 4 n (first_visit queue 0) ≡ walk with_one_request queue 0 }
{
    law_walks_end();
}

/// The walk through the chain is a path of which the first step is a front, nothing follows its second step,
/// and it comes to the two descriptors.
pub fn follow_a_path()
    ensures path { IsPath with_one_request queue 0 (walk with_one_request queue 0) }
    ensures front { IsFront (first_visit queue 0 ∷ []) (walk with_one_request queue 0) }
    ensures ends { (next : Visit) → Follows with_one_request queue second_step next → ⊥ }
    ensures finds { ComesTo with_one_request queue (walk with_one_request queue 0) (IsChain two_descriptors) }
{
    law_paths();
}

/// The chain by its two loads: another memory with these loads has the same chain, more loads change nothing,
/// and the first load can be completed. The queue's offer has loads, too, which give the same offer.
pub fn load_a_chain()
    ensures still { IsChain two_descriptors ≡ chain with_one_request queue 0 }
    ensures confined { (n : Memory)
        → AreEntriesOf n unknown_loads.entries
        → chain with_one_request queue 0 ≡ chain n queue 0 }
    ensures in_turn { found_in_turn 4 (with_one_request ∷ with_one_request ∷ [])
        (ahead_at 4 (first_visit queue 0)) ≡ Some (IsChain two_descriptors) }
    ensures rest { (more : List Load)
        → chain_by (unknown_loads.entries ++ more) queue 0 ≡ Some (IsChain two_descriptors) }
    ensures cut_off { (more : List Load)
        × AreEntriesOf with_one_request more
        × (chain_exactly ((first_load ∷ []) ++ more) queue 0 ≡ Some (chain with_one_request queue 0)) }
    ensures finds { (m : Memory) → (ls : List Load)
        × AreEntriesOf m ls
        × (chain_exactly ls queue 0 ≡ Some (chain m queue 0)) }
    ensures offer { (m : Memory) (h : HasLoads m 0x101000 queue) (o : Offer)
        → offer_by m 0x101000 queue h.index h.entry h.entries h.request ≡ Some o
        → o ≡ offer m 0x101000 queue }
    ensures offers { (m : Memory) → HasLoads m 0x101000 queue }
    ensures ring { RingStill with_one_request queue unknown_loads.index unknown_loads.entry }
    ensures places { (index entry : Option (List ℕ)) (request : List ℕ)
        → offer_by with_one_request 0x101000 queue index entry unknown_loads.entries request
        ≡ offer_by blank 0x101000 queue index entry unknown_loads.entries request }
    ensures offers_confined { (m n : Memory) (h : HasLoads m 0x101000 queue)
        → SameReach m n queue h.entries
        → AreLoadsOf n queue h.index h.entry h.entries h.request
        → offer m 0x101000 queue ≡ offer n 0x101000 queue }
{
    law_loads();
}

/// The writes of a chain's return, whatever its reply and its reply buffer are.
pub fn store_a_return()
    ensures { (room reply : List ℕ) → writes queue 0 room reply
        ≡ zip room reply ++ flat_map writes_of (stores_after_reply queue 0 (length reply)) }
{
    law_returns();
}

/// A walk from a queue's head makes six loads at most, and its chain follows from its two loads, each made
/// once.
pub fn load_anything()
    ensures few { (came : List (Option (List ℕ))) → length (loads_by 4 came (ahead_of_head queue 0)) ≤ 6 }
    ensures end { (came : List (Option (List ℕ)))
        → 6 ≤ length came
        → (f : Found) × (chain_by (loads_by 4 came (ahead_of_head queue 0)) queue 0 ≡ Some f) }
    ensures read { IsReadIn 4 unknown_loads.entries (first_visit queue 0) (IsChain two_descriptors) }
    ensures apart { (i j : ℕ)
        → entry_address (visit_at i) < entry_address (visit_at j) + 16
        → entry_address (visit_at j) < entry_address (visit_at i) + 16
        → i ≡ j }
    ensures once { OneForEach 4 unknown_loads.entries (ahead_of_head queue 0) }
{
    law_loads();
    law_any_loads();
}
