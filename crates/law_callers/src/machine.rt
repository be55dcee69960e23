//! Callers of the theorems on runs of the plain machine.

ghost use Rattle.std.specs.Prelude.{◌↔◌, ℕ, true, [], ◌∷◌, List, length};
ghost use Rattle.std.specs.List.{AllByRecursion, Contains};
ghost use Rattle.std.specs.Prelude.{flat_map};
ghost use Rattle.fs_queue.specs.Queue.{Queue};
ghost use Rattle.fs_queue.specs.Returning.{writes_of};
ghost use Rattle.fs_queue.specs.Taking.{room_of};
ghost use Rattle.fuse_fs.specs.Calls.{Done, FileRun, Forget};
ghost use Rattle.server_meanings.specs.Examples.{nobody};
ghost use Rattle.server_meanings.specs.Serving.{ServedMessage};
ghost use Rattle.vm_memory.specs.Memory.{Memory, addresses, stored_all};
ghost use Rattle.plain_machine.specs.Examples.{queue, request, unknown_exchange, unknown_reply};
ghost use Rattle.plain_machine.specs.Examples.{with_one_request};
ghost use Rattle.plain_machine.specs.MarkedPages.{AnswerMarks, Marks, returned_addresses};
ghost use Rattle.plain_machine.specs.Run.{Answer, Command, RunReported, Turns};
ghost use Rattle.plain_machine.specs.Step.{Calls, Exchanged, ServesRequest, State, Step};
ghost use Rattle.plain_machine.specs.StepBy.{HasEffects, after_stores, return_addresses, stores_among};
ghost use Rattle.plain_machine.specs.UsedLength.{IsOffered, ReportsLength};
ghost use Rattle.fs_device.specs.Books.{IsBalanced};
ghost use Rattle.fs_device.specs.Marks.{SameButMarks, SameEvents};
ghost use Rattle.fs_device.specs.Reporting.{IsServed, calls_of_all};
ghost use Rattle.law_callers.specs.Worked.{forget_turn, forgotten, machine, read_and_harvest, replied};
ghost use Rattle.law_callers.specs.Worked.{unknown_effects, unknown_kick, unknown_offer, unknown_turn};
ghost use Rattle.law_callers.specs.Worked.{unmarked_bytes, written};

use fs_device::laws::{
    law_books, law_calls, law_cuts, law_marked_pages, law_marks, law_steps_by_loads,
    law_used_length,
};
use fuse_fs::FileSystem;

/// The accounts of node 5 balance in each run that begins with its FORGET.
pub fn balance_a_forget<F: FileSystem>()
    ensures { (before after : F)
        → F.may before (Forget nobody 5 3) Done after
        → (events : List (Command × Answer)) (later : List Turns) (end : State F)
        → RunReported F.may (forgotten before after) events later end
        → IsBalanced 5 ((forget_turn ∷ []) ∷ later) }
{
    law_books::<F>();
}

/// The calls of each run that begins with a FORGET are FORGET's and the later ones.
pub fn report_a_forget<F: FileSystem>()
    ensures { (before after : F)
        → F.may before (Forget nobody 5 3) Done after
        → (events : List (Command × Answer)) (later : List Turns) (end : State F)
        → RunReported F.may (forgotten before after) events later end
        → FileRun F.may before ((Forget nobody 5 3, Done) ∷ calls_of_all later) end.files
        × AllByRecursion (AllByRecursion IsServed) ((forget_turn ∷ []) ∷ later) }
{
    law_calls::<F>();
}

/// The used length of a chain with a reply of 16 bytes.
pub fn report_a_length<F: FileSystem>()
    ensures { (files : F)
        → (o : IsOffered (machine with_one_request files) 0 unknown_exchange)
        × ReportsLength with_one_request o.queue 0 (room_of o.fetched) unknown_reply 16
        (replied files).memory }
{
    law_used_length::<F>();
}

/// The pages that two writes mark, that a chain's exchange marks, and that its kick marks.
pub fn mark_pages<F: FileSystem>()
    ensures writes { (m : Memory)
        → Marks m (0x2000 ∷ 0x3000 ∷ []) (stored_all m ((0x2000, 1) ∷ (0x3000, 2) ∷ [])).host }
    ensures step { (files : F)
        → (o : IsOffered (machine with_one_request files) 0 unknown_exchange)
        × Marks with_one_request (returned_addresses o.queue 0 (room_of o.fetched) unknown_reply)
        (replied files).memory.host }
    ensures kick { (files : F)
        → AnswerMarks F.may unknown_kick.1 (machine with_one_request files) unknown_kick.0 (unknown_turn ∷ [])
        (replied files) }
{
    law_marked_pages::<F>();
}

/// A machine none of whose pages is marked makes the run of one that has a marked page.
pub fn run_without_marks<F: FileSystem>()
    ensures { (files : F)
        → (others : List (Command × Answer)) × (end : State F)
        × SameEvents read_and_harvest others
        × RunReported F.may (machine unmarked_bytes files) others ([] ∷ [] ∷ []) end
        × SameButMarks (machine unmarked_bytes files) end }
{
    law_marks::<F>();
}

/// A chain's step has loads and stores, which are a step again, and stores to its reply buffer and the used
/// ring alone.
pub fn step_by_loads<F: FileSystem>()
    ensures has { (files : F)
        → HasEffects F.may (machine with_one_request files) 0 [] (Exchanged unknown_exchange true)
        (replied files) }
    ensures again { (files : F)
        → (h : HasEffects F.may (machine with_one_request files) 0 [] (Exchanged unknown_exchange true)
        (replied files))
        × Step F.may (machine with_one_request files) 0 [] (Exchanged unknown_exchange true)
        (record (replied files) {
          memory = after_stores with_one_request (stores_among h.effects.acts);
        }) }
    ensures there { (files : F) → AllByRecursion
        (λ (w : ℕ × ℕ). Contains (return_addresses queue unknown_offer) w.0)
        (flat_map writes_of (stores_among unknown_effects.acts)) }
{
    law_steps_by_loads::<F>();
}

/// A request in one piece, and the same in two with another reply buffer, are served alike.
pub fn cut_a_request<F: FileSystem>()
    ensures cuts { (page_size options : ℕ) (before after : F) (calls : Calls) (given : ServedMessage)
        → ServesRequest F.may page_size options request (length (addresses 0x2000 16)) before calls
        given after
        ↔ ServesRequest F.may page_size options request (length (addresses 0x2800 16)) before calls
        given after }
    ensures offers { (page_size options : ℕ) (before after : F) (calls : Calls) (given : ServedMessage)
        → ServesRequest F.may page_size options request (length (addresses 0x2000 16)) before calls
        given after
        ↔ ServesRequest F.may page_size options request (length (addresses 0x2800 16)) before calls
        given after }
{
    law_cuts::<F>();
}
