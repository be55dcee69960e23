//! Theorems about the definitions, each the contract of a function that does nothing.

ghost use Rattle.fs_shared.specs.JournalPages.{JournalsSplit, JournalsTellPages};
ghost use Rattle.fs_shared.specs.Laws.{ActsReplay, CallsKeepMarks, CallsKeepSince, CallsMark, CallsMarkSince};
ghost use Rattle.fs_shared.specs.Laws.{EarlierAsksNothing, EventsForget};
ghost use Rattle.fs_shared.specs.Laws.{GathersKeepSince, HalvesAreWhole, JoinsGiveBack, JoinsKeepMarks};
ghost use Rattle.fs_shared.specs.Laws.{JoinsKeepSince, KicksReplay};
ghost use Rattle.fs_shared.specs.Laws.{MeetsKeepMarks, MeetsKeepSince, StepsForget};

use fuse_fs::FileSystem;

/// A journal replays without the file system. Each step of a device, and each event, is also one of the state
/// without the file system, with the same file calls, answers, outcome and pages. There a call may get any
/// answer that suits it.
pub fn law_forgets<F: FileSystem>()
    ensures steps { StepsForget F.may }
    ensures events { EventsForget F.may }
{}

/// Every call that meets a shared device's contracts keeps the invariant of the journal: it replays from its
/// start to the machine's state. A journaled call adds one entry. Any other call changes nothing.
pub fn law_replays<F: FileSystem>()
    ensures kicks { KicksReplay F.may }
    ensures acts { ActsReplay F.may }
{}

/// If a journal replays, the page of each byte that differs between the two hosts is among the entries'
/// pages, with the IOMMU on or off. Any first entries of it replay to a state from which the others replay.
pub fn law_journal_pages()
    ensures pages { JournalsTellPages }
    ensures split { JournalsSplit }
{}

/// The share of a call has marked the pages of the call's receipt. They stay marked in later calls, when the
/// share is joined with another, and when it meets a harvest.
pub fn law_marks_stay()
    ensures calls { CallsMark }
    ensures later { CallsKeepMarks }
    ensures joins { JoinsKeepMarks }
    ensures meets { MeetsKeepMarks }
{}

/// A share that meets the harvest after a gather has seen the gather's clears (`SharedDevice::meet`). The
/// pages of its later receipts are then marked since that gather. They stay so in later calls, when the share
/// is joined with another or meets the harvest again, and when another word is gathered. A receipt of an
/// earlier entry needs no mark. A page that was marked since the last gather of its word is set in the words
/// that are left (`SharedDevice::into_parts_and_pages`).
pub fn law_marks_since()
    ensures calls { CallsMarkSince }
    ensures later { CallsKeepSince }
    ensures earlier { EarlierAsksNothing }
    ensures joins { JoinsKeepSince }
    ensures meets { MeetsKeepSince }
    ensures gathers { GathersKeepSince }
{}

/// Once each share that was split off is joined back, share and harvest have every part of the passes. The
/// contract of `SharedDevice::into_parts_and_pages` supposes this. Calls in between change counts, and no
/// parts.
pub fn law_passes_are_whole()
    ensures joins { JoinsGiveBack }
    ensures whole { HalvesAreWhole }
{}
