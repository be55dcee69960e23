//! An event twice: for its entry in the journal and for its receipt.

ghost use Rattle.std.specs.Prelude.{◌≡◌, ◌<◌, ◌+◌, ◌++◌, ◌∷◌, [], true, length, vec_len, vec_capacity};
ghost use Rattle.fs_shared.specs.Portion.{counted};
ghost use Rattle.fs_device.specs.CommandView.{command_of};
ghost use Rattle.fs_shared.specs.Held.{came_of, journal_of};

use crate::entry::{JournalEntry, Outcome, Receipt};
use crate::share::Share;
use crate::state::append;
use fs_device::Command;
use fuse_wire::FsOptions;
use std::sync::ledger::{Book, Ledger};

/// A call's command, its outcome, and the pages that it wrote.
#[derive(Drop)]
pub(crate) struct Event {
    pub command: Command,
    pub outcome: Outcome,
    pub pages: Vec<usize>,
}

/// The event of a call, for its entry in the journal and again for its receipt.
#[derive(Drop)]
pub(crate) struct Recorded {
    pub entry: Event,
    pub receipt: Event,
}

/// Adds a call's entry to the journal, with the options after the call, and returns the receipt. The journal
/// has spare capacity.
pub(crate) fn journal_recorded<L: Ledger>(
    journal: &mut Vec<JournalEntry>,
    calls: &mut Book<L>,
    share: &mut Share<L>,
    options: FsOptions,
    recorded: Recorded,
) -> Receipt
    requires { vec_len journal.old < vec_capacity journal.old }
    ensures journal { journal_of journal.new.items ≡ journal_of journal.old.items ++ record {
      command = command_of recorded.entry.command;
      outcome = came_of recorded.entry.outcome;
      options = options.0;
      pages = recorded.entry.pages.items;
    } ∷ [] }
    ensures len { vec_len journal.new ≡ vec_len journal.old + 1 }
    ensures total { calls.new.total ≡ calls.old.total + 1 }
    ensures share { share.new ≡ counted share.old true }
    ensures number { result.number ≡ length (journal_of journal.old.items) }
    ensures command { result.command ≡ recorded.receipt.command }
    ensures outcome { result.outcome ≡ recorded.receipt.outcome }
    ensures pages { result.pages.items ≡ recorded.receipt.pages.items }
{
    let Recorded { entry, receipt } = recorded;
    let entry = JournalEntry {
        command: entry.command,
        outcome: entry.outcome,
        options,
        pages: entry.pages,
    };
    let number = append(journal, calls, share, entry);
    Receipt {
        number,
        command: receipt.command,
        outcome: receipt.outcome,
        pages: receipt.pages,
    }
}
