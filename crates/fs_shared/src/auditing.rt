//! Whether receipts match a journal: one receipt for each entry, with the entry's content.

ghost use Rattle.std.specs.Prelude.{◌≡◌, ◌↔◌, ◌<◌, ℕ, IsTrue, All, length};
ghost use Rattle.fs_shared.specs.Audit.{AreAllReceipts, MatchesJournal, IsReceiptOf, times};

use crate::entry::{JournalEntry, Receipt};
use crate::same_command::same_command;
use crate::same_outcome::same_outcome;

// Whether a receipt has an entry's command, outcome and pages.
fn reports(entry: &JournalEntry, receipt: &Receipt) -> bool
    ensures { IsTrue result ↔ IsReceiptOf entry.now receipt.now }
{
    same_command(&entry.command, &receipt.command)
        && same_outcome(&entry.outcome, &receipt.outcome)
        && receipt.pages.as_slice() == entry.pages.as_slice()
}

// Whether a receipt matches the entry of its number.
fn matches_journal(journal: &[JournalEntry], receipt: &Receipt) -> bool
    ensures { IsTrue result ↔ MatchesJournal journal.now receipt.now }
{
    match journal.get(receipt.number) {
        Some(entry) => reports(entry, receipt),
        None => false,
    }
}

// How many receipts have this number.
fn times(receipts: &[Receipt], number: usize) -> usize
    ensures { result ≡ times number receipts.now }
{
    let mut count = 0;
    for receipt in receipts {
        if receipt.number == number {
            count += 1;
        }
    }
    count
}

// Whether each receipt matches the entry of its number.
fn all_match(journal: &[JournalEntry], receipts: &[Receipt]) -> bool
    ensures { IsTrue result ↔ All (MatchesJournal journal.now) receipts.now }
{
    for receipt in receipts {
        if !matches_journal(journal, receipt) {
            return false;
        }
    }
    true
}

// Whether the receipts have the numbers 0, 1 and so on, in this order.
fn ascend(receipts: &[Receipt]) -> bool
    ensures { IsTrue result → (number : ℕ) → number < length receipts.now → times number receipts.now ≡ 1 }
{
    let mut next = 0;
    for receipt in receipts {
        if receipt.number != next {
            return false;
        }
        next += 1;
    }
    true
}

// Whether each number below `count` is the number of exactly one receipt. Passes the list once if the numbers
// ascend from 0, and otherwise once for each number.
fn each_once(count: usize, receipts: &[Receipt]) -> bool
    ensures { IsTrue result ↔ ((number : ℕ) → number < count → times number receipts.now ≡ 1) }
{
    if receipts.len() == count && ascend(receipts) {
        return true;
    }
    for number in 0..count {
        if times(receipts, number) != 1 {
            return false;
        }
    }
    true
}

/// Whether the receipts match the journal: each entry's number belongs to exactly one receipt, which has the
/// entry's command, outcome and pages. Two layouts are compared by the base, length and block of each region.
/// Allocates no memory. Passes receipts that are in the order of their numbers once, and others once for each
/// entry.
///
/// A contract of `SharedDevice` can't name the state under the lock. So this function finds at run time a
/// receipt without an entry, an entry without a receipt, and a receipt of another call. It doesn't find a
/// kick that returned `Idle` while a chain was available, nor a guest read with invented bytes. The journal
/// has no entry for either; the contracts of `SharedState` exclude both.
pub fn audit(journal: &[JournalEntry], receipts: &[Receipt]) -> bool
    ensures { IsTrue result ↔ AreAllReceipts journal.now receipts.now }
{
    all_match(journal, receipts) && each_once(journal.len(), receipts)
}
