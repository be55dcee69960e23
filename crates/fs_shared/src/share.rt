//! A thread's share of a device.

ghost use Rattle.std.specs.Prelude.{◌≡◌, ℕ, ◌+◌, ◌<◌, ◌/◌, ◌^◌, ◌==◌, true, IfSome, IfNone};
ghost use Rattle.vm_atomic_bitmaps.specs.Counts.{met_with};
ghost use Rattle.vm_atomic_bitmaps.specs.Passes.{IsPassOf, counting};

use std::marker::Model;
use std::sync::ledger;
use std::sync::ledger::{Book, Ledger};
use vm_atomic_bitmaps::{AtomicBitmap, BitmapPass};

/// At least one of a device's parts (`std::sync::ledger`), the number of calls that were journaled with them,
/// and a pass of the device's bitmap. With this pass the pages that those calls wrote were marked.
#[derive(Drop)]
pub struct Share<L: Ledger> {
    parts: u64,
    // Modulo 2^64: without the book nothing bounds the sum of two counts.
    count: u64,
    token: ledger::Share<L>,
    pass: BitmapPass,
}

impl<L: Ledger> Model for Share<L> {
    ghost use Rattle.std.specs.Prelude.{◌≡◌, ◌<◌, ◌%◌, ◌^◌};
    ghost use Rattle.fs_shared.specs.Portion.{Portion};

    ghost Value = { Portion };

    ghost view = { λ s. record { parts = s.token.parts; count = s.token.amount; pass = s.pass } };

    ghost invariant = { λ s. (s.token.parts ≡ s.parts)
        × (s.count ≡ s.token.amount % (2 ^ 64))
        × (0 < s.parts)
        × (L.parts < 2 ^ 64) };
}

ghost use Rattle.fs_shared.specs.Portion.{HasSeen, HasSeenItsOwn, IsShareOf, MarksPages, Portion, counted};
ghost use Rattle.fs_shared.specs.Portion.{joined, recorded_pass, new_pass};

impl<L: Ledger> Share<L> {
    /// A share of `parts` parts of a ledger with a pass of the device's bitmap. Its token has counted nothing
    /// yet.
    pub fn new(parts: u64, token: ledger::Share<L>, pass: BitmapPass) -> Share<L>
        requires parts { token.parts ≡ parts }
        requires none { token.amount ≡ 0 }
        requires some { 0 < parts }
        requires fit { L.parts < 2 ^ 64 }
        ensures { result ≡ record { parts = parts; count = 0; pass = pass } }
    {
        Share {
            parts,
            count: 0,
            token,
            pass,
        }
    }

    /// Counts a journaled call, in the share and in the book.
    pub fn add(&mut self, book: &mut Book<L>)
        ensures total { book.new.total ≡ book.old.total + 1 }
        ensures count { self.new ≡ counted self.old true }
    {
        book.add(&mut self.token, 1);
        self.count = self.count.wrapping_add(1);
    }

    /// Whether the share's count is the book's total. It is if the share has every part.
    pub fn is_of(&mut self, book: &mut Book<L>, total: u64) -> bool
        requires { book.old.total ≡ total }
        ensures same { self.new ≡ self.old }
        ensures book { book.new.total ≡ book.old.total }
        ensures count { result ≡ (self.old.count == total) }
        ensures whole { self.old.parts ≡ L.parts → result ≡ true }
    {
        book.audit(&mut self.token);
        self.count == total
    }

    /// Splits off half of the parts, rounded down, with count 0 and half of the pass. None if the share has
    /// one part, and then nothing changes.
    pub fn split(&mut self, bitmap: &AtomicBitmap) -> Option<Share<L>>
        requires { IsShareOf bitmap.now self.old }
        ensures half { IfSome result
            (λ s. s ≡ record { parts = self.old.parts / 2; count = 0; pass = new_pass self.old.pass }) }
        ensures rest { IfSome result (λ s. self.new.parts + s.parts ≡ self.old.parts) }
        ensures count { self.new.count ≡ self.old.count }
        ensures pass { IfSome result (λ s. self.new.pass ≡ recorded_pass self.old.pass) }
        ensures one { IfNone result (self.old.parts ≡ 1) }
        ensures same { IfNone result (self.new ≡ self.old) }
        ensures own { IsShareOf bitmap.now self.new }
        ensures own_half { IfSome result (λ s. IsShareOf bitmap.now s) }
    {
        if self.parts == 1 {
            return None;
        }
        let pass = bitmap.split_pass(&mut self.pass)?;
        let half = self.parts / 2;
        let token = self.token.split_off(half, 0);
        self.parts -= half;
        Some(Share::new(half, token, pass))
    }

    /// Adds another share's parts, count and pass.
    pub fn join(&mut self, bitmap: &AtomicBitmap, other: Share<L>)
        requires own { IsShareOf bitmap.now self.old }
        requires other { IsShareOf bitmap.now other }
        ensures share { self.new ≡ joined self.old other }
        ensures own { IsShareOf bitmap.now self.new }
    {
        let Share {
            parts,
            count,
            token,
            pass,
        } = other;
        self.token.merge(token);
        self.parts += parts;
        self.count = self.count.wrapping_add(count);
        bitmap.join_pass(&mut self.pass, pass);
    }

    /// Marks pages in the device's bitmap, one after another, each by one atomic step
    /// (`AtomicBitmap::set_bit`). Pages past the bitmap's end are ignored.
    pub fn mark(&mut self, bitmap: &AtomicBitmap, pages: &[usize])
        requires { IsShareOf bitmap.now self.old }
        ensures share { self.new
            ≡ record self.old { pass = counting self.old.pass self.new.pass.counts.pages } }
        ensures pages { MarksPages pages.now self.old.pass.counts.pages self.new.pass.counts.pages }
        ensures own { IsShareOf bitmap.now self.new }
    {
        for page in pages {
            bitmap.set_bit(&mut self.pass, *page);
        }
    }

    /// Takes over the knowledge of another pass of the device's bitmap (`AtomicBitmap::meet_pass`). It always
    /// succeeds, and returns true. A later mark of a page comes after all of the other pass's clears of it.
    pub fn meet(&mut self, bitmap: &AtomicBitmap, other: &mut BitmapPass) -> bool
        requires own { IsShareOf bitmap.now self.old }
        requires other { IsPassOf bitmap.now other.old }
        ensures met { result ≡ true }
        ensures share { self.new ≡ record self.old {
          pass = counting self.old.pass (met_with other.old.counts.pages self.old.pass.counts.pages);
        } }
        ensures other { other.new ≡ other.old }
        ensures seen { HasSeenItsOwn other.old.counts.pages
            → (word : ℕ)
            → HasSeen word other.old.counts.pages self.new.pass.counts.pages }
        ensures own { IsShareOf bitmap.now self.new }
    {
        bitmap.meet_pass(&mut self.pass, other)
    }

    /// The pass alone; drops the parts and the count.
    pub fn into_pass(self) -> BitmapPass
        ensures { result ≡ self.pass }
    {
        self.pass
    }
}
