//! The reply buffer behind its first bytes, if it has no byte in common with them.

ghost use Rattle.std.specs.Prelude.{◌≡◌, ◌↔◌, ℕ, ◌<◌, ◌≤◌, ◌+◌, ◌∷◌, List, IfSome, IsSome, IsTrue, drop};
ghost use Rattle.std.specs.Prelude.{length, map, sum, take};
ghost use Rattle.fuse_fs.specs.Lengths.{filled, past};
ghost use Rattle.vm_memory_core.specs.Window.{AllLieIn, LiesIn, Window, places, places_of};
ghost use Rattle.plain_machine.specs.Apart.{Apart, are_apart};
ghost use Rattle.fs_device.specs.Behind.{IsFrontWindow, HasBehind};

use crate::room_left::RoomLeft;
use vm_memory_core::VolatileSlice;

// The window with byte `at`, counted from the beginning of window `index`, and the byte's offset in it.
fn window_at(windows: &[VolatileSlice], index: usize, at: usize) -> (usize, usize)
    requires { at < length (places (drop index windows.now)) }
    ensures within { (w : Window)
        → drop result.0 windows.now ≡ w ∷ drop (result.0 + 1) windows.now
        → result.1 < w.len }
    ensures there { result.0 < length windows.now }
    ensures before { result.1 ≤ at }
    ensures places { drop result.1 (places (drop result.0 windows.now))
        ≡ drop at (places (drop index windows.now)) }
    ensures rooms { past result.1 (filled (map (λ w. w.len) (drop result.0 windows.now)))
        ≡ past at (filled (map (λ w. w.len) (drop index windows.now))) }
{
    let mut i = index;
    let mut rest = at;
    while rest >= windows[i].len() {
        rest -= windows[i].len();
        i += 1;
    }
    (i, rest)
}

impl<'a> RoomLeft<'a> {
    // The reply buffer without its first `count` bytes; `len` is its length in bytes.
    fn behind(windows: &'a [VolatileSlice], len: usize, count: usize) -> RoomLeft<'a>
        requires counted { len ≡ length (places windows.now) }
        requires enough { count ≤ len }
        ensures windows { result.windows ≡ windows.now }
        ensures places { result.places ≡ drop count (places windows.now) }
    {
        RoomLeft {
            windows,
            index: 0,
            at: count,
            len: len - count,
        }
    }

    /// The number of bytes that are left.
    pub fn len(&self) -> usize
        ensures len { result ≡ length self.now.places }
        ensures rooms { (sum self.now.rooms ≡ length self.now.places)
            × (filled self.now.rooms ≡ self.now.rooms) }
    {
        self.len
    }

    // The next bytes that are left: all that their window has, or `most` of them.
    pub(crate) fn front(&mut self, most: usize) -> VolatileSlice
        requires { 0 < length self.old.places }
        ensures same { self.new ≡ self.old }
        ensures front { IsFrontWindow self.old most result }
        ensures lies { (lengths : List ℕ) → AllLieIn lengths self.old.windows → LiesIn lengths result }
    {
        let (index, at) = window_at(self.windows, self.index, self.at);
        self.index = index;
        self.at = at;
        let window = self.windows[index];
        window.subslice(at, most.min(window.len() - at)).unwrap()
    }

    // Removes the first `count` bytes.
    pub(crate) fn advance(&mut self, count: usize)
        requires { count ≤ length self.old.places }
        ensures windows { self.new.windows ≡ self.old.windows }
        ensures places { self.new.places ≡ drop count self.old.places }
        ensures rooms { self.new.rooms ≡ past count self.old.rooms }
    {
        self.at += count;
        self.len -= count;
    }
}

// Whether two windows are of different blocks, or one ends where the other begins or before.
fn are_apart(one: &VolatileSlice, other: &VolatileSlice) -> bool
    ensures { result ≡ are_apart one.now other.now }
{
    let one_end = one.block_offset() + one.len();
    let other_end = other.block_offset() + other.len();
    one.block() != other.block()
        || one_end <= other.block_offset()
        || other_end <= one.block_offset()
}

// Whether a window has no byte in common with the reply buffer behind its first `count` bytes.
fn is_apart(window: &VolatileSlice, windows: &[VolatileSlice], len: usize, count: usize) -> bool
    requires some { 0 < window.now.len }
    requires counted { len ≡ length (places windows.now) }
    requires enough { count ≤ len }
    ensures { IsTrue result ↔ Apart (places_of window.now) (drop count (places windows.now)) }
{
    let mut rest = RoomLeft::behind(windows, len, count);
    while rest.len() > 0 {
        let part = rest.front(usize::MAX);
        if !are_apart(window, &part) {
            return false;
        }
        rest.advance(part.len());
    }
    true
}

// Whether the first `count` bytes of a reply buffer have none in common with the bytes behind them.
fn front_is_apart(windows: &[VolatileSlice], len: usize, count: usize) -> bool
    requires counted { len ≡ length (places windows.now) }
    requires enough { count ≤ len }
    ensures { IsTrue result ↔ Apart (take count (places windows.now)) (drop count (places windows.now)) }
{
    let mut front = RoomLeft::behind(windows, len, 0);
    let mut left = count;
    while left > 0 {
        let part = front.front(left);
        if !is_apart(&part, windows, len, count) {
            return false;
        }
        front.advance(part.len());
        left -= part.len();
    }
    true
}

/// A reply buffer of `len` bytes without its first `count` bytes. None if it has fewer, or if one of
/// these is also one of the bytes behind them.
pub fn room_behind<'a>(
    windows: &'a [VolatileSlice],
    len: usize,
    count: usize,
) -> Option<RoomLeft<'a>>
    requires { len ≡ length (places windows.now) }
    ensures some { IsSome result ↔ HasBehind (places windows.now) count }
    ensures windows { IfSome result (λ r. r.windows ≡ windows.now) }
    ensures places { IfSome result (λ r. r.places ≡ drop count (places windows.now)) }
{
    if count <= len && front_is_apart(windows, len, count) {
        Some(RoomLeft::behind(windows, len, count))
    } else {
        None
    }
}
