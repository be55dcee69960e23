//! Stretches of a table: the length of a load, and the walk through its bytes.

ghost use Rattle.std.specs.Prelude.{◌≡◌, ◌⊎◌, ℕ, ◌+◌, ◌*◌, ◌<◌, ◌≤◌, [], ◌∷◌, ◌++◌, List, Some, None, true};
ghost use Rattle.std.specs.Prelude.{false, length, take, drop, IfSome};
ghost use Rattle.smallvec.specs.SmallVec.{HasRoomFor};
ghost use Rattle.vm_iotlb.specs.declared.permissions.Permissions.TheVariants.{Read};
ghost use Rattle.vm_memory.specs.Memory.{reach};
ghost use Rattle.fs_queue.specs.Chain.{entry_address};
ghost use Rattle.fs_queue.specs.Loads.{Load, Ahead, Reads};
ghost use Rattle.fs_queue.specs.SteppingView.{ahead_of, load_of, visit_of, IfWants};
ghost use Rattle.fs_regions.specs.Places.{left_in, places_in};
ghost use Rattle.fs_regions.specs.Stretches.{ReadsStretch};
ghost use Rattle.fs_regions.specs.Walks.{is_in, most_of, Brings};

use crate::entries::{ENTRY_LEN, MOST_ENTRIES, MOST_OWN_ENTRIES};
use crate::map::GuestMap;
use fs_queue::{ChainWalk, DescriptorTable, Descriptors, Progress};
use vm_memory_core::Permissions;

// The most entries that a load of a table has.
fn most_of(table: DescriptorTable) -> u16
    ensures most { result ≡ most_of table }
    ensures some { 0 < result }
    ensures few { result ≤ 256 }
{
    if table.indirect {
        MOST_ENTRIES
    } else {
        MOST_OWN_ENTRIES
    }
}

/// The most entries that a walk asks for: at least 1, none past the end of its table, no more than a
/// load of that table may have, and no more than descriptors may still join the chain.
pub(crate) fn most_entries(walk: &ChainWalk, may_join: usize) -> u16
    ensures some { 0 < result }
    ensures few { result ≤ most_of walk.now.table }
    ensures low { result ≤ 256 }
    ensures inside { walk.now.index + result ≤ walk.now.table.entries }
    ensures joins { 1 < result → result ≤ may_join }
    ensures most { (n : ℕ)
        → n ≤ most_of walk.now.table
        → walk.now.index + n ≤ walk.now.table.entries
        → (1 < n → n ≤ may_join)
        → n ≤ result }
{
    let (table, index) = walk.entry();
    let left = (table.entries - u32::from(index)) as usize;
    let most = left.min(may_join).min(usize::from(most_of(table)));
    most.max(1) as u16
}

// How many of `most` consecutive entries of a table are in the region of the first one and mapped in
// one piece with it; 1 if the first crosses its end.
fn entries_in_region(regions: &GuestMap, walk: &ChainWalk, most: u16) -> u16
    requires some { 0 < most }
    requires inside { walk.now.index + most ≤ walk.now.table.entries }
    ensures some { 0 < result }
    ensures few { result ≤ most }
    ensures region { 1 < result
        → 16 * result ≤ left_in (places_in regions.now) (entry_address (visit_of walk.now)) }
    ensures most { reach (places_in regions.now) Read (entry_address (visit_of walk.now)) 16 ≡ true
        → (n : ℕ)
        → n ≤ most
        → (1 < n → 16 * n ≤ left_in (places_in regions.now) (entry_address (visit_of walk.now)))
        → n ≤ result }
    ensures there { let m = places_in regions.now in
        let a = entry_address (visit_of walk.now) in
        reach m Read a 16 ≡ true → reach m Read a (16 * result) ≡ true }
{
    if most == 1 {
        return 1;
    }
    match regions.window_at(
        walk.address(),
        ENTRY_LEN * usize::from(most),
        Permissions::Read,
    ) {
        Some(window) => (window.len() / ENTRY_LEN).max(1) as u16,
        None => 1,
    }
}

/// How many entries a walk asks for at once: at least the next one. More than one are in one region, mapped
/// in one piece. It is the greatest number within these bounds: the table's end, the entries of a load, and
/// the descriptors that may still join the chain.
pub(crate) fn stretch_len(regions: &GuestMap, walk: &ChainWalk, may_join: usize) -> u16
    ensures some { 0 < result }
    ensures few { result ≤ most_of walk.now.table }
    ensures low { result ≤ 256 }
    ensures inside { walk.now.index + result ≤ walk.now.table.entries }
    ensures stretch { 1 < result
        → (16 * result ≤ left_in (places_in regions.now) (entry_address (visit_of walk.now)))
        × (result ≤ may_join) }
    ensures most { reach (places_in regions.now) Read (entry_address (visit_of walk.now)) 16 ≡ true
        → (n : ℕ)
        → n ≤ most_of walk.now.table
        → walk.now.index + n ≤ walk.now.table.entries
        → (1 < n
        → (16 * n ≤ left_in (places_in regions.now) (entry_address (visit_of walk.now))) × (n ≤ may_join))
        → n ≤ result }
    ensures there { let m = places_in regions.now in
        let a = entry_address (visit_of walk.now) in
        reach m Read a 16 ≡ true → reach m Read a (16 * result) ≡ true }
{
    entries_in_region(regions, walk, most_entries(walk, may_join))
}

// The sixteen bytes of an entry, out of those of a stretch.
fn entry_of(bytes: &[u8], offset: usize) -> [u8; 16]
    requires { offset + 16 ≤ length bytes.now }
    ensures { result ≡ take 16 (drop offset bytes.now) }
{
    let mut entry = [0u8; 16];
    entry.copy_from_slice(&bytes[offset..][..16]);
    entry
}

// The offset in a stretch of the entry that a walk needs; None if the entry isn't whole in the stretch, or no
// entry is left to read (`left`).
fn offset_in(walk: &ChainWalk, from: u64, len: usize, left: u16) -> Option<usize>
    ensures some { IfSome result (λ offset. (entry_address (visit_of walk.now) ≡ from + offset)
        × (offset + 16 ≤ len)
        × (0 < left)) }
    ensures none { result ≡ None → (is_in from len (entry_address (visit_of walk.now)) ≡ false) ⊎ (left ≡ 0) }
{
    let address = walk.address();
    if left == 0 || address < from || (len as u64) < address - from + 16 {
        return None;
    }
    Some((address - from) as usize)
}

// Reads the entry that a walk needs from a stretch. If a descriptor of it joins the chain, the list has
// it then.
#[inline(always)]
fn read_entry(
    walk: ChainWalk,
    bytes: &[u8],
    offset: usize,
    descriptors: &mut Descriptors,
) -> Progress
    requires inside { offset + 16 ≤ length bytes.now }
    requires room { HasRoomFor descriptors.old 1 }
    ensures brings { (ls : List Load) (start : Ahead)
        → Brings walk.size ls start descriptors.old.items (Reads (visit_of walk))
        → Brings walk.size (ls ++ load_of walk (Some (take 16 (drop offset bytes.now))) ∷ []) start
        descriptors.new.items (ahead_of result) }
    ensures size { IfWants result (λ w. w.size ≡ walk.size) }
    ensures counts { walk.earlier ≡ length descriptors.old.items
        → IfWants result (λ w. w.earlier ≡ length descriptors.new.items) }
    ensures room { (more : ℕ) → HasRoomFor descriptors.old (1 + more) → HasRoomFor descriptors.new more }
{
    let given = walk.give(Some(entry_of(bytes, offset)));
    match given.joins {
        Some(descriptor) => descriptors.push_reserved(descriptor),
        None => {}
    }
    given.then
}

/// Walks through the bytes of a stretch, entry by entry, while the next entry is in the stretch. It
/// reads no more entries than the stretch has.
#[inline(always)]
pub(crate) fn read_stretch(
    walk: ChainWalk,
    entries: u16,
    bytes: &[u8],
    descriptors: &mut Descriptors,
) -> Progress
    requires some { 0 < entries }
    requires bytes { length bytes.now ≡ 16 * entries }
    requires room { HasRoomFor descriptors.old entries }
    ensures { ReadsStretch walk bytes.now descriptors.old.items descriptors.new.items result }
{
    let from = walk.address();
    let mut left = entries - 1;
    let mut progress = read_entry(walk, bytes, 0, descriptors);
    'entries: loop {
        match progress {
            Progress::Ends(walked) => return Progress::Ends(walked),
            Progress::Wants(next) => match offset_in(&next, from, bytes.len(), left) {
                None => return Progress::Wants(next),
                Some(offset) => {
                    progress = read_entry(next, bytes, offset, descriptors);
                    left -= 1;
                }
            },
        }
    }
}
