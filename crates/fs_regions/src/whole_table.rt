//! A load that has a whole indirect table. Drivers mostly lay its descriptors one behind another.

ghost use Rattle.std.specs.Prelude.{◌≡◌, ◌+◌, ◌*◌, ◌<◌, ◌≤◌, ◌^◌, length, take, drop, true, false};
ghost use Rattle.smallvec.specs.SmallVec.{HasRoomFor};
ghost use Rattle.vm_values.specs.Fields.{AllFit, spelled};
ghost use Rattle.fs_queue.specs.Chain.{is_indirect};
ghost use Rattle.fs_queue.specs.Records.{descriptor};
ghost use Rattle.fs_queue.specs.declared.chain_walk.Progress.TheVariants as shows;
ghost use Rattle.fs_queue.specs.declared.chain_walk.WalkEnd.TheVariants as comes_to;
ghost use Rattle.fs_regions.specs.Stretches.{ReadsStretch};

use crate::stretch::read_stretch;
use fs_queue::{ChainWalk, Descriptor, Descriptors, Progress, WalkEnd};
use vm_values::ByteValued;

// The descriptor of an entry, out of the bytes of a table.
#[inline(always)]
fn descriptor_at(bytes: &[u8], index: u16) -> Descriptor
    requires { 16 * index + 16 ≤ length bytes.now }
    ensures bytes { take 16 (drop (16 * index) bytes.now) ≡ spelled (descriptor result) }
    ensures fits { AllFit (descriptor result) }
{
    Descriptor::get_bytes(&bytes[16 * usize::from(index)..][..16])
}

// Whether a descriptor joins a chain that may have one more.
#[inline(always)]
fn may_join(descriptor: &Descriptor) -> bool
    ensures ordinary { result ≡ true → is_indirect descriptor.now ≡ false }
    ensures ends { result ≡ true → 0 < descriptor.now.len
        → descriptor.now.addr + descriptor.now.len < 2 ^ 64 }
{
    if descriptor.refers_to_indirect_table() {
        return false;
    }
    descriptor.len == 0 || descriptor.addr <= u64::MAX - u64::from(descriptor.len)
}

// Whether a descriptor's next one is at an index.
#[inline(always)]
fn proceeds_to(descriptor: &Descriptor, index: u16) -> bool
    ensures { result ≡ true → descriptor.now.next ≡ index }
{
    descriptor.next == index
}

// Whether so many entries are a whole table, of which a walk needs the first one.
#[inline(always)]
fn is_whole(walk: &ChainWalk, entries: u16) -> bool
    ensures some { result ≡ true → 1 < entries }
    ensures first { result ≡ true → walk.now.index ≡ 0 }
    ensures whole { result ≡ true → walk.now.table.entries ≡ entries }
{
    let (table, index) = walk.entry();
    entries > 1 && index == 0 && table.entries == u32::from(entries)
}

// Reads the entries of a whole table, from its first one on, while each names the one behind it as the
// next: whether a chain ends so. The descriptors that were read join the list.
#[inline(always)]
#[tactic(auto, using(crate::proofs::InOrder::kept))]
fn read_in_order(
    walk: &ChainWalk,
    entries: u16,
    bytes: &[u8],
    descriptors: &mut Descriptors,
) -> bool
    requires first { walk.now.index ≡ 0 }
    requires whole { walk.now.table.entries ≡ entries }
    requires joins { walk.now.earlier + entries ≤ walk.now.size }
    requires bytes { length bytes.now ≡ 16 * entries }
    requires room { HasRoomFor descriptors.old entries }
    ensures ends { result ≡ true → ReadsStretch walk.now bytes.now descriptors.old.items descriptors.new.items
        (shows.Ends comes_to.Chain) }
    ensures front { take (length descriptors.old.items) descriptors.new.items ≡ descriptors.old.items }
    ensures capacity { descriptors.new.capacity ≡ descriptors.old.capacity }
{
    let mut index = 0u16;
    'entries: while index < entries {
        let descriptor = descriptor_at(bytes, index);
        if !may_join(&descriptor) {
            return false;
        }
        descriptors.push_reserved(descriptor);
        if !descriptor.has_next() {
            return true;
        }
        index += 1;
        if !proceeds_to(&descriptor, index) {
            return false;
        }
    }
    false
}

// Reads a whole table in order, if a chain ends so: whether it does. Else the list stays as it was.
#[inline(always)]
fn ends_in_order(
    walk: &ChainWalk,
    entries: u16,
    bytes: &[u8],
    descriptors: &mut Descriptors,
) -> bool
    requires joins { 1 < entries → walk.now.earlier + entries ≤ walk.now.size }
    requires bytes { length bytes.now ≡ 16 * entries }
    requires room { HasRoomFor descriptors.old entries }
    ensures ends { result ≡ true → ReadsStretch walk.now bytes.now descriptors.old.items descriptors.new.items
        (shows.Ends comes_to.Chain) }
    ensures same { result ≡ false → descriptors.new.items ≡ descriptors.old.items }
    ensures capacity { descriptors.new.capacity ≡ descriptors.old.capacity }
{
    if !is_whole(walk, entries) {
        return false;
    }
    let len = descriptors.len();
    if read_in_order(walk, entries, bytes, descriptors) {
        return true;
    }
    descriptors.truncate(len);
    false
}

/// Walks through the bytes of a stretch as `read_stretch` does, and faster if it is a whole table whose
/// entries follow each other. The walk has room for all of them.
#[inline(always)]
pub(crate) fn read_table(
    walk: ChainWalk,
    entries: u16,
    bytes: &[u8],
    descriptors: &mut Descriptors,
) -> Progress
    requires some { 0 < entries }
    requires joins { 1 < entries → walk.earlier + entries ≤ walk.size }
    requires bytes { length bytes.now ≡ 16 * entries }
    requires room { HasRoomFor descriptors.old entries }
    ensures { ReadsStretch walk bytes.now descriptors.old.items descriptors.new.items result }
{
    if ends_in_order(&walk, entries, bytes, descriptors) {
        return Progress::Ends(WalkEnd::Chain);
    }
    read_stretch(walk, entries, bytes, descriptors)
}
