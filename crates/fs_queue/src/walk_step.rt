//! A step of a walk through a chain of descriptors (VIRTIO 1.2, 2.7.5 and 2.7.5.3).

ghost use Rattle.std.specs.Prelude.{◌≡◌, ◌+◌, ◌<◌, ◌^◌, false, true};

use crate::descriptor::Descriptor;
use crate::fault::ChainFault;
use crate::layout::QueueLayout;
use std::marker::Model;

// The length of a table's entry in bytes.
pub(crate) const ENTRY: u32 = 16;

/// A table of descriptors: the queue's own, or an indirect one (VIRTIO 1.2, 2.7.5.3).
#[derive(Clone, Copy, Debug, PartialEq, Eq)]
pub struct DescriptorTable {
    /// The guest address of its first entry.
    pub address: u64,
    /// The number of its entries, of 16 bytes each.
    pub entries: u32,
    /// Whether it is an indirect table, to which a descriptor refers.
    pub indirect: bool,
}

impl Model for DescriptorTable {
    ghost use Rattle.fs_queue.specs.Chain.{DescriptorTable};

    ghost Value = { DescriptorTable };

    ghost view = { λ t. record { address = t.address; entries = t.entries; indirect = t.indirect } };

    ghost inverse = { λ t. record { address = t.address; entries = t.entries; indirect = t.indirect } };
}

/// The result of a step: an ordinary descriptor, which joins the chain; an indirect table, to walk next;
/// a fault of the chain; or a stop of the queue.
#[derive(Clone, Copy, Debug, PartialEq, Eq)]
pub(crate) enum WalkStep {
    Ordinary(Descriptor),
    Indirect(DescriptorTable),
    Faulty(ChainFault),
    Stops,
}

ghost use Rattle.fs_queue.specs.Chain.{indirect_step, ordinary_step, own_table};
ghost use Rattle.fs_queue.specs.WalkingView.{at_position, in_table, walk_step_of, IfOrdinary, IfIndirect};
ghost use Rattle.fs_queue.specs.WalkingView.{EndsIn64Bits};

// The step at a descriptor of `table` that refers to an indirect table, after `earlier` ordinary ones.
pub(crate) fn indirect_step(
    table: DescriptorTable,
    index: u16,
    earlier: u16,
    descriptor: Descriptor,
) -> WalkStep
    ensures step { walk_step_of result ≡ indirect_step (in_table table index earlier) descriptor }
    ensures indirect { IfOrdinary result (λ _. ⊥) }
    ensures table { IfIndirect result (λ t. (table.indirect ≡ false) × (t.indirect ≡ true) × EndsIn64Bits t) }
{
    if descriptor.has_next() {
        WalkStep::Faulty(ChainFault::IndirectWithNext)
    } else if table.indirect {
        WalkStep::Faulty(ChainFault::IndirectNested)
    } else if descriptor.len == 0 || descriptor.len % ENTRY != 0 {
        WalkStep::Faulty(ChainFault::IndirectLength)
    } else if descriptor.addr > u64::MAX - u64::from(descriptor.len) {
        WalkStep::Faulty(ChainFault::AddressOverflow)
    } else {
        WalkStep::Indirect(DescriptorTable {
            address: descriptor.addr,
            entries: descriptor.len / ENTRY,
            indirect: true,
        })
    }
}

// The step at an ordinary descriptor of `table`, after `earlier` others, in a chain of a queue of this
// size.
pub(crate) fn ordinary_step(
    size: u16,
    table: DescriptorTable,
    index: u16,
    earlier: u16,
    descriptor: Descriptor,
) -> WalkStep
    ensures step { walk_step_of result ≡ ordinary_step size (in_table table index earlier) descriptor }
    ensures fits { IfOrdinary result (λ d. d.addr + d.len < 2 ^ 64) }
    ensures room { IfOrdinary result (λ _. earlier ≡ size → ⊥) }
    ensures ordinary { IfIndirect result (λ _. ⊥) }
{
    if earlier == size {
        WalkStep::Faulty(ChainFault::TooLong)
    } else if descriptor.len > 0 && descriptor.addr > u64::MAX - u64::from(descriptor.len) {
        WalkStep::Faulty(ChainFault::AddressOverflow)
    } else {
        WalkStep::Ordinary(descriptor)
    }
}

// The queue's own table.
pub(crate) fn queue_table(layout: QueueLayout) -> DescriptorTable
    ensures table { result ≡ own_table (at_position layout 0) }
    ensures ends { EndsIn64Bits result }
{
    DescriptorTable {
        address: layout.desc(),
        entries: u32::from(layout.size()),
        indirect: false,
    }
}
