//! The walk through a chain of descriptors by loads that the caller makes. It touches no memory (VIRTIO
//! 1.2, 2.7.5).

ghost use Rattle.std.specs.Prelude.{◌≡◌, ◌+◌, ◌*◌, ◌<◌, ◌≤◌, ◌^◌, IfOk, IfSome, OnErr, true, false};

use crate::descriptor::Descriptor;
use crate::fault::ChainFault;
use crate::layout::QueueLayout;
use crate::walk_step::{DescriptorTable, WalkStep, indirect_step, ordinary_step, queue_table};
use std::alloc::AllocError;
use vm_values::ByteValued;

/// A walk that asks for an entry of a table. `give` consumes it, so each load is made once.
#[derive(Debug, Drop)]
pub struct ChainWalk {
    size: u16,
    table: DescriptorTable,
    index: u16,
    earlier: u16,
    pub ghost inside: { index < table.entries },
    pub ghost ends: { table.address + 16 * table.entries < 2 ^ 64 },
    pub ghost few: { earlier ≤ size },
}

/// The result of a walk through a chain.
#[derive(Clone, Copy, Debug, PartialEq, Eq)]
pub enum WalkEnd {
    /// A chain of the descriptors that joined it, in their order.
    Chain,
    /// A faulty chain, which the device returns without a reply.
    Faulty(ChainFault),
    /// An entry of the queue's own table isn't mapped: `DescriptorUnreachable`, which stops the queue.
    Stopped,
}

impl WalkEnd {
    ghost use Rattle.fs_queue.specs.declared.chain_walk.WalkEnd.TheVariants as ended;

    // The result of a walk that ended. AllocError if it is a chain whose descriptors weren't all kept.
    pub(crate) fn if_held(self, kept: bool) -> Result<WalkEnd, AllocError>
        ensures same { IfOk result (λ w. (w ≡ self) × (self ≡ ended.Chain → kept ≡ true)) }
        ensures lost { OnErr result ((self ≡ ended.Chain) × (kept ≡ false)) }
    {
        match self {
            WalkEnd::Chain if !kept => Err(AllocError),
            _ => Ok(self),
        }
    }
}

/// The state of a walk through a chain.
#[derive(Debug, Drop)]
pub enum Progress {
    /// It asks for an entry of a table.
    Wants(ChainWalk),
    /// It has ended.
    Ends(WalkEnd),
}

/// The result of a load.
#[derive(Debug, Drop)]
pub struct WalkAdvance {
    /// The ordinary descriptor that joins the chain, if one does.
    pub joins: Option<Descriptor>,
    /// The state of the walk after it.
    pub then: Progress,
}

impl ChainWalk {
    ghost use Rattle.fs_queue.specs.Chain.{first_visit};
    ghost use Rattle.fs_queue.specs.Chain.{entry_address};
    ghost use Rattle.fs_queue.specs.Loads.{ahead_at, ahead_after, step_by};
    ghost use Rattle.fs_queue.specs.SteppingView.{visit_of, load_of, ahead_of, joining, steps_left, IfWants};
    ghost use Rattle.fs_queue.specs.WalkingView.{at_position, in_table, walk_step_of, IfOrdinary, IfIndirect};
    ghost use Rattle.fs_queue.specs.WalkingView.{EndsIn64Bits};

    // The walk at an entry of a table, or its end with `NextOutOfTable` if the index is past the table.
    #[inline(always)]
    fn at(size: u16, table: DescriptorTable, index: u16, earlier: u16) -> Progress
        requires ends { EndsIn64Bits table }
        requires few { earlier ≤ size }
        ensures at { ahead_of result ≡ ahead_at size (in_table table index earlier) }
        ensures size { IfWants result (λ w. w.size ≡ size) }
        ensures visit { IfWants result (λ w. visit_of w ≡ in_table table index earlier) }
    {
        if u32::from(index) < table.entries {
            Progress::Wants(ChainWalk {
                size,
                table,
                index,
                earlier,
            })
        } else {
            Progress::Ends(WalkEnd::Faulty(ChainFault::NextOutOfTable))
        }
    }

    /// The walk from the head's entry of the queue's own table.
    pub fn begin(layout: QueueLayout, head: u16) -> Progress
        ensures at { ahead_of result ≡ ahead_at layout.size (first_visit (at_position layout 0) head) }
        ensures size { IfWants result (λ w. w.size ≡ layout.size) }
    {
        Self::at(layout.size(), queue_table(layout), head, 0)
    }

    /// The guest address of the 16 bytes that it asks for. They end below 2^64.
    pub fn address(&self) -> u64
        ensures address { result ≡ entry_address (visit_of self.now) }
        ensures fits { result + 16 < 2 ^ 64 }
    {
        self.table.address + 16 * u64::from(self.index)
    }

    /// The entry that it asks for: its table and its index there.
    pub fn entry(&self) -> (DescriptorTable, u16)
        ensures table { result.0 ≡ self.now.table }
        ensures index { result.1 ≡ self.now.index }
        ensures inside { result.1 < result.0.entries }
        ensures ends { EndsIn64Bits result.0 }
    {
        (self.table, self.index)
    }

    // The result of the step by the entry's bytes, or by None if one of their addresses isn't mapped.
    #[inline(always)]
    fn step(self, came: Option<[u8; 16]>) -> WalkStep
        ensures step { walk_step_of result ≡ step_by self.size (visit_of self) (load_of self came) }
        ensures fits { IfOrdinary result (λ d. d.addr + d.len < 2 ^ 64) }
        ensures room { IfOrdinary result (λ _. self.earlier ≡ self.size → ⊥) }
        ensures table { IfIndirect result (λ t. (self.table.indirect ≡ false)
            × (t.indirect ≡ true)
            × EndsIn64Bits t) }
    {
        let Some(bytes) = came else {
            return if self.table.indirect {
                WalkStep::Faulty(ChainFault::TableUnreachable)
            } else {
                WalkStep::Stops
            };
        };
        let descriptor = Descriptor::get_bytes(&bytes);
        if descriptor.refers_to_indirect_table() {
            indirect_step(self.table, self.index, self.earlier, descriptor)
        } else {
            ordinary_step(self.size, self.table, self.index, self.earlier, descriptor)
        }
    }

    /// Takes the entry's 16 bytes, or None if one of their addresses isn't mapped, and returns the next
    /// state of the walk. Each call leaves fewer steps.
    #[inline(always)]
    pub fn give(self, came: Option<[u8; 16]>) -> WalkAdvance
        ensures joins { result.joins ≡ joining (step_by self.size (visit_of self) (load_of self came)) }
        ensures then { ahead_of result.then
            ≡ ahead_after self.size (visit_of self) (step_by self.size (visit_of self) (load_of self came)) }
        ensures size { IfWants result.then (λ w. w.size ≡ self.size) }
        ensures fewer { IfWants result.then
            (λ w. steps_left self.size (visit_of w) < steps_left self.size (visit_of self)) }
        ensures fits { IfSome result.joins (λ d. d.addr + d.len < 2 ^ 64) }
    {
        let (size, table, earlier) = (self.size, self.table, self.earlier);
        match self.step(came) {
            WalkStep::Stops => WalkAdvance {
                joins: None,
                then: Progress::Ends(WalkEnd::Stopped),
            },
            WalkStep::Faulty(fault) => WalkAdvance {
                joins: None,
                then: Progress::Ends(WalkEnd::Faulty(fault)),
            },
            WalkStep::Indirect(indirect) => WalkAdvance {
                joins: None,
                then: Self::at(size, indirect, 0, earlier),
            },
            WalkStep::Ordinary(descriptor) => WalkAdvance {
                joins: Some(descriptor),
                then: if descriptor.has_next() {
                    Self::at(size, table, descriptor.next, earlier + 1)
                } else {
                    Progress::Ends(WalkEnd::Chain)
                },
            },
        }
    }
}
