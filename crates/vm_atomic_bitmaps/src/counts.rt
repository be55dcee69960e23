//! The counts of a pass, the rule that a bitmap keeps, and the kinds of steps. These types are for contracts:
//! no value of them is made.

use atomic_table::{Join, Play, Split, TableRule};
use std::collections::LinkedList;

/// A pass's counts of one page. `marked`: the pass marked it. `on`: how often the pass found it clear and
/// set it. `off`: how often the pass found it set and cleared it. `held` and `seen`: how often all passes
/// set and cleared it, as far as the pass has seen. `mark_steps`: the pass's marks of it, also when it was
/// set. `clear_steps`: the pass's gathers and clears of it, also when it was clear.
pub struct Tally {
    pub marked: bool,
    pub on: u64,
    pub off: u64,
    pub held: u64,
    pub seen: u64,
    pub mark_steps: u64,
    pub clear_steps: u64,
}

/// A pass's counts of each page, and its part of all passes: `parts` divided by 2 to the power of `depth`.
pub struct PageCounts {
    pub pages: LinkedList<Tally>,
    pub parts: u64,
    pub depth: u64,
}

/// The rule of a bitmap's words and all its passes (`KeepsRule`).
pub struct PageRule;

impl TableRule<(), PageCounts, usize> for PageRule {
    ghost use Rattle.vm_atomic_bitmaps.specs.Counts.{first_pass};
    ghost use Rattle.vm_atomic_bitmaps.specs.Rule.{KeepsRule};

    ghost holds = { KeepsRule };

    ghost first = { first_pass };
}

// A fetch_or.
pub(crate) struct Mark;

impl Play<(), PageCounts> for Mark {
    ghost use Rattle.vm_atomic_bitmaps.specs.Steps.{MarkStep};

    ghost then = { MarkStep };
}

// A swap with 0.
pub(crate) struct Gather;

impl Play<(), PageCounts> for Gather {
    ghost use Rattle.vm_atomic_bitmaps.specs.Steps.{GatherStep};

    ghost then = { GatherStep };
}

// A fetch_and.
pub(crate) struct Clear;

impl Play<(), PageCounts> for Clear {
    ghost use Rattle.vm_atomic_bitmaps.specs.Steps.{ClearStep};

    ghost then = { ClearStep };
}

// A load.
pub(crate) struct Read;

impl Play<(), PageCounts> for Read {
    ghost use Rattle.vm_atomic_bitmaps.specs.Steps.{ReadStep};

    ghost then = { ReadStep };
}

// Splits a pass: the new pass has half of its part.
pub(crate) struct Halve;

impl Split<PageCounts> for Halve {
    ghost use Rattle.vm_atomic_bitmaps.specs.Counts.{preserved_half, new_half};

    ghost left = { preserved_half };

    ghost right = { new_half };
}

// Copies a pass's `held` and `seen`, which another pass then joins.
pub(crate) struct Tell;

impl Split<PageCounts> for Tell {
    ghost use Rattle.vm_atomic_bitmaps.specs.Counts.{telling};

    ghost left = { λ v. v };

    ghost right = { telling };
}

// Joins a pass into another.
pub(crate) struct TakeIn;

impl Join<PageCounts> for TakeIn {
    ghost use Rattle.vm_atomic_bitmaps.specs.Counts.{both_passes, spent};

    ghost both = { both_passes };

    ghost spent = { spent };
}
