//! The pass with which a thread marks and gathers.

use crate::counts::PageCounts;
use atomic_table::Seat;
use std::marker::Model;

/// A thread's pass of one `AtomicBitmap`. It takes no bytes. Each step of the thread changes its counts.
#[derive(Drop)]
pub struct BitmapPass {
    pub(crate) seat: Seat<(), PageCounts>,
}

impl Model for BitmapPass {
    ghost use Rattle.std.specs.Prelude.{◌≡◌, ◌<◌, []};
    ghost use Rattle.vm_atomic_bitmaps.specs.Passes.{Pass};

    ghost Value = { Pass };

    ghost view = { λ p. record { name = p.seat.table_id; counts = p.seat.me.0 } };

    ghost invariant = { λ p. (p.seat.me.1 ≡ []) × (0 < p.seat.me.0.parts) };
}
