//! The rest of a reply buffer in host memory.

use std::marker::Model;
use vm_memory_core::VolatileSlice;

/// The rest of a reply buffer in host memory. Its windows are lent one after another.
#[derive(Drop)]
pub struct RoomLeft<'a> {
    pub(crate) windows: &'a [VolatileSlice],
    // The window at whose beginning `at` starts to count.
    pub(crate) index: usize,
    // The number of bytes from there to the rest.
    pub(crate) at: usize,
    pub(crate) len: usize,
}

impl<'a> Model for RoomLeft<'a> {
    ghost use Rattle.std.specs.Prelude.{◌≡◌, ◌+◌, ◌<◌, ◌^◌, drop, length, map};
    ghost use Rattle.fuse_fs.specs.Lengths.{filled, past};
    ghost use Rattle.vm_memory_core.specs.Window.{places};
    ghost use Rattle.fs_device.specs.Behind.{RoomLeft};

    ghost Value = { RoomLeft };

    ghost view = { λ b. record {
      windows = b.windows.now;
      places = drop b.at (places (drop b.index b.windows.now));
      rooms = past b.at (filled (map (λ w. w.len) (drop b.index b.windows.now)));
    } };

    ghost invariant = { λ b. (b.at + b.len ≡ length (places (drop b.index b.windows.now)))
        × (b.at + b.len < 2 ^ 64) };
}
