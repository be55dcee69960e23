//! The windows of a return.

ghost use Rattle.std.specs.Prelude.{◌≡◌};

use crate::chain::Taken;
use vm_memory_core::VolatileSlice;

impl Taken {
    /// The windows that a return writes besides the chain's room: of the used element, 8 bytes, and then
    /// of the used index, 2 bytes (VIRTIO 1.2, 2.7.8).
    pub fn used_windows(&self) -> &[VolatileSlice]
        ensures { result.now ≡ self.now.return_windows.used.items }
    {
        self.return_windows.used.as_slice()
    }

    // The windows of the available flags, 2 bytes, which a return reads.
    pub(crate) fn flags_windows(&self) -> &[VolatileSlice]
        ensures { result.now ≡ self.now.return_windows.flags.items }
    {
        self.return_windows.flags.as_slice()
    }
}
