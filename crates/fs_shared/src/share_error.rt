//! The errors of `SharedDevice::new`.

ghost use Rattle.std.specs.Prelude.{◌≡◌};

use thiserror::Error;

/// Why `SharedDevice::new` makes no device: only OutOfMemory occurs.
#[derive(Clone, Copy, Debug, PartialEq, Eq, Error)]
pub enum ShareError {
    #[error("out of memory")]
    OutOfMemory,
    /// Never occurs: a bitmap always has a second pass (`AtomicBitmap::split_pass`). Kept for its name.
    #[error("there is no second pass")]
    NoPass,
}

impl ShareError {
    ghost use Rattle.fs_shared.specs.Refusing.{share_error_number};

    /// The error's number: 1 for `OutOfMemory`, 2 for `NoPass`.
    pub fn number(&self) -> u8
        ensures { result ≡ share_error_number self.now }
    {
        match self {
            ShareError::OutOfMemory => 1,
            ShareError::NoPass => 2,
        }
    }
}
