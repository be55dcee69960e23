//! Why a step is refused.

ghost use Rattle.std.specs.Prelude.{◌≡◌};

use fs_queue::QueueError;
use std::alloc::AllocError;
use thiserror::Error;

/// A step's refusal: an error of its queue (`QueueError`; `OutOfMemory` may also be the device's), or a
/// missing queue.
#[derive(Clone, Copy, Debug, PartialEq, Eq, Error)]
pub enum DeviceError {
    #[error("{0}")]
    Queue(QueueError),
    #[error("there is no such queue")]
    NoSuchQueue,
}

impl DeviceError {
    ghost use Rattle.plain_machine.specs.Refusing.{refusal_number};

    /// The refusal's number: 1 to 9 for a queue's error (`QueueError::number`), 10 for `NoSuchQueue`.
    pub fn number(&self) -> u8
        ensures { result ≡ refusal_number self.now }
    {
        match self {
            DeviceError::Queue(error) => error.number(),
            DeviceError::NoSuchQueue => 10,
        }
    }
}

ghost use Rattle.fs_queue.specs.declared.fault.QueueError.TheVariants.{OutOfMemory};
ghost use Rattle.plain_machine.specs.declared.error.DeviceError.TheVariants.{Queue};

impl From<AllocError> for DeviceError {
    ghost from_gives = { λ _ e. e ≡ Queue OutOfMemory };

    fn from(_: AllocError) -> DeviceError {
        DeviceError::Queue(QueueError::OutOfMemory)
    }
}
