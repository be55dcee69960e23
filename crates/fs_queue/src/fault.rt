//! Errors of a chain, of a queue and of a queue's layout.

ghost use Rattle.std.specs.Prelude.{◌≡◌};

use thiserror::Error;

/// The greatest limit of a request and of a reply buffer, in bytes (`ChainFault::OverLimit`).
pub const MOST_LIMIT: u32 = 1 << 31;

/// Why the device returns a chain without serving it. The chain breaks a rule of VIRTIO 1.2, 2.7.5 or
/// 2.7.5.3, is longer than the device takes, or refers to memory that isn't mapped. Numbered from 1 to
/// 10.
#[derive(Clone, Copy, Debug, PartialEq, Eq, Error)]
pub enum ChainFault {
    #[error("more descriptors than the queue has")]
    TooLong = 1,
    #[error("the next descriptor is past its table")]
    NextOutOfTable = 2,
    #[error("a descriptor ends past the last address")]
    AddressOverflow = 3,
    #[error("an indirect descriptor has a next one")]
    IndirectWithNext = 4,
    #[error("an indirect table has an indirect descriptor")]
    IndirectNested = 5,
    #[error("an indirect table is empty, or no whole number of descriptors")]
    IndirectLength = 6,
    #[error("an indirect table can't be read")]
    TableUnreachable = 7,
    #[error("the request or the reply buffer is too long")]
    OverLimit = 8,
    #[error("the request can't be read")]
    RequestUnreachable = 9,
    #[error("the reply buffer can't be written")]
    RoomUnreachable = 10,
}

impl ChainFault {
    ghost use Rattle.fs_queue.specs.Numbers.{chain_fault_number};

    /// The fault's number, 1 to 10.
    pub fn number(&self) -> u8
        ensures { result ≡ chain_fault_number self.now }
    {
        *self as u8
    }
}

/// Why a queue hands out no chain. All but `Stopped` and `OutOfMemory` stop it until it is reset. Numbered
/// from 1 to 9.
#[derive(Clone, Copy, Debug, PartialEq, Eq, Error)]
pub enum QueueError {
    #[error("the queue is stopped")]
    Stopped = 1,
    #[error("the available index can't be read")]
    AvailIndexUnreachable = 2,
    #[error("more chains are available than the queue holds")]
    AvailTooFar = 3,
    #[error("the available ring's entry can't be read")]
    RingEntryUnreachable = 4,
    #[error("the head is past the table")]
    HeadOutOfTable = 5,
    #[error("the used ring can't be written")]
    UsedUnreachable = 6,
    #[error("the available flags, or used_event, can't be read")]
    AvailFlagsUnreachable = 7,
    #[error("a descriptor can't be read")]
    DescriptorUnreachable = 8,
    #[error("out of memory")]
    OutOfMemory = 9,
}

impl QueueError {
    ghost use Rattle.fs_queue.specs.Numbers.{queue_number};
    ghost use Rattle.fs_queue.specs.Taking.{stops_queue};

    /// Whether the refusal stops the queue: each does but `Stopped` and `OutOfMemory`.
    pub(crate) fn stops_queue(&self) -> bool
        ensures { result ≡ stops_queue self.now }
    {
        !matches!(self, QueueError::Stopped | QueueError::OutOfMemory)
    }

    /// The refusal's number, 1 to 9.
    pub fn number(&self) -> u8
        ensures { result ≡ queue_number self.now }
    {
        *self as u8
    }
}

/// Why a queue can't have a layout (VIRTIO 1.2, 2.7). Numbered from 1 to 3.
#[derive(Clone, Copy, Debug, PartialEq, Eq, Error)]
pub enum QueueLayoutError {
    #[error("the size is no power of two from 1 to 32768")]
    BadSize = 1,
    #[error("a part of the queue is misaligned")]
    Misaligned = 2,
    #[error("a part of the queue ends past the last address")]
    EndOverflow = 3,
}

impl QueueLayoutError {
    ghost use Rattle.fs_queue.specs.Numbers.{layout_error_number};

    /// The error's number, 1 to 3.
    pub fn number(&self) -> u8
        ensures { result ≡ layout_error_number self.now }
    {
        *self as u8
    }
}
