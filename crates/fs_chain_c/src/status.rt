//! Statuses of calls that no handle answers.

ghost use Rattle.std.specs.Prelude.{◌≡◌};
ghost use Rattle.fs_chain_c.specs.Statuses.{refusal_status};

use fs_chain::ChainError;

/// The numbers aren't a device's (PK_BAD_DEVICE).
pub const BAD_DEVICE: u32 = 96;

/// A queue's size isn't a power of two up to 32768 (PK_BAD_QUEUE_SIZE).
pub const BAD_QUEUE_SIZE: u32 = 97;

/// A queue's address isn't aligned (PK_BAD_QUEUE_ALIGNMENT).
pub const BAD_QUEUE_ALIGNMENT: u32 = 98;

/// A part of a queue ends past the last address (PK_BAD_QUEUE_END).
pub const BAD_QUEUE_END: u32 = 99;

/// More chains of a queue may be in flight than it has descriptors (PK_BAD_MAX_IN_FLIGHT).
pub const BAD_MAX_IN_FLIGHT: u32 = 100;

/// A queue's `event_index` is neither 0 nor 1 (PK_BAD_EVENT_INDEX).
pub const BAD_EVENT_INDEX: u32 = 101;

/// The fields of a queue that are the library's aren't valid (PK_BAD_QUEUE_STATE).
pub const BAD_QUEUE_STATE: u32 = 102;

/// The queue was never begun (PK_QUEUE_NOT_BEGUN).
pub const QUEUE_NOT_BEGUN: u32 = 103;

/// A region is empty (PK_EMPTY_REGION).
pub const EMPTY_REGION: u32 = 104;

/// A region's host address isn't a page's (PK_BAD_REGION_HOST).
pub const BAD_REGION_HOST: u32 = 105;

/// A region's guest address isn't a page's (PK_BAD_REGION_GUEST).
pub const BAD_REGION_GUEST: u32 = 106;

/// A region's length isn't one of whole pages (PK_BAD_REGION_LEN).
pub const BAD_REGION_LEN: u32 = 107;

/// A region ends past the last address (PK_BAD_REGION_END).
pub const BAD_REGION_END: u32 = 108;

/// There are too many regions (PK_TOO_MANY_REGIONS).
pub const TOO_MANY_REGIONS: u32 = 109;

/// Two regions have an address in common (PK_REGIONS_OVERLAP).
pub const REGIONS_OVERLAP: u32 = 110;

/// Why a call of C's changed nothing.
#[derive(Clone, Copy, Debug)]
pub enum StatusRefusal {
    /// An error of the handle, or of an allocation.
    Of(ChainError),
    /// Numbers that aren't valid, by their status.
    Invalid(u32),
}

impl StatusRefusal {
    /// Its status.
    pub fn status(&self) -> u32
        ensures { result ≡ refusal_status self.now }
    {
        match self {
            StatusRefusal::Of(error) => u32::from(error.number()),
            StatusRefusal::Invalid(status) => *status,
        }
    }
}

/// The status of a handle whose memory was never set: WrongOrder.
pub fn wrong_order() -> u32
    ensures { result ≡ 73 }
{
    u32::from(ChainError::WrongOrder.number())
}

/// The status of an argument that isn't valid: BadArgument.
pub fn bad_argument() -> u32
    ensures { result ≡ 66 }
{
    u32::from(ChainError::BadArgument.number())
}
