//! Why a call changed nothing.

ghost use Rattle.std.specs.Prelude.{◌≡◌};
ghost use Rattle.fs_chain.specs.Numbers.{chain_error_number};

/// Why a call changed nothing.
#[derive(Clone, Copy, Debug, PartialEq, Eq)]
pub enum ChainError {
    /// An allocation failed; the call may be made again.
    OutOfMemory,
    /// A number is out of range, or the bytes have another length than the call needs.
    BadArgument,
    /// The buffer is too short.
    ShortBuffer,
    /// More data than a reply can hold; or a reply of the caller's own that exceeds the reply buffer or
    /// the used element's 32 bits.
    LongReply,
    /// This call isn't allowed in the chain's state.
    WrongOrder,
    /// The queue isn't that of the chain or of its pop, or was reset since; or a chain was popped or given
    /// up since the pop began.
    OtherQueue,
    /// The answer is for another call than the one in flight: its number is another chain's.
    OtherCall,
    /// The call needs an answer of another kind.
    OtherKind,
    /// The queue has as many chains in flight as it may, or the handle has one.
    ChainInFlight,
    /// Another chain of the queue is being pushed, and `pushed` hasn't ended that yet.
    Pushing,
    /// The chain was popped with another table, or with none, or its table is taken away; or the table has
    /// the used ring elsewhere.
    OtherTable,
}

impl ChainError {
    /// The number that distinguishes the error.
    pub fn number(&self) -> u8
        ensures { result ≡ chain_error_number self.now }
    {
        match self {
            ChainError::OutOfMemory => 9,
            ChainError::BadArgument => 66,
            ChainError::ShortBuffer => 69,
            ChainError::LongReply => 71,
            ChainError::WrongOrder => 73,
            ChainError::OtherQueue => 74,
            ChainError::OtherCall => 79,
            ChainError::OtherKind => 75,
            ChainError::ChainInFlight => 76,
            ChainError::Pushing => 78,
            ChainError::OtherTable => 80,
        }
    }
}
