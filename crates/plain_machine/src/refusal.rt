//! Why a command of the machine is refused.

ghost use Rattle.std.specs.Prelude.{◌≡◌};

use thiserror::Error;

/// Why a command of a `Machine` was refused. A refused command changes nothing.
#[derive(Clone, Copy, Debug, PartialEq, Eq, Error)]
pub enum Refusal {
    #[error("an address isn't mapped")]
    NoPlace,
    #[error("a block is empty")]
    EmptyBlock,
    #[error("there is no such block, or it has another length")]
    UnknownBlock,
    #[error("a region ends past the last address")]
    BadRegion,
    #[error("two regions have an address in common")]
    Overlap,
    #[error("there is no such region")]
    NoRegion,
    #[error("the end of a mapping, or of its target, is past the last address")]
    BadMapping,
    #[error("there is no such queue")]
    NoSuchQueue,
    #[error("out of memory")]
    OutOfMemory,
}

impl Refusal {
    ghost use Rattle.plain_machine.specs.Refusing.{command_refusal_number};

    /// The refusal's number: 1 for `NoPlace` to 9 for `OutOfMemory`, in the order above.
    pub fn number(&self) -> u8
        ensures { result ≡ command_refusal_number self.now }
    {
        match self {
            Refusal::NoPlace => 1,
            Refusal::EmptyBlock => 2,
            Refusal::UnknownBlock => 3,
            Refusal::BadRegion => 4,
            Refusal::Overlap => 5,
            Refusal::NoRegion => 6,
            Refusal::BadMapping => 7,
            Refusal::NoSuchQueue => 8,
            Refusal::OutOfMemory => 9,
        }
    }
}
