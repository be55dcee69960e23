//! Why a script ends before its last line is run.

use crate::wrong::{WrongLine, WrongWord};
use std::alloc::AllocError;
use std::io;
use thiserror::Error;

/// Why a script ends early.
#[derive(Clone, Copy, Debug, PartialEq, Eq, Error)]
pub enum Halt {
    #[error("script too long")]
    TooLong,
    /// The line of this number, from 1, isn't a command, or not one that is allowed there, for this reason,
    /// and by this word.
    #[error("line {0}: not a command")]
    NotACommand(usize, WrongLine, WrongWord),
    #[error("out of memory")]
    OutOfMemory,
    /// Reading the script or writing the output failed.
    #[error("a stream failed")]
    Stream,
}

impl Halt {
    /// The program's exit status: 1 for a script that is too long or wrong, 2 for out of memory, 3 for a
    /// failed stream.
    pub fn status(&self) -> u8 {
        match self {
            Halt::TooLong | Halt::NotACommand(_, _, _) => 1,
            Halt::OutOfMemory => 2,
            Halt::Stream => 3,
        }
    }
}

impl From<AllocError> for Halt {
    fn from(_error: AllocError) -> Halt {
        Halt::OutOfMemory
    }
}

impl From<io::Error> for Halt {
    fn from(_error: io::Error) -> Halt {
        Halt::Stream
    }
}
