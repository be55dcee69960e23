//! Errors of saving and of restoring a record.

ghost use Rattle.std.specs.Prelude.{◌≡◌};

use thiserror::Error;

/// The sink returned an error or took no byte. A part of the record was written, and not all of it.
#[derive(Clone, Copy, Debug, PartialEq, Eq, Error)]
#[error("the record can't be written")]
pub struct WriteFault;

/// Why nothing is restored. `restore_record` lists them in the order in which it checks them.
#[derive(Clone, Copy, Debug, PartialEq, Eq, Error)]
pub enum RestoreError {
    #[error("the record ends early")]
    Truncated,
    #[error("the record doesn't begin with VFSD")]
    BadMagic,
    #[error("the record has a version other than 1 and 2")]
    BadVersion,
    #[error("the record has no queue, or more than 64")]
    BadCount,
    #[error("the record's reserved number isn't 0")]
    BadReserved,
    /// The queue of this index, from 0, has a bad layout, or its `stopped` is neither 0 nor 1.
    #[error("queue {0} of the record is invalid")]
    BadQueue(usize),
    #[error("the record has options that aren't known")]
    BadOptions,
    #[error("the record can't be read")]
    ReadFault,
    #[error("out of memory")]
    OutOfMemory,
    /// In version 2, the record's page size or limit isn't the one that the caller passed.
    #[error("the record's page size or limit isn't the device's")]
    Mismatch,
}

impl RestoreError {
    ghost use Rattle.fs_record.specs.Numbers.{restore_error_number};

    /// The error's number, 1 to 10.
    pub fn number(&self) -> u8
        ensures { result ≡ restore_error_number self.now }
    {
        match self {
            RestoreError::Truncated => 1,
            RestoreError::BadMagic => 2,
            RestoreError::BadVersion => 3,
            RestoreError::BadCount => 4,
            RestoreError::BadReserved => 5,
            RestoreError::BadQueue(_) => 6,
            RestoreError::BadOptions => 7,
            RestoreError::ReadFault => 8,
            RestoreError::OutOfMemory => 9,
            RestoreError::Mismatch => 10,
        }
    }
}
