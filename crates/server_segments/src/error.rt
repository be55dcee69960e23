//! The faults of a request: each leaves it without a reply (virtiofsd's `Error`).

ghost use Rattle.std.specs.Prelude.{◌≡◌};

use std::io;
use thiserror::Error as ThisError;

/// The fault of a request, numbered from 1 to 13 (virtiofsd's `Error`).
#[derive(Clone, Copy, Debug, PartialEq, Eq, ThisError)]
pub enum Error {
    #[error("the request can't be decoded")]
    DecodeMessage,
    #[error("the reply doesn't fit the reply buffer")]
    EncodeMessage,
    /// The server never returns it.
    #[error("the reply can't be flushed")]
    FlushMessage,
    #[error("a parameter is missing")]
    MissingParameter,
    #[error("an extension is missing")]
    MissingExtension,
    #[error("the header's length is too small")]
    InvalidHeaderLength,
    #[error("a name doesn't end with its only zero byte")]
    InvalidCString,
    /// The server never returns it.
    #[error("a name has no zero byte")]
    InvalidCString2,
    /// The `size` of `struct fuse_setxattr_in`, and the value's length, in bytes.
    #[error("the value's length isn't the size in the request")]
    InvalidXattrSize((u32, usize)),
    #[error("the lengths of a chain's parts add up to too much")]
    DescriptorChainOverflow,
    /// The offset of the split, in bytes.
    #[error("a split at offset {0} is out of bounds")]
    SplitOutOfBounds(usize),
    #[error("reading or writing failed")]
    IoError(io::ErrorKind),
    #[error("out of memory")]
    OutOfMemory,
}

impl Error {
    ghost use Rattle.server_segments.specs.Errors.{error_number};

    /// The fault's number, from 1 to 13.
    pub fn number(&self) -> u8
        ensures { result ≡ error_number self.now }
    {
        match self {
            Error::DecodeMessage => 1,
            Error::EncodeMessage => 2,
            Error::FlushMessage => 3,
            Error::MissingParameter => 4,
            Error::MissingExtension => 5,
            Error::InvalidHeaderLength => 6,
            Error::InvalidCString => 7,
            Error::InvalidCString2 => 8,
            Error::InvalidXattrSize(_) => 9,
            Error::DescriptorChainOverflow => 10,
            Error::SplitOutOfBounds(_) => 11,
            Error::IoError(_) => 12,
            Error::OutOfMemory => 13,
        }
    }
}
