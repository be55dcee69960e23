//! A listing to which the caller adds entry after entry.

ghost use Rattle.std.specs.Prelude.{◌≤◌, ◌^◌};

use server_replies::fronts::Front;

/// The entries of a READDIR or READDIRPLUS so far. Their bytes are in a list of the caller's: it
/// passes the same list to each call, and the front of the list is the reply's data.
#[derive(Debug, Drop)]
pub struct Listing {
    pub(crate) unique: u64,
    pub(crate) with_nodes: bool,
    /// The size that the client asked for, in bytes of entries.
    pub(crate) size: usize,
    /// The bytes of the reply buffer behind the header.
    pub(crate) room: usize,
    pub(crate) len: usize,
    ghost asked: { len ≤ size },
    ghost fits: { len ≤ room },
    ghost small: { size ≤ 2 ^ 20 },
}

/// The reason for which an entry wasn't added. Nothing has changed. The caller forgets the node if
/// it looked it up.
#[derive(Clone, Copy, Debug, PartialEq, Eq)]
pub enum NotAdded {
    /// The entry has a node in READDIR, or none in READDIRPLUS.
    OtherKind,
    /// The entry doesn't fit in the rest of the size: the reply has the entries so far
    /// (`Listing::end`). In READDIRPLUS the file system does a FORGET of 1 for its node.
    Full,
    /// The entry fits in the size, but not in the reply buffer: the listing fails with EIO
    /// (`Listing::fail`). In READDIRPLUS the file system does a FORGET of 1 for its node.
    NoRoom,
    /// The name has 2^32 bytes or more: as `NoRoom`, but with EOVERFLOW.
    TooLong,
    /// The caller's list is too short for the entry.
    ShortList,
}

/// The reply to a listing.
#[derive(Drop)]
pub struct ListingReply {
    /// The bytes of the reply before the data.
    pub front: Front,
    /// The number of bytes of the list that are the data.
    pub len: usize,
}
