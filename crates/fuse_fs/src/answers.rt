//! The arguments and results of a file system's calls.

ghost use Rattle.std.specs.Prelude.{◌≡◌, ◌<◌, ◌^◌, SomeIff};

use fuse_base::{Attr, GuestGid, GuestUid};
use fuse_in::InHeader;
use fuse_wire::EntryOut;
use std::marker::Model;

/// How long the guest may cache an answer: whole seconds, and nanoseconds below 10^9 (in place of
/// std's `Duration`).
#[derive(Clone, Copy, Debug, PartialEq, Eq)]
pub struct Timeout {
    secs: u64,
    nanos: u32,
}

impl Model for Timeout {
    ghost use Rattle.std.specs.Prelude.{◌<◌, ◌^◌};
    ghost use Rattle.fuse_fs.specs.Times.{Duration};

    ghost Value = { Duration };

    ghost view = { λ t. record { seconds = t.secs; nanos = t.nanos } };

    ghost invariant = { λ t. t.nanos < 10 ^ 9 };

    ghost inverse = { λ d. record { secs = d.seconds; nanos = d.nanos } };
}

impl Timeout {
    /// A timeout. None if `nanos` is 10^9 or more.
    pub fn new(secs: u64, nanos: u32) -> Option<Timeout>
        ensures { SomeIff result (nanos < 10 ^ 9) (record { seconds = secs; nanos = nanos }) }
    {
        if nanos < 1_000_000_000 {
            Some(Timeout { secs, nanos })
        } else {
            None
        }
    }

    /// The whole seconds.
    pub fn secs(self) -> u64
        ensures { result ≡ self.seconds }
    {
        self.secs
    }

    /// The nanoseconds, below 10^9.
    pub fn nanos(self) -> u32
        ensures value { result ≡ self.nanos }
        ensures range { result < 10 ^ 9 }
    {
        self.nanos
    }
}

/// The node of a name (virtiofsd's `Entry`). Node 0 is a negative entry: the name doesn't exist.
#[derive(Drop)]
pub struct Entry<I> {
    /// The node's number (`nodeid` of `struct fuse_entry_out`).
    pub inode: I,
    /// The generation: it differs for two nodes that have this number one after the other (`generation`).
    pub generation: u64,
    /// The node's attributes (`struct fuse_attr`).
    pub attr: Attr,
    /// How long the guest may cache the attributes
    /// (`attr_valid` and `attr_valid_nsec` of `struct fuse_entry_out`).
    pub attr_timeout: Timeout,
    /// How long the guest may cache the name (`entry_valid` and `entry_valid_nsec`).
    pub entry_timeout: Timeout,
}

/// The value of an extended attribute (virtiofsd's `GetxattrReply`).
#[derive(Debug, Drop)]
pub enum GetxattrReply {
    /// The value's bytes.
    Value(Vec<u8>),
    /// The value's length in bytes, if the call's size is 0.
    Count(u32),
}

/// The names of a node's extended attributes (virtiofsd's `ListxattrReply`).
#[derive(Debug, Drop)]
pub enum ListxattrReply {
    /// The names, each followed by a zero byte.
    Names(Vec<u8>),
    /// The names' length in bytes, if the call's size is 0.
    Count(u32),
}

/// The process in the guest that makes the call (virtiofsd's `Context`).
#[derive(Clone, Copy, Debug)]
pub struct Context {
    /// Its user ID in the guest (`uid` of `struct fuse_in_header`).
    pub uid: GuestUid,
    /// Its group ID in the guest (`gid`).
    pub gid: GuestGid,
    /// Its process ID in the guest (`pid`).
    pub pid: i32,
}

ghost use Rattle.fuse_fs.specs.Answers.{context_of, entry_out_of, numbered};

impl From<InHeader> for Context {
    ghost from_gives = { λ h c. c ≡ context_of h };

    fn from(header: InHeader) -> Context {
        Context {
            uid: header.uid,
            gid: header.gid,
            pid: header.pid.cast_signed(),
        }
    }
}

use crate::file_system::FileNumber;

impl<I: FileNumber> From<Entry<I>> for EntryOut {
    ghost from_gives = { λ e r. r ≡ entry_out_of (numbered I.number e) };

    fn from(entry: Entry<I>) -> EntryOut {
        EntryOut {
            nodeid: entry.inode.as_number(),
            generation: entry.generation,
            entry_valid: entry.entry_timeout.secs(),
            attr_valid: entry.attr_timeout.secs(),
            entry_valid_nsec: entry.entry_timeout.nanos(),
            attr_valid_nsec: entry.attr_timeout.nanos(),
            attr: entry.attr,
        }
    }
}
