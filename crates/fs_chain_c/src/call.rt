//! The file call of a request, with the fields that C gets.

ghost use Rattle.std.specs.Prelude.{◌≡◌, ◌-◌};
ghost use Rattle.fs_chain_c.specs.Calls.{filled_attr, data_len, made, made_by, empty_call, span};

use crate::answer_kind::{AnswerKind, call_number};
use fuse_fs::Context;
use fuse_in::SetattrIn;
use fuse_values::Placed;
use fuse_wire::Opcode;

/// A span of the request's bytes.
#[repr(C)]
#[derive(Clone, Copy)]
pub struct FsSpan {
    /// The offset of its first byte.
    pub at: u32,
    /// How many bytes it has.
    pub len: u32,
}

/// A node's attributes; in a call, those to be set.
#[repr(C)]
#[derive(Clone, Copy)]
pub struct FsAttr {
    /// The inode number.
    pub ino: u64,
    /// How many bytes it has.
    pub size: u64,
    /// How many units of 512 bytes it takes.
    pub blocks: u64,
    /// When it was read last, in seconds.
    pub atime: u64,
    /// When it was written last, in seconds.
    pub mtime: u64,
    /// When its attributes changed last, in seconds.
    pub ctime: u64,
    /// Nanoseconds of `atime`.
    pub atime_nanos: u32,
    /// Nanoseconds of `mtime`.
    pub mtime_nanos: u32,
    /// Nanoseconds of `ctime`.
    pub ctime_nanos: u32,
    /// Its kind and permissions.
    pub mode: u32,
    /// How many names it has.
    pub nlink: u32,
    /// Its user.
    pub uid: u32,
    /// Its group.
    pub gid: u32,
    /// Its device, if it is one.
    pub rdev: u32,
    /// The preferred length of a read or write, in bytes.
    pub block_size: u32,
    /// FUSE_ATTR_ bits.
    pub flags: u32,
}

/// A file call of a request. The fields that a kind of call doesn't have are 0.
#[repr(C)]
#[derive(Clone, Copy)]
pub struct FsCall {
    /// The call's number (PK_CALL_).
    pub kind: u32,
    /// The kind of its answer (PK_ANSWER_).
    pub answer: u32,
    /// The opcode, as the guest wrote it.
    pub opcode: u32,
    /// Why there is no reply, if no call is made (PK_REQUEST_), or 0.
    pub fault: u32,
    /// The guest's unique number of the request.
    pub unique: u64,
    /// The caller's user.
    pub uid: u32,
    /// The caller's group.
    pub gid: u32,
    /// The caller's process.
    pub pid: u32,
    /// How many bytes of the request decoding needs, if it needs more.
    pub needed: u32,
    /// The node.
    pub node: u64,
    /// The handle of the open file.
    pub handle: u64,
    /// The offset in the file or directory.
    pub offset: u64,
    /// The call's size in bytes.
    pub size: u64,
    /// The owner of locks.
    pub owner: u64,
    /// The options that the guest offers in INIT.
    pub options: u64,
    /// How many lookups FORGET undoes, or how many pairs BATCH_FORGET has.
    pub count: u64,
    /// The other node.
    pub node2: u64,
    /// The handle of the other open file.
    pub handle2: u64,
    /// The offset in the other file.
    pub offset2: u64,
    /// The name.
    pub name: FsSpan,
    /// The other name.
    pub name2: FsSpan,
    /// The value of an attribute, the target of a link, or the pairs.
    pub value: FsSpan,
    /// The offset of data, in the reply buffer or the request.
    pub data_at: u64,
    /// How many bytes of data there are, or fit.
    pub data_len: u64,
    /// Flags of the call.
    pub flags: u32,
    /// Kind and permissions.
    pub mode: u32,
    /// The mask of permissions that are cleared.
    pub umask: u32,
    /// The device.
    pub rdev: u32,
    /// Which attributes are set (FATTR_).
    pub valid: u32,
    /// Whether GETATTR or SETATTR has a handle.
    pub has_handle: u8,
    /// Whether READ, WRITE or RELEASE has an owner of locks.
    pub has_owner: u8,
    /// Whether the write is from the guest's cache.
    pub delayed: u8,
    /// Whether to clear the set-user and set-group bits.
    pub kill_priv: u8,
    /// Whether to flush data.
    pub flush: u8,
    /// Whether to release locks.
    pub unlock: u8,
    /// Whether to sync the data alone.
    pub data_only: u8,
    /// Whether `group` is set: one of the caller's groups besides its own.
    pub has_group: u8,
    /// The attributes to be set.
    pub attr: FsAttr,
    /// The caller's other group.
    pub group: u32,
    /// The ticket by which an answer names the call.
    pub ticket: u32,
    /// The name of a new node's label.
    pub label_name: FsSpan,
    /// A new node's label.
    pub label: FsSpan,
    /// The flags of SETXATTR's longer record (FUSE_SETXATTR_).
    pub setxattr_flags: u32,
    /// Whether a new node has a label.
    pub has_label: u8,
}

// An empty span.
const NOWHERE: FsSpan = FsSpan { at: 0, len: 0 };

const NO_ATTR: FsAttr = FsAttr {
    ino: 0,
    size: 0,
    blocks: 0,
    atime: 0,
    mtime: 0,
    ctime: 0,
    atime_nanos: 0,
    mtime_nanos: 0,
    ctime_nanos: 0,
    mode: 0,
    nlink: 0,
    uid: 0,
    gid: 0,
    rdev: 0,
    block_size: 0,
    flags: 0,
};

// No call: all is 0.
const NO_CALL: FsCall = FsCall {
    kind: 0,
    answer: 0,
    opcode: 0,
    fault: 0,
    unique: 0,
    uid: 0,
    gid: 0,
    pid: 0,
    needed: 0,
    node: 0,
    handle: 0,
    offset: 0,
    size: 0,
    owner: 0,
    options: 0,
    count: 0,
    node2: 0,
    handle2: 0,
    offset2: 0,
    name: NOWHERE,
    name2: NOWHERE,
    value: NOWHERE,
    data_at: 0,
    data_len: 0,
    flags: 0,
    mode: 0,
    umask: 0,
    rdev: 0,
    valid: 0,
    has_handle: 0,
    has_owner: 0,
    delayed: 0,
    kill_priv: 0,
    flush: 0,
    unlock: 0,
    data_only: 0,
    has_group: 0,
    attr: NO_ATTR,
    group: 0,
    ticket: 0,
    label_name: NOWHERE,
    label: NOWHERE,
    setxattr_flags: 0,
    has_label: 0,
};

impl FsCall {
    /// No call.
    pub fn none() -> FsCall
        ensures { result ≡ empty_call }
    {
        NO_CALL
    }

    // A call with this kind of answer, of no process.
    pub(crate) fn made(opcode: Opcode, answer: AnswerKind) -> FsCall
        ensures { result ≡ made opcode answer }
    {
        let mut filled = NO_CALL;
        filled.kind = call_number(opcode);
        filled.answer = answer.number();
        filled
    }

    // The same of a call that a process makes on a node.
    pub(crate) fn made_by(opcode: Opcode, answer: AnswerKind, who: &Context, node: u64) -> FsCall
        ensures { result ≡ made_by opcode answer who.now node }
    {
        let mut filled = FsCall::made(opcode, answer);
        filled.uid = who.uid.0;
        filled.gid = who.gid.0;
        filled.pid = who.pid.cast_unsigned();
        filled.node = node;
        filled
    }
}

/// The bytes of a reply's header: data follows it.
pub(crate) const HEADER: u64 = 16;

// The span of some bytes of a request.
pub(crate) fn span(placed: &Placed<'_>) -> FsSpan
    ensures { result ≡ span placed.now }
{
    FsSpan {
        at: placed.at,
        len: placed.bytes.len() as u32,
    }
}

// The bytes of a reply buffer behind the reply's header.
pub(crate) fn behind_header(room: usize) -> u64
    ensures { result ≡ room - 16 }
{
    (room as u64).saturating_sub(HEADER)
}

// How many bytes of data fit the reply buffer, of those that are requested.
pub(crate) fn data_len(size: u32, room: usize) -> u64
    ensures { result ≡ data_len size room }
{
    u64::from(size).min(behind_header(room))
}

// The attributes that SETATTR sets.
pub(crate) fn filled_attr(attr: &SetattrIn) -> FsAttr
    ensures { result ≡ filled_attr attr.now }
{
    let mut filled = NO_ATTR;
    filled.size = attr.size;
    filled.atime = attr.atime;
    filled.mtime = attr.mtime;
    filled.ctime = attr.ctime;
    filled.atime_nanos = attr.atimensec;
    filled.mtime_nanos = attr.mtimensec;
    filled.ctime_nanos = attr.ctimensec;
    filled.mode = attr.mode;
    filled.uid = attr.uid.0;
    filled.gid = attr.gid.0;
    filled
}
