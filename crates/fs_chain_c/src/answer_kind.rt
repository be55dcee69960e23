//! The kinds of answers to calls, by C's numbers.

ghost use Rattle.std.specs.Prelude.{◌≡◌};
ghost use Rattle.fs_chain_c.specs.Numbers.{answer_number, call_number, listing, sized};

use fuse_wire::Opcode;

/// The kind of answer to a call (PK_ANSWER_).
#[derive(Clone, Copy, Debug, PartialEq, Eq)]
pub enum AnswerKind {
    /// None: the library answered, or there is no call.
    None = 0,
    /// Done: only the status.
    Done = 1,
    /// An entry: the node of a name.
    Entry = 2,
    /// Attributes.
    Attr = 3,
    /// An open file.
    Open = 4,
    /// An entry, and an open file.
    Create = 5,
    /// Data.
    Data = 6,
    /// How many bytes an extended attribute has, or the names of all.
    Xattr = 7,
    /// Sizes and free space of the file system.
    Statfs = 8,
    /// How many bytes were written.
    Write = 9,
    /// An offset in a file.
    Lseek = 10,
    /// Entries of a directory.
    Entries = 11,
    /// The options of INIT.
    Init = 12,
}

impl AnswerKind {
    /// Its number.
    pub fn number(self) -> u32
        ensures { result ≡ answer_number self }
    {
        self as u32
    }
}

/// The number of a call: that of its request (`enum fuse_opcode`).
pub(crate) fn call_number(opcode: Opcode) -> u32
    ensures { result ≡ call_number opcode }
{
    opcode as u32
}

/// The answer's kind for GETXATTR and LISTXATTR: a length if the size is 0, else data.
pub(crate) fn sized(size: u32) -> AnswerKind
    ensures { result ≡ sized size }
{
    if size == 0 {
        AnswerKind::Xattr
    } else {
        AnswerKind::Data
    }
}

/// READDIR or READDIRPLUS, by the request's opcode.
pub(crate) fn listing(opcode: u32) -> Opcode
    ensures { result ≡ listing opcode }
{
    if opcode == call_number(Opcode::Readdirplus) {
        Opcode::Readdirplus
    } else {
        Opcode::Readdir
    }
}
