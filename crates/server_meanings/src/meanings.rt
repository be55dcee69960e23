//! The meanings of requests with at most one plain call. `Server` performs the call;
//! `server_phases` returns it to its caller.

ghost use Rattle.std.specs.Prelude.{◌≡◌, ◌+◌, ◌||◌, Some, true, false};
ghost use Rattle.server_requests.specs.Fronts.{counted_split, record_len, setxattr_len};
ghost use Rattle.server_meanings.specs.Grammar.{row, header_row, record_row, name_row, record_name_row};
ghost use Rattle.server_meanings.specs.Grammar.{two_names_row, new_name_row};
ghost use Rattle.server_meanings.specs.Grammar.{symlink_row, getxattr_row, listxattr_row, setxattr_row};
ghost use Rattle.server_meanings.specs.RowMeanings.{RowReads, StandsBehindHeader, is_single};
ghost use Rattle.server_meanings.specs.WantOfMemory.{row_owns, takes_memory};

use fuse_in::{GetxattrIn, InHeader};
use fuse_values::FileCall;
use fuse_wire::{Errno, FsOptions, Opcode};
use server_calls::links::{Link, Rename, Rename2};
use server_calls::new_nodes::{Create, Mkdir, Mknod, symlink_value};
use server_calls::nodes::{
    Access, Forget, Getattr, Lookup, Readlink, Removexattr, Rmdir, Setattr, Statfs, Syncfs, Unlink,
};
use server_calls::open_files::{
    CopyFileRange, Fallocate, Flush, Fsync, Fsyncdir, Lseek, Open, Opendir, Release, Releasedir,
};
use server_calls::plain_requests::{Bmap, Getlk, Ioctl, NotifyReply, Poll, Setlk, Setlkw, TmpFile};
use server_calls::session::Destroy;
use server_calls::values::{
    NameValue, NewNameValue, PlainValue, RecordNameValue, RecordValue, TwoNamesValue,
};
use server_calls::xattrs::{Getxattr, Listxattr, setxattr_value};
use server_replies::init::MAX_BUFFER_SIZE;
use server_requests::names::{last_name, name_and_value, two_names};
use server_requests::new_names::{new_link, new_name};
use server_requests::source::{Source, record_and_bytes, setxattr_and_bytes};
use server_segments::Error;

/// The meaning of a request with at most one call. The call's names are borrowed from the request.
#[derive(Drop)]
pub enum RequestMeaning<'a> {
    /// The file call of the request.
    Call(FileCall<'a>),
    /// No call: the reply is this error.
    Error(Errno),
    /// No call and no reply.
    Silence,
    /// No call and no reply: the request has this fault.
    Fault(Error),
}

// A request that is only its header.
#[inline(always)]
fn header_row<'a, R: PlainValue, S: Source<'a> + Drop>(
    head: &InHeader,
    options: FsOptions,
    source: S,
) -> RequestMeaning<'a>
    ensures reads { RowReads S.splits (λ g. false) head.now options.0 (header_row R.call)
        (S.left source) result }
    ensures places { StandsBehindHeader (S.left source) 40 result }
{
    RequestMeaning::Call(R::value(head))
}

// A request that is one record.
#[inline(always)]
fn record_row<'a, R: RecordValue, S: Source<'a> + Drop>(
    head: &InHeader,
    options: FsOptions,
    source: S,
) -> RequestMeaning<'a>
    ensures reads { RowReads S.splits (λ g. false) head.now options.0 (record_row R.Record.shape R.call)
        (S.left source) result }
    ensures places { StandsBehindHeader (S.left source) 40 result }
{
    let mut source = source;
    match source.record() {
        Ok(request) => RequestMeaning::Call(R::value(head, &request)),
        Err(error) => RequestMeaning::Fault(error),
    }
}

// A request that is one name.
#[inline(always)]
fn name_row<'a, R: NameValue, S: Source<'a> + Drop>(
    head: &InHeader,
    options: FsOptions,
    source: S,
) -> RequestMeaning<'a>
    ensures reads { RowReads S.splits (λ g. counted_split g.header.len 0 (S.segments source))
        head.now options.0 (name_row R.call) (S.left source) result }
    ensures places { StandsBehindHeader (S.left source) 40 result }
{
    match source.counted(head.len, 0) {
        Ok(bytes) => match last_name(bytes) {
            Ok(name) => RequestMeaning::Call(R::value(head, name)),
            Err(error) => RequestMeaning::Fault(error),
        },
        Err(error) => RequestMeaning::Fault(error),
    }
}

// A request that is one record and one name.
#[inline(always)]
fn record_name_row<'a, R: RecordNameValue, S: Source<'a> + Drop>(
    head: &InHeader,
    options: FsOptions,
    source: S,
) -> RequestMeaning<'a>
    ensures reads { RowReads S.splits (λ g. counted_split g.header.len R.Record.SIZE (S.segments source))
        head.now options.0 (record_name_row R.Record.shape R.Record.SIZE R.call) (S.left source) result }
    ensures places { StandsBehindHeader (S.left source) (40 + R.Record.SIZE) result }
{
    match record_and_bytes::<R::Record, S>(source, head.len) {
        Ok(front) => match last_name(front.bytes) {
            Ok(name) => RequestMeaning::Call(R::value(head, &front.record, name)),
            Err(error) => RequestMeaning::Fault(error),
        },
        Err(error) => RequestMeaning::Fault(error),
    }
}

// A request that is one record and two names.
#[inline(always)]
fn two_names_row<'a, R: TwoNamesValue, S: Source<'a> + Drop>(
    head: &InHeader,
    options: FsOptions,
    source: S,
) -> RequestMeaning<'a>
    ensures reads { RowReads S.splits (λ g. counted_split g.header.len R.Record.SIZE (S.segments source))
        head.now options.0 (two_names_row R.Record.shape R.Record.SIZE R.call) (S.left source) result }
    ensures places { StandsBehindHeader (S.left source) (40 + R.Record.SIZE) result }
{
    match record_and_bytes::<R::Record, S>(source, head.len) {
        Ok(front) => match two_names(front.bytes) {
            Ok((old, new)) => RequestMeaning::Call(R::value(head, &front.record, old, new)),
            Err(error) => RequestMeaning::Fault(error),
        },
        Err(error) => RequestMeaning::Fault(error),
    }
}

// A request that is one record and the name of a new node.
#[inline(always)]
fn new_name_row<'a, R: NewNameValue, S: Source<'a> + Drop>(
    head: &InHeader,
    options: FsOptions,
    source: S,
) -> RequestMeaning<'a>
    ensures reads { RowReads S.splits
        (λ g. row_owns g (new_name_row R.Record.shape R.Record.SIZE R.call) (S.left source)
        || counted_split g.header.len R.Record.SIZE (S.segments source))
        head.now options.0 (new_name_row R.Record.shape R.Record.SIZE R.call) (S.left source) result }
    ensures places { StandsBehindHeader (S.left source) (40 + R.Record.SIZE) result }
{
    match record_and_bytes::<R::Record, S>(source, head.len) {
        Ok(front) => match new_name(options, front.bytes) {
            Ok(new) => {
                let call = R::value(head, &front.record, new.name, new.received);
                RequestMeaning::Call(call)
            }
            Err(error) => RequestMeaning::Fault(error),
        },
        Err(error) => RequestMeaning::Fault(error),
    }
}

// SYMLINK: the name and the target.
#[inline(always)]
fn symlink_row<'a, S: Source<'a> + Drop>(
    head: &InHeader,
    options: FsOptions,
    source: S,
) -> RequestMeaning<'a>
    ensures reads { RowReads S.splits (λ g. row_owns g symlink_row (S.left source)
        || counted_split g.header.len 0 (S.segments source))
        head.now options.0 symlink_row (S.left source) result }
    ensures places { StandsBehindHeader (S.left source) 40 result }
{
    match source.counted(head.len, 0) {
        Ok(bytes) => match new_link(options, bytes) {
            Ok(parts) => {
                let call = symlink_value(head, parts.link, parts.name, parts.received);
                RequestMeaning::Call(call)
            }
            Err(error) => RequestMeaning::Fault(error),
        },
        Err(error) => RequestMeaning::Fault(error),
    }
}

// GETXATTR: a record, and the name of an attribute. ENOMEM if the client asks for more than 2^20 bytes.
#[inline(always)]
fn getxattr_row<'a, S: Source<'a> + Drop>(
    head: &InHeader,
    options: FsOptions,
    source: S,
) -> RequestMeaning<'a>
    ensures reads { RowReads S.splits (λ g. counted_split g.header.len 8 (S.segments source))
        head.now options.0 getxattr_row (S.left source) result }
    ensures places { StandsBehindHeader (S.left source) 48 result }
{
    match record_and_bytes::<GetxattrIn, S>(source, head.len) {
        Ok(front) => {
            if front.record.size > MAX_BUFFER_SIZE {
                return RequestMeaning::Error(Errno::ENOMEM);
            }
            match last_name(front.bytes) {
                Ok(name) => RequestMeaning::Call(Getxattr::value(head, &front.record, name)),
                Err(error) => RequestMeaning::Fault(error),
            }
        }
        Err(error) => RequestMeaning::Fault(error),
    }
}

// LISTXATTR: a record. ENOMEM if the client asks for more than 2^20 bytes.
#[inline(always)]
fn listxattr_row<'a, S: Source<'a> + Drop>(
    head: &InHeader,
    options: FsOptions,
    source: S,
) -> RequestMeaning<'a>
    ensures reads { RowReads S.splits (λ g. false) head.now options.0 listxattr_row
        (S.left source) result }
    ensures places { StandsBehindHeader (S.left source) 40 result }
{
    let mut source = source;
    match source.record::<GetxattrIn>() {
        Ok(request) => {
            if request.size > MAX_BUFFER_SIZE {
                return RequestMeaning::Error(Errno::ENOMEM);
            }
            RequestMeaning::Call(Listxattr::value(head, &request))
        }
        Err(error) => RequestMeaning::Fault(error),
    }
}

// SETXATTR: a record, the name of an attribute, and its value.
#[inline(always)]
fn setxattr_row<'a, S: Source<'a> + Drop>(
    head: &InHeader,
    options: FsOptions,
    source: S,
) -> RequestMeaning<'a>
    ensures reads { RowReads S.splits
        (λ g. counted_split g.header.len (setxattr_len g.options) (S.segments source))
        head.now options.0 setxattr_row (S.left source) result }
    ensures places { StandsBehindHeader (S.left source) (40 + setxattr_len options.0) result }
{
    match setxattr_and_bytes(source, options, head.len) {
        Ok(front) => match name_and_value(front.bytes, front.record.size) {
            Ok((name, value)) => {
                let call = setxattr_value(head, &front.record, name, value);
                RequestMeaning::Call(call)
            }
            Err(error) => RequestMeaning::Fault(error),
        },
        Err(error) => RequestMeaning::Fault(error),
    }
}

// A match over opcodes. Each row has the function that reads requests of a shape, and their
// opcodes. Other arms follow the rows.
macro_rules! by_shape {
    ($opcode:expr, $head:ident, $options:ident, $source:ident,
        { $($row:ident: $($name:ident)+;)* } $($arm:tt)*) => {
        match $opcode {
            $($(Opcode::$name => $row::<$name, S>($head, $options, $source),)+)*
            $($arm)*
        }
    };
}

/// The meaning of a request with this opcode and these bytes behind its header. The fault is `OutOfMemory`
/// only if names, or a name and a value, lie in several segments and the allocation for a copy failed.
#[tactic(auto, unfolding(crate::specs::Grammar::row))]
#[inline(always)]
pub fn row_meaning<'a, S: Source<'a> + Drop>(
    opcode: Opcode,
    head: &InHeader,
    options: FsOptions,
    source: S,
) -> RequestMeaning<'a>
    requires { is_single opcode ≡ true }
    ensures reads { RowReads S.splits (λ g. takes_memory g opcode (S.segments source) (S.left source))
        head.now options.0 (λ g. row g opcode) (S.left source) result }
    ensures places { StandsBehindHeader (S.left source) (40 + record_len options.0 (Some opcode)) result }
{
    by_shape!(opcode, head, options, source, {
        header_row: Readlink Statfs Getlk Setlk Setlkw Bmap Destroy Ioctl Poll NotifyReply Syncfs TmpFile;
        record_row: Forget Getattr Setattr Open Release Fsync Flush Opendir Releasedir Fsyncdir Access
            Fallocate Lseek CopyFileRange;
        name_row: Lookup Unlink Rmdir Removexattr;
        record_name_row: Link;
        two_names_row: Rename Rename2;
        new_name_row: Mknod Mkdir Create;
    }
    Opcode::Symlink => symlink_row(head, options, source),
    Opcode::Getxattr => getxattr_row(head, options, source),
    Opcode::Listxattr => listxattr_row(head, options, source),
    Opcode::Setxattr => setxattr_row(head, options, source),
    Opcode::Interrupt => RequestMeaning::Silence,
    Opcode::SetupMapping | Opcode::RemoveMapping => RequestMeaning::Error(Errno::ENOSYS),
    Opcode::Init
    | Opcode::BatchForget
    | Opcode::Read
    | Opcode::Write
    | Opcode::Readdir
    | Opcode::Readdirplus => unreachable!())
}
