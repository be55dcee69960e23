//! The meanings of requests that depend on the room, a size, a version or a count: READ, READDIR,
//! READDIRPLUS, INIT and BATCH_FORGET, for `Server` and `server_phases`. Each of the two reads the
//! pairs of a BATCH_FORGET, and WRITEs, by itself.

ghost use Rattle.std.specs.Prelude.{ℕ, Bool, List};
ghost use Rattle.fuse_in.specs.declared.session.InHeader.{InHeader};
ghost use Rattle.server_meanings.specs.Grammar.{Given, given, ended, read_row, listing_row, init_row};
ghost use Rattle.server_meanings.specs.Grammar.{batch_forget_row, started};
ghost use Rattle.server_meanings.specs.RowMeanings.{ReadIsRead, ListingIsRead, InitIsRead, ForgetsAreRead};
ghost use Rattle.server_meanings.specs.RowMeanings.{ForgetsAreBehind};

use crate::session_options::known;
use fuse_in::{BatchForgetIn, InitInCompat, ReadIn};
use fuse_wire::constants::{KERNEL_VERSION, MIN_KERNEL_MINOR_VERSION};
use fuse_wire::{Errno, FsOptions};
use server_replies::init::MAX_BUFFER_SIZE;
use server_replies::replies::OUT_HEADER_LEN;
use server_requests::forgets::PairCount;
use server_requests::source::{Source, flags2};
use server_segments::Error;

// The most pairs of one request: those of 2^20 bytes.
const MAX_FORGETS: u32 = 65536;

/// The record of a READ. Errors, in this order:
/// - `DecodeMessage`: the record is cut short
/// - `EncodeMessage`: the reply buffer has less than the 16 bytes of the reply's header
#[inline(always)]
pub fn read_with_room<'a, S: Source<'a> + Drop>(room: usize, source: S) -> Result<ReadIn, Error>
    ensures { (h : InHeader) (options : ℕ)
        → ReadIsRead h room result (ended h.unique (read_row (given h options room) (S.left source))) }
{
    let mut source = source;
    match source.record::<ReadIn>() {
        Ok(request) => {
            if room < OUT_HEADER_LEN {
                return Err(Error::EncodeMessage);
            }
            Ok(request)
        }
        Err(error) => Err(error),
    }
}

/// The meaning of a READDIR or READDIRPLUS.
#[derive(Drop)]
pub enum ListingMeaning {
    /// It asks for the entries of a directory with this record. The reply's header fits.
    List(ReadIn),
    /// No call: the reply is this error.
    Error(Errno),
    /// No call and no reply: the request has this fault.
    Fault(Error),
}

/// The meaning of a READDIR or READDIRPLUS with a reply buffer of `room` bytes.
pub fn listing_meaning<'a, S: Source<'a> + Drop>(room: usize, source: S) -> ListingMeaning
    ensures { (with_nodes : Bool) (h : InHeader) (options : ℕ)
        → ListingIsRead with_nodes h room result
        (ended h.unique (listing_row with_nodes (given h options room) (S.left source))) }
{
    let mut source = source;
    match source.record::<ReadIn>() {
        Ok(request) => {
            if request.size > MAX_BUFFER_SIZE {
                return ListingMeaning::Error(Errno::ENOMEM);
            }
            if room < request.size as usize {
                return ListingMeaning::Error(Errno::ENOMEM);
            }
            if room < OUT_HEADER_LEN {
                return ListingMeaning::Fault(Error::EncodeMessage);
            }
            ListingMeaning::List(request)
        }
        Err(error) => ListingMeaning::Fault(error),
    }
}

/// The meaning of an INIT.
#[derive(Drop)]
pub enum InitMeaning {
    /// It starts a session: the known options of the client, and its readahead in bytes.
    Start { capable: FsOptions, readahead: u32 },
    /// No call: the reply has the server's version, since the client's is later.
    Versions,
    /// No call: the reply is this error.
    Error(Errno),
    /// No call and no reply: the request has this fault.
    Fault(Error),
}

// INIT with these records: compares the versions, then finds the client's known options.
fn started(request: &InitInCompat, flags2: u32) -> InitMeaning
    ensures { (g : Given) (more : List ℕ)
        → InitIsRead g.header result (ended g.header.unique (started g request.now flags2 more)) }
{
    if request.major < KERNEL_VERSION {
        return InitMeaning::Error(Errno::EPROTO);
    }
    if request.major > KERNEL_VERSION {
        return InitMeaning::Versions;
    }
    if request.minor < MIN_KERNEL_MINOR_VERSION {
        return InitMeaning::Error(Errno::EPROTO);
    }
    let capable = known(flags2 as u64 * 0x1_0000_0000 + request.flags as u64);
    InitMeaning::Start {
        capable,
        readahead: request.max_readahead,
    }
}

/// The meaning of an INIT.
pub fn init_meaning<'a, S: Source<'a> + Drop>(source: S) -> InitMeaning
    ensures { (h : InHeader) (options room : ℕ)
        → InitIsRead h result (ended h.unique (init_row (given h options room) (S.left source))) }
{
    let mut source = source;
    match source.record::<InitInCompat>() {
        Ok(request) => match flags2(&request, &mut source) {
            Ok(flags2) => started(&request, flags2),
            Err(error) => InitMeaning::Fault(error),
        },
        Err(error) => InitMeaning::Fault(error),
    }
}

/// The meaning of a BATCH_FORGET by its record.
#[derive(Drop)]
pub enum ForgetsMeaning {
    /// The number of pairs behind the record: at most 2^20 bytes of them.
    Pairs(PairCount),
    /// No call: the reply is this error.
    Error(Errno),
    /// No call and no reply: the request has this fault.
    Fault(Error),
}

/// The meaning of a BATCH_FORGET by its record. Reads no byte behind the record.
pub fn forgets_meaning<'a, S: Source<'a>>(source: &mut S) -> ForgetsMeaning
    ensures reads { (h : InHeader) (options room : ℕ)
        → ForgetsAreRead (given h options room) result (S.left source.new)
        (ended h.unique (batch_forget_row (given h options room) (S.left source.old))) }
    ensures places { ForgetsAreBehind result (S.left source.old) (S.left source.new) }
{
    match source.record::<BatchForgetIn>() {
        Ok(request) => {
            if request.count > MAX_FORGETS {
                return ForgetsMeaning::Error(Errno::ENOMEM);
            }
            ForgetsMeaning::Pairs(PairCount {
                count: request.count,
            })
        }
        Err(error) => ForgetsMeaning::Fault(error),
    }
}
