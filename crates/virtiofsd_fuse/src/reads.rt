//! READ: puts bytes of a file straight into the reply.

ghost use Rattle.std.specs.Prelude.{◌≡◌, ℕ, ◌+◌, ◌-◌, ◌<◌, ◌≤◌, ◌^◌, List, [], ◌++◌, length, false, is_ok};
ghost use Rattle.std.specs.Prelude.{is_some, IfSome, IsTrue, Ok, Some};
ghost use Rattle.fuse_wire.specs.Opcodes.{opcode_of};
ghost use Rattle.fuse_fs.specs.Transfers.{moved};
ghost use Rattle.server_calls.specs.Requests.{read_call};
ghost use Rattle.server_meanings.specs.Grammar.{Asks, One, meaning, read_row};
ghost use Rattle.virtiofsd_fuse.specs.ReadApart.{is_read, read_meaning, read_request};
ghost use Rattle.virtiofsd_fuse.specs.ServerHandles.{RowHandles, Leaves, ServerHandles};

use crate::server::Server;
use fuse_fs::{FileSystem, ZeroCopyWriter};
use fuse_in::{InHeader, ReadIn};
use fuse_wire::{Errno, Opcode};
use server_calls::reads::make_read_call;
use server_meanings::{MAX_REQUEST_LEN, opcode_of, read_with_room};
use server_replies::replies::{OUT_HEADER_LEN, append, data_header, reply_data};
use server_requests::records::read_record;
use server_requests::source::Segments;
use server_segments::{Error, Reader, Writer, ZcWriter};
use std::alloc::Global;
use std::mem;

/// A decoded READ: its header and its record.
#[derive(Clone, Copy)]
pub struct ReadRequest {
    pub header: InHeader,
    pub record: ReadIn,
}

impl ReadRequest {
    /// The READ in a request's bytes. None if it is another request, its header has a length above
    /// `MAX_REQUEST_LEN`, or its record is cut short.
    pub fn of_bytes(alloc: Global, request: &[u8]) -> Option<ReadRequest>
        ensures some { is_some result ≡ is_ok (read_request request.now) }
        ensures means { (options room : ℕ)
            → 16 ≤ room
            → IfSome result (λ q. meaning options request.now room ≡ read_meaning q room) }
    {
        let mut r = Reader::of_slice(alloc, request);
        let Ok(header) = read_record::<InHeader>(&mut r) else {
            return None;
        };
        if header.len > MAX_REQUEST_LEN || !is_read(&header) {
            return None;
        }
        match read_record::<ReadIn>(&mut r) {
            Ok(record) => Some(ReadRequest { header, record }),
            Err(_) => None,
        }
    }
}

// Whether a header is that of a READ.
fn is_read(header: &InHeader) -> bool
    ensures test { result ≡ is_read (opcode_of header.now.opcode) }
    ensures opcode { IsTrue result → opcode_of header.now.opcode ≡ Some Opcode.Read }
{
    matches!(opcode_of(header.opcode), Some(Opcode::Read))
}

// The number of bytes that a read moved; 0 if it failed.
fn moved(answer: &Result<usize, Errno>) -> usize
    ensures { result ≡ moved answer.now }
{
    match answer {
        Ok(n) => *n,
        Err(_) => 0,
    }
}

/// The reply to a READ whose data is elsewhere: its header, and its length in bytes with the data.
#[derive(Clone, Copy)]
pub struct ReadReply {
    pub header: [u8; OUT_HEADER_LEN],
    pub len: usize,
}

impl<F: FileSystem> Server<F> {
    /// Serves a READ whose data the file system puts straight into `writer`. A read of this file
    /// system must put in no byte if it fails (`reads_whole`). The returned header, with the data
    /// behind it, is the reply.
    pub fn read_into<W: ZeroCopyWriter>(
        &mut self,
        request: &ReadRequest,
        writer: &mut W,
    ) -> ReadReply
        requires whole { IsTrue (F.reads_whole self.old.fs) }
        requires room { 16 + W.room writer.old < 2 ^ 32 }
        ensures handles { (bytes : List ℕ)
            × W.Puts writer.old bytes writer.new
            × (W.room writer.old ≡ W.room writer.new + length bytes)
            × (result.len ≡ 16 + length bytes)
            × ServerHandles F.may self.old (16 + W.room writer.old)
            (read_meaning request.now (16 + W.room writer.old)) (Ok result.len)
            (result.header ++ bytes) self.new }
        ensures page_size { self.new.page_size ≡ self.old.page_size }
    {
        let answer = make_read_call(&mut self.fs, &request.header, &request.record, writer);
        let len = OUT_HEADER_LEN + moved(&answer);
        ReadReply {
            header: data_header(request.header.unique, answer),
            len,
        }
    }

    // READ with this record: puts the data behind the 16 bytes that are reserved for the reply's header.
    #[inline(always)]
    fn read_data(
        &mut self,
        alloc: Global,
        head: &InHeader,
        request: &ReadIn,
        w: &mut Writer,
    ) -> Result<usize, Error>
        requires fresh { w.old.written ≡ [] }
        requires room { w.old.free < 2 ^ 32 }
        requires enough { 16 ≤ w.old.free }
        ensures handles { ServerHandles F.may self.old w.old.free
            (Asks (One head.now.unique (read_call head.now (w.old.free - 16) request.now)))
            result w.new.written self.new }
        ensures rest { Leaves false result w.old w.new self.old self.new }
    {
        append(w, &[0; OUT_HEADER_LEN]);
        let writer = mem::replace(w, Writer::empty(alloc));
        let mut data = ZcWriter { writer };
        let answer = make_read_call(&mut self.fs, head, request, &mut data);
        let ZcWriter { writer } = data;
        *w = writer;
        Ok(reply_data(w, head.unique, answer))
    }

    /// READ: bytes of an open file.
    #[inline(always)]
    pub(crate) fn read(
        &mut self,
        alloc: Global,
        head: &InHeader,
        source: Segments<'_, '_>,
        w: &mut Writer,
    ) -> Result<usize, Error>
        requires fresh { w.old.written ≡ [] }
        requires room { w.old.free < 2 ^ 32 }
        ensures handles { RowHandles F.may self.old w.old.free head.now read_row source.entry.reader.left
            result w.new.written self.new }
        ensures rest { Leaves false result w.old w.new self.old self.new }
    {
        let room = w.available_bytes();
        match read_with_room(room, source) {
            Ok(request) => self.read_data(alloc, head, &request, w),
            Err(error) => Err(error),
        }
    }
}
