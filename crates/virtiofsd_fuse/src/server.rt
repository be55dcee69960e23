//! The server: it decodes a request, calls its file system, and writes the reply (virtiofsd's `Server`).

ghost use Rattle.std.specs.Prelude.{◌≡◌, ◌+◌, ◌<◌, ◌≤◌, ◌^◌, true, false, [], length, IfOk, OnOk, OnErr};
ghost use Rattle.std.specs.Prelude.{IsTrue, bit_and};
ghost use Rattle.server_replies.specs.PageSizes.{is_page_size};
ghost use Rattle.server_segments.specs.Errors.{lacks_memory};
ghost use Rattle.server_meanings.specs.Grammar.{given, meant, meaning, known_options};
ghost use Rattle.server_meanings.specs.RowMeanings.{is_single};
ghost use Rattle.server_meanings.specs.WantOfMemory.{takes_memory, body_takes_memory, may_take_memory};

use crate::session::silence;
use bitflags::Flags;
use fuse_fs::FileSystem;
use fuse_in::InHeader;
use fuse_wire::{Errno, FsOptions, Opcode};
use server_meanings::{MAX_REQUEST_LEN, RequestMeaning, known, opcode_of, row_meaning};
use server_replies::replies::reply_error;
use server_requests::records::read_record;
use server_requests::source::Segments;
use server_segments::{Error, Reader, Writer};
use std::alloc::Global;

/// A server of one file system.
#[derive(Drop)]
pub struct Server<F> {
    pub(crate) fs: F,
    pub(crate) page_size: u32,
    pub(crate) options: FsOptions,
    ghost pages: { IsTrue (is_page_size page_size) },
    ghost known: { bit_and options.0 known_options ≡ options.0 },
}

impl<F: FileSystem> Server<F> {
    ghost use Rattle.virtiofsd_fuse.specs.ServerHandles.{ServerHandles, OpcodeHandles, Leaves};

    /// A server without agreed options. The guest's pages have `page_size` bytes.
    pub fn new(fs: F, page_size: u32) -> Server<F>
        requires { IsTrue (is_page_size page_size) }
        ensures fs { result.fs ≡ fs }
        ensures page_size { result.page_size ≡ page_size }
        ensures options { result.options.0 ≡ 0 }
    {
        Server {
            fs,
            page_size,
            options: FsOptions::from_bits_retain(0),
        }
    }

    /// A server with the options agreed before, except unknown bits. The guest's pages have
    /// `page_size` bytes.
    pub fn resume(fs: F, page_size: u32, options: FsOptions) -> Server<F>
        requires { IsTrue (is_page_size page_size) }
        ensures fs { result.fs ≡ fs }
        ensures page_size { result.page_size ≡ page_size }
        ensures options { result.options.0 ≡ bit_and options.0 known_options }
    {
        Server {
            fs,
            page_size,
            options: known(options.bits()),
        }
    }

    /// The file system; the server is consumed.
    pub fn into_fs(self) -> F
        ensures { result ≡ self.fs }
    {
        let Server { fs, .. } = self;
        fs
    }

    /// The agreed options.
    pub fn options(&self) -> FsOptions
        ensures value { result ≡ self.now.options }
        ensures known { bit_and result.0 known_options ≡ result.0 }
    {
        self.options
    }

    /// The size of the guest's pages, in bytes.
    pub fn page_size(&self) -> u32
        ensures value { result ≡ self.now.page_size }
        ensures is_one { IsTrue (is_page_size result) }
    {
        self.page_size
    }

    /// The file system.
    pub fn fs(&self) -> &F
        ensures { result.now ≡ self.now.fs }
    {
        &self.fs
    }

    // Serves a request with one plain call, or with none (`is_single`). The other functions are
    // inlined into `handle_message`. This one is too long for that: `handle_message` itself would
    // no longer be inlined where a chain is served.
    #[inline(never)]
    fn serve_single(
        &mut self,
        alloc: Global,
        opcode: Opcode,
        head: &InHeader,
        source: Segments<'_, '_>,
        w: &mut Writer,
    ) -> Result<usize, Error>
        requires fresh { w.old.written ≡ [] }
        requires room { w.old.free < 2 ^ 32 }
        requires single { is_single opcode ≡ true }
        ensures handles { OpcodeHandles F.may self.old w.old.free head.now opcode source.entry.reader.left
            result w.new.written self.new }
        ensures rest { Leaves (takes_memory (given head.now self.old.options.0 w.old.free) opcode
            source.entry.reader.segments source.entry.reader.left)
            result w.old w.new self.old self.new }
    {
        match row_meaning(opcode, head, self.options, source) {
            RequestMeaning::Call(call) => self.perform(alloc, head.unique, call, w),
            RequestMeaning::Error(error) => reply_error(w, head.unique, error),
            RequestMeaning::Silence => silence(),
            RequestMeaning::Fault(error) => Err(error),
        }
    }

    // Serves a request by its opcode.
    #[tactic(auto, unfolding(server_meanings::specs::Grammar::row))]
    #[inline(always)]
    fn dispatch(
        &mut self,
        alloc: Global,
        opcode: Opcode,
        head: &InHeader,
        r: Reader<'_>,
        w: &mut Writer,
    ) -> Result<usize, Error>
        requires fresh { w.old.written ≡ [] }
        requires room { w.old.free < 2 ^ 32 }
        ensures handles { OpcodeHandles F.may self.old w.old.free head.now opcode r.entry.left result
            w.new.written self.new }
        ensures rest { Leaves (takes_memory (given head.now self.old.options.0 w.old.free) opcode
            r.entry.segments r.entry.left)
            result w.old w.new self.old self.new }
    {
        let mut held = Vec::new(alloc);
        let source = Segments {
            alloc,
            reader: r,
            held: &mut held,
        };
        match opcode {
            Opcode::Read => self.read(alloc, head, source, w),
            Opcode::Write => self.write(head, source.reader, w),
            Opcode::Readdir => self.read_directory(head, false, source, w),
            Opcode::Readdirplus => self.read_directory(head, true, source, w),
            Opcode::BatchForget => self.batch_forget(alloc, head, source, w),
            Opcode::Init => self.init(head, source, w),
            _ => self.serve_single(alloc, opcode, head, source, w),
        }
    }

    // Serves a request whose header was read.
    #[inline(always)]
    fn serve(
        &mut self,
        alloc: Global,
        head: &InHeader,
        r: Reader<'_>,
        w: &mut Writer,
    ) -> Result<usize, Error>
        requires fresh { w.old.written ≡ [] }
        requires room { w.old.free < 2 ^ 32 }
        ensures handles { ServerHandles F.may self.old w.old.free
            (meant (given head.now self.old.options.0 w.old.free) r.entry.left) result
            w.new.written self.new }
        ensures rest { Leaves (body_takes_memory (given head.now self.old.options.0 w.old.free)
            r.entry.segments r.entry.left)
            result w.old w.new self.old self.new }
    {
        if head.len > MAX_REQUEST_LEN {
            return reply_error(w, head.unique, Errno::ENOMEM);
        }
        match opcode_of(head.opcode) {
            Some(opcode) => self.dispatch(alloc, opcode, head, r, w),
            None => reply_error(w, head.unique, Errno::ENOSYS),
        }
    }

    /// Serves the one request in the reader: decodes it, calls the file system, and writes the reply. The
    /// writer's free bytes are the reply buffer. Returns the reply's length in bytes, 0 without a reply. A
    /// fault leaves the writer unchanged. `OutOfMemory` is returned only before any call.
    #[tactic(auto, using(crate::proofs::Left::left_length, crate::proofs::Left::left_room, crate::proofs::Left::left_same))]
    #[inline(always)]
    pub fn handle_message(
        &mut self,
        alloc: Global,
        mut r: Reader<'_>,
        w: &mut Writer,
    ) -> Result<usize, Error>
        requires fresh { w.old.written ≡ [] }
        requires room { w.old.free < 2 ^ 32 }
        ensures handles { ServerHandles F.may self.old w.old.free
            (meaning self.old.options.0 r.entry.left w.old.free) result w.new.written self.new }
        ensures length { IfOk result (λ n. n ≡ length w.new.written) }
        ensures fits { OnOk result (length w.new.written ≤ w.old.free) }
        ensures free { OnOk result (length w.new.written + w.new.free ≡ w.old.free) }
        ensures same { OnErr result (w.new ≡ w.old) }
        ensures memory { may_take_memory self.old.options.0 r.entry w.old.free ≡ false
            → lacks_memory result ≡ false }
        ensures page_size { self.new.page_size ≡ self.old.page_size }
    {
        match read_record(&mut r) {
            Ok(head) => self.serve(alloc, &head, r, w),
            Err(error) => Err(error),
        }
    }
}
