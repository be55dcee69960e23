//! The start and the end of a session.

ghost use Rattle.std.specs.Prelude.{◌≡◌, ◌<◌, ◌^◌, [], bit_and, Ok, false};
ghost use Rattle.fuse_fs.specs.Calls.{Destroy, Done};
ghost use Rattle.server_meanings.specs.Grammar.{Asks, Starts, init_row, known_options};
ghost use Rattle.virtiofsd_fuse.specs.ServerHandles.{RowHandles, ServerHandles, Leaves};

use crate::server::Server;
use bitflags::Flags;
use fuse_fs::FileSystem;
use fuse_in::InHeader;
use fuse_wire::FsOptions;
use server_calls::session::make_init_call;
use server_meanings::{InitMeaning, agree, init_meaning};
use server_replies::fronts::Front;
use server_replies::init::{start_bytes, versions};
use server_replies::replies::{reply_error, reply_front};
use server_requests::source::Segments;
use server_segments::{Error, Writer};

impl<F: FileSystem> Server<F> {
    // INIT with the client's known options: calls the file system, and sets the agreed options.
    fn start(
        &mut self,
        head: &InHeader,
        capable: FsOptions,
        readahead: u32,
        w: &mut Writer,
    ) -> Result<usize, Error>
        requires fresh { w.old.written ≡ [] }
        requires room { w.old.free < 2 ^ 32 }
        requires known { bit_and capable.0 known_options ≡ capable.0 }
        ensures handles { ServerHandles F.may self.old w.old.free
            (Asks (Starts head.now.unique capable.0 readahead)) result w.new.written self.new }
        ensures rest { Leaves false result w.old w.new self.old self.new }
    {
        match make_init_call(&mut self.fs, capable) {
            Ok(wanted) => {
                let options = agree(capable, wanted);
                self.options = options;
                let bytes = start_bytes(self.page_size, readahead, options);
                reply_front(w, &Front::reply(head.unique, &bytes))
            }
            Err(error) => reply_error(w, head.unique, error),
        }
    }

    /// INIT: compares the versions, and sets the agreed options.
    pub(crate) fn init(
        &mut self,
        head: &InHeader,
        source: Segments<'_, '_>,
        w: &mut Writer,
    ) -> Result<usize, Error>
        requires fresh { w.old.written ≡ [] }
        requires room { w.old.free < 2 ^ 32 }
        ensures handles { RowHandles F.may self.old w.old.free head.now init_row source.entry.reader.left
            result w.new.written self.new }
        ensures rest { Leaves false result w.old w.new self.old self.new }
    {
        match init_meaning(source) {
            InitMeaning::Start { capable, readahead } => self.start(head, capable, readahead, w),
            InitMeaning::Versions => reply_front(w, &Front::reply(head.unique, &versions())),
            InitMeaning::Error(error) => reply_error(w, head.unique, error),
            InitMeaning::Fault(error) => Err(error),
        }
    }

    /// Ends the session: calls the file system's `destroy`. No option is agreed from then on.
    pub fn destroy(&mut self)
        ensures may { F.may self.old.fs Destroy Done self.new.fs }
        ensures options { self.new.options.0 ≡ 0 }
        ensures page_size { self.new.page_size ≡ self.old.page_size }
    {
        self.fs.destroy();
        self.options = FsOptions::from_bits_retain(0);
    }
}

/// The length of no reply.
pub(crate) fn silence() -> Result<usize, Error>
    ensures { result ≡ Ok 0 }
{
    Ok(0)
}
