//! WRITE: writes the data of a request to a file.

ghost use Rattle.std.specs.Prelude.{◌≡◌, ◌<◌, ◌^◌, [], false};
ghost use Rattle.server_meanings.specs.Grammar.{write_row};
ghost use Rattle.virtiofsd_fuse.specs.ServerHandles.{RowHandles, Leaves};

use crate::server::Server;
use fuse_fs::FileSystem;
use fuse_in::InHeader;
use server_calls::writes::make_write_call;
use server_replies::answers::reply_answer;
use server_requests::records::read_record;
use server_segments::{Error, Reader, Writer, ZcReader};

impl<F: FileSystem> Server<F> {
    /// WRITE: the data is all bytes behind the record.
    pub(crate) fn write(
        &mut self,
        head: &InHeader,
        mut r: Reader<'_>,
        w: &mut Writer,
    ) -> Result<usize, Error>
        requires fresh { w.old.written ≡ [] }
        requires room { w.old.free < 2 ^ 32 }
        ensures handles { RowHandles F.may self.old w.old.free head.now write_row r.entry.left result
            w.new.written self.new }
        ensures rest { Leaves false result w.old w.new self.old self.new }
    {
        match read_record(&mut r) {
            Ok(request) => {
                let mut data = ZcReader { reader: r };
                let answer = make_write_call(&mut self.fs, head, &request, &mut data);
                reply_answer(w, head.unique, answer)
            }
            Err(error) => Err(error),
        }
    }
}
