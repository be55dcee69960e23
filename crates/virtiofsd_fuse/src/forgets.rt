//! BATCH_FORGET: decreases the lookup counts of nodes.

ghost use Rattle.std.specs.Prelude.{◌≡◌, ◌<◌, ◌≤◌, ◌^◌, []};
ghost use Rattle.server_meanings.specs.Grammar.{given, batch_forget_row, forgets_asked};
ghost use Rattle.server_meanings.specs.WantOfMemory.{row_owns};
ghost use Rattle.virtiofsd_fuse.specs.ServerHandles.{RowHandles, Leaves};

use crate::server::Server;
use crate::session::silence;
use fuse_fs::{Context, FileSystem};
use fuse_in::InHeader;
use server_meanings::{ForgetsMeaning, forgets_meaning};
use server_replies::replies::reply_error;
use server_requests::forgets::read_pairs;
use server_requests::source::Segments;
use server_segments::{Error, Reader, Writer};
use std::alloc::Global;

impl<F: FileSystem> Server<F> {
    // BATCH_FORGET of `count` pairs.
    fn forget_pairs(
        &mut self,
        alloc: Global,
        head: &InHeader,
        count: u32,
        r: &mut Reader<'_>,
        w: &mut Writer,
    ) -> Result<usize, Error>
        requires fresh { w.old.written ≡ [] }
        requires room { w.old.free < 2 ^ 32 }
        requires few { count ≤ 65536 }
        ensures handles { RowHandles F.may self.old w.old.free head.now (forgets_asked count) r.old.left
            result w.new.written self.new }
        ensures rest { Leaves (row_owns (given head.now self.old.options.0 w.old.free) (forgets_asked count)
            r.old.left) result w.old w.new self.old self.new }
    {
        match read_pairs(alloc, r, count) {
            Ok(pairs) => {
                self.fs.batch_forget(Context::from(*head), pairs);
                silence()
            }
            Err(error) => Err(error),
        }
    }

    /// BATCH_FORGET: decreases the lookup counts of nodes.
    pub(crate) fn batch_forget(
        &mut self,
        alloc: Global,
        head: &InHeader,
        source: Segments<'_, '_>,
        w: &mut Writer,
    ) -> Result<usize, Error>
        requires fresh { w.old.written ≡ [] }
        requires room { w.old.free < 2 ^ 32 }
        ensures handles { RowHandles F.may self.old w.old.free head.now batch_forget_row
            source.entry.reader.left result w.new.written self.new }
        ensures rest { Leaves (row_owns (given head.now self.old.options.0 w.old.free) batch_forget_row
            source.entry.reader.left) result w.old w.new self.old self.new }
    {
        let mut source = source;
        match forgets_meaning(&mut source) {
            ForgetsMeaning::Pairs(pairs) => {
                self.forget_pairs(alloc, head, pairs.count, &mut source.reader, w)
            }
            ForgetsMeaning::Error(error) => reply_error(w, head.unique, error),
            ForgetsMeaning::Fault(error) => Err(error),
        }
    }
}
