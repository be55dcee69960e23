//! Answers that may have an entry: they are the reply, or the entry's node is forgotten.

ghost use Rattle.std.specs.Prelude.{◌≡◌, ◌<◌, ◌^◌, [], false, option_map};
ghost use Rattle.fuse_fs.specs.Calls.{FileRun};
ghost use Rattle.server_segments.specs.Errors.{lacks_memory};
ghost use Rattle.server_replies.specs.WholeReplies.{with_written, whole_or_none, bytes_of_answer};
ghost use Rattle.server_replies.specs.WholeReplies.{LeavesWriter};
ghost use Rattle.server_calls.specs.Requests.{entry_node, forget_node};
ghost use Rattle.server_meanings.specs.Serving.{undone, all_done};

use crate::server::Server;
use fuse_fs::{Context, FileSystem};
use fuse_wire::Errno;
use server_calls::entries::{EntryAnswer, answered_node};
use server_replies::answers::{AsFront, reply_answer};
use server_segments::{Error, Writer};

impl<F: FileSystem> Server<F> {
    // Calls `forget` once for a node, if there is one.
    fn forget_node(&mut self, context: Context, node: Option<F::Inode>)
        ensures run { FileRun F.may self.old.fs
            (all_done (forget_node context (option_map F.Inode.number node))) self.new.fs }
        ensures options { self.new.options ≡ self.old.options }
        ensures page_size { self.new.page_size ≡ self.old.page_size }
    {
        match node {
            Some(inode) => self.fs.forget(context, inode, 1),
            None => {}
        }
    }

    /// Writes the reply of an answer that may have an entry. Returns its length in bytes.
    /// `EncodeMessage` if it doesn't fit: the entry's node is then forgotten.
    pub(crate) fn reply_entry<A: AsFront + EntryAnswer<F::Inode>>(
        &mut self,
        context: Context,
        unique: u64,
        answer: Result<A, Errno>,
        w: &mut Writer,
    ) -> Result<usize, Error>
        requires fresh { w.old.written ≡ [] }
        requires room { w.old.free < 2 ^ 32 }
        ensures sent { with_written result w.new.written
            ≡ whole_or_none w.old.free (bytes_of_answer A.silent unique (A.said answer)) }
        ensures back { FileRun F.may self.old.fs
            (all_done (undone w.old.free (bytes_of_answer A.silent unique (A.said answer))
            (forget_node context (entry_node (A.said answer)))))
            self.new.fs }
        ensures writer { LeavesWriter result w.old w.new }
        ensures memory { lacks_memory result ≡ false }
        ensures options { self.new.options ≡ self.old.options }
        ensures page_size { self.new.page_size ≡ self.old.page_size }
    {
        let node = answered_node(&answer);
        match reply_answer(w, unique, answer) {
            Ok(len) => Ok(len),
            Err(error) => {
                self.forget_node(context, node);
                Err(error)
            }
        }
    }
}
