//! A reply of the caller's own bytes, to a request that the server doesn't serve.

ghost use Rattle.std.specs.Prelude.{◌≡◌, None, Some, IfErr, OnOk, OnErr};
ghost use Rattle.fs_chain.specs.Holds.{RepliesOwnInRun};
ghost use Rattle.fs_chain.specs.OwnReplies.{IfUnanswered, own_error, own_len_error, own_reply};
ghost use Rattle.fs_chain.specs.Orders.{front_len, reply_len};
ghost use Rattle.fs_chain.specs.declared.state.ChainState.TheVariants as at;

use crate::chain_handle::ChainHandle;
use crate::error::ChainError;
use crate::state::{ChainReply, ChainState, InFlight};

impl ChainHandle {
    // Keeps a reply of `len` bytes for a chain that has none yet.
    fn keep_own(&mut self, out: InFlight, len: usize) -> Result<(), ChainError>
        ensures error { IfErr result (λ e. own_len_error out.room_len len ≡ Some e) }
        ensures ok { OnOk result (own_len_error out.room_len len ≡ None) }
        ensures same { OnErr result (self.new ≡ self.old) }
        ensures kept { OnOk result (self.new ≡ record self.old
            { state = at.Replied out (own_reply len) }) }
        ensures returned { OnOk result ((front_len (own_reply len) ≡ 0)
            × (reply_len out (own_reply len) ≡ len)) }
    {
        if out.room_len < len || (u32::MAX as usize) < len {
            return Err(ChainError::LongReply);
        }
        let front = None;
        self.state = ChainState::Replied(out, ChainReply { front, behind: len });
        Ok(())
    }

    // Keeps a reply for the chain of this number, if it has none.
    fn reply_known(&mut self, ticket: u32, len: usize) -> Result<(), ChainError>
        ensures error { IfErr result (λ e. own_error self.old.state self.old.ticket ticket len ≡ Some e) }
        ensures ok { OnOk result (own_error self.old.state self.old.ticket ticket len ≡ None) }
        ensures same { OnErr result (self.new ≡ self.old) }
        ensures kept { OnOk result (IfUnanswered self.old.state
            (λ out. self.new ≡ record self.old { state = at.Replied out (own_reply len) })) }
        ensures returned { OnOk result (IfUnanswered self.old.state (λ out. (front_len (own_reply len) ≡ 0)
            × (reply_len out (own_reply len) ≡ len))) }
    {
        match &self.state {
            ChainState::Popped(out) | ChainState::Decoded(out, _) | ChainState::Listing(out, _) => {
                let out = *out;
                if self.ticket != ticket {
                    return Err(ChainError::OtherCall);
                }
                self.keep_own(out, len)
            }
            _ => Err(ChainError::WrongOrder),
        }
    }

    /// Replies with `len` bytes of the caller's own, header included (struct fuse_out_header of
    /// linux/fuse.h). The caller puts them at the start of the reply buffer, before it stores the used
    /// index. With 0 bytes the chain is pushed without a reply.
    ///
    /// This replaces `decode`, for a request that the server doesn't serve; or it replaces the answer to a
    /// call in flight, of which nothing is kept. `push` then returns no front, and the used element has
    /// `len` (VIRTIO 1.2, 2.7.8).
    ///
    /// After an error nothing changed:
    /// - `WrongOrder`: no chain is in flight, or its reply is known. A faulty chain's is: it has none.
    /// - `OtherCall`: the number is another one (`ticket`).
    /// - `LongReply`: the reply buffer is shorter, or `len` is 2^32 or more.
    #[tactic(auto, using(crate::proofs::HoldsEnded::replies_own_from))]
    pub fn reply(&mut self, ticket: u32, len: usize) -> Result<(), ChainError>
        ensures error { IfErr result (λ e. own_error self.old.state self.old.ticket ticket len ≡ Some e) }
        ensures ok { OnOk result (own_error self.old.state self.old.ticket ticket len ≡ None) }
        ensures same { OnErr result (self.new ≡ self.old) }
        ensures kept { OnOk result (IfUnanswered self.old.state
            (λ out. self.new ≡ record self.old { state = at.Replied out (own_reply len) })) }
        ensures returned { OnOk result (IfUnanswered self.old.state (λ out. (front_len (own_reply len) ≡ 0)
            × (reply_len out (own_reply len) ≡ len))) }
        ensures step { OnOk result (RepliesOwnInRun self.old self.new len) }
    {
        self.reply_known(ticket, len)
    }
}
