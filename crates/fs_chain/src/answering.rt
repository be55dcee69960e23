//! The answer to a chain's file call.

ghost use Rattle.std.specs.Prelude.{◌≡◌, IfOk, IfErr, OnOk, OnErr};
ghost use Rattle.server_meanings.specs.Serving.{setting};
ghost use Rattle.fs_chain.specs.Answers.{AnswerFails, CanBeGiven, IfDecoded, IsGiven, IsNotTaken};
ghost use Rattle.fs_chain.specs.Answers.{RefusesAnswer, IsWaiting, data_len, refusal_error, fits, replied_of};
ghost use Rattle.fs_chain.specs.Answers.{reply_of};
ghost use Rattle.fs_chain.specs.Holds.{AnswersInRun};
ghost use Rattle.fs_chain.specs.Walks.{IsAllBut};
ghost use Rattle.fs_chain.specs.declared.state.ChainState.TheVariants as at;

use crate::chain_handle::ChainHandle;
use crate::error::ChainError;
use crate::state::{ChainReply, ChainState, InFlight};
use fuse_fs::Context;
use fuse_values::FileAnswer;
use server_phases::{AnswerRefusal, Answered, Sent, Waiting};
use std::mem;

/// The result of an answer.
#[derive(Clone, Copy, Debug)]
pub struct Replied {
    /// Whether the reply fits in the reply buffer. If not, the chain is pushed without a reply.
    pub has_room: bool,
    /// The context and node of an entry that the reply doesn't hand to the guest: the caller forgets one
    /// look-up of it.
    pub forget: Option<(Context, u64)>,
}

fn data_len(answer: &FileAnswer) -> usize
    ensures { result ≡ data_len answer.now }
{
    match answer {
        FileAnswer::Bytes { len } => *len,
        _ => 0,
    }
}

fn refusal_error(why: AnswerRefusal) -> ChainError
    ensures { result ≡ refusal_error why }
{
    match why {
        AnswerRefusal::OtherKind => ChainError::OtherKind,
        AnswerRefusal::TooLong => ChainError::LongReply,
    }
}

// The reply: its front with `behind` bytes of data behind it, or none; and whether it fits.
fn reply_of(sent: Sent, behind: usize) -> (ChainReply, bool)
    ensures { result ≡ (reply_of sent behind, fits sent) }
{
    match sent {
        Sent::Reply(front) => {
            let front = Some(front);
            (ChainReply { front, behind }, true)
        }
        Sent::NoRoom => {
            let front = None;
            (ChainReply { front, behind: 0 }, false)
        }
    }
}

impl ChainHandle {
    fn keep_answered(&mut self, out: InFlight, answered: Answered, behind: usize) -> Replied
        ensures returned { result ≡ replied_of answered }
        ensures kept { self.new
            ≡ record self.old { state = at.Replied out (reply_of answered.sent behind) } }
    {
        let (reply, has_room) = reply_of(answered.sent, behind);
        self.state = ChainState::Replied(out, reply);
        Replied {
            has_room,
            forget: answered.forget,
        }
    }

    // Answers a call in flight. After a refusal it stays in flight.
    fn answer_waiting(
        &mut self,
        out: InFlight,
        waiting: Waiting,
        answer: FileAnswer,
    ) -> Result<Replied, ChainError>
        ensures given { IfOk result
            (λ returned. IsGiven (setting self.old.session.page_size self.old.session.options.0 waiting.room)
            waiting answer out self.new.session.options.0 returned self.new.state) }
        ensures taken { OnOk result (CanBeGiven waiting answer) }
        ensures refused { IfErr result (λ e. RefusesAnswer waiting answer e) }
        ensures same { OnErr result (self.new ≡ record self.old { state = at.Decoded out waiting }) }
        ensures page_size { self.new.session.page_size ≡ self.old.session.page_size }
        ensures stays { IsAllBut self.old self.new
            × (self.new.descriptors ≡ self.old.descriptors)
            × (self.new.part ≡ self.old.part) }
    {
        let behind = data_len(&answer);
        match self.session.answer(waiting, answer) {
            Ok(answered) => Ok(self.keep_answered(out, answered, behind)),
            Err(refusal) => {
                let why = refusal.why;
                self.state = ChainState::Decoded(out, refusal.waiting);
                Err(refusal_error(why))
            }
        }
    }

    // Answers the call in flight, if there is one. A listing isn't answered this way.
    fn answer_asked(&mut self, answer: FileAnswer) -> Result<Replied, ChainError>
        ensures given { IfOk result (λ returned. IfDecoded self.old.state (λ out w.
            IsGiven (setting self.old.session.page_size self.old.session.options.0 w.room) w answer out
            self.new.session.options.0 returned self.new.state)) }
        ensures taken { OnOk result (IsWaiting self.old.state
            × IfDecoded self.old.state (λ out w. CanBeGiven w answer)) }
        ensures refused { IfErr result (λ e. AnswerFails self.old.state answer e) }
        ensures same { OnErr result (self.new ≡ self.old) }
        ensures page_size { self.new.session.page_size ≡ self.old.session.page_size }
        ensures stays { IsAllBut self.old self.new
            × (self.new.descriptors ≡ self.old.descriptors)
            × (self.new.part ≡ self.old.part) }
    {
        match mem::replace(&mut self.state, ChainState::Free) {
            ChainState::Decoded(out, waiting) => self.answer_waiting(out, waiting, answer),
            ChainState::Listing(out, listing) => {
                self.state = ChainState::Listing(out, listing);
                Err(ChainError::OtherKind)
            }
            other => {
                self.state = other;
                Err(ChainError::WrongOrder)
            }
        }
    }

    /// Answers a chain's file call, in the session in which it was decoded, with the chain's number
    /// (`ticket`). After an error nothing changed:
    /// - `WrongOrder`: no call is in flight.
    /// - `OtherCall`: another call is.
    /// - `OtherKind`: the call needs an answer of another kind. A listing is answered entry by entry, or
    ///   by `fail`.
    /// - `LongReply`: the data is too long for the reply.
    #[tactic(auto, using(crate::proofs::HoldsAnswered::answers_from))]
    pub fn answer(&mut self, ticket: u32, answer: FileAnswer) -> Result<Replied, ChainError>
        ensures given { IfOk result (λ returned. IfDecoded self.old.state (λ out w.
            IsGiven (setting self.old.session.page_size self.old.session.options.0 w.room) w answer out
            self.new.session.options.0 returned self.new.state)) }
        ensures mine { OnOk result (self.old.ticket ≡ ticket) }
        ensures taken { OnOk result (IsWaiting self.old.state
            × IfDecoded self.old.state (λ out w. CanBeGiven w answer)) }
        ensures refused { IfErr result (λ e. IsNotTaken self.old ticket answer e) }
        ensures same { OnErr result (self.new ≡ self.old) }
        ensures page_size { self.new.session.page_size ≡ self.old.session.page_size }
        ensures stays { IsAllBut self.old self.new
            × (self.new.descriptors ≡ self.old.descriptors)
            × (self.new.part ≡ self.old.part) }
        ensures step { IfOk result (λ returned. AnswersInRun self.old self.new answer returned) }
    {
        match self.ticket_error(ticket) {
            Some(error) => Err(error),
            None => self.answer_asked(answer),
        }
    }
}
