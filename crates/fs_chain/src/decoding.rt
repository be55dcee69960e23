//! The call or reply that results from a chain's request.

ghost use Rattle.std.specs.Prelude.{◌≡◌, ℕ, List, Ok, Some, None, IfErr, IfOk, OnOk, OnErr, drop, length};
ghost use Rattle.std.specs.Prelude.{if◌then◌else◌};
ghost use Rattle.fuse_fs.specs.Answers.{context_of};
ghost use Rattle.fuse_fs.specs.declared.answers.Context.{Context};
ghost use Rattle.fuse_in.specs.Records.{in_header};
ghost use Rattle.fuse_in.specs.declared.session.InHeader.{InHeader};
ghost use Rattle.fuse_values.specs.declared.call.FileCall as value;
ghost use Rattle.server_requests.specs.Fronts.{first_name_at};
ghost use Rattle.server_requests.specs.Reading.{record_parser};
ghost use Rattle.server_meanings.specs.Grammar.{Meaning, meaning};
ghost use Rattle.server_meanings.specs.Serving.{Setting, setting};
ghost use Rattle.server_phases.specs.Asking.{AsksCall, HasAskerByFront, IsAskedBy, IsRequestFront, IsDecoded};
ghost use Rattle.server_phases.specs.Asking.{DecodedStandsIn, FrontStandsIn, IsDecodedByFront, is_decoded};
ghost use Rattle.fs_chain.specs.Decoding.{IfUndecoded, IsKeptFor, KeepsCall, ReportsMeaning, wanted};
ghost use Rattle.fs_chain.specs.Decoding.{ReportStandsIn, wanted_after, wanted_by};
ghost use Rattle.fs_chain.specs.Holds.{DecodesInRun};
ghost use Rattle.fs_chain.specs.Orders.{ask_error};
ghost use Rattle.fs_chain.specs.Walks.{IsAllBut, IsAllButPlace};
ghost use Rattle.fs_chain.specs.declared.state.ChainState.TheVariants as at;

use crate::chain_handle::ChainHandle;
use crate::error::ChainError;
use crate::state::{ChainReply, ChainState, InFlight};
use fuse_values::FileCall;
use server_meanings::REQUEST_FRONT;
use server_phases::{AskedFront, DecodedRequest, Front, Listing, Session, Waiting};
use server_segments::Error;

/// The result of decoding a request.
#[derive(Drop)]
pub enum Decoded<'a> {
    /// This file call, which the caller answers. Its names and values lie in the request.
    Call(FileCall<'a>),
    /// The library needs this many bytes of the request, from its start.
    More(usize),
    /// No call: the reply is known, or the request has none.
    Nothing,
    /// No call and no reply: the fault of the request.
    Fault(Error),
}

// The state of a chain whose call is in flight: a listing gathers entries.
fn waiting_state(out: InFlight, waiting: Waiting) -> ChainState
    ensures keeps { (s : Setting) (m : Meaning) (bytes : List ℕ) (made : value.FileCall)
        → AsksCall s m bytes made waiting
        → KeepsCall s m bytes made out result }
    ensures asker { IsKeptFor waiting.context result }
{
    match Listing::begin(waiting) {
        Ok(listing) => ChainState::Listing(out, listing),
        Err(refusal) => ChainState::Decoded(out, refusal.waiting),
    }
}

// The state of a chain that is to be pushed with this reply, or without one.
fn answered_state(out: InFlight, front: Option<Front>) -> ChainState
    ensures { result ≡ at.Replied out (record { front = front; behind = 0 }) }
{
    ChainState::Replied(out, ChainReply { front, behind: 0 })
}

// How many bytes of a request the library needs if `len` bytes don't suffice.
fn wanted(len: usize, whole: usize) -> usize
    ensures { result ≡ wanted len whole }
{
    if len < REQUEST_FRONT {
        whole.min(REQUEST_FRONT)
    } else {
        whole
    }
}

impl ChainHandle {
    // Keeps a decoded request, and returns it.
    fn keep_asked<'a>(&mut self, out: InFlight, asked: DecodedRequest<'a>) -> Decoded<'a>
        ensures reports { (s : Setting) (m : Meaning) (bytes : List ℕ)
            → IsDecoded s m bytes asked.entry
            → ReportsMeaning s m bytes out result self.new.state }
        ensures asker { (who : Context) → IsAskedBy who asked.entry → IsKeptFor who self.new.state }
        ensures places { (options : ℕ) (request : List ℕ)
            → DecodedStandsIn request (first_name_at options request) asked.entry
            → ReportStandsIn options request result }
        ensures returned { wanted_by result ≡ None }
        ensures same { IsAllButPlace self.old self.new }
        ensures list { self.new.list_len ≡ self.old.list_len }
    {
        match asked {
            DecodedRequest::Call(call, waiting) => {
                self.state = waiting_state(out, waiting);
                Decoded::Call(call)
            }
            DecodedRequest::Reply(front) => {
                self.state = answered_state(out, Some(front));
                Decoded::Nothing
            }
            DecodedRequest::Silence => {
                self.state = answered_state(out, None);
                Decoded::Nothing
            }
            DecodedRequest::Fault(error) => {
                self.state = answered_state(out, None);
                Decoded::Fault(error)
            }
        }
    }

    // Keeps the request that its first bytes decode to, if they suffice.
    fn keep_front<'a>(&mut self, out: InFlight, len: usize, asked: AskedFront<'a>) -> Decoded<'a>
        ensures reports { (s : Setting) (m : Meaning) (bytes : List ℕ)
            → IsDecodedByFront s m bytes asked.entry
            → ReportsMeaning s m bytes out result self.new.state }
        ensures asker { (request : List ℕ)
            → HasAskerByFront request asked.entry
            → (h : InHeader) (more : List ℕ)
            → record_parser in_header request ≡ Ok (h, more)
            → IsKeptFor (context_of h) self.new.state }
        ensures places { (options : ℕ) (request : List ℕ) → FrontStandsIn options request asked.entry
            → ReportStandsIn options request result }
        ensures wanted { wanted_by result ≡ (if is_decoded asked.entry then None
            else Some (wanted len out.request_len)) }
        ensures same { IsAllButPlace self.old self.new }
        ensures list { self.new.list_len ≡ self.old.list_len }
    {
        match asked {
            AskedFront::Decoded(asked) => self.keep_asked(out, asked),
            AskedFront::More => {
                self.state = ChainState::Popped(out);
                Decoded::More(wanted(len, out.request_len))
            }
        }
    }

    // Decodes the first bytes of the request of the chain in flight.
    fn ask_out<'a>(
        &mut self,
        session: Session,
        out: InFlight,
        request: &'a [u8],
    ) -> Result<Decoded<'a>, ChainError>
        requires { self.old.state ≡ at.Popped out }
        ensures error { IfErr result (λ e. ask_error (at.Popped out) (length request.now) ≡ Some e) }
        ensures ok { OnOk result (ask_error (at.Popped out) (length request.now) ≡ None) }
        ensures reports { IfOk result (λ returned. (whole : List ℕ)
            → out.request_len ≡ length whole
            → IsRequestFront request.now whole
            → ReportsMeaning (setting session.page_size session.options.0 out.room_len)
            (meaning session.options.0 whole out.room_len) (drop 80 whole) out returned self.new.state) }
        ensures asker { OnOk result ((whole : List ℕ)
            → out.request_len ≡ length whole
            → IsRequestFront request.now whole
            → (h : InHeader) (more : List ℕ)
            → record_parser in_header whole ≡ Ok (h, more)
            → IsKeptFor (context_of h) self.new.state) }
        ensures places { IfOk result (ReportStandsIn session.options.0 request.now) }
        ensures wanted { IfOk result (λ returned. wanted_by returned ≡ wanted_after request.now
            out.request_len) }
        ensures same { IsAllBut self.old self.new
            × (self.new.descriptors ≡ self.old.descriptors)
            × (self.new.part ≡ self.old.part) }
        ensures session { OnOk result (self.new.session ≡ session) }
        ensures stays { OnErr result ((self.new.state ≡ at.Popped out)
            × (self.new.session ≡ self.old.session)) }
    {
        let len = out.request_len;
        if len < request.len() {
            return Err(ChainError::BadArgument);
        }
        let asked = session.ask_front(request, len, out.room_len);
        self.session = session;
        Ok(self.keep_front(out, request.len(), asked))
    }

    /// Decodes a chain's request from its first bytes, in this session, which the handle keeps. A call
    /// that is returned is in flight until it is answered. No error is `OutOfMemory`. After an error
    /// nothing changed:
    /// - `WrongOrder`: no chain is in flight, or its request was decoded already.
    /// - `BadArgument`: the request is shorter.
    #[tactic(auto, using(crate::proofs::HoldsDecoded::decodes_from))]
    pub fn decode<'a>(
        &mut self,
        session: Session,
        request: &'a [u8],
    ) -> Result<Decoded<'a>, ChainError>
        ensures error { IfErr result (λ e. ask_error self.old.state (length request.now) ≡ Some e) }
        ensures ok { OnOk result (ask_error self.old.state (length request.now) ≡ None) }
        ensures reports { IfOk result (λ returned. IfUndecoded self.old.state (λ out. (whole : List ℕ)
            → out.request_len ≡ length whole
            → IsRequestFront request.now whole
            → ReportsMeaning (setting session.page_size session.options.0 out.room_len)
            (meaning session.options.0 whole out.room_len) (drop 80 whole) out returned self.new.state)) }
        ensures asker { OnOk result (IfUndecoded self.old.state (λ out. (whole : List ℕ)
            → out.request_len ≡ length whole
            → IsRequestFront request.now whole
            → (h : InHeader) (more : List ℕ)
            → record_parser in_header whole ≡ Ok (h, more)
            → IsKeptFor (context_of h) self.new.state)) }
        ensures places { IfOk result (ReportStandsIn session.options.0 request.now) }
        ensures wanted { IfOk result (λ returned. IfUndecoded self.old.state
            (λ out. wanted_by returned ≡ wanted_after request.now out.request_len)) }
        ensures same { IsAllBut self.old self.new
            × (self.new.descriptors ≡ self.old.descriptors)
            × (self.new.part ≡ self.old.part) }
        ensures session { OnOk result (self.new.session ≡ session) }
        ensures stays { OnErr result ((self.new.state ≡ self.old.state)
            × (self.new.session ≡ self.old.session)) }
        ensures step { IfOk result (λ returned. DecodesInRun self.old self.new session request.now returned) }
    {
        match &self.state {
            ChainState::Popped(out) => {
                let out = *out;
                self.ask_out(session, out, request)
            }
            _ => Err(ChainError::WrongOrder),
        }
    }
}
