//! The answers of a session's calls.

ghost use Rattle.std.specs.Prelude.{◌≡◌, ℕ, ◌<◌, [], ◌∷◌, List, None, true, false, bit_and, IfOk, IfErr};
ghost use Rattle.std.specs.Prelude.{OnOk, OnErr};
ghost use Rattle.fuse_fs.specs.Calls.{Init, suits};
ghost use Rattle.fuse_values.specs.Answers.{answer_of};
ghost use Rattle.server_meanings.specs.Grammar.{FileCommand, known_options};
ghost use Rattle.server_meanings.specs.Serving.{setting, replied, start_options, start_answered};
ghost use Rattle.server_phases.specs.Answering.{Gives, ReportsBytes, takes, forget_calls, served_by, data_of};
ghost use Rattle.server_phases.specs.Answering.{init_offer_of, leaves_options, is_too_long, IsRefusedFor};
ghost use Rattle.server_phases.specs.Waiting.{WaitsFor, first_call};

use crate::answering::{
    AnswerRefusal, Answered, RefusedAnswer, answered_without_data, data_answered, is_too_long,
    placed_alone, suits,
};
use crate::session::Session;
use crate::waiting::{Awaits, Waiting};
use bitflags::Flags;
use fuse_values::FileAnswer;
use fuse_wire::FsOptions;
use server_meanings::{agree, known};
use server_replies::fronts::Front;
use server_replies::init::start_bytes;

// The options after a call other than INIT.
fn left_options(options: FsOptions, awaits: &Awaits) -> FsOptions
    requires { bit_and options.0 known_options ≡ options.0 }
    ensures options { result.0 ≡ leaves_options options.0 awaits.now }
    ensures known { bit_and result.0 known_options ≡ result.0 }
{
    match awaits {
        Awaits::End => FsOptions::from_bits_retain(0),
        _ => options,
    }
}

// The length in bytes of an answer that is data.
fn data_of(answer: &FileAnswer) -> Option<usize>
    ensures { result ≡ data_of answer.now }
{
    match answer {
        FileAnswer::Bytes { len } => Some(*len),
        _ => None,
    }
}

// The options of client and server, and the client's readahead in bytes, if the call is INIT's.
fn init_offer_of(awaits: &Awaits) -> Option<(u64, u32)>
    ensures { result ≡ init_offer_of awaits.now }
{
    match awaits {
        Awaits::InitOptions { capable, readahead } => Some((*capable, *readahead)),
        _ => None,
    }
}

impl Session {
    // The answer of INIT: its options are agreed from then on.
    fn start(
        &mut self,
        unique: u64,
        room: usize,
        capable: FsOptions,
        readahead: u32,
        answer: &FileAnswer,
    ) -> Answered
        requires { bit_and capable.0 known_options ≡ capable.0 }
        ensures gives { replied room (Init capable.0 ∷ [])
            (start_options self.old.options.0 capable.0 (answer_of [] answer.now))
            (start_answered self.old.page_size unique capable.0 readahead (answer_of [] answer.now))
            ≡ served_by (Init capable.0 ∷ forget_calls result.forget) self.new.options.0 result.sent [] }
        ensures page_size { self.new.page_size ≡ self.old.page_size }
    {
        match answer {
            FileAnswer::Wants(wanted) => {
                let options = agree(capable, *wanted);
                let body = start_bytes(self.page_size, readahead, options);
                self.options = options;
                placed_alone(Front::reply(unique, &body), room)
            }
            FileAnswer::Failed(error) => placed_alone(Front::error(unique, *error), room),
            _ => placed_alone(Front::none(), room),
        }
    }

    // An answer without data, of a call other than INIT.
    fn answer_single(&mut self, waiting: &Waiting, answer: FileAnswer) -> Answered
        requires without_data { data_of answer ≡ None }
        requires single { init_offer_of waiting.now.awaits ≡ None }
        ensures gives { (command : FileCommand) (bytes : List ℕ)
            → WaitsFor waiting.now command
            → ReportsBytes bytes answer
            → takes waiting.now.awaits (answer_of bytes answer) ≡ true
            → Gives (setting self.old.page_size self.old.options.0 waiting.now.room) command bytes answer
            result self.new.options.0 }
        ensures page_size { self.new.page_size ≡ self.old.page_size }
    {
        self.options = left_options(self.options, &waiting.awaits);
        answered_without_data(waiting, answer)
    }

    // An answer without data.
    fn answer_without_data(&mut self, waiting: &Waiting, answer: FileAnswer) -> Answered
        requires without_data { data_of answer ≡ None }
        ensures gives { (command : FileCommand) (bytes : List ℕ)
            → WaitsFor waiting.now command
            → ReportsBytes bytes answer
            → takes waiting.now.awaits (answer_of bytes answer) ≡ true
            → Gives (setting self.old.page_size self.old.options.0 waiting.now.room) command bytes answer
            result self.new.options.0 }
        ensures page_size { self.new.page_size ≡ self.old.page_size }
    {
        match init_offer_of(&waiting.awaits) {
            Some((capable, readahead)) => {
                self.start(
                    waiting.unique,
                    waiting.room,
                    known(capable),
                    readahead,
                    &answer,
                )
            }
            None => self.answer_single(waiting, answer),
        }
    }

    // An answer that the call can have.
    fn answer_taken(&mut self, waiting: &Waiting, answer: FileAnswer) -> Answered
        requires { is_too_long waiting.now.room answer ≡ false }
        ensures gives { (command : FileCommand) (bytes : List ℕ)
            → WaitsFor waiting.now command
            → ReportsBytes bytes answer
            → takes waiting.now.awaits (answer_of bytes answer) ≡ true
            → Gives (setting self.old.page_size self.old.options.0 waiting.now.room) command bytes answer
            result self.new.options.0 }
        ensures page_size { self.new.page_size ≡ self.old.page_size }
    {
        match data_of(&answer) {
            Some(len) => data_answered(waiting.unique, waiting.room, len),
            None => self.answer_without_data(waiting, answer),
        }
    }

    /// Takes the answer of a request's call. Returns the front of the reply, and sets the options
    /// after it. Errors, in this order; each changes nothing, and returns `waiting`:
    /// - `OtherKind`: the call can't have this answer
    /// - `TooLong`: the reply fits in the reply buffer, but not in its header's 32-bit length
    pub fn answer(
        &mut self,
        waiting: Waiting,
        answer: FileAnswer,
    ) -> Result<Answered, RefusedAnswer>
        ensures gives { IfOk result (λ given. (command : FileCommand) (bytes : List ℕ)
            → WaitsFor waiting command
            → ReportsBytes bytes answer
            → Gives (setting self.old.page_size self.old.options.0 waiting.room) command bytes answer given
            self.new.options.0) }
        ensures taken { OnOk result ((command : FileCommand) (bytes : List ℕ)
            → WaitsFor waiting command
            → ReportsBytes bytes answer
            → (suits (first_call command) (answer_of bytes answer) ≡ true)
            × (is_too_long waiting.room answer ≡ false)) }
        ensures refused { IfErr result (λ r. (command : FileCommand) (bytes : List ℕ)
            → WaitsFor waiting command
            → ReportsBytes bytes answer
            → IsRefusedFor r.why (first_call command) waiting.room bytes answer) }
        ensures given_back { IfErr result (λ r. r.waiting ≡ waiting) }
        ensures same { OnErr result (self.new ≡ self.old) }
        ensures page_size { self.new.page_size ≡ self.old.page_size }
    {
        if !suits(&waiting.awaits, &answer) {
            return Err(RefusedAnswer {
                why: AnswerRefusal::OtherKind,
                waiting,
            });
        }
        if is_too_long(waiting.room, &answer) {
            return Err(RefusedAnswer {
                why: AnswerRefusal::TooLong,
                waiting,
            });
        }
        Ok(self.answer_taken(&waiting, answer))
    }
}
