//! Two chains by two handles, of one queue or of two, pushed in either order: commands of the driver. That
//! they are a run of the live machine is the contract of `drive_all`.

ghost use Rattle.std.specs.Prelude.{◌≡◌, ◌∷◌, [], drop};
ghost use Rattle.fs_driven.specs.Events.{Drives, calls_of};
ghost use Rattle.fs_driven.specs.declared.commands.DriverCall.TheVariants as does;

use crate::commands::{DriverCall, Results, drive_all};
use fs_chain::{ChainHandle, QueueState};
use fs_regions::LoadAhead;
use fuse_values::FileAnswer;
use server_phases::Session;

/// What the calls for a chain are given: loads and their bytes, a session and a request in it, and the number
/// of the chain with an answer.
#[derive(Drop)]
pub struct Inputs<'a> {
    pub ahead: &'a [LoadAhead],
    pub loaded: &'a [u8],
    pub session: Session,
    pub request: &'a [u8],
    pub ticket: u32,
    pub answer: FileAnswer,
}

/// Pops two chains into handles 0 and 1 by loads that were made ahead, decodes and answers them, and pushes
/// that of handle `first.0`, then that of handle `second.0`, with the two bytes that each push saw. Keeps
/// what each of the ten calls returned. The results behind stay as they are.
pub fn serve_two<'a>(
    handles: &mut [ChainHandle],
    queues: &mut [QueueState],
    on: &[usize],
    page_size: u32,
    one: Inputs<'a>,
    other: Inputs<'a>,
    first: (usize, [u8; 2]),
    second: (usize, [u8; 2]),
    returned: &mut [Results<'a>],
)
    ensures run { Drives on.now page_size handles.old handles.new queues.old queues.new
        (calls_of (0 ∷ 1 ∷ 0 ∷ 1 ∷ 0 ∷ 1 ∷ first.0 ∷ first.0 ∷ second.0 ∷ second.0 ∷ [])
        (does.PopAhead one.entry.ahead one.entry.loaded ∷ does.PopAhead other.entry.ahead other.entry.loaded
        ∷ does.Decode one.entry.session one.entry.request
        ∷ does.Decode other.entry.session other.entry.request
        ∷ does.Answer one.entry.ticket one.entry.answer ∷ does.Answer other.entry.ticket other.entry.answer
        ∷ does.Push ∷ does.Pushed first.1 ∷ does.Push ∷ does.Pushed second.1 ∷ []) returned.new) }
    ensures behind { drop 10 returned.new ≡ drop 10 returned.old }
{
    let places = [0, 1, 0, 1, 0, 1, first.0, first.0, second.0, second.0];
    let mut commands = [
        DriverCall::PopAhead(one.ahead, one.loaded),
        DriverCall::PopAhead(other.ahead, other.loaded),
        DriverCall::Decode(one.session, one.request),
        DriverCall::Decode(other.session, other.request),
        DriverCall::Answer(one.ticket, one.answer),
        DriverCall::Answer(other.ticket, other.answer),
        DriverCall::Push,
        DriverCall::Pushed(first.1),
        DriverCall::Push,
        DriverCall::Pushed(second.1),
    ];
    drive_all(
        handles,
        queues,
        on,
        page_size,
        &places,
        &mut commands,
        returned,
    );
}
