//! Equality of outcomes.

ghost use Rattle.std.specs.Prelude.{◌≡◌, ◌↔◌, IsTrue};
ghost use Rattle.fs_device.specs.DeviceView.{exchange_of};
ghost use Rattle.fs_shared.specs.Held.{came_of};
ghost use Rattle.fs_shared.specs.Replay.{Done, Served, Stopped};

use crate::entry::Outcome;
use fs_device::{DeviceError, Exchange};

// Whether two exchanges have the same head, request, reply and fault.
fn same_exchange(one: &Exchange, other: &Exchange) -> bool
    ensures { IsTrue result ↔ (exchange_of other.now ≡ exchange_of one.now) }
{
    other.head == one.head
        && other.request.as_slice() == one.request.as_slice()
        && other.reply.as_slice() == one.reply.as_slice()
        && other.fault == one.fault
}

// Whether the outcome is `Done`.
fn is_done(outcome: &Outcome) -> bool
    ensures { IsTrue result ↔ (came_of outcome.now ≡ Done) }
{
    matches!(outcome, Outcome::Done)
}

// Whether the outcome is this exchange, with this notice.
fn is_served(outcome: &Outcome, exchange: &Exchange, notice: bool) -> bool
    ensures { IsTrue result ↔ (came_of outcome.now ≡ Served (exchange_of exchange.now) notice) }
{
    match outcome {
        Outcome::Served(other, other_notice) => same_exchange(exchange, other)
            && *other_notice == notice,
        _ => false,
    }
}

// Whether the outcome is that this refusal stopped the queue.
fn is_stopped(outcome: &Outcome, error: DeviceError) -> bool
    ensures { IsTrue result ↔ (came_of outcome.now ≡ Stopped error) }
{
    match outcome {
        Outcome::Stopped(other) => *other == error,
        _ => false,
    }
}

/// Whether two outcomes are equal.
pub(crate) fn same_outcome(one: &Outcome, other: &Outcome) -> bool
    ensures { IsTrue result ↔ (came_of other.now ≡ came_of one.now) }
{
    match one {
        Outcome::Done => is_done(other),
        Outcome::Served(exchange, notice) => is_served(other, exchange, *notice),
        Outcome::Stopped(error) => is_stopped(other, *error),
    }
}
