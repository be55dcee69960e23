//! Requests by shape. Each shape makes a file call as a value; the call's names lie in the request.

ghost use Rattle.std.specs.Prelude.{◌≡◌, ℕ, List, [], true};
ghost use Rattle.fuse_in.specs.declared.session.InHeader.{InHeader};
ghost use Rattle.fuse_fs.specs.Calls as call;
ghost use Rattle.fuse_fs.specs.Calls.{Extra};
ghost use Rattle.fuse_values.specs.Places.{CallStandsIn, IsBehind, LabelStandsIn, NameStandsAt, NameStandsIn};
ghost use Rattle.fuse_values.specs.Places.{behind};
ghost use Rattle.fuse_values.specs.Values.{call_of, received_extra};
ghost use Rattle.server_calls.specs.Callers.{CallShows, Header, Named, NamedRecord, Made, shape_of};
ghost use Rattle.server_calls.specs.Callers.{is_record};
ghost use Rattle.server_calls.specs.Requests.{if_set};

use fuse_in::{InHeader, InRecord};
use fuse_values::{FileCall, Placed, Received};

/// A number, if its flag is set.
pub fn number_if(is_set: bool, number: u64) -> Option<u64>
    ensures { result ≡ if_set is_set number }
{
    if is_set { Some(number) } else { None }
}

/// A request that is only its header.
pub trait PlainValue {
    // The call of the request.
    ghost call: { InHeader → call.FileCall };

    // The call has this shape, and is made for the request's sender.
    ghost shows: { (h : InHeader) → (shape_of (call h) ≡ Header) × CallShows h (call h) };

    /// The call.
    fn value<'a>(head: &InHeader) -> FileCall<'a>
        ensures reads { call_of [] result ≡ call head.now }
        ensures places { (all : List ℕ) (first : ℕ) → CallStandsIn all first result };
}

/// A request that is one record.
pub trait RecordValue {
    type Record: InRecord;

    // The call of the request.
    ghost call: { InHeader → Self.Record → call.FileCall };

    // The call has this shape, and is made for the request's sender.
    ghost shows: { (h : InHeader) (r : Self.Record)
        → (is_record (shape_of (call h r)) ≡ true) × CallShows h (call h r) };

    /// The call.
    fn value<'a>(head: &InHeader, request: &Self::Record) -> FileCall<'a>
        ensures reads { call_of [] result ≡ call head.now request.now }
        ensures places { (all : List ℕ) (first : ℕ) → CallStandsIn all first result };
}

/// A request that is one name.
pub trait NameValue {
    // The call of the request.
    ghost call: { InHeader → List ℕ → call.FileCall };

    // The call has this shape, and is made for the request's sender.
    ghost shows: { (h : InHeader) (name : List ℕ)
        → (shape_of (call h name) ≡ Named) × CallShows h (call h name) };

    /// The call.
    fn value<'a>(head: &InHeader, name: Placed<'a>) -> FileCall<'a>
        ensures reads { call_of [] result ≡ call head.now name.entry.bytes.now }
        ensures places { (all : List ℕ) (first : ℕ) → NameStandsAt all name.entry first
            → CallStandsIn all first result };
}

/// A request that is one record and one name.
pub trait RecordNameValue {
    type Record: InRecord;

    // The call of the request.
    ghost call: { InHeader → Self.Record → List ℕ → call.FileCall };

    // The call has this shape, and is made for the request's sender.
    ghost shows: { (h : InHeader) (r : Self.Record) (name : List ℕ)
        → (shape_of (call h r name) ≡ NamedRecord) × CallShows h (call h r name) };

    /// The call.
    fn value<'a>(head: &InHeader, request: &Self::Record, name: Placed<'a>) -> FileCall<'a>
        ensures reads { call_of [] result ≡ call head.now request.now name.entry.bytes.now }
        ensures places { (all : List ℕ) (first : ℕ) → NameStandsAt all name.entry first
            → CallStandsIn all first result };
}

/// A request that is one record and two names.
pub trait TwoNamesValue {
    type Record: InRecord;

    // The call of the request.
    ghost call: { InHeader → Self.Record → List ℕ × List ℕ → call.FileCall };

    // The call has this shape, and is made for the request's sender.
    ghost shows: { (h : InHeader) (r : Self.Record) (names : List ℕ × List ℕ)
        → (shape_of (call h r names) ≡ NamedRecord) × CallShows h (call h r names) };

    /// The call.
    fn value<'a>(
        head: &InHeader,
        request: &Self::Record,
        old: Placed<'a>,
        new: Placed<'a>,
    ) -> FileCall<'a>
        ensures reads { call_of [] result
            ≡ call head.now request.now (old.entry.bytes.now, new.entry.bytes.now) }
        ensures places { (all : List ℕ) (first : ℕ) → NameStandsAt all old.entry first
            → NameStandsIn all new.entry → IsBehind old.entry new.entry → CallStandsIn all first result };
}

/// A request that is one record and the name of a new node.
pub trait NewNameValue {
    type Record: InRecord;

    // The call of the request.
    ghost call: { InHeader → Self.Record → List ℕ × Extra → call.FileCall };

    // The call has this shape, and is made for the request's sender.
    ghost shows: { (h : InHeader) (r : Self.Record) (x : List ℕ × Extra)
        → (shape_of (call h r x) ≡ Made) × CallShows h (call h r x) };

    /// The call.
    fn value<'a>(
        head: &InHeader,
        request: &Self::Record,
        name: Placed<'a>,
        extra: Received<'a>,
    ) -> FileCall<'a>
        ensures reads { call_of [] result
            ≡ call head.now request.now (name.entry.bytes.now, received_extra extra.entry) }
        ensures places { (all : List ℕ) (first : ℕ) → NameStandsAt all name.entry first
            → LabelStandsIn all (behind name.entry) extra.entry.secctx → CallStandsIn all first result };
}
