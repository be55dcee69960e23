//! The extensions after the names of a request that creates a node.

ghost use Rattle.std.specs.Prelude.{◌≡◌, ℕ, suc, ◌+◌, ◌<◌, ◌≤◌, ◌&&◌, ◌||◌, not, nat_le, List, take, drop};
ghost use Rattle.std.specs.Prelude.{length, is_none, Some, None, Ok, Err, IfOk, IfErr, false};
ghost use Rattle.fuse_fs.specs.Answers.{extra_of, security_of};
ghost use Rattle.server_requests.specs.Reading.{Faults, outcome, record_parser, value_of};
ghost use Rattle.fuse_values.specs.Places.{LabelStandsAt, LabelStandsIn, StandsIn};
ghost use Rattle.fuse_values.specs.Places.{extension_start, extension_type};
ghost use Rattle.fuse_values.specs.Values.{label_of, received_extra};
ghost use Rattle.server_requests.specs.Extras.{takes_security, takes_group, sent_of, nothing_sent};
ghost use Rattle.server_requests.specs.Extras.{security_context, one_group, part, extension, extensions};
ghost use Rattle.server_requests.specs.Extras.{extra_in};
ghost use Rattle.server_requests.specs.Extras.{security_part, group_part};
ghost use Rattle.server_requests.specs.Labels.{LabelSoFar, ReadSoFar};
ghost use Rattle.server_segments.specs.Errors.{is_memory};

use crate::names::first_name;
use bitflags::Flags;
use fuse_fs::{Extensions, SecContext};
use fuse_in::InRecord;
use fuse_values::{Label, Placed, Received};
use fuse_wire::{ExtHeader, FsOptions, GuestGid, Secctx, SuppGroups};
use server_segments::Error;
use std::alloc::{AllocError, Global};
use vm_values::ByteValued;

// A record, and the bytes after it.
#[derive(Clone, Copy)]
struct WithRest<'a, T> {
    record: T,
    rest: Placed<'a>,
}

// The extensions read so far, and whether one of them was a security context, maybe an empty one.
#[derive(Clone, Copy)]
struct SoFar<'a> {
    was_sent: bool,
    received: Received<'a>,
}

// The extensions read so far, and the bytes after them.
#[derive(Clone, Copy)]
struct ParseProgress<'a> {
    sent: SoFar<'a>,
    rest: Placed<'a>,
}

// Whether FUSE_SECURITY_CTX is agreed.
fn takes_security(options: FsOptions) -> bool
    ensures { result ≡ takes_security options.0 }
{
    (options & FsOptions::SECURITY_CTX).bits() != 0
}

// Whether FUSE_CREATE_SUPP_GROUP is agreed.
fn takes_group(options: FsOptions) -> bool
    ensures { result ≡ takes_group options.0 }
{
    (options & FsOptions::CREATE_SUPP_GROUP).bits() != 0
}

// The first `n` bytes, and those after them.
fn split_placed(bytes: Placed<'_>, n: usize) -> (Placed<'_>, Placed<'_>)
    requires { n ≤ length bytes.bytes.now }
    ensures front { result.0.bytes.now ≡ take n bytes.entry.bytes.now }
    ensures back { result.1.bytes.now ≡ drop n bytes.entry.bytes.now }
    ensures len { length result.0.bytes.now ≡ n }
    ensures rest { length result.1.bytes.now + n ≡ length bytes.entry.bytes.now }
    ensures places { (request : List ℕ) → StandsIn request bytes.entry
        → StandsIn request result.0 × StandsIn request result.1 }
    ensures at { (result.0.at ≡ bytes.entry.at) × (result.1.at ≡ bytes.entry.at + n) }
{
    let (front, rest) = bytes.bytes.split_at(n);
    let at = bytes.at + n as u32;
    (
        Placed {
            bytes: front,
            at: bytes.at,
        },
        Placed { bytes: rest, at },
    )
}

// The record at the front, or `DecodeMessage` if it is cut short.
fn front_record<T: InRecord>(bytes: Placed<'_>) -> Result<WithRest<'_, T>, Error>
    ensures reads { IfOk result
        (λ x. Ok (x.record, x.rest.bytes.now) ≡ record_parser T.shape bytes.entry.bytes.now) }
    ensures fault { IfErr result (λ e. (Err (Faults e) ≡ record_parser T.shape bytes.entry.bytes.now)
        × (is_memory e ≡ false)) }
    ensures len { IfOk result (λ x. length x.rest.bytes.now + T.SIZE ≡ length bytes.entry.bytes.now) }
    ensures places { IfOk result
        (λ x. (request : List ℕ) → StandsIn request bytes.entry → StandsIn request x.rest) }
    ensures at { IfOk result (λ x. x.rest.at ≡ bytes.entry.at + T.SIZE) }
{
    if bytes.bytes.len() < T::SIZE {
        return Err(Error::DecodeMessage);
    }
    let (front, rest) = split_placed(bytes, T::SIZE);
    Ok(WithRest {
        record: T::get_bytes(front.bytes),
        rest,
    })
}

// A security context that isn't empty: its record, its name with a zero byte, and `size` bytes of label.
#[tactic(auto, using(crate::proofs::ExtraLemmas::label_cases))]
fn security_context(bytes: Placed<'_>) -> Result<Label<'_>, Error>
    ensures reads { outcome label_of result ≡ value_of (security_context bytes.entry.bytes.now) }
    ensures fault { IfErr result (λ e. is_memory e ≡ false) }
    ensures places { IfOk result (λ label. (request : List ℕ) → StandsIn request bytes.entry
        → LabelStandsAt request label (bytes.entry.at + 8)) }
{
    match front_record::<Secctx>(bytes) {
        Ok(head) => {
            if head.record.size == 0 {
                return Err(Error::DecodeMessage);
            }
            if head.rest.bytes.is_empty() {
                return Err(Error::MissingParameter);
            }
            match first_name(head.rest) {
                Some((name, more)) => {
                    let size = head.record.size as usize;
                    if more.bytes.len() < size {
                        return Err(Error::DecodeMessage);
                    }
                    let (secctx, _more) = split_placed(more, size);
                    Ok(Label { name, secctx })
                }
                None => Err(Error::DecodeMessage),
            }
        }
        Err(error) => Err(error),
    }
}

// A group list (`struct fuse_supp_groups`) of exactly one group.
#[tactic(auto, using(crate::proofs::ExtraLemmas::one_group_cases))]
fn one_group(bytes: Placed<'_>) -> Result<u32, Error>
    ensures reads { outcome (λ n. n) result ≡ value_of (one_group bytes.entry.bytes.now) }
    ensures fault { IfErr result (λ e. is_memory e ≡ false) }
{
    match front_record::<SuppGroups>(bytes) {
        Ok(head) => {
            if head.record.nr_groups != 1 {
                return Err(Error::DecodeMessage);
            }
            if head.rest.bytes.len() < 4 {
                return Err(Error::DecodeMessage);
            }
            let (group, _more) = head.rest.bytes.split_at(4);
            Ok(u32::get_bytes(group))
        }
        Err(error) => Err(error),
    }
}

// Whether a context of this kind may follow: contexts are agreed, and it is the first one.
fn may_be_context(options: FsOptions, was_sent: bool, kind: u32) -> bool
    ensures { result ≡ (takes_security options.0 && not was_sent && nat_le kind 1) }
{
    takes_security(options) && !was_sent && kind <= 1
}

// Whether a group may follow: groups are agreed, and it is the first one.
fn may_be_group(options: FsOptions, sup_gid: Option<u32>) -> bool
    ensures { result ≡ (takes_group options.0 && is_none sup_gid) }
{
    takes_group(options) && sup_gid.is_none()
}

// Adds a security context to the extensions so far. A context of kind 0 is empty.
#[tactic(auto, using(crate::proofs::ExtraLemmas::security_cases))]
fn security_part<'a>(
    options: FsOptions,
    sent: SoFar<'a>,
    kind: u32,
    bytes: Placed<'a>,
) -> Result<SoFar<'a>, Error>
    ensures reads { outcome sent_of result
        ≡ value_of (security_part options.0 (sent_of sent.entry) kind bytes.entry.bytes.now) }
    ensures fault { IfErr result (λ e. is_memory e ≡ false) }
    ensures places { IfOk result (λ x. (request : List ℕ) (start n : ℕ) → StandsIn request bytes.entry
        → bytes.entry.at ≡ extension_start request start n + 8 → extension_type request start n ≡ kind
        → LabelSoFar request start n sent.entry → LabelSoFar request start (suc n) x) }
{
    if !may_be_context(options, sent.was_sent, kind) {
        return Err(Error::DecodeMessage);
    }
    if kind == 0 {
        return Ok(SoFar {
            was_sent: true,
            received: sent.received,
        });
    }
    match security_context(bytes) {
        Ok(label) => Ok(SoFar {
            was_sent: true,
            received: Received {
                secctx: Some(label),
                sup_gid: sent.received.sup_gid,
            },
        }),
        Err(error) => Err(error),
    }
}

// Adds a group to the extensions so far.
#[tactic(auto, using(crate::proofs::ExtraLemmas::group_refused, crate::proofs::ExtraLemmas::group_given, crate::proofs::ExtraLemmas::group_fault))]
fn group_part<'a>(
    options: FsOptions,
    sent: SoFar<'a>,
    bytes: Placed<'a>,
) -> Result<SoFar<'a>, Error>
    ensures reads { outcome sent_of result
        ≡ value_of (group_part options.0 (sent_of sent.entry) bytes.entry.bytes.now) }
    ensures fault { IfErr result (λ e. is_memory e ≡ false) }
    ensures label { IfOk result (λ x. (x.was_sent ≡ sent.entry.was_sent)
        × (x.received.secctx ≡ sent.entry.received.secctx)) }
{
    if !may_be_group(options, sent.received.sup_gid) {
        return Err(Error::DecodeMessage);
    }
    match one_group(bytes) {
        Ok(group) => Ok(SoFar {
            was_sent: sent.was_sent,
            received: Received {
                secctx: sent.received.secctx,
                sup_gid: Some(group),
            },
        }),
        Err(error) => Err(error),
    }
}

/// The kind of the group extension (`FUSE_EXT_GROUPS`). Smaller kinds are reserved for security contexts.
const EXT_GROUPS: u32 = 32;

// Adds an extension of this kind to the extensions so far.
#[tactic(auto, unfolding(crate::specs::Extras::part))]
fn part<'a>(
    options: FsOptions,
    sent: SoFar<'a>,
    kind: u32,
    bytes: Placed<'a>,
) -> Result<SoFar<'a>, Error>
    ensures reads { outcome sent_of result
        ≡ value_of (part options.0 (sent_of sent.entry) kind bytes.entry.bytes.now) }
    ensures fault { IfErr result (λ e. is_memory e ≡ false) }
    ensures places { IfOk result (λ x. (request : List ℕ) (start n : ℕ) → StandsIn request bytes.entry
        → bytes.entry.at ≡ extension_start request start n + 8 → extension_type request start n ≡ kind
        → LabelSoFar request start n sent.entry → LabelSoFar request start (suc n) x) }
{
    if kind > EXT_GROUPS {
        return Err(Error::DecodeMessage);
    }
    if kind == EXT_GROUPS {
        group_part(options, sent, bytes)
    } else {
        security_part(options, sent, kind, bytes)
    }
}

/// The length in bytes of an extension's header, `struct fuse_ext_header`.
const EXT_HEADER_LEN: u32 = 8;

// Reads one more extension with its header.
#[tactic(auto, using(crate::proofs::ExtraLemmas::extension_cases))]
fn extension<'a>(
    options: FsOptions,
    sent: SoFar<'a>,
    bytes: Placed<'a>,
) -> Result<ParseProgress<'a>, Error>
    ensures reads { IfOk result (λ x. Ok (sent_of x.sent, x.rest.bytes.now)
        ≡ extension options.0 (sent_of sent.entry) bytes.entry.bytes.now) }
    ensures fault { IfErr result
        (λ e. (Err (Faults e) ≡ extension options.0 (sent_of sent.entry) bytes.entry.bytes.now)
        × (is_memory e ≡ false)) }
    ensures shorter { IfOk result (λ x. length x.rest.bytes.now < length bytes.entry.bytes.now) }
    ensures places { IfOk result (λ x. (request : List ℕ) (start n : ℕ)
        → ReadSoFar request start n sent.entry bytes.entry → ReadSoFar request start (suc n) x.sent x.rest) }
{
    match front_record::<ExtHeader>(bytes) {
        Ok(head) => {
            if head.record.size < EXT_HEADER_LEN {
                return Err(Error::InvalidHeaderLength);
            }
            let size = (head.record.size - EXT_HEADER_LEN) as usize;
            if head.rest.bytes.len() < size {
                return Err(Error::DecodeMessage);
            }
            let (body, rest) = split_placed(head.rest, size);
            match part(options, sent, head.record.ext_type, body) {
                Ok(sent) => Ok(ParseProgress { sent, rest }),
                Err(error) => Err(error),
            }
        }
        Err(error) => Err(error),
    }
}

// No extension so far.
fn nothing<'a>() -> SoFar<'a>
    ensures sent { sent_of result ≡ nothing_sent }
    ensures label { result.received.secctx ≡ None }
{
    SoFar {
        was_sent: false,
        received: Received {
            secctx: None,
            sup_gid: None,
        },
    }
}

// Reads all extensions.
fn extensions<'a>(options: FsOptions, bytes: Placed<'a>) -> Result<SoFar<'a>, Error>
    ensures reads { outcome sent_of result
        ≡ extensions options.0 (length bytes.entry.bytes.now) nothing_sent bytes.entry.bytes.now }
    ensures fault { IfErr result (λ e. is_memory e ≡ false) }
    ensures places { IfOk result (λ x. (request : List ℕ) → StandsIn request bytes.entry
        → LabelStandsIn request bytes.entry.at x.received.secctx) }
{
    let mut progress = ParseProgress {
        sent: nothing(),
        rest: bytes,
    };
    while !progress.rest.bytes.is_empty() {
        progress = extension(options, progress.sent, progress.rest)?;
    }
    Ok(progress.sent)
}

// Whether any kind of extension is agreed.
fn takes_any(options: FsOptions) -> bool
    ensures { result ≡ (takes_security options.0 || takes_group options.0) }
{
    takes_security(options) || takes_group(options)
}

// Whether a security context is agreed, but the request has none.
fn lacks_context(options: FsOptions, was_sent: bool) -> bool
    ensures { result ≡ (takes_security options.0 && not was_sent) }
{
    takes_security(options) && !was_sent
}

/// The extensions in these bytes, each behind a `struct fuse_ext_header`; they are lent. None if no
/// kind of extension is agreed. Errors:
/// - `InvalidHeaderLength`, `DecodeMessage`, `MissingParameter`: the first malformed extension
/// - `MissingExtension`: a security context is agreed, but the request has none
#[tactic(auto, using(crate::proofs::ExtraLemmas::extra_ignored))]
pub(crate) fn received_extensions<'a>(
    options: FsOptions,
    bytes: Placed<'a>,
) -> Result<Received<'a>, Error>
    ensures reads { outcome received_extra result ≡ extra_in options.0 bytes.entry.bytes.now }
    ensures fault { IfErr result (λ e. is_memory e ≡ false) }
    ensures places { IfOk result (λ x. (request : List ℕ) → StandsIn request bytes.entry
        → LabelStandsIn request bytes.entry.at x.secctx) }
{
    if takes_any(options) {
        match extensions(options, bytes) {
            Ok(sent) => {
                if lacks_context(options, sent.was_sent) {
                    return Err(Error::MissingExtension);
                }
                Ok(sent.received)
            }
            Err(error) => Err(error),
        }
    } else {
        Ok(nothing().received)
    }
}

// A copy of the bytes.
fn copied(alloc: Global, bytes: &[u8]) -> Result<Vec<u8>, Error>
    ensures ok { IfOk result (λ copy. copy.items ≡ bytes.now) }
    ensures err { IfErr result (λ e. e ≡ Error.OutOfMemory) }
{
    match Vec::with_capacity(alloc, bytes.len()) {
        Ok(mut copy) => {
            copy.extend_from_slice(bytes).unwrap();
            Ok(copy)
        }
        Err(AllocError) => Err(Error::OutOfMemory),
    }
}

// A copy of a label.
fn owned_label(alloc: Global, label: Label<'_>) -> Result<SecContext, Error>
    ensures ok { IfOk result (λ copy. security_of copy ≡ label_of label.entry) }
    ensures err { IfErr result (λ e. e ≡ Error.OutOfMemory) }
{
    let name = copied(alloc, label.name.bytes)?;
    let secctx = copied(alloc, label.secctx.bytes)?;
    Ok(SecContext { name, secctx })
}

/// The extensions as a file system takes them: the label is copied. Its only error is `OutOfMemory`.
pub fn owned_extensions(alloc: Global, received: Received<'_>) -> Result<Extensions, Error>
    ensures ok { IfOk result (λ ext. extra_of ext ≡ received_extra received.entry) }
    ensures err { IfErr result (λ e. (e ≡ Error.OutOfMemory)
        × (is_none (received_extra received.entry).security ≡ false)) }
{
    let sup_gid = match received.sup_gid {
        Some(group) => Some(GuestGid::from(group)),
        None => None,
    };
    match received.secctx {
        Some(label) => match owned_label(alloc, label) {
            Ok(label) => Ok(Extensions {
                secctx: Some(label),
                sup_gid,
            }),
            Err(error) => Err(error),
        },
        None => Ok(Extensions {
            secctx: None,
            sup_gid,
        }),
    }
}
