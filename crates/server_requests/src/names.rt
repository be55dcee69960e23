//! Names in requests.

ghost use Rattle.std.specs.Prelude.{◌≡◌, ℕ, ◌+◌, ◌-◌, ◌<◌, ◌≤◌, position, ◌==◌, List, length, ◌++◌, Ok, Err};
ghost use Rattle.std.specs.Prelude.{Some, None, IfOk, IfErr, IfSome, IfNone, false, true};
ghost use Rattle.std.specs.Cow.{cow_slice_items};
ghost use Rattle.fuse_fs.specs.Lengths.{first, past};
ghost use Rattle.fuse_values.specs.Places.{IsBehind, NameStandsIn, StandsIn};
ghost use Rattle.server_requests.specs.Reading.{Faults, value_of, at_zero, last_name, two_names};
ghost use Rattle.server_requests.specs.Reading.{name_and_value, front_name};
ghost use Rattle.server_requests.specs.Fronts.{counted, is_split};
ghost use Rattle.server_segments.specs.Errors.{is_memory};

use fuse_values::Placed;
use server_segments::{Error, Reader};
use std::alloc::Global;
use std::borrow::CowSlice;
use std::io::Read;

/// Bytes of a request: lent, or a copy if they lie in several segments.
pub(crate) type RequestBytes<'a> = CowSlice<'a, u8, Global>;

// The index of the first zero byte.
fn zero_at(bytes: &[u8]) -> Option<usize>
    ensures { result ≡ position (λ b. b == 0) bytes.now }
{
    bytes.iter().position(|b| *b == 0)
}

// A copy of the next `n` bytes.
fn read_owned(alloc: Global, r: &mut Reader<'_>, n: usize) -> Result<Vec<u8>, Error>
    requires { n ≤ length r.old.left }
    ensures ok { IfOk result (λ v. (r.old.left ≡ v.items ++ r.new.left) × (length v.items ≡ n)) }
    ensures err { IfErr result (λ e. e ≡ Error.OutOfMemory) }
{
    let Ok(mut bytes) = vec![in alloc; 0; n] else {
        return Err(Error::OutOfMemory);
    };
    r.read_exact(&mut bytes).unwrap();
    Ok(bytes)
}

// The next `n` bytes: lent if they lie in one segment, else a copy.
#[inline(always)]
fn read_bytes<'a>(alloc: Global, r: &mut Reader<'a>, n: usize) -> Result<RequestBytes<'a>, Error>
    requires { n ≤ length r.old.left }
    ensures ok { IfOk result (λ b. (r.old.left ≡ cow_slice_items b ++ r.new.left)
        × (length (cow_slice_items b) ≡ n)) }
    ensures err { IfErr result (λ e. (e ≡ Error.OutOfMemory) × (first r.old.segments < n)) }
{
    if let Some(bytes) = r.read_in_place(n) {
        return Ok(CowSlice::Borrowed(bytes));
    }
    Ok(CowSlice::Owned(read_owned(alloc, r, n)?))
}

/// The bytes of the request, by `len` of its header, behind the header (40 bytes) and a record of
/// `fixed` bytes. Errors, in this order:
/// - `InvalidHeaderLength`: `len` is less than 40 + `fixed`
/// - `DecodeMessage`: the reader has fewer bytes
/// - `OutOfMemory`: only if they lie in several segments
#[inline(always)]
pub(crate) fn read_counted<'a>(
    alloc: Global,
    len: u32,
    fixed: u32,
    r: &mut Reader<'a>,
) -> Result<RequestBytes<'a>, Error>
    requires { fixed ≤ 256 }
    ensures bytes { IfOk result
        (λ bytes. Ok (cow_slice_items bytes) ≡ value_of (counted len fixed r.old.left)) }
    ensures front { IfOk result (λ bytes. (r.old.left ≡ cow_slice_items bytes ++ r.new.left)
        × (40 + fixed + length (cow_slice_items bytes) ≡ len)) }
    ensures fault { IfErr result (λ e. is_memory e ≡ false
        → Err (Faults e) ≡ value_of (counted len fixed r.old.left)) }
    ensures in_place { is_split (len - 40 - fixed) r.old.segments ≡ false
        → IfErr result (λ e. is_memory e ≡ false) }
    ensures segments { past 0 r.old.segments ≡ r.old.segments }
{
    let left = r.available_bytes();
    let Some(count) = len.checked_sub(40 + fixed) else {
        return Err(Error::InvalidHeaderLength);
    };
    if left < count as usize {
        return Err(Error::DecodeMessage);
    }
    read_bytes(alloc, r, count as usize)
}

/// The name before the first zero byte, and the bytes after it. None if there is no zero byte.
#[tactic(auto, using(crate::proofs::NameLemmas::at_split, crate::proofs::NameLemmas::at_none))]
pub(crate) fn first_name(bytes: Placed<'_>) -> Option<(Placed<'_>, Placed<'_>)>
    ensures some { IfSome result
        (λ p. at_zero bytes.entry.bytes.now ≡ Some (p.0.bytes.now, p.1.bytes.now)) }
    ensures none { IfNone result (at_zero bytes.entry.bytes.now ≡ None) }
    ensures places { IfSome result (λ p. (request : List ℕ) → StandsIn request bytes.entry
        → NameStandsIn request p.0 × StandsIn request p.1) }
    ensures at { IfSome result (λ p. (p.0.at ≡ bytes.entry.at) × IsBehind p.0 p.1) }
{
    match zero_at(bytes.bytes) {
        Some(end) => {
            let name = Placed {
                bytes: &bytes.bytes[..end],
                at: bytes.at,
            };
            let rest = Placed {
                bytes: &bytes.bytes[end + 1..],
                at: bytes.at + end as u32 + 1,
            };
            Some((name, rest))
        }
        None => None,
    }
}

/// The one name in these bytes. `InvalidCString` unless they end with their only zero byte.
#[tactic(auto, using(crate::proofs::NameLemmas::named, crate::proofs::NameLemmas::unnamed, crate::proofs::NameLemmas::endless))]
pub fn last_name(bytes: Placed<'_>) -> Result<Placed<'_>, Error>
    ensures ok { IfOk result (λ name. Ok name.bytes.now ≡ value_of (last_name bytes.entry.bytes.now)) }
    ensures err { IfErr result (λ e. (Err (Faults e) ≡ value_of (last_name bytes.entry.bytes.now))
        × (is_memory e ≡ false)) }
    ensures places { IfOk result
        (λ name. (request : List ℕ) → StandsIn request bytes.entry → NameStandsIn request name) }
    ensures at { IfOk result (λ name. name.at ≡ bytes.entry.at) }
{
    match first_name(bytes) {
        Some((name, rest)) => {
            if rest.bytes.is_empty() {
                Ok(name)
            } else {
                Err(Error::InvalidCString)
            }
        }
        None => Err(Error::InvalidCString),
    }
}

/// The two names in these bytes, each ended by a zero byte. Errors, in this order:
/// - `MissingParameter`: there is no zero byte
/// - `InvalidCString`: the second zero byte is missing, or isn't the last byte
#[tactic(auto, using(crate::proofs::NameLemmas::both_named, crate::proofs::NameLemmas::first_missing))]
pub fn two_names(bytes: Placed<'_>) -> Result<(Placed<'_>, Placed<'_>), Error>
    ensures ok { IfOk result
        (λ p. Ok (p.0.bytes.now, p.1.bytes.now) ≡ value_of (two_names bytes.entry.bytes.now)) }
    ensures err { IfErr result (λ e. (Err (Faults e) ≡ value_of (two_names bytes.entry.bytes.now))
        × (is_memory e ≡ false)) }
    ensures places { IfOk result (λ p. (request : List ℕ) → StandsIn request bytes.entry
        → NameStandsIn request p.0 × NameStandsIn request p.1) }
    ensures at { IfOk result (λ p. (p.0.at ≡ bytes.entry.at) × IsBehind p.0 p.1) }
{
    match first_name(bytes) {
        Some((old, rest)) => match last_name(rest) {
            Ok(new) => Ok((old, new)),
            Err(error) => Err(error),
        },
        None => Err(Error::MissingParameter),
    }
}

/// The name in these bytes, and the value behind its zero byte. Errors, in this order:
/// - `MissingParameter`: there is no zero byte
/// - `InvalidXattrSize`, with both lengths: the value's length isn't `size`
#[tactic(auto, using(crate::proofs::NameLemmas::valued, crate::proofs::NameLemmas::value_sized, crate::proofs::NameLemmas::value_unnamed))]
pub fn name_and_value(bytes: Placed<'_>, size: u32) -> Result<(Placed<'_>, Placed<'_>), Error>
    ensures ok { IfOk result
        (λ p. Ok (p.0.bytes.now, p.1.bytes.now) ≡ value_of (name_and_value size bytes.entry.bytes.now)) }
    ensures err { IfErr result (λ e. (Err (Faults e) ≡ value_of (name_and_value size bytes.entry.bytes.now))
        × (is_memory e ≡ false)) }
    ensures places { IfOk result (λ p. (request : List ℕ) → StandsIn request bytes.entry
        → NameStandsIn request p.0 × StandsIn request p.1) }
    ensures at { IfOk result (λ p. (p.0.at ≡ bytes.entry.at) × IsBehind p.0 p.1) }
{
    match first_name(bytes) {
        Some((name, value)) => {
            if size as usize == value.bytes.len() {
                Ok((name, value))
            } else {
                Err(Error::InvalidXattrSize((size, value.bytes.len())))
            }
        }
        None => Err(Error::MissingParameter),
    }
}

/// A name at the front, whether a zero byte ends it, and the bytes after it.
#[derive(Clone, Copy)]
pub(crate) struct FrontName<'a> {
    pub name: Placed<'a>,
    pub ends: bool,
    pub rest: Placed<'a>,
}

/// The name before the first zero byte, or all bytes if there is none. `MissingParameter` if there
/// is no byte.
#[tactic(auto, using(crate::proofs::NameLemmas::front_empty, crate::proofs::NameLemmas::front_ended, crate::proofs::NameLemmas::front_endless))]
pub(crate) fn front_name(bytes: Placed<'_>) -> Result<FrontName<'_>, Error>
    ensures reads { IfOk result
        (λ x. Ok ((x.name.bytes.now, x.ends), x.rest.bytes.now) ≡ front_name bytes.entry.bytes.now) }
    ensures fault { IfErr result (λ e. (Err (Faults e) ≡ front_name bytes.entry.bytes.now)
        × (is_memory e ≡ false)) }
    ensures places { IfOk result (λ x. x.ends ≡ true → (request : List ℕ) → StandsIn request bytes.entry
        → NameStandsIn request x.name × StandsIn request x.rest) }
    ensures at { IfOk result
        (λ x. (x.name.at ≡ bytes.entry.at) × (x.ends ≡ true → IsBehind x.name x.rest)) }
{
    if bytes.bytes.is_empty() {
        return Err(Error::MissingParameter);
    }
    match first_name(bytes) {
        Some((name, rest)) => Ok(FrontName {
            name,
            ends: true,
            rest,
        }),
        None => Ok(FrontName {
            name: bytes,
            ends: false,
            rest: Placed { bytes: &[], at: 0 },
        }),
    }
}
