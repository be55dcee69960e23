//! Names of new nodes, with the extensions after them.

ghost use Rattle.std.specs.Prelude.{◌≡◌, ℕ, ◌&&◌, List, Ok, Err, IfOk, IfErr, false};
ghost use Rattle.server_segments.specs.Errors.{is_memory};
ghost use Rattle.server_requests.specs.Reading.{Faults, value_of};
ghost use Rattle.fuse_values.specs.Places.{IsBehind, LabelStandsIn, NameStandsIn, StandsIn, behind};
ghost use Rattle.fuse_values.specs.Values.{received_extra};
ghost use Rattle.server_requests.specs.Extras.{new_name, new_link};

use crate::extensions::received_extensions;
use crate::names::front_name;
use fuse_values::{Placed, Received};
use fuse_wire::FsOptions;
use server_segments::Error;

/// The name of a new node, and its extensions.
#[derive(Clone, Copy)]
pub struct NewName<'a> {
    /// The name, without its zero byte.
    pub name: Placed<'a>,
    /// The extensions, lent.
    pub received: Received<'a>,
}

/// The name of a new symbolic link, its target, and its extensions.
#[derive(Clone, Copy)]
pub struct LinkParts<'a> {
    /// The name, without its zero byte.
    pub name: Placed<'a>,
    /// The target, without its zero byte.
    pub link: Placed<'a>,
    /// The extensions, lent.
    pub received: Received<'a>,
}

/// The name of a new node, ended by a zero byte, and its extensions, if any kind is agreed. Errors,
/// in this order:
/// - `MissingParameter`: there is no byte
/// - `InvalidHeaderLength`, `DecodeMessage`, `MissingParameter`: the first malformed extension
/// - `MissingExtension`: a security context is agreed, but the request has none
/// - `InvalidCString`: the name has no zero byte
#[tactic(auto, using(crate::proofs::ExtraLemmas::new_name_cases))]
pub fn new_name<'a>(options: FsOptions, bytes: Placed<'a>) -> Result<NewName<'a>, Error>
    ensures reads { IfOk result
        (λ x. Ok (x.name.bytes.now, received_extra x.received)
        ≡ value_of (new_name options.0 bytes.entry.bytes.now)) }
    ensures fault { IfErr result (λ e. (Err (Faults e) ≡ value_of (new_name options.0 bytes.entry.bytes.now))
        × (is_memory e ≡ false)) }
    ensures places { IfOk result (λ x. (request : List ℕ) → StandsIn request bytes.entry
        → NameStandsIn request x.name × LabelStandsIn request (behind x.name) x.received.secctx) }
    ensures at { IfOk result (λ x. x.name.at ≡ bytes.entry.at) }
{
    match front_name(bytes) {
        Ok(front) => match received_extensions(options, front.rest) {
            Ok(received) => {
                if front.ends {
                    Ok(NewName {
                        name: front.name,
                        received,
                    })
                } else {
                    Err(Error::InvalidCString)
                }
            }
            Err(error) => Err(error),
        },
        Err(error) => Err(error),
    }
}

// Whether both names have their zero byte.
fn both_end(first: bool, second: bool) -> bool
    ensures { result ≡ (first && second) }
{
    first && second
}

/// The name and the target of a new symbolic link, each ended by a zero byte, and its extensions,
/// if any kind is agreed. Errors, in this order:
/// - `MissingParameter`: no byte is left for the name or for the target
/// - the errors of the extensions, as of `new_name`
/// - `InvalidCString`: the name or the target has no zero byte
#[tactic(auto, using(crate::proofs::ExtraLemmas::new_link_cases))]
pub fn new_link<'a>(options: FsOptions, bytes: Placed<'a>) -> Result<LinkParts<'a>, Error>
    ensures reads { IfOk result (λ x. Ok (record {
      name = x.name.bytes.now;
      link = x.link.bytes.now;
      extra = received_extra x.received;
    })
        ≡ value_of (new_link options.0 bytes.entry.bytes.now)) }
    ensures fault { IfErr result (λ e. (Err (Faults e) ≡ value_of (new_link options.0 bytes.entry.bytes.now))
        × (is_memory e ≡ false)) }
    ensures places { IfOk result (λ x. (request : List ℕ) → StandsIn request bytes.entry
        → NameStandsIn request x.name × NameStandsIn request x.link
        × LabelStandsIn request (behind x.link) x.received.secctx) }
    ensures at { IfOk result (λ x. (x.name.at ≡ bytes.entry.at) × IsBehind x.name x.link) }
{
    match front_name(bytes) {
        Ok(front) => match front_name(front.rest) {
            Ok(link) => match received_extensions(options, link.rest) {
                Ok(received) => {
                    if both_end(front.ends, link.ends) {
                        Ok(LinkParts {
                            name: front.name,
                            link: link.name,
                            received,
                        })
                    } else {
                        Err(Error::InvalidCString)
                    }
                }
                Err(error) => Err(error),
            },
            Err(error) => Err(error),
        },
        Err(error) => Err(error),
    }
}
