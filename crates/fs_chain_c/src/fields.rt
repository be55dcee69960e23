//! The fields of a call, by its request.

ghost use Rattle.std.specs.Prelude.{◌≡◌, ◌≤◌, length, take, drop};
ghost use Rattle.std.specs.Int.{w32, w64, from_le_bytes};
ghost use Rattle.fs_chain_c.specs.Calls.{call_fields, labelled, numbered, opcode_in, unique_in};

use crate::call::{FsCall, span};
use crate::call_table::fill_call;
use fuse_values::{FileCall, Label};

// Four bytes of a request as a number.
fn word(request: &[u8]) -> u32
    requires { 16 ≤ length request.now }
    ensures { result ≡ from_le_bytes w32 (take 4 (drop 4 request.now)) }
{
    let mut bytes = [0u8; 4];
    bytes.copy_from_slice(&request[4..8]);
    u32::from_le_bytes(bytes)
}

// Eight bytes of a request as a number.
fn long(request: &[u8]) -> u64
    requires { 16 ≤ length request.now }
    ensures { result ≡ from_le_bytes w64 (take 8 (drop 8 request.now)) }
{
    let mut bytes = [0u8; 8];
    bytes.copy_from_slice(&request[8..16]);
    u64::from_le_bytes(bytes)
}

// The opcode of a request; 0 if it ends before.
fn opcode_in(request: &[u8]) -> u32
    ensures { result ≡ opcode_in request.now }
{
    if request.len() < 16 { 0 } else { word(request) }
}

// The unique number of a request; 0 if it ends before.
fn unique_in(request: &[u8]) -> u64
    ensures { result ≡ unique_in request.now }
{
    if request.len() < 16 { 0 } else { long(request) }
}

/// A call's fields with the opcode and the unique number of its request.
pub fn number(request: &[u8], call: &mut FsCall)
    ensures { call.new ≡ numbered request.now call.old }
{
    call.opcode = opcode_in(request);
    call.unique = unique_in(request);
}

// Adds the label of a new node and its name, if the request has one.
fn add_label(label: &Option<Label<'_>>, filled: &mut FsCall)
    ensures { filled.new ≡ labelled label.now filled.old }
{
    match label {
        Some(label) => {
            filled.has_label = 1;
            filled.label_name = span(&label.name);
            filled.label = span(&label.secctx);
        }
        None => {}
    }
}

/// Fills a call's fields, by its request and the length of the reply buffer.
#[inline(never)]
pub fn call_fields(request: &[u8], room: usize, call: &FileCall<'_>, filled: &mut FsCall)
    ensures { filled.new ≡ call_fields request.now room call.now }
{
    fill_call(opcode_in(request), room, call, filled);
    number(request, filled);
    match call {
        FileCall::Symlink { extra, .. }
        | FileCall::Mknod { extra, .. }
        | FileCall::Mkdir { extra, .. }
        | FileCall::Create { extra, .. } => add_label(&extra.secctx, filled),
        _ => {}
    }
}
