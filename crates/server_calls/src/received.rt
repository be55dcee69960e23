//! Answers of a file system, passed on unchanged with the ranges of their numbers.

ghost use Rattle.std.specs.Prelude.{◌≡◌, ◌<◌, ◌^◌, true, Ok, IfOk, IfErr, option_map};
ghost use Rattle.fuse_fs.specs.Answers.{done_answer, value_answer, names_answer};
ghost use Rattle.fuse_fs.specs.Calls.{is_handle, is_of, IsBytesOrCount};

use fuse_fs::{Entry, FileNumber, GetxattrReply, ListxattrReply, Silence};
use fuse_wire::{Errno, OpenOptions};

/// The answer, unchanged. An errno (errno.h) is from 1 to 4095: this contract says it for all calls.
pub fn received<T>(answer: Result<T, Errno>) -> Result<T, Errno>
    ensures same { result ≡ answer }
    ensures errno { IfErr result (λ e. (0 < e) × (e < 4096)) }
{
    match answer {
        Ok(value) => Ok(value),
        Err(error) => {
            // for the proof: an `Errno` has a number of its range.
            let _number = error.raw();
            Err(error)
        }
    }
}

/// The entry, unchanged. Its node number is below 2^64. An errno is from 1 to 4095.
pub fn received_entry<I: FileNumber>(answer: Result<Entry<I>, Errno>) -> Result<Entry<I>, Errno>
    ensures same { result ≡ answer }
    ensures errno { IfErr result (λ e. (0 < e) × (e < 4096)) }
    ensures node { IfOk result (λ e. I.number e.inode < 2 ^ 64) }
{
    match received(answer) {
        Ok(entry) => {
            // for the proof: a node number fits 64 bits.
            let _number = entry.inode.as_number();
            Ok(entry)
        }
        Err(error) => Err(error),
    }
}

// The number of an open file, unchanged. It is below 2^64.
fn received_handle<H: FileNumber>(handle: Option<H>) -> Option<H>
    ensures same { result ≡ handle }
    ensures handle { is_handle (option_map H.number result) ≡ true }
{
    match handle {
        Some(handle) => {
            // for the proof: a handle fits 64 bits.
            let _number = handle.as_number();
            Some(handle)
        }
        None => None,
    }
}

/// The opened file, unchanged. Its number is below 2^64. An errno is from 1 to 4095.
pub fn received_opened<H: FileNumber>(
    answer: Result<(Option<H>, OpenOptions), Errno>,
) -> Result<(Option<H>, OpenOptions), Errno>
    ensures same { result ≡ answer }
    ensures errno { IfErr result (λ e. (0 < e) × (e < 4096)) }
    ensures handle { IfOk result (λ r. is_handle (option_map H.number r.0) ≡ true) }
{
    match received(answer) {
        Ok((handle, options)) => Ok((received_handle(handle), options)),
        Err(error) => Err(error),
    }
}

/// The created file, unchanged. The numbers of its node and open file are below 2^64. An errno is
/// from 1 to 4095.
pub fn received_file<I: FileNumber, H: FileNumber>(
    answer: Result<(Entry<I>, Option<H>, OpenOptions), Errno>,
) -> Result<(Entry<I>, Option<H>, OpenOptions), Errno>
    ensures same { result ≡ answer }
    ensures errno { IfErr result (λ e. (0 < e) × (e < 4096)) }
    ensures node { IfOk result (λ r. I.number r.0.inode < 2 ^ 64) }
    ensures handle { IfOk result (λ r. is_handle (option_map H.number r.1) ≡ true) }
{
    match received(answer) {
        Ok((entry, handle, options)) => {
            // for the proof: a node number fits 64 bits.
            let _number = entry.inode.as_number();
            Ok((entry, received_handle(handle), options))
        }
        Err(error) => Err(error),
    }
}

/// The count, unchanged. It is below 2^32. An errno is from 1 to 4095.
pub fn received_count(answer: Result<u32, Errno>) -> Result<u32, Errno>
    ensures same { result ≡ answer }
    ensures errno { IfErr result (λ e. (0 < e) × (e < 4096)) }
    ensures count { IfOk result (λ n. n < 2 ^ 32) }
{
    match received(answer) {
        Ok(count) => Ok(count),
        Err(error) => Err(error),
    }
}

/// The offset in a file, in bytes, unchanged. It is below 2^64. An errno is from 1 to 4095.
pub fn received_offset(answer: Result<u64, Errno>) -> Result<u64, Errno>
    ensures same { result ≡ answer }
    ensures errno { IfErr result (λ e. (0 < e) × (e < 4096)) }
    ensures offset { IfOk result (λ n. n < 2 ^ 64) }
{
    match received(answer) {
        Ok(offset) => Ok(offset),
        Err(error) => Err(error),
    }
}

/// The value of an attribute, or its length in bytes, unchanged. An errno is from 1 to 4095.
pub fn received_value(answer: Result<GetxattrReply, Errno>) -> Result<GetxattrReply, Errno>
    ensures same { result ≡ answer }
    ensures errno { IfErr result (λ e. (0 < e) × (e < 4096)) }
    ensures value { IfOk result (λ r. is_of IsBytesOrCount (value_answer (Ok r)) ≡ true) }
{
    match received(answer) {
        Ok(GetxattrReply::Value(value)) => Ok(GetxattrReply::Value(value)),
        Ok(GetxattrReply::Count(count)) => Ok(GetxattrReply::Count(count)),
        Err(error) => Err(error),
    }
}

/// The names of attributes, or their length in bytes, unchanged. An errno is from 1 to 4095.
pub fn received_names(answer: Result<ListxattrReply, Errno>) -> Result<ListxattrReply, Errno>
    ensures same { result ≡ answer }
    ensures errno { IfErr result (λ e. (0 < e) × (e < 4096)) }
    ensures names { IfOk result (λ r. is_of IsBytesOrCount (names_answer (Ok r)) ≡ true) }
{
    match received(answer) {
        Ok(ListxattrReply::Names(names)) => Ok(ListxattrReply::Names(names)),
        Ok(ListxattrReply::Count(count)) => Ok(ListxattrReply::Count(count)),
        Err(error) => Err(error),
    }
}

/// The answer of a call that has no reply if it succeeds. An errno, unchanged, is from 1 to 4095.
pub fn silent(answer: Result<(), Errno>) -> Result<Silence, Errno>
    ensures same { done_answer result ≡ done_answer answer }
    ensures errno { IfErr result (λ e. (0 < e) × (e < 4096)) }
{
    match received(answer) {
        Ok(()) => Ok(Silence),
        Err(error) => Err(error),
    }
}
