//! Reading a record from a source.

ghost use Rattle.std.specs.Prelude.{◌≡◌, ◌==◌, ◌||◌, ◌<◌, ◌≤◌, ℕ, List, [], Some, None, true, false};
ghost use Rattle.std.specs.Prelude.{length, OnOk, IfOk, IfErr, IfSome, IfNone};
ghost use Rattle.std.specs.Io.KnownBytes.{Consumes};
ghost use Rattle.vm_values.specs.Fields.{spelled, AllFit};
ghost use Rattle.fs_record.specs.Record.{HasKnownBits, IsRecordFor, IsSavedQueue, end_bytes, head_error};
ghost use Rattle.fs_record.specs.Record.{head_of, saved, queue_bytes};
ghost use Rattle.fs_record.specs.Record.{is_queue, version_number};
ghost use Rattle.fs_record.specs.Restoring.{LeavesSource, RefusesEnd, RefusesRecord, RefusesQueue};
ghost use Rattle.fs_record.specs.Restoring.{IsRecordFront, ends_early, versioned};

use crate::error::RestoreError;
use crate::fields::{RecordHead, RecordVersion, SavedQueue};
use crate::save::MAGIC;
use crate::source::RecordSource;
use bitflags::Flags;
use fs_queue::{Queue, QueueLayout};
use fuse_wire::FsOptions;
use memory_requests::list_with_room;
use std::alloc::Global;
use vm_values::ByteValued;

// The greatest number of queues that a device has.
const MAX_QUEUES: u32 = 64;

// Fills a buffer with the next bytes. Truncated if the source ends before, ReadFault if it fails.
fn fill<S: RecordSource>(source: &mut S, buf: &mut [u8]) -> Result<(), RestoreError>
    ensures ok { OnOk result (Consumes (S.left source.old) (S.left source.new) buf.new
        × (S.failed source.new ≡ S.failed source.old)) }
    ensures err { IfErr result (λ e. (part : List ℕ)
        × (length part < length buf.old)
        × Consumes (S.left source.old) (S.left source.new) part
        × (ends_early e ≡ true)
        × LeavesSource e (S.left source.new) (S.failed source.old) (S.failed source.new)) }
{
    let mut at = 0;
    while at < buf.len() {
        match source.get(&mut buf[at..]) {
            Ok(0) => return Err(RestoreError::Truncated),
            Ok(n) => at += n,
            Err(_) => return Err(RestoreError::ReadFault),
        }
    }
    Ok(())
}

// Reads a value. Truncated if the source ends before its last byte, ReadFault if the source fails.
fn next_value<S: RecordSource, T: ByteValued>(source: &mut S) -> Result<T, RestoreError>
    ensures ok { IfOk result (λ x. Consumes (S.left source.old) (S.left source.new) (spelled (T.fields x))
        × AllFit (T.fields x)
        × (S.failed source.new ≡ S.failed source.old)) }
    ensures err { IfErr result (λ e. (part : List ℕ)
        × (length part < T.SIZE)
        × Consumes (S.left source.old) (S.left source.new) part
        × (ends_early e ≡ true)
        × LeavesSource e (S.left source.new) (S.failed source.old) (S.failed source.new)) }
{
    let mut buffer = [0; 256];
    fill(source, &mut buffer[..T::SIZE])?;
    Ok(T::get_bytes(&buffer[..T::SIZE]))
}

// The options of these bits, or None if a bit without a name is set.
fn known(bits: u64) -> Option<FsOptions>
    ensures some { IfSome result (λ o. (o.0 ≡ bits) × HasKnownBits bits) }
    ensures none { IfNone result (¬ HasKnownBits bits) }
{
    FsOptions::from_bits(bits)
}

// The head's version, options and number of queues, after its checks.
#[derive(Clone, Copy)]
struct CheckedHead {
    version: RecordVersion,
    options: FsOptions,
    count: usize,
}

impl RecordHead {
    // The record's version, or None if it is neither 1 nor 2.
    fn record_version(&self) -> Option<RecordVersion>
        ensures some { IfSome result (λ v. self.now.version ≡ version_number (versioned v 0 0)) }
        ensures none { IfNone result ((self.now.version == 1 || self.now.version == 2) ≡ false) }
    {
        match self.version {
            1 => Some(RecordVersion::First),
            2 => Some(RecordVersion::Second),
            _ => None,
        }
    }

    // The checked head for guest pages of this size, or the first error that applies.
    fn checked(&self, page_size: u32) -> Result<CheckedHead, RestoreError>
        ensures ok { IfOk result (λ h. (head_error page_size self.now ≡ None)
            × (self.now ≡ head_of (versioned h.version page_size 0) h.options.0 h.count)
            × HasKnownBits h.options.0
            × (1 ≤ h.count)
            × (h.count ≤ 64)) }
        ensures err { IfErr result (λ e. head_error page_size self.now ≡ Some e) }
    {
        if self.magic != MAGIC {
            return Err(RestoreError::BadMagic);
        }
        let Some(version) = self.record_version() else {
            return Err(RestoreError::BadVersion);
        };
        if self.count == 0 || self.count > MAX_QUEUES {
            return Err(RestoreError::BadCount);
        }
        match version {
            RecordVersion::First if self.page_size != 0 => return Err(RestoreError::BadReserved),
            RecordVersion::Second if self.page_size != page_size => {
                return Err(RestoreError::Mismatch);
            }
            _ => {}
        }
        match known(self.options) {
            Some(options) => Ok(CheckedHead {
                version,
                options,
                count: self.count as usize,
            }),
            None => Err(RestoreError::BadOptions),
        }
    }
}

impl SavedQueue {
    // The queue, or None if the layout is bad or `stopped` is neither 0 nor 1.
    fn queue(&self) -> Option<Queue>
        ensures some { IfSome result (λ q. (self.now ≡ saved q) × IsSavedQueue q) }
        ensures none { IfNone result (is_queue self.now ≡ false) }
    {
        let stopped = match self.stopped {
            0 => false,
            1 => true,
            _ => return None,
        };
        match QueueLayout::new(self.size, self.desc, self.avail, self.used) {
            Ok(layout) => Some(Queue::resume(layout, self.position, stopped)),
            Err(_) => None,
        }
    }
}

// Reads the head's 24 bytes, and checks it against the page size.
fn read_head<S: RecordSource>(source: &mut S, page_size: u32) -> Result<CheckedHead, RestoreError>
    ensures ok { IfOk result (λ h. (taken : List ℕ)
        × Consumes (S.left source.old) (S.left source.new) taken
        × IsRecordFront taken (versioned h.version page_size 0) h.options.0 h.count []
        × (S.failed source.new ≡ S.failed source.old)) }
    ensures err { (limit : ℕ)
        → IfErr result (λ e. (taken : List ℕ)
        × Consumes (S.left source.old) (S.left source.new) taken
        × RefusesRecord taken page_size limit e
        × LeavesSource e (S.left source.new) (S.failed source.old) (S.failed source.new)) }
{
    let head: RecordHead = next_value(source)?;
    head.checked(page_size)
}

// Reads a queue's 32 bytes. BadQueue of this index if they are no queue; Truncated or ReadFault.
fn read_queue<S: RecordSource>(source: &mut S, index: usize) -> Result<Queue, RestoreError>
    ensures ok { IfOk result (λ q. Consumes (S.left source.old) (S.left source.new) (queue_bytes q)
        × IsSavedQueue q
        × (S.failed source.new ≡ S.failed source.old)) }
    ensures err { IfErr result (λ e. (taken : List ℕ)
        × Consumes (S.left source.old) (S.left source.new) taken
        × RefusesQueue taken index e
        × LeavesSource e (S.left source.new) (S.failed source.old) (S.failed source.new)) }
{
    let saved: SavedQueue = next_value(source)?;
    saved.queue().ok_or(RestoreError::BadQueue(index))
}

// Reads the bytes after the queues: in version 2 the limit. Mismatch if it isn't this one.
fn read_end<S: RecordSource>(
    source: &mut S,
    version: RecordVersion,
    limit: u32,
) -> Result<(), RestoreError>
    ensures ok { OnOk result
        (Consumes (S.left source.old) (S.left source.new) (end_bytes (versioned version 0 limit))
        × (S.failed source.new ≡ S.failed source.old)) }
    ensures err { IfErr result (λ e. (taken : List ℕ)
        × Consumes (S.left source.old) (S.left source.new) taken
        × RefusesEnd taken version limit e
        × LeavesSource e (S.left source.new) (S.failed source.old) (S.failed source.new)) }
{
    match version {
        RecordVersion::First => Ok(()),
        RecordVersion::Second => {
            let found: u64 = next_value(source)?;
            if found == u64::from(limit) {
                Ok(())
            } else {
                Err(RestoreError::Mismatch)
            }
        }
    }
}

/// Restores the options and the queues of the next record in a source, and reads no byte after the
/// record. Version 2 has a page size, the bytes of a guest's page, and a limit, the greatest length of a
/// request and of a room in bytes. Both have to be the caller's. Version 1 has neither. Errors, in this
/// order:
/// - Truncated or ReadFault in the head's 24 bytes,
/// - BadMagic, BadVersion, BadCount, BadReserved (version 1) or Mismatch (version 2), BadOptions,
/// - OutOfMemory,
/// - for each queue: Truncated or ReadFault in its 32 bytes, BadQueue,
/// - in version 2: Truncated or ReadFault in the limit's 8 bytes, Mismatch.
pub fn restore_record<S: RecordSource>(
    alloc: Global,
    source: &mut S,
    page_size: u32,
    limit: u32,
) -> Result<(FsOptions, Vec<Queue>), RestoreError>
    ensures ok { IfOk result (λ v. (taken : List ℕ) × Consumes (S.left source.old) (S.left source.new) taken
        × IsRecordFor taken page_size limit v.0.0 v.1.items × (S.failed source.new ≡ S.failed source.old)) }
    ensures err { IfErr result (λ e. (taken : List ℕ)
        × Consumes (S.left source.old) (S.left source.new) taken
        × RefusesRecord taken page_size limit e
        × LeavesSource e (S.left source.new) (S.failed source.old) (S.failed source.new)) }
{
    let head = read_head(source, page_size)?;
    let Ok(mut queues) = list_with_room(alloc, head.count) else {
        return Err(RestoreError::OutOfMemory);
    };
    for index in 0..head.count {
        match read_queue(source, index) {
            Ok(queue) => queues.push(queue).unwrap(),
            Err(error) => return Err(error),
        }
    }
    match read_end(source, head.version, limit) {
        Ok(()) => Ok((head.options, queues)),
        Err(error) => Err(error),
    }
}
