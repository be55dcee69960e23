//! Writing a record to a sink.

ghost use Rattle.std.specs.Prelude.{◌≡◌, ◌<◌, ◌≤◌, length, OnOk};
ghost use Rattle.vm_values.specs.Fields.{spelled};
ghost use Rattle.fs_record.specs.Streams.{Leaves};
ghost use Rattle.fs_record.specs.Record.{HasKnownBits, IsSavable, Second, IsSavedQueue, saved, record_bytes};

use crate::error::WriteFault;
use crate::fields::{RecordHead, SavedQueue};
use crate::sink::RecordSink;
use bitflags::Flags;
use fs_queue::Queue;
use fuse_wire::FsOptions;
use vm_values::ByteValued;

/// "VFSD" as a le32 number.
pub(crate) const MAGIC: u32 = 0x4453_4656;

// The version of each saved record.
const VERSION: u32 = 2;

// Writes all bytes of a slice.
fn put_slice<S: RecordSink>(sink: &mut S, bytes: &[u8]) -> Result<(), WriteFault>
    ensures { Leaves bytes.now (S.sent sink.old) (S.failed sink.old) result (S.sent sink.new)
        (S.failed sink.new) }
{
    let mut rest = bytes;
    while !rest.is_empty() {
        match sink.put(rest) {
            Ok(0) | Err(_) => return Err(WriteFault),
            Ok(n) => rest = &rest[n..],
        }
    }
    Ok(())
}

// Writes the bytes of a value.
fn put_value<S: RecordSink, T: ByteValued>(sink: &mut S, value: &T) -> Result<(), WriteFault>
    ensures { Leaves (spelled (T.fields value.now)) (S.sent sink.old) (S.failed sink.old) result
        (S.sent sink.new) (S.failed sink.new) }
{
    let mut buffer = [0; 256];
    value.put_bytes(&mut buffer[..T::SIZE]);
    put_slice(sink, &buffer[..T::SIZE])
}

// A queue as the record's fields.
fn saved(queue: &Queue) -> SavedQueue
    ensures value { result ≡ saved queue.now }
    ensures queue { IsSavedQueue queue.now }
{
    let layout = queue.layout();
    SavedQueue {
        size: layout.size(),
        position: queue.position(),
        stopped: u32::from(queue.is_stopped()),
        desc: layout.desc(),
        avail: layout.avail(),
        used: layout.used(),
    }
}

/// Writes the record of options and of 1 to 64 queues, in version 2. Its page size is the bytes of a
/// guest's page. Its limit is the greatest length of a request and of a room in bytes. A record has 24
/// bytes, 32 for each queue, and 8. WriteFault if the sink fails or takes no byte: a part of the record
/// was written, and not all of it.
pub fn save_record<S: RecordSink>(
    sink: &mut S,
    options: FsOptions,
    queues: &[Queue],
    page_size: u32,
    limit: u32,
) -> Result<(), WriteFault>
    requires known { HasKnownBits options.0 }
    requires some { 1 ≤ length queues.now }
    requires few { length queues.now ≤ 64 }
    ensures leaves { Leaves (record_bytes (Second page_size limit) options.0 queues.now) (S.sent sink.old)
        (S.failed sink.old) result
        (S.sent sink.new) (S.failed sink.new) }
    ensures savable { OnOk result (IsSavable options.0 queues.now) }
{
    let head = RecordHead {
        magic: MAGIC,
        version: VERSION,
        count: queues.len() as u32,
        page_size,
        options: options.bits(),
    };
    put_value(sink, &head)?;
    for queue in queues {
        put_value(sink, &saved(queue))?;
    }
    put_value(sink, &u64::from(limit))
}
