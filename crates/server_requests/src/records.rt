//! The records of requests.

ghost use Rattle.std.specs.Prelude.{◌≡◌, IfErr, OnOk};
ghost use Rattle.fuse_fs.specs.Lengths.{past};
ghost use Rattle.server_requests.specs.Reading.{read_result, record_parser};

use fuse_in::InRecord;
use server_segments::{Error, Reader};

/// The record in the next bytes, or `DecodeMessage` if there are too few.
#[inline(always)]
pub fn read_record<T: InRecord>(r: &mut Reader<'_>) -> Result<T, Error>
    ensures reads { read_result result r.new.left ≡ record_parser T.shape r.old.left }
    ensures fault { IfErr result (λ e. e ≡ Error.DecodeMessage) }
    ensures segments { OnOk result (r.new.segments ≡ past T.SIZE r.old.segments) }
{
    match r.read_obj() {
        Ok(record) => Ok(record),
        Err(_) => Err(Error::DecodeMessage),
    }
}
