//! The data of a request and of its reply, which may be kept apart from the other bytes.

ghost use Rattle.std.specs.Prelude.{◌≡◌};
ghost use Rattle.fuse_wire.specs.Opcodes.{opcode_of};
ghost use Rattle.server_meanings.specs.DataApart.{begins_a_write, is_write};

use crate::requests::opcode_of;
use fuse_in::InHeader;
use fuse_wire::Opcode;
use server_replies::replies::OUT_HEADER_LEN;
use server_requests::source::{Flat, Source};

/// The bytes of a request before its data: all of a READ, or the bytes before the data of a WRITE
/// (linux/fuse.h: `struct fuse_in_header`, and `struct fuse_read_in` or `struct fuse_write_in`).
pub const REQUEST_FRONT: usize = 80;

/// The bytes of a reply before its data: `struct fuse_out_header` (linux/fuse.h).
pub const REPLY_FRONT: usize = OUT_HEADER_LEN;

// Whether a header is that of a WRITE.
fn is_write(header: &InHeader) -> bool
    ensures { result ≡ is_write (opcode_of header.now.opcode) }
{
    matches!(opcode_of(header.opcode), Some(Opcode::Write))
}

/// Whether a request begins with the header of a WRITE: the bytes behind its first `REQUEST_FRONT`
/// are then data to write.
pub fn begins_a_write(front: &[u8]) -> bool
    ensures { result ≡ begins_a_write front.now }
{
    let mut source = Flat { bytes: front };
    match source.record::<InHeader>() {
        Ok(header) => is_write(&header),
        Err(_) => false,
    }
}
