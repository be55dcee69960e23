//! The length of a request, and its opcode.

ghost use Rattle.std.specs.Prelude.{◌≡◌};
ghost use Rattle.fuse_wire.specs.Opcodes.{opcode_of};

use fuse_wire::Opcode;

/// The length of the longest request, in bytes: 2^20 of data, and one page (virtiofsd's
/// `MAX_BUFFER_SIZE` and `FUSE_BUFFER_HEADER_SIZE`).
pub const MAX_REQUEST_LEN: u32 = 0x101000;

/// The opcode with this number, or None.
pub fn opcode_of(number: u32) -> Option<Opcode>
    ensures { result ≡ opcode_of number }
{
    match Opcode::try_from(number) {
        Ok(opcode) => Some(opcode),
        Err(()) => None,
    }
}
