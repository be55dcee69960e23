//! Bytes of a request, and their offset in it.

ghost use Rattle.std.specs.Prelude.{◌+◌, ◌<◌, ◌^◌, length};

/// Bytes of a request, and where they lie in it.
#[derive(Clone, Copy)]
pub struct Placed<'a> {
    /// The bytes.
    pub bytes: &'a [u8],
    /// The offset of the first one, in bytes from the request's start.
    pub at: u32,
    ghost fits: { at + length bytes.now < 2 ^ 32 },
}
