//! The source of a record.

ghost use Rattle.std.specs.Prelude.{◌≡◌, ◌<◌, ℕ, Bool, ◌||◌, List, Option, length, is_err};
ghost use Rattle.std.specs.Io.{ReadsAtMost};
ghost use Rattle.std.specs.Io.KnownBytes.{ReadConsumes};

use std::io;

/// A source that has the bytes of a record.
pub trait RecordSource {
    // The bytes that are left, if they are known.
    ghost left: { Self → Option (List ℕ) };

    // Whether any `get` returned an error.
    ghost failed: { Self → Bool };

    /// Puts bytes at the front of a buffer that isn't empty, and returns their number, as `Read::read`
    /// does. 0 is only returned at the end. An error is an `io::Error` of the source.
    fn get(&mut self, buf: &mut [u8]) -> io::Result<usize>
        requires { 0 < length buf.old }
        ensures bound { ReadsAtMost result buf.new }
        ensures left { ReadConsumes (left self.old) (left self.new) result buf.new }
        ensures failed { failed self.new ≡ (failed self.old || is_err result) };
}
