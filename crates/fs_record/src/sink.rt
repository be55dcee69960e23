//! The sink of a record.

ghost use Rattle.std.specs.Prelude.{◌≡◌, ◌<◌, ℕ, Bool, ◌||◌, List, Option, length};
ghost use Rattle.std.specs.Io.{WritesAtMost};
ghost use Rattle.std.specs.Io.KnownBytes.{WriteAppends};
ghost use Rattle.fs_record.specs.Streams.{took_nothing};

use std::io;

/// A sink that takes the bytes of a record.
pub trait RecordSink {
    // The bytes that the sink took so far, if they are known.
    ghost sent: { Self → Option (List ℕ) };

    // Whether any `put` returned an error or took no byte.
    ghost failed: { Self → Bool };

    /// Takes bytes from the front of a slice that isn't empty, and returns their number, as
    /// `Write::write` does. An error is an `io::Error` of the sink.
    fn put(&mut self, bytes: &[u8]) -> io::Result<usize>
        requires { 0 < length bytes.now }
        ensures bound { WritesAtMost result bytes.now }
        ensures sent { WriteAppends (sent self.old) (sent self.new) result bytes.now }
        ensures failed { failed self.new ≡ (failed self.old || took_nothing result) };
}
