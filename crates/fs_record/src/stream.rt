//! Any writer as a sink, and any reader as a source.

ghost use Rattle.std.specs.Prelude.{◌≡◌, ◌||◌, false, is_err};
ghost use Rattle.fs_record.specs.Streams.{took_nothing};

use crate::sink::RecordSink;
use crate::source::RecordSource;
use std::io::{self, Read, Write};

/// A writer or a reader, and whether one of its calls failed.
#[derive(Drop)]
pub struct Stream<S> {
    inner: S,
    failed: bool,
}

// Whether a write returned an error or took no byte.
fn took_nothing(written: &io::Result<usize>) -> bool
    ensures { result ≡ took_nothing written.now }
{
    matches!(written, Ok(0) | Err(_))
}

impl<S> Stream<S> {
    /// A stream none of whose calls failed yet.
    pub fn new(inner: S) -> Stream<S>
        ensures inner { result.inner ≡ inner }
        ensures failed { result.failed ≡ false }
    {
        Stream {
            inner,
            failed: false,
        }
    }

    /// The writer or the reader.
    pub fn into_inner(self) -> S
        ensures { result ≡ self.inner }
    {
        let Stream { inner, .. } = self;
        inner
    }
}

impl<W: Write> RecordSink for Stream<W> {
    ghost sent = { λ s. W.contents s.inner };

    ghost failed = { λ s. s.failed };

    fn put(&mut self, bytes: &[u8]) -> io::Result<usize> {
        let written = self.inner.write(bytes);
        self.failed = self.failed || took_nothing(&written);
        written
    }
}

impl<R: Read> RecordSource for Stream<R> {
    ghost left = { λ s. R.remaining s.inner };

    ghost failed = { λ s. s.failed };

    fn get(&mut self, buf: &mut [u8]) -> io::Result<usize> {
        let read = self.inner.read(buf);
        self.failed = self.failed || read.is_err();
        read
    }
}
