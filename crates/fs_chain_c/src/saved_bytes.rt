//! The bytes of a record that C passes, as a source.

ghost use Rattle.std.specs.Prelude.{Some, false};

use fs_record::RecordSource;
use std::io::{self, Read};

/// The bytes that are left: to read them never fails.
#[derive(Drop)]
pub struct SavedBytes<'a>(pub &'a [u8]);

impl RecordSource for SavedBytes<'_> {
    ghost left = { λ s. Some s.0.now };

    ghost failed = { λ _. false };

    fn get(&mut self, buf: &mut [u8]) -> io::Result<usize> {
        self.0.read(buf)
    }
}
