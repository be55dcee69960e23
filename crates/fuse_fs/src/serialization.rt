//! The migration of a file system's state to another process.

ghost use Rattle.std.specs.Prelude.{option_map};
ghost use Rattle.std.specs.Result.{result_err};
ghost use Rattle.std.specs.IoError.{error_kind};
ghost use Rattle.fuse_fs.specs.Serializing.{Carries};

use std::io::{self, Read, Write};
use std::sync::atomic::AtomicBool;

/// A file system whose state can be migrated (virtiofsd's `SerializableFileSystem`). Each call satisfies the
/// implementer's relation. `defaults` has the calls of a file system that can't be migrated.
pub trait SerializableFileSystem {
    // What `prepare_serialization` may do: state before, state after.
    ghost may_prepare: { Self → Self → Type 0 };

    // What `serialize` may do: state before, bytes in the stream before, the kind of the error if
    // there is one, bytes in the stream after, state after.
    ghost may_serialize: { Carries Self };

    // What `deserialize_and_apply` may do: state before, bytes left in the stream before, the kind
    // of the error if there is one, bytes left in the stream after, state after.
    ghost may_apply: { Carries Self };

    /// Prepares for `serialize`. It may return early once `cancel` is set.
    fn prepare_serialization(&mut self, cancel: &AtomicBool)
        ensures prepares { may_prepare self.old self.new };

    /// Writes the state to a stream. `may_serialize` defines its errors. A file system that can't
    /// be migrated returns `ErrorKind::Unsupported`.
    fn serialize<W: Write>(&mut self, w: &mut W) -> io::Result<()>
        ensures serializes { may_serialize self.old (W.contents w.old)
            (option_map error_kind (result_err result)) (W.contents w.new) self.new };

    /// Reads a state that `serialize` wrote, and continues from it. `may_apply` defines its errors.
    /// A file system that can't be migrated returns `ErrorKind::Unsupported`.
    fn deserialize_and_apply<R: Read>(&mut self, r: &mut R) -> io::Result<()>
        ensures applies { may_apply self.old (R.remaining r.old) (option_map error_kind (result_err result))
            (R.remaining r.new) self.new };
}
