//! Moving the state of a server's file system to another process (virtiofsd's `SerializableFileSystem`).

ghost use Rattle.virtiofsd_fuse.specs.Carrying.{ServerPrepared, ServerCarried};

use crate::server::Server;
use fuse_fs::SerializableFileSystem;
use std::io::{self, Read, Write};
use std::sync::atomic::AtomicBool;

impl<F: SerializableFileSystem> SerializableFileSystem for Server<F> {
    ghost may_prepare = { ServerPrepared F.may_prepare };

    ghost may_serialize = { ServerCarried F.may_serialize };

    ghost may_apply = { ServerCarried F.may_apply };

    /// Calls the file system's `prepare_serialization`.
    fn prepare_serialization(&mut self, cancel: &AtomicBool) {
        self.fs.prepare_serialization(cancel);
    }

    /// Writes the state of the file system to `w`. Returns the file system's answer.
    fn serialize<W: Write>(&mut self, w: &mut W) -> io::Result<()> {
        self.fs.serialize(w)
    }

    /// Reads the state of the file system from `r`, and applies it. Returns the file system's answer.
    fn deserialize_and_apply<R: Read>(&mut self, r: &mut R) -> io::Result<()> {
        self.fs.deserialize_and_apply(r)
    }
}
