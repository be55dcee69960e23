//! The FUSE server of a file system (virtiofsd's `Server`).
#![tactic(auto)]

mod answers;
mod forgets;
mod listings;
mod performing;
mod performing_names;
mod reads;
mod serialization;
mod server;
mod session;
mod writes;

pub use fuse_fs::{
    ChangeCalls, ChangesNothing, Context, DirEntry, DirectoryIterator, Entry, Extensions, FewCalls,
    FileNumber, FileSystem, FileSystemBase, GetxattrReply, ListxattrReply, NoEntries, OpenCalls,
    OpensNothing, PositionedFile, SecContext, SerializableFileSystem, Timeout, WritevFlags,
    ZeroCopyReader, ZeroCopyWriter, defaults,
};
pub use reads::{ReadReply, ReadRequest};
pub use server::Server;
pub use server_meanings::MAX_REQUEST_LEN;
pub use server_segments::{DescriptorType, Error, Reader, Writer, ZcReader, ZcWriter};
