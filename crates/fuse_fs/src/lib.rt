//! The trait of file systems, with their calls and answers.
#![tactic(auto)]

mod answers;
pub mod defaults;
mod directory;
mod extensions;
mod few_calls;
mod file_system;
mod good_answers;
mod lacking;
pub mod replies;
mod serialization;
mod zero_copy;

pub use answers::{Context, Entry, GetxattrReply, ListxattrReply, Timeout};
pub use directory::{DirEntry, DirectoryIterator, NoEntries};
pub use extensions::{Extensions, SecContext};
pub use few_calls::{ChangeCalls, ChangesNothing, FewCalls, OpenCalls, OpensNothing};
pub use file_system::{FileNumber, FileSystem, FileSystemBase};
pub use good_answers::{GoodAnswer, Silence};
pub use serialization::SerializableFileSystem;
pub use zero_copy::{PositionedFile, WritevFlags, ZeroCopyReader, ZeroCopyWriter};
