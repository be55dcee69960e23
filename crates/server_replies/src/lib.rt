//! FUSE replies: answers of a file system, entries of a directory and the options of INIT.
#![tactic(auto)]

pub mod answers;
pub mod entries;
pub mod fronts;
pub mod init;
pub mod replies;
