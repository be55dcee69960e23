//! The file call of each FUSE request (linux/fuse.h). The file system's answer is passed on unchanged. For
//! READDIRPLUS the server also makes a LOOKUP for each entry. INTERRUPT makes no call.
#![tactic(auto)]

pub mod directories;
pub mod entries;
pub mod links;
pub mod new_nodes;
pub mod nodes;
pub mod open_files;
pub mod plain_requests;
pub mod reads;
pub mod received;
pub mod session;
pub mod values;
pub mod writes;
pub mod xattrs;
