//! One chain of a virtio-fs device from its pop to its push, for VMMs in C: what the exports of
//! fs_chain_exports call. Their header, pitskhomu.h, lies here.
#![tactic(auto)]

mod access;
mod answer_kind;
pub mod answers;
pub mod call;
mod call_table;
pub mod decoding;
pub mod device;
mod fields;
pub mod handle;
pub mod iotlb_handle;
pub mod iotlbs;
pub mod laws;
pub mod laws_moving;
pub mod listing;
pub mod memory;
pub mod missing;
pub mod names;
pub mod notifications;
mod parts;
pub mod popping;
pub mod pushing;
pub mod queue;
pub mod ranges;
pub mod record;
mod record_place;
pub mod replies;
mod saved_bytes;
pub mod setting;
mod sizes;
pub mod status;
pub mod windows;
