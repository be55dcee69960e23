//! The sizes of the structures that C sees, in bytes: pitskhomu_names.h asserts the same.

use crate::answers::{FsEntry, FsStatfs};
use crate::call::{FsAttr, FsCall, FsSpan};
use crate::device::FsDevice;
use crate::handle::FsChain;
use crate::iotlb_handle::FsIotlb;
use crate::memory::FsRegion;
use crate::missing::FsMiss;
use crate::notifications::FsStore;
use crate::popping::FsPopResult;
use crate::pushing::FsStores;
use crate::queue::FsQueue;
use crate::ranges::FsRange;
use crate::windows::FsWindow;
use fs_regions::LoadAhead;

const _: () = prove!(size_of::<FsDevice>() == 16);

const _: () = prove!(size_of::<FsQueue>() == 48);

const _: () = prove!(size_of::<FsRegion>() == 24);

const _: () = prove!(size_of::<FsChain>() == 16);

const _: () = prove!(size_of::<FsPopResult>() == 72);

const _: () = prove!(size_of::<LoadAhead>() == 16);

const _: () = prove!(size_of::<FsWindow>() == 16);

const _: () = prove!(size_of::<FsRange>() == 16);

const _: () = prove!(size_of::<FsIotlb>() == 16);

const _: () = prove!(size_of::<FsMiss>() == 24);

const _: () = prove!(size_of::<FsSpan>() == 8);

const _: () = prove!(size_of::<FsAttr>() == 88);

const _: () = prove!(size_of::<FsCall>() == 312);

const _: () = prove!(size_of::<FsEntry>() == 128);

const _: () = prove!(size_of::<FsStatfs>() == 56);

const _: () = prove!(size_of::<FsStores>() == 72);

const _: () = prove!(size_of::<FsStore>() == 16);
