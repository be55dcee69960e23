//! Theorems on the definitions: each is the contract of a function that does nothing, or only looks at
//! its arguments.

ghost use Rattle.fs_device.specs.Books.{Balances};
ghost use Rattle.fs_device.specs.Laws.{CutsDoNotMatter, OffersAreServedAlike};
ghost use Rattle.fs_device.specs.Marks.{MarksDoNotMatter};
ghost use Rattle.plain_machine.specs.MarkedPages.{CommandsMark, StepsMark, WritesMark};
ghost use Rattle.fs_device.specs.Moving.{CanMoveAgain, HasItsMarks, ImageCatchesUp, MovedIsLast};
ghost use Rattle.fs_device.specs.Moving.{PagesHavePlaces, StaleIsMarked};
ghost use Rattle.plain_machine.specs.StepBy.{StepByIsStep, StepIsStepBy, StoresOnlyThere};
ghost use Rattle.fs_device.specs.Reporting.{CallsAreOfRun};
ghost use Rattle.plain_machine.specs.UsedLength.{LengthsAreOfReplies};

use fuse_fs::FileSystem;
use vm_memory_core::{HostMemory, PageBitmap};

/// The cut of a request and its reply buffer into descriptors doesn't matter: the same file calls are
/// possible, and the reply is the same. This holds for two lists of descriptors, and for the chains that
/// two queues offer, direct or by indirect tables.
pub fn law_cuts<F: FileSystem>()
    ensures cuts { CutsDoNotMatter F.may }
    ensures offers { OffersAreServedAlike F.may }
{}

/// Over a run, the accounts of each node but 0 balance: the count that the file system gave out, less
/// the count that it was sent back, is the count in replies less the count that the driver sent back.
pub fn law_books<F: FileSystem>()
    ensures { Balances F.may }
{}

/// A step is determined by its loads, the answers to its calls and its stores, and the guest may write at any
/// time. It stores only to the walked reply buffer, the used element and the used index (VIRTIO 1.2, 2.7.8).
/// A step with loads of one memory is a step of the plain machine over that memory. Each step of the plain
/// machine is a step by loads and stores.
pub fn law_steps_by_loads<F: FileSystem>()
    ensures is_step { StepByIsStep F.may }
    ensures has { StepIsStepBy F.may }
    ensures there { StoresOnlyThere F.may }
{}

/// All file calls of a run, in their order, are a run of the file system from its first state to its
/// last. Each exchange has the calls and the reply that its request means in some setting (options,
/// page size, reply buffer), as `RunReported` says.
pub fn law_calls<F: FileSystem>()
    ensures { CallsAreOfRun F.may }
{}

/// Marks change nothing else. States that differ only in marks allow the same runs, with the same
/// exchanges, notifications and calls; only the answers to harvests and the marks differ. The states
/// afterwards differ only in marks.
pub fn law_marks<F: FileSystem>()
    ensures { MarksDoNotMatter F.may }
{}

/// The used length of an exchange (VIRTIO 1.2, 2.7.8). Above 0, it is the length in the reply's header
/// (linux/fuse.h, `fuse_out_header.len`) and the number of reply bytes written. If it is 0, only the
/// used element and the used index are written.
pub fn law_used_length<F: FileSystem>()
    ensures { LengthsAreOfReplies F.may }
{}

/// The pages, of 4096 bytes, that a write marks, and no others. With the IOMMU off, it marks the page
/// of each written place in its block. With it on, it marks the page of each written address in the
/// device's set of I/O pages, unless that page is past the set's end. This holds for writes, for a step
/// that exchanges a chain, and for each command. A guest's write marks as with the IOMMU off, a kick as
/// its steps do; an image and a harvest clear the marks of blocks.
pub fn law_marked_pages<F: FileSystem>()
    ensures writes { WritesMark }
    ensures steps { StepsMark F.may }
    ensures commands { CommandsMark F.may }
{}

/// The move of a machine: a run from an image of a host that has a mark for each page of its blocks.
/// The run has the IOMMU off, no new block, no change of mappings and no other image. At each moment,
/// the copy with the harvested pages differs from the host only on marked pages. After a last harvest
/// they are the same, marks and all, and so is the state over the copy, with the options and queues of
/// the device's record. Each harvested page fits into the copy, and from the run's end another may
/// begin. `law_host_marks` shows that a host has its marks.
pub fn law_move<F: FileSystem>()
    ensures stale { StaleIsMarked F.may }
    ensures catches_up { ImageCatchesUp F.may }
    ensures last { MovedIsLast F.may }
    ensures places { PagesHavePlaces F.may }
    ensures again { CanMoveAgain F.may }
{}

/// Each block of a host has a mark for each of its pages, as `law_move` requires of the host before an
/// image. The function looks at each block.
pub fn law_host_marks(host: &HostMemory<PageBitmap>)
    ensures { HasItsMarks host.now }
{
    for block in 0..host.block_count() {
        let _ = host.bytes_and_bitmap(block);
    }
}
