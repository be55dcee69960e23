//! A file as the source of a read to host memory.

ghost use Rattle.std.specs.Prelude.{◌≡◌, ℕ, ◌≤◌, List, length};
ghost use Rattle.vm_memory_core.specs.Host.{lengths, shape};
ghost use Rattle.vm_memory_core.specs.Volatile.{moved, read_answer};
ghost use Rattle.vm_memory_core.specs.Window.{LiesIn, Stores, places_of};

use fuse_base::Errno;
use fuse_fs::PositionedFile;
use vm_memory_core::{HostBlocks, ReadVolatile, VolatileSlice};

// A file from an offset on, in bytes. It must be ended (`end`), not dropped: its lender then knows the
// file's state.
struct FileAt<'a, F: PositionedFile> {
    file: &'a mut F,
    off: u64,
}

impl<'a, F: PositionedFile> FileAt<'a, F> {
    // Ends the loan: the lender has the file as it is now.
    fn end(self)
        ensures { self.exit.0.now ≡ self.entry.file.now }
    {
        let FileAt {
            file: _file,
            off: _off,
        } = self;
    }
}

impl<'a, F: PositionedFile> ReadVolatile for FileAt<'a, F> {
    type Error = Errno;

    ghost gives = { λ old lent answer new. F.read_gives old.file.now (length lent) old.off answer new.file.now
        × (new.file.ghost_name ≡ old.file.ghost_name) };

    fn read_volatile(&mut self, buf: &mut [u8]) -> Result<usize, Errno> {
        self.file.read_at(buf, self.off)
    }
}

// One read of a file to the first bytes of a window. The file is lent the window's bytes, and no other
// memory.
#[tactic(auto, using(crate::proofs::LentLemmas::lent_length))]
pub(crate) fn read_to_window<H: HostBlocks, F: PositionedFile>(
    host: &mut H,
    window: VolatileSlice,
    file: &mut F,
    off: u64,
) -> Result<usize, Errno>
    requires { LiesIn (lengths (H.host host.old)) window }
    ensures reads { (bytes : List ℕ)
        × Stores (H.host host.old) (H.host host.new) (places_of window) bytes
        × (length bytes ≡ moved result)
        × (length bytes ≤ window.len)
        × F.read_gives file.old window.len off (read_answer result bytes) file.new }
    ensures shape { shape (H.host host.new) ≡ shape (H.host host.old) }
{
    let mut source = FileAt { file, off };
    let answer = host.read_volatile_from(window, &mut source);
    source.end();
    answer
}
