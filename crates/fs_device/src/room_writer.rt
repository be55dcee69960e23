//! A reply buffer in host memory that files fill.

ghost use Rattle.std.specs.Prelude.{◌≡◌, All, length, refl};
ghost use Rattle.std.proofs.Common.{◌∙◌};
ghost use Rattle.std.proofs.Props.{props};
ghost use Rattle.vm_memory_core.specs.Host.{lengths};
ghost use Rattle.vm_memory_core.specs.Window.{LiesIn};
ghost use Rattle.plain_machine.specs.Fills.{Fills};
ghost use Rattle.plain_machine.specs.FillsProof.{fills_more, fills_none};

use crate::room_left::RoomLeft;
use crate::source::read_to_window;
use fuse_base::Errno;
use fuse_fs::{PositionedFile, ZeroCopyWriter};
use server_segments::{SegmentBuffer, read_segments};
use vm_memory_core::HostBlocks;

/// A reply buffer in host memory that files fill from its first byte on, one read for each window. It
/// must be ended (`end`), not dropped: its lender then knows the memory's bytes.
pub struct RoomWriter<'a, 'b, 'c, H: HostBlocks> {
    pub host: &'a mut H,
    /// The part that is still free.
    pub room: &'b mut RoomLeft<'c>,
    pub ghost lies: { All (LiesIn (lengths (H.host host.now))) room.now.windows } by { Prim.hlevel props },
}

impl<'a, 'b, 'c, H: HostBlocks> RoomWriter<'a, 'b, 'c, H> {
    /// Ends the loan: the lender has the memory as it is now.
    pub fn end(self)
        ensures { self.exit.0.now ≡ self.entry.host.now }
    {
        let RoomWriter {
            host: _host,
            room: _room,
        } = self;
    }
}

impl<'a, 'b, 'c, H: HostBlocks> SegmentBuffer for RoomWriter<'a, 'b, 'c, H> {
    ghost Puts = { λ old bytes new. Fills (H.host old.host.now) old.room.now.places bytes
        (H.host new.host.now) new.room.now.places
        × (new.host.ghost_name ≡ old.host.ghost_name) };

    ghost room = { λ w. length w.room.now.places };

    ghost rooms = { λ w. w.room.now.rooms };

    ghost puts_none = { λ w. (fills_none (H.host w.host.now) w.room.now.places, refl) };

    ghost puts_more = { λ a b c xs ys first second. (
      fills_more (H.host a.host.now) (H.host b.host.now) (H.host c.host.now) a.room.now.places
          b.room.now.places c.room.now.places xs ys first.0 second.0,
      second.1 ∙ first.1,
    ) };

    fn free_bytes(&self) -> usize {
        self.room.len()
    }

    #[tactic(auto, unfolding(vm_memory_core::specs::Window::AllLieIn))]
    fn read_once<F: PositionedFile>(
        &mut self,
        file: &mut F,
        count: usize,
        off: u64,
    ) -> Result<usize, Errno> {
        let most = count.min(self.room.len());
        if most == 0 {
            return Ok(0);
        }
        let front = self.room.front(count);
        match read_to_window(&mut *self.host, front, file, off) {
            Ok(n) => {
                self.room.advance(n);
                Ok(n)
            }
            Err(error) => Err(error),
        }
    }
}

impl<'a, 'b, 'c, H: HostBlocks> ZeroCopyWriter for RoomWriter<'a, 'b, 'c, H> {
    ghost Puts = { ⟦<RoomWriter<'a, 'b, 'c, H> as SegmentBuffer>⟧.Puts };

    ghost room = { ⟦<RoomWriter<'a, 'b, 'c, H> as SegmentBuffer>⟧.room };

    ghost rooms = { ⟦<RoomWriter<'a, 'b, 'c, H> as SegmentBuffer>⟧.rooms };

    ghost puts_none = { λ w. (fills_none (H.host w.host.now) w.room.now.places, refl) };

    ghost puts_more = { λ a b c xs ys first second. (
      fills_more (H.host a.host.now) (H.host b.host.now) (H.host c.host.now) a.room.now.places
          b.room.now.places c.room.now.places xs ys first.0 second.0,
      second.1 ∙ first.1,
    ) };

    fn available_bytes(&self) -> usize {
        self.room.len()
    }

    fn read_from_file_at<F: PositionedFile>(
        &mut self,
        file: &mut F,
        count: usize,
        off: u64,
    ) -> Result<usize, Errno> {
        read_segments(self, file, count, off)
    }
}
