//! Reads and writes of a block by offset. These writes mark no page.

ghost use Rattle.std.specs.Prelude.{IsTrue, None, ◌≡◌, ◌↔◌, length, map};
ghost use Rattle.std.specs.Bool.{OnFalse, OnTrue};
ghost use Rattle.std.specs.List.{zip};
ghost use Rattle.vm_memory_core.specs.Host.{lengths, shape};
ghost use Rattle.vm_memory_core.specs.Window.{LiesIn, byte_in, set_all, span};

use crate::host::HostMemory;
use vm_bitmaps::NewBitmap;

impl<B: NewBitmap> HostMemory<B> {
    /// Reads bytes of a block. If it doesn't have all of them, returns false and leaves the buffer unchanged.
    pub fn read_block(&self, block: usize, offset: usize, buffer: &mut [u8]) -> bool
        ensures found { IsTrue result ↔ LiesIn (lengths self.now)
            (record { block = block; offset = offset; len = length buffer.old; io = None }) }
        ensures read { OnTrue result
            (buffer.new ≡ map (byte_in self.now) (span block offset None (length buffer.old))) }
        ensures refused { OnFalse result (buffer.new ≡ buffer.old) }
    {
        match self.window(block, offset, buffer.len()) {
            Some(window) => {
                buffer.copy_from_slice(self.bytes(window));
                true
            }
            None => false,
        }
    }

    /// Sets bytes of a block, and marks no page. If it doesn't have all of them, returns false and changes
    /// nothing.
    pub fn write_block(&mut self, block: usize, offset: usize, bytes: &[u8]) -> bool
        ensures found { IsTrue result ↔ LiesIn (lengths self.old)
            (record { block = block; offset = offset; len = length bytes.now; io = None }) }
        ensures set { OnTrue result
            (self.new ≡ set_all self.old (zip (span block offset None (length bytes.now)) bytes.now)) }
        ensures refused { OnFalse result (self.new ≡ self.old) }
        ensures shape { shape self.new ≡ shape self.old }
    {
        match self.window(block, offset, bytes.len()) {
            Some(_) => {
                self.blocks[block].set(offset, bytes);
                true
            }
            None => false,
        }
    }
}
