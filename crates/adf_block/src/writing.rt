//! Writes of bytes within one block.

ghost use Rattle.std.specs.Prelude.{◌≡◌, ◌<◌, ◌≤◌, ◌+◌, ℕ, length, slice_index};
ghost use Rattle.adf_block.specs.declared.layout.TheConstants.{BLOCK_BYTES};
ghost use Rattle.adf_block.specs.Image.{block_count, byte_at};
ghost use Rattle.adf_block.specs.Frame.{OnlyBlock, SameBut, Within};

use crate::floppy::Image;

impl Image {
    /// Fills all 512 bytes of block `b` with zeros.
    pub fn clear(&mut self, b: u32)
        requires { b < block_count self.old }
        ensures empty { (k : ℕ) → k < BLOCK_BYTES → byte_at self.new b k ≡ 0 }
        ensures rest { OnlyBlock b self.old self.new }
    {
        self.block_mut(b).fill(0);
    }

    /// Overwrites block `b` with these bytes, from byte `at`.
    pub fn put_bytes(&mut self, b: u32, at: usize, bytes: &[u8])
        requires inside { b < block_count self.old }
        requires room { at + length bytes.now ≤ BLOCK_BYTES }
        ensures put { (k : ℕ) → k < length bytes.now → byte_at self.new b (at + k) ≡ slice_index bytes.now k }
        ensures rest { SameBut (Within b at (at + length bytes.now)) self.old self.new }
    {
        let block = self.block_mut(b);
        block[at..at + bytes.len()].copy_from_slice(bytes);
    }
}
