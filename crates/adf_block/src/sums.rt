//! Checksums. In a block with a checksum field, the longs add up to 0 modulo 2^32.

ghost use Rattle.std.specs.Prelude.{◌≡◌, ◌≢◌, ◌<◌, ◌⊎◌, ℕ};
ghost use Rattle.adf_block.specs.Whole.{IsImage};
ghost use Rattle.adf_block.specs.Image.{block_count, block_sum, long};
ghost use Rattle.adf_block.specs.Frame.{AtTwoLongs, OnlyLong, SameBut};

use crate::floppy::Image;
use crate::layout::BLOCK_LONGS;

impl Image {
    /// The sum of the 128 longs of block `b`, modulo 2^32.
    pub fn sum(&self, b: u32) -> u32
        requires { b < block_count self.now }
        ensures { result ≡ block_sum self.now b }
    {
        let mut sum = 0_u32;
        for i in 0..BLOCK_LONGS {
            sum = sum.wrapping_add(self.long(b, i));
        }
        sum
    }

    /// Writes the checksum of block `b` into long `field`: the sum of all its longs becomes 0 (AmigaDOS Technical
    /// Reference). The field is long 5, in a bitmap block long 0.
    pub fn settle(&mut self, b: u32, field: u32)
        requires block { b < block_count self.old }
        requires place { field < BLOCK_LONGS }
        ensures sum { block_sum self.new b ≡ 0 }
        ensures others { (c j : ℕ) → j < BLOCK_LONGS → (c ≢ b) ⊎ (j ≢ field) → long self.new c j ≡ long self.old c j }
        ensures rest { OnlyLong b field self.old self.new }
        ensures image { IsImage self.new }
    {
        let others = self.sum(b).wrapping_sub(self.long(b, field));
        self.set_long(b, field, others.wrapping_neg());
    }

    /// Sets long `i` of block `b`, and changes the checksum in long `field` by the opposite amount: the sum of the
    /// longs stays the same.
    pub fn set_summed(&mut self, b: u32, i: u32, v: u32, field: u32)
        requires block { b < block_count self.old }
        requires place { i < BLOCK_LONGS }
        requires sum_place { field < BLOCK_LONGS }
        requires apart { i ≢ field }
        ensures long { long self.new b i ≡ v }
        ensures sum { block_sum self.new b ≡ block_sum self.old b }
        ensures others { (c j : ℕ) → j < BLOCK_LONGS → (c ≢ b) ⊎ ((j ≢ i) × (j ≢ field)) → long self.new c j ≡ long self.old c j }
        ensures rest { SameBut (AtTwoLongs b i field) self.old self.new }
        ensures image { IsImage self.new }
    {
        let old = self.long(b, i);
        let sum = self.long(b, field).wrapping_add(old).wrapping_sub(v);
        self.set_long(b, i, v);
        self.set_long(b, field, sum);
    }
}
