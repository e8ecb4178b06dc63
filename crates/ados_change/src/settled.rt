//! Fields written into a block whose checksum is long 5. A right checksum stays right.

ghost use Rattle.std.specs.Prelude.{◌≡◌, ◌<◌, ◌≤◌, ◌+◌, ◌*◌, length};
ghost use Rattle.adf_block.specs.Image.{block_count, block_sum, HasText};
ghost use Rattle.adf_block.specs.declared.layout.TheConstants.{BLOCK_BYTES, BLOCK_LONGS};
ghost use Rattle.adf_block.specs.Frame.{SameBut, long_byte};
ghost use Rattle.adf_block.specs.Whole.{IsImage};
ghost use Rattle.ados_model.specs.Stands.{date_at};
ghost use Rattle.ados_change.specs.Places.{Summed};

use crate::edit::put_text;
use adf_block::Image;
use adf_block::beside::CHECKSUM;
use ados_name::Date3;

/// Writes a text into block `b`: its length at byte `at`, then its bytes. Bytes after the text are unchanged.
pub fn settle_text(image: &mut Image, b: u32, at: usize, text: &[u8])
    requires inside { b < block_count image.old }
    requires place { long_byte (CHECKSUM + 1) ≤ at }
    requires room { at + 1 + length text.now ≤ BLOCK_BYTES }
    requires short { length text.now < 256 }
    ensures text { HasText image.new b at text.now }
    ensures sum { block_sum image.new b ≡ 0 }
    ensures rest { SameBut (Summed b at (at + 1 + length text.now)) image.old image.new }
{
    put_text(image, b, at, text);
    image.settle(b, CHECKSUM);
}

/// Writes a date into three longs of block `b`, from long `i`: days, minutes, ticks.
pub fn settle_date(image: &mut Image, b: u32, i: u32, date: Date3)
    requires inside { b < block_count image.old }
    requires behind { CHECKSUM + 1 ≤ i }
    requires place { i + 2 < BLOCK_LONGS }
    ensures date { date_at image.new b i ≡ date }
    ensures sum { block_sum image.old b ≡ 0 → block_sum image.new b ≡ 0 }
    ensures rest { SameBut (Summed b (4 * i) (4 * i + 12)) image.old image.new }
    ensures image { IsImage image.new }
{
    image.set_summed(b, i, date.days, CHECKSUM);
    image.set_summed(b, i + 1, date.minutes, CHECKSUM);
    image.set_summed(b, i + 2, date.ticks, CHECKSUM);
}
