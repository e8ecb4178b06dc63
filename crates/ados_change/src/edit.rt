//! Texts and dates written into a block.

ghost use Rattle.std.specs.Prelude.{◌≡◌, ◌<◌, ◌≤◌, ◌+◌, ◌*◌, length};
ghost use Rattle.adf_block.specs.Image.{block_count, HasText};
ghost use Rattle.adf_block.specs.declared.layout.TheConstants.{BLOCK_BYTES, BLOCK_LONGS};
ghost use Rattle.adf_block.specs.Frame.{SameBut, Within};
ghost use Rattle.ados_model.specs.Stands.{date_at};

use adf_block::Image;
use ados_name::Date3;

/// Writes a text into block `b`: its length at byte `at`, then its bytes.
pub fn put_text(image: &mut Image, b: u32, at: usize, text: &[u8])
    requires inside { b < block_count image.old }
    requires room { at + 1 + length text.now ≤ BLOCK_BYTES }
    requires short { length text.now < 256 }
    ensures text { HasText image.new b at text.now }
    ensures rest { SameBut (Within b at (at + 1 + length text.now)) image.old image.new }
{
    image.put_bytes(b, at, &[text.len() as u8]);
    image.put_bytes(b, at + 1, text);
}

/// Writes a date into three longs of block `b`, from long `i`: days, minutes, ticks.
pub fn put_date(image: &mut Image, b: u32, i: u32, date: Date3)
    requires inside { b < block_count image.old }
    requires place { i + 2 < BLOCK_LONGS }
    ensures date { date_at image.new b i ≡ date }
    ensures rest { SameBut (Within b (4 * i) (4 * i + 12)) image.old image.new }
{
    image.set_long(b, i, date.days);
    image.set_long(b, i + 1, date.minutes);
    image.set_long(b, i + 2, date.ticks);
}
