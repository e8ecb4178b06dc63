//! What programs write where they have no bytes of the disk.
ghost use Rattle.std.specs.Prelude.{◌≡◌, ◌<◌, ◌↔◌, IsTrue, MatchBool, length};
ghost use Rattle.adf_block.specs.Image.{block_count};
ghost use Rattle.ados_census.specs.Fillers.{HoldsFiller, IsFiller, Repeats, data_bytes, filler_text};
ghost use Rattle.ados_census.specs.steps.Periods.{BeginsFrom, HasPeriod};

use adf_block::layout::OFS_DATA_BYTE;
use adf_block::{Format, Image};

/// A filler, by what writes it. docs/COMMANDS.md has the same list.
#[derive(Clone, Copy)]
pub enum Filler {
    /// Greaseweazle's host tools, in place of a sector that they could not read.
    Greaseweazle,
    /// FORMAT of MS-DOS and the BIOS of a PC, in each sector that they format.
    PcFormat,
}

impl Filler {
    /// Its text. A sector holds the text again and again.
    fn text(self) -> &'static [u8]
        ensures { result.now ≡ filler_text self }
    {
        match self {
            Filler::Greaseweazle => b"-=[BAD SECTOR]=-",
            Filler::PcFormat => b"\xf6",
        }
    }
}

/// Whether these bytes are a known filler from end to end. It may begin at any byte of its text.
pub fn is_filler(bytes: &[u8]) -> bool
    ensures { IsTrue result ↔ IsFiller bytes.now }
{
    repeats(Filler::Greaseweazle.text(), bytes) || repeats(Filler::PcFormat.text(), bytes)
}

/// Whether the bytes for a file in a block are a known filler from end to end.
pub fn holds_filler(image: &Image, block: u32) -> bool
    requires { block < block_count image.now }
    ensures { IsTrue result ↔ HoldsFiller image.now block }
{
    is_filler(data_bytes(image, block))
}

/// The bytes for a file in a block, as many as fit.
fn data_bytes(image: &Image, block: u32) -> &[u8]
    requires { block < block_count image.now }
    ensures { result.now ≡ data_bytes image.now block }
{
    let bytes = image.block(block);
    match image.format() {
        Format::Ofs => &bytes[OFS_DATA_BYTE as usize..],
        Format::Ffs => bytes,
    }
}

/// Whether these bytes are a text, again and again, from some byte of it on.
fn repeats(text: &[u8], bytes: &[u8]) -> bool
    ensures { IsTrue result ↔ Repeats text.now bytes.now }
{
    for start in 0..text.len() {
        if begins_from(text, start, bytes) && has_period(bytes, text.len()) {
            return true;
        }
    }
    false
}

/// Whether the first bytes, as many as the text has, are the text from this byte of it on.
fn begins_from(text: &[u8], start: usize, bytes: &[u8]) -> bool
    requires { start < length text.now }
    ensures { MatchBool result (BeginsFrom text.now bytes.now start) (¬ BeginsFrom text.now bytes.now start) }
{
    for place in 0..bytes.len().min(text.len()) {
        if bytes[place] != text[(start + place) % text.len()] {
            return false;
        }
    }
    true
}

/// Whether each byte is the one that many bytes before it. No jump depends on a byte, so that the processor compares many at a
/// time.
fn has_period(bytes: &[u8], period: usize) -> bool
    ensures { MatchBool result (HasPeriod bytes.now period) (¬ HasPeriod bytes.now period) }
{
    let mut same = true;
    for place in 0..bytes.len().saturating_sub(period) {
        same = same & (bytes[place + period] == bytes[place]);
    }
    same
}
