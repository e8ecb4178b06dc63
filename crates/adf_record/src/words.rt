//! The words for facts.
ghost use Rattle.std.specs.Prelude.{◌≡◌};
ghost use Rattle.adf_record.specs.Shown.{bitmap_words, density_words, format_word};
ghost use Rattle.adf_record.specs.Object.{boot_word, kind_word};

use adf_block::{BootCode, Format};

/// The blocks of a double-density floppy.
const DOUBLE_DENSITY: u32 = 1_760;

/// The blocks of a high-density floppy.
const HIGH_DENSITY: u32 = 3_520;

/// `OFS` or `FFS`, as `show` and bundles have it.
pub fn format_word(format: Format) -> &'static str
    ensures { result.now ≡ format_word format }
{
    match format {
        Format::Ofs => "OFS",
        Format::Ffs => "FFS",
    }
}

/// The density of a floppy with this many blocks, after a comma; nothing for other sizes.
pub(crate) fn density_words(blocks: u32) -> &'static str
    ensures { result.now ≡ density_words blocks }
{
    if blocks == DOUBLE_DENSITY {
        ", double density"
    } else if blocks == HIGH_DENSITY {
        ", high density"
    } else {
        ""
    }
}

/// Whether the bitmap was valid.
pub(crate) fn bitmap_words(rebuilt: bool) -> &'static str
    ensures { result.now ≡ bitmap_words rebuilt }
{
    if rebuilt {
        "bitmap not valid (rebuilt in memory)"
    } else {
        "bitmap valid"
    }
}

/// The DOS type of a format, as `check --json` writes it.
pub(crate) fn kind_word(format: Format) -> &'static str
    ensures { result.now ≡ kind_word format }
{
    match format {
        Format::Ofs => "DOS\\0",
        Format::Ffs => "DOS\\1",
    }
}

/// One word for what a boot block is.
pub(crate) fn boot_word(code: BootCode) -> &'static str
    ensures { result.now ≡ boot_word code }
{
    match code {
        BootCode::Empty => "none",
        BootCode::Wrong => "wrong",
        BootCode::Standard => "standard",
        BootCode::Custom => "custom",
    }
}
