//! What a boot block is.
ghost use Rattle.std.specs.Prelude.{◌≡◌, ◌*◌, ◌↔◌, IsTrue, length};
ghost use Rattle.adf_block.specs.BootCode.{Follows, IsBootCode, boot_bytes};

use crate::Image;
use crate::layout::{BLOCK_BYTES, BOOT_BLOCKS};
use crate::standard::STANDARD_BOOT;

/// What the boot block of an image is.
#[derive(Clone, Copy, PartialEq, Eq)]
pub enum BootCode {
    /// None: only zeros follow the kind of the disk.
    Empty,
    /// A boot block with a wrong checksum, from which no machine boots.
    Wrong,
    /// The standard one, with the right checksum.
    Standard,
    /// Another one with the right checksum.
    Custom,
}

/// Bytes in the two boot blocks.
pub(crate) const BOOT_BYTES: usize = BOOT_BLOCKS as usize * BLOCK_BYTES as usize;

/// The first byte after the kind of the disk.
const AFTER_KIND: usize = 4;

/// The first byte after the checksum.
const AFTER_CHECKSUM: usize = 8;

/// The 1,024 bytes of the two boot blocks.
pub fn boot_bytes(image: &Image) -> &[u8]
    ensures bytes { result.now ≡ boot_bytes image.now }
    ensures length { length result.now ≡ BOOT_BLOCKS * BLOCK_BYTES }
{
    prove!(image.blocks() >= 16);
    &image.as_bytes()[..BOOT_BYTES]
}

/// What the boot block of an image is.
pub fn boot_code(image: &Image) -> BootCode
    ensures { IsBootCode image.now result }
{
    let bytes = boot_bytes(image);
    if follows(bytes, AFTER_KIND, &[]) {
        return BootCode::Empty;
    }
    if !image.is_bootable() {
        return BootCode::Wrong;
    }
    if follows(bytes, AFTER_CHECKSUM, &STANDARD_BOOT) {
        BootCode::Standard
    } else {
        BootCode::Custom
    }
}

/// Whether these bytes are from byte `first` on those of this code, and then zeros.
fn follows(bytes: &[u8], first: usize, code: &[u8]) -> bool
    ensures { IsTrue result ↔ Follows first code.now bytes.now }
{
    for at in first..bytes.len() {
        if bytes[at] != code.get(at).copied().unwrap_or(0) {
            return false;
        }
    }
    true
}
