//! The boot block: the first two blocks of an image, with the code that a machine starts.

ghost use Rattle.std.specs.Prelude.{◌≡◌, ◌<◌, ◌≤◌, ℕ, length, option_copied, slice_index};
ghost use Rattle.adf_block.specs.Image.{block_count, byte_at, long};
ghost use Rattle.adf_block.specs.Frame.{OnlyBlock, OnlyLong};
ghost use Rattle.adf_block.specs.Boot.{boot_sum};
ghost use Rattle.adf_block.specs.HasBoot.{Boots, HasBoot, HoldsCode, Restores};
ghost use Rattle.adf_block.specs.BootCode.{IsBootCode};

use crate::Image;
use crate::beside::{BOOT_CHECKSUM, KIND};
use crate::code::{BOOT_BYTES, BootCode};
use crate::layout::BLOCK_BYTES;
use crate::standard::STANDARD_BOOT;
use thiserror::Error;

/// The bytes do not fit into the two boot blocks.
#[derive(Clone, Copy, Debug, PartialEq, Eq, Error)]
#[error("a boot block has at most 1024 bytes, and these are {length}")]
pub struct LongBoot {
    pub length: usize,
}

/// Installs a boot block: these bytes, then zeros. The first four bytes become the kind of the disk, and the checksum
/// is set. Without bytes, the boot block is removed: only zeros follow the kind.
///
/// Nothing after byte 1,023 changes. If there are more than 1,024 bytes, nothing changes at all.
pub fn boot_image(image: &mut Image, code: Option<&[u8]>) -> Result<(), LongBoot>
    ensures { Boots (option_copied code.entry) image.old image.new result }
{
    match code {
        None => {
            put_code(image, &[]);
            Ok(())
        }
        Some(code) => {
            if code.len() > BOOT_BYTES {
                return Err(LongBoot { length: code.len() });
            }
            install(image, code);
            Ok(())
        }
    }
}

/// Installs the standard boot block, [`STANDARD_BOOT`]. The kind of the disk stays, and the checksum is set.
///
/// Nothing after byte 1,023 changes.
pub fn install_standard(image: &mut Image)
    ensures installed { HasBoot STANDARD_BOOT image.old image.new }
    ensures shown { IsBootCode image.new BootCode.Standard }
{
    install(image, &STANDARD_BOOT);
}

/// Puts the bytes of a boot block back as they were: from byte 4 on these, then zeros. The kind of the disk stays, and
/// the checksum is what the bytes say.
///
/// Nothing after byte 1,023 changes. If there are more than 1,024 bytes, nothing changes at all.
pub fn restore_boot(image: &mut Image, bytes: &[u8]) -> Result<(), LongBoot>
    ensures { Restores bytes.now image.old image.new result }
{
    if bytes.len() > BOOT_BYTES {
        return Err(LongBoot {
            length: bytes.len(),
        });
    }
    put_code(image, bytes);
    Ok(())
}

/// Installs code that fits.
fn install(image: &mut Image, code: &[u8])
    requires { length code.now ≤ 1024 }
    ensures { HasBoot code.now image.old image.new }
{
    put_code(image, code);
    settle_boot(image);
}

/// Writes code after the DOS type, then zeros.
fn put_code(image: &mut Image, code: &[u8])
    requires { length code.now ≤ 1024 }
    ensures { HoldsCode 4 code.now image.old image.new }
{
    prove!(image.blocks() >= 16);
    let kind = image.long(0, KIND);
    let front = code.len().min(BLOCK_BYTES as usize);
    put_block(image, 0, &code[..front]);
    put_block(image, 1, &code[front..]);
    image.set_long(0, KIND, kind);
}

/// Replaces a block by these bytes, then zeros.
fn put_block(image: &mut Image, b: u32, bytes: &[u8])
    requires inside { b < block_count image.old }
    requires room { length bytes.now ≤ BLOCK_BYTES }
    ensures byte { (k : ℕ) → k < BLOCK_BYTES → byte_at image.new b k ≡ slice_index bytes.now k }
    ensures rest { OnlyBlock b image.old image.new }
{
    image.clear(b);
    image.put_bytes(b, 0, bytes);
}

/// Sets the boot checksum.
fn settle_boot(image: &mut Image)
    ensures sum { long image.new 0 1 ≡ boot_sum image.new }
    ensures rest { OnlyLong 0 1 image.old image.new }
{
    prove!(image.blocks() >= 16);
    let sum = image.boot_sum();
    image.set_long(0, BOOT_CHECKSUM, sum);
}
