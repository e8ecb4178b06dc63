//! The boot block of an image for C, whether the check accepts the image or not.

ghost use Rattle.adf_c.specs.Telling.{BootEnds, InstallEnds};

use crate::values::{JipBoot, image_of};
use adf_block::install_standard;
use std::alloc::Global;

/// Tells what the boot block of an image is. The status is 0.
///
/// Status 1: the bytes are not whole blocks, too few or too many. Status 2: out of memory. In these cases `boot` is unchanged.
#[unsafe(no_mangle)]
pub extern "C" fn jip_lib_boot(alloc: Global, bytes: &[u8], boot: &mut JipBoot) -> i32
    ensures { BootEnds bytes.now boot.old boot.new result }
{
    match image_of(alloc, bytes) {
        Ok(image) => {
            *boot = JipBoot::of(&image);
            0
        }
        Err(refusal) => refusal.number(),
    }
}

/// Installs the standard boot block in an image. The DOS type stays, the checksum is set, and nothing behind the boot block
/// changes. The status is 0.
///
/// Status 1: the bytes are not whole blocks, too few or too many. Status 2: out of memory. In these cases the bytes are
/// unchanged.
#[unsafe(no_mangle)]
pub extern "C" fn jip_lib_boot_standard(alloc: Global, bytes: &mut [u8]) -> i32
    ensures { InstallEnds bytes.old bytes.new result }
{
    match image_of(alloc, bytes) {
        Ok(mut image) => {
            install_standard(&mut image);
            bytes.copy_from_slice(image.as_bytes());
            0
        }
        Err(refusal) => refusal.number(),
    }
}
