//! What the boot block of an image is, for C.

ghost use Rattle.std.specs.Prelude.{◌≡◌};
ghost use Rattle.adf_c.specs.Boots.{TellsBoot, code_number, kind_number};

use adf_block::beside::BOOT_CHECKSUM;
use adf_block::{BootCode, BootKind, Image, boot_code};

/// The boot block of an image.
#[repr(C)]
#[derive(Clone, Copy)]
pub struct JipBoot {
    /// The DOS type: 0 the Old File System, 1 the Fast File System, from 2 to 255 another number, 256 no DOS disk.
    pub kind: u32,
    /// 0 none: only zeros follow the DOS type; 1 a wrong checksum; 2 the standard boot block; 3 another one with the right checksum.
    pub code: u32,
    /// The checksum that is there.
    pub sum: u32,
    /// The checksum that belongs there.
    pub right_sum: u32,
}

impl JipBoot {
    /// The boot block of this image.
    pub fn of(image: &Image) -> JipBoot
        ensures { TellsBoot image.now result }
    {
        prove!(image.blocks() >= 16);
        JipBoot {
            kind: kind_number(image.boot_kind()),
            code: code_number(boot_code(image)),
            sum: image.long(0, BOOT_CHECKSUM),
            right_sum: image.boot_sum(),
        }
    }
}

/// The number of a DOS type.
fn kind_number(kind: BootKind) -> u32
    ensures { result ≡ kind_number kind }
{
    match kind {
        BootKind::Ofs => 0,
        BootKind::Ffs => 1,
        BootKind::OtherDos(number) => u32::from(number),
        BootKind::NotDos => 256,
    }
}

/// The number of what a boot block is.
fn code_number(code: BootCode) -> u32
    ensures { result ≡ code_number code }
{
    match code {
        BootCode::Empty => 0,
        BootCode::Wrong => 1,
        BootCode::Standard => 2,
        BootCode::Custom => 3,
    }
}
