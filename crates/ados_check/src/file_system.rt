//! The file system of a disk, by its boot block.
ghost use Rattle.std.specs.Prelude.{◌≡◌, MatchResult};
ghost use Rattle.adf_block.specs.Image.{bytes_at};
ghost use Rattle.adf_block.specs.Fields.{format_of};
ghost use Rattle.ados_model.specs.Phrases.{kind_bytes};
ghost use Rattle.ados_model.specs.Faults.{Shows};

use adf_block::layout::FEWEST_BLOCKS;
use adf_block::{BootKind, Image};
use ados_model::{FaultKind, VolumeFault};

/// Checks that the first four bytes are those of OFS or FFS: `DOS` and 0 or 1.
pub fn check_kind(image: &Image) -> Result<(), VolumeFault>
    ensures { MatchResult result (λ _. bytes_at image.now 0 0 4 ≡ kind_bytes (format_of image.now)) (λ fault. Shows image.now fault.kind fault.block) }
{
    prove!(image.blocks() >= FEWEST_BLOCKS);
    match image.boot_kind() {
        BootKind::Ofs | BootKind::Ffs => Ok(()),
        BootKind::OtherDos(_) => Err(VolumeFault {
            kind: FaultKind::UnsupportedKind,
            block: 0,
        }),
        BootKind::NotDos => Err(VolumeFault {
            kind: FaultKind::NotADosDisk,
            block: 0,
        }),
    }
}
