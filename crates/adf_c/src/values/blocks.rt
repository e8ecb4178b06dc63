//! What the blocks of an image are, for C, as far as a salvage tells of them.

ghost use Rattle.std.specs.Prelude.{◌≡◌, IfOk, map};
ghost use Rattle.adf_c.specs.Blocks.{TellsAll, told_block};

use ados_salvage::{Part, Salvage, Told, told_blocks};
use std::alloc::{AllocError, Global};

/// A block with what it is.
#[repr(C)]
#[derive(Clone, Copy)]
pub struct JipTold {
    /// The block, which may be past the end of the image.
    pub block: u32,
    /// 1 a boot block, 2 the root, 3 a bitmap block, 6 an extension block of a file that is not whole, 7 a data block, 8 used and part of
    /// nothing, 9 the header of a deleted entry.
    pub role: u32,
    /// The block number of the header of the root or file that it belongs to; 0 if there is none.
    pub header: u32,
    /// Which bitmap block it is, or which data block of its file, from 0; else 0.
    pub index: u32,
    /// The block that has the pointer to a data block of a whole file: the header, or an extension block; else 0.
    pub holder: u32,
}

/// What the blocks of a salvage's image are.
pub fn told_of(alloc: Global, salvage: &Salvage) -> Result<Vec<JipTold>, AllocError>
    ensures { IfOk result (λ told. TellsAll salvage.now told.items) }
{
    let blocks = told_blocks(alloc, salvage)?;
    for_c(alloc, &blocks)
}

/// These blocks for C.
fn for_c(alloc: Global, blocks: &[Told]) -> Result<Vec<JipTold>, AllocError>
    ensures { IfOk result (λ told. told.items ≡ map told_block blocks.now) }
{
    blocks.iter().map(|told| JipTold::of(*told)).collect(alloc)
}

impl JipTold {
    #[rattlefmt::skip]
    fn of(told: Told) -> JipTold
        ensures { result ≡ told_block told }
    {
        let block = told.block;
        match told.part {
            Part::Boot => JipTold { block, role: 1, header: 0, index: 0, holder: 0 },
            Part::Root => JipTold { block, role: 2, header: block, index: 0, holder: 0 },
            Part::Page(index) => JipTold { block, role: 3, header: 0, index, holder: 0 },
            Part::Extension(header) => JipTold { block, role: 6, header, index: 0, holder: 0 },
            Part::Data(header, index, holder) => JipTold { block, role: 7, header, index, holder },
            Part::Unaccounted => JipTold { block, role: 8, header: 0, index: 0, holder: 0 },
            Part::Deleted => JipTold { block, role: 9, header: block, index: 0, holder: 0 },
        }
    }
}
