//! The owners of blocks for C.

ghost use Rattle.std.specs.Prelude.{◌≡◌, length, IfOk};
ghost use Rattle.adf_c.specs.Owners.{MapsOwners, told_owner, told_owners};

use ados_volume::{Owner, Volume, owners};
use std::alloc::{AllocError, Global};

/// Who owns a block.
#[repr(C)]
#[derive(Clone, Copy)]
pub struct JipOwner {
    /// 0 free, 1 a boot block, 2 the root, 3 a bitmap block, 4 a directory, 5 the header of a file, 6 an extension block,
    /// 7 a data block, 8 lost.
    pub role: u32,
    /// The block number of the header of the root, directory or file that it belongs to; 0 if there is none.
    pub header: u32,
    /// Which bitmap block it is, or which extension block or data block of its file, from 0; else 0.
    pub index: u32,
}

/// The owner of each block of a volume, in the order of the blocks.
pub fn owners_of(alloc: Global, volume: &Volume) -> Result<Vec<JipOwner>, AllocError>
    ensures { IfOk result (λ told. MapsOwners volume.now.image told.items) }
{
    let owners = owners(alloc, volume)?;
    told_owners(alloc, volume.image().blocks(), &owners)
}

/// These owners for C.
fn told_owners(alloc: Global, count: u32, owners: &[Owner]) -> Result<Vec<JipOwner>, AllocError>
    requires { length owners.now ≡ count }
    ensures { IfOk result (λ told. told.items ≡ told_owners 0 owners.now) }
{
    let mut told = Vec::with_capacity(alloc, owners.len())?;
    for block in 0..count {
        told.push(JipOwner::of(block, owners[block as usize]))?;
    }
    Ok(told)
}

impl JipOwner {
    #[rattlefmt::skip]
    fn of(block: u32, owner: Owner) -> JipOwner
        ensures { result ≡ told_owner block owner }
    {
        match owner {
            Owner::Free => JipOwner { role: 0, header: 0, index: 0 },
            Owner::Boot => JipOwner { role: 1, header: 0, index: 0 },
            Owner::Root => JipOwner { role: 2, header: block, index: 0 },
            Owner::Page(index) => JipOwner { role: 3, header: 0, index },
            Owner::Directory => JipOwner { role: 4, header: block, index: 0 },
            Owner::File => JipOwner { role: 5, header: block, index: 0 },
            Owner::Extension(header, index) => JipOwner { role: 6, header, index },
            Owner::Data(header, index) => JipOwner { role: 7, header, index },
            Owner::Lost => JipOwner { role: 8, header: 0, index: 0 },
        }
    }
}
