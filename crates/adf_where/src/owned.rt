//! Blocks with their owners.
ghost use Rattle.std.specs.Prelude.{◌≡◌, ◌<◌, IfOk, Some, option_map, slice_get};
ghost use Rattle.std.specs.String.{string_bytes};
ghost use Rattle.adf_block.specs.Image.{block_count};
ghost use Rattle.ados_model.specs.Stands.{Stands};
ghost use Rattle.ados_model.specs.Tree.{Tree, data_size};
ghost use Rattle.ados_volume.specs.Owners.{AreOwners, Owns};
ghost use Rattle.adf_archive.specs.Owned.{entry_of};
ghost use Rattle.adf_where.specs.Where.{entry_path, seen, span_of, told_at};

use crate::short_path::short_path;
use crate::unread::unread_of;
use adf_archive::entry_of;
use adf_block::Format;
use adf_block::layout::{FFS_ROOM, OFS_ROOM};
use ados_volume::{Owner, Volume};
use std::alloc::{AllocError, Global};

/// A block with its owner.
#[derive(Drop)]
pub(crate) struct OwnedBlock {
    pub(crate) block: u32,
    pub(crate) owner: Owner,
    /// The path of the file or directory that it belongs to, in letters, if it is not too long.
    pub(crate) path: Option<String>,
    /// The bytes of the file that are in a data block.
    pub(crate) span: Option<Span>,
    /// Whether it could not be read, if that is asked.
    pub(crate) unread: Option<bool>,
}

/// Bytes of a file: the positions of the first and of the last.
#[derive(Clone, Copy)]
pub(crate) struct Span {
    pub(crate) first: u64,
    pub(crate) last: u64,
}

/// A block with its owner.
pub(crate) fn owned_block(
    alloc: Global,
    volume: &Volume,
    owners: &[Owner],
    unread: &[bool],
    block: u32,
) -> Result<OwnedBlock, AllocError>
    requires owners { (t : Tree) → Stands volume.now.image t → AreOwners volume.now.image t owners.now }
    requires inside { block < block_count volume.now.image }
    ensures { IfOk result (λ told. (t : Tree) → Stands volume.now.image t → told_at t unread.now owners.now block ≡ Some (seen told)) }
{
    let owner = owner_of(volume, owners, block);
    let path = entry_path(alloc, volume, block, owner)?;
    Ok(OwnedBlock {
        block,
        owner,
        path,
        span: span_of(volume, block, owner),
        unread: unread_of(unread, block as usize),
    })
}

/// The owner of a block.
fn owner_of(volume: &Volume, owners: &[Owner], block: u32) -> Owner
    requires owners { (t : Tree) → Stands volume.now.image t → AreOwners volume.now.image t owners.now }
    requires inside { block < block_count volume.now.image }
    ensures found { slice_get owners.now block ≡ Some result }
    ensures owns { (t : Tree) → Stands volume.now.image t → Owns volume.now.image t block result }
{
    prove!(block < volume.image().blocks());
    owners[block as usize]
}

/// The path of the entry that a block with this owner belongs to, in letters, if there is one and its path is not too long.
fn entry_path(
    alloc: Global,
    volume: &Volume,
    block: u32,
    owner: Owner,
) -> Result<Option<String>, AllocError>
    requires { (t : Tree) → Stands volume.now.image t → Owns volume.now.image t block owner }
    ensures { IfOk result (λ path. (t : Tree) → Stands volume.now.image t → option_map string_bytes path ≡ entry_path t (entry_of block owner)) }
{
    let Some(key) = entry_of(block, owner) else {
        return Ok(None);
    };
    short_path(alloc, volume, key)
}

/// The bytes of its file that are in a block with this owner, if there are any.
fn span_of(volume: &Volume, block: u32, owner: Owner) -> Option<Span>
    requires { (t : Tree) → Stands volume.now.image t → Owns volume.now.image t block owner }
    ensures { (t : Tree) → Stands volume.now.image t → result ≡ span_of t owner }
{
    match owner {
        Owner::Data(file, k) => {
            let (room, size) = (u64::from(room_of(volume)), u64::from(volume.size(file)));
            let first = room * u64::from(k);
            Some(Span {
                first,
                last: (first + room).min(size).saturating_sub(1),
            })
        }
        _ => None,
    }
}

/// The bytes of a file in one of its data blocks.
fn room_of(volume: &Volume) -> u32
    ensures value { (t : Tree) → Stands volume.now.image t → result ≡ data_size t.format }
    ensures bound { result < 513 }
{
    match volume.image().format() {
        Format::Ofs => OFS_ROOM,
        Format::Ffs => FFS_ROOM,
    }
}
