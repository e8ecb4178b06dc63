//! What the headers of files say of the kind of their disk.
ghost use Rattle.std.specs.Prelude.{◌≡◌, ◌<◌, All, count_by};
ghost use Rattle.adf_block.specs.Image.{block_count};
ghost use Rattle.adf_block.specs.declared.layout.Format.TheVariants.{Ofs, Ffs};
ghost use Rattle.ados_salvage.specs.Kind.{has_ffs_count, has_own_data, is_ofs_data, pointers_for, volume_blocks, votes, votes_for};

use adf_block::layout::{
    BOOT_BLOCKS, DATA_TYPE, FFS_ROOM, FILE_SIZE, FILE_TYPE, FIRST_POINTER, HEADER_TYPE, OFS_ROOM,
    OWN_KEY, POINTER_COUNT, PRIMARY_TYPE, SECONDARY_TYPE, SEQUENCE, TABLE_LONGS,
};
use adf_block::{Format, Image};

/// How many headers vote for each kind.
#[derive(Clone, Copy)]
pub(crate) struct Votes {
    pub(crate) ofs: usize,
    pub(crate) ffs: usize,
}

/// The votes of these headers.
pub(crate) fn votes_of(image: &Image, headers: &[u32]) -> Votes
    requires { All (λ header. header < block_count image.now) headers.now }
    ensures ofs { result.ofs ≡ votes Ofs image.now headers.now }
    ensures ffs { result.ffs ≡ votes Ffs image.now headers.now }
{
    let ofs = headers
        .iter()
        .filter(|header| votes_for(image, **header, Format::Ofs))
        .count();
    let ffs = headers
        .iter()
        .filter(|header| votes_for(image, **header, Format::Ffs))
        .count();
    Votes { ofs, ffs }
}

/// The votes of all blocks of the volume.
pub(crate) fn volume_votes(image: &Image) -> Votes
    ensures ofs { result.ofs ≡ votes Ofs image.now (volume_blocks image.now) }
    ensures ffs { result.ffs ≡ votes Ffs image.now (volume_blocks image.now) }
{
    Votes {
        ofs: volume_votes_for(image, Format::Ofs),
        ffs: volume_votes_for(image, Format::Ffs),
    }
}

/// How many blocks of the volume vote for a kind.
fn volume_votes_for(image: &Image, kind: Format) -> usize
    ensures { result ≡ votes kind image.now (volume_blocks image.now) }
{
    (BOOT_BLOCKS..image.blocks())
        .filter(|header| votes_for(image, *header, kind))
        .count()
}

/// The number of OFS data blocks of the volume.
pub(crate) fn ofs_data_count(image: &Image) -> usize
    ensures { result ≡ count_by (is_ofs_data image.now) (volume_blocks image.now) }
{
    (BOOT_BLOCKS..image.blocks())
        .filter(|block| is_ofs_data(image, *block))
        .count()
}

/// Whether a header votes for a kind.
fn votes_for(image: &Image, header: u32, kind: Format) -> bool
    requires { header < block_count image.now }
    ensures { result ≡ votes_for kind image.now header }
{
    match kind {
        Format::Ofs => has_own_data(image, header),
        Format::Ffs => !has_own_data(image, header) && has_ffs_count(image, header),
    }
}

/// Whether a block is an OFS data block of some file.
fn is_ofs_data(image: &Image, block: u32) -> bool
    requires { block < block_count image.now }
    ensures { result ≡ is_ofs_data image.now block }
{
    image.long(block, PRIMARY_TYPE) == DATA_TYPE
        && image.long(block, SEQUENCE) > 0
        && image.sum(block) == 0
}

/// Whether the first pointer of a header names the first OFS data block of it.
fn has_own_data(image: &Image, header: u32) -> bool
    requires { header < block_count image.now }
    ensures { result ≡ has_own_data image.now header }
{
    let block = image.long(header, FIRST_POINTER);
    block >= BOOT_BLOCKS
        && block < image.blocks()
        && is_ofs_data(image, block)
        && image.long(block, OWN_KEY) == header
        && image.long(block, SEQUENCE) == 1
}

/// Whether a block is the header of a file that has as many pointers as its size needs in FFS, and not as many as in OFS.
fn has_ffs_count(image: &Image, header: u32) -> bool
    requires { header < block_count image.now }
    ensures { result ≡ has_ffs_count image.now header }
{
    let size = image.long(header, FILE_SIZE);
    let count = image.long(header, POINTER_COUNT);
    image.long(header, PRIMARY_TYPE) == HEADER_TYPE
        && image.long(header, SECONDARY_TYPE) == FILE_TYPE
        && image.long(header, OWN_KEY) == header
        && image.sum(header) == 0
        && count == pointers_for(size, Format::Ffs)
        && count != pointers_for(size, Format::Ofs)
}

/// The number of pointers in the header of a file of a size.
fn pointers_for(size: u32, kind: Format) -> u32
    ensures { result ≡ pointers_for kind size }
{
    let room = match kind {
        Format::Ofs => OFS_ROOM,
        Format::Ffs => FFS_ROOM,
    };
    size.div_ceil(room).min(TABLE_LONGS)
}
