//! A blank volume: an empty root in the middle, followed by the bitmap blocks.

ghost use Rattle.std.specs.Prelude.{◌≡◌, ◌<◌, ◌+◌, ◌*◌, ℕ, length, IfOk, false};
ghost use Rattle.adf_block.specs.Whole.{IsSize};
ghost use Rattle.adf_block.specs.Image.{block_count, byte_at, bytes_at, long, page_count, root_key};
ghost use Rattle.adf_block.specs.declared.beside.TheConstants.{KIND_BYTE};
ghost use Rattle.adf_block.specs.Frame.{OnlyBlock, SameBut, Within, long_byte};
ghost use Rattle.ados_name.specs.Name.{IsName};
ghost use Rattle.ados_model.specs.Phrases.{kind_bytes};
ghost use Rattle.ados_model.specs.Blank.{IsBlank};
ghost use Rattle.ados_volume.specs.steps.BlankParts.{IsBlankRoot, NamesBlank};

use crate::cache::NameCache;
use crate::listed_cache::ListedCache;
use crate::places::PlaceCache;
use crate::volume::Volume;
use adf_block::beside::CHECKSUM;
use adf_block::layout::{
    BITMAP_FLAG, BITMAP_VALID, BLOCK_BYTES, CREATION_DATE, DATE, DISK_DATE, FIRST_PAGE,
    HEADER_TYPE, NAME_BYTE, PRIMARY_TYPE, ROOT_TYPE, SECONDARY_TYPE, TABLE_LONGS, TABLE_SIZE,
};
use adf_block::{Format, Image, page_count};
use ados_change::{put_date, put_text};
use ados_map::rebuild;
use ados_name::{Date3, Name};
use std::alloc::{AllocError, Global};

/// Makes a volume without directories and files, of 16 to 101,602 blocks. Its three dates are `moment`.
///
/// Its boot blocks have the four bytes of the kind, then zeros. AmigaDOS does not boot from it.
pub fn blank(
    alloc: Global,
    format: Format,
    blocks: u32,
    name: Name,
    moment: Date3,
) -> Result<Volume, AllocError>
    requires { IsSize blocks }
    ensures image { IfOk result (λ volume. IsBlank format blocks name moment volume.image) }
    ensures validated { IfOk result (λ volume. volume.was_validated ≡ false) }
{
    let names = NameCache::new(alloc);
    let places = PlaceCache::new(alloc)?;
    let listed = ListedCache::new(alloc)?;
    let image = blank_image(alloc, format, blocks, &name, moment)?;
    Ok(Volume::standing(image, false, names, places, listed))
}

/// The image of a blank volume.
fn blank_image(
    alloc: Global,
    format: Format,
    blocks: u32,
    name: &Name,
    moment: Date3,
) -> Result<Image, AllocError>
    requires { IsSize blocks }
    ensures image { IfOk result (λ image. IsBlank format blocks name.now moment image) }
    ensures name { IfOk result (λ _. IsName name.now) }
{
    let named = named_blocks(alloc, blocks)?;
    let mut image = zero_image(alloc, blocks)?;
    put_kind(&mut image, format);
    put_root(&mut image, name, moment);
    rebuild(&mut image, &named);
    Ok(image)
}

/// An image of zeros.
fn zero_image(alloc: Global, blocks: u32) -> Result<Image, AllocError>
    requires { IsSize blocks }
    ensures whole { IfOk result (λ image. length image ≡ BLOCK_BYTES * blocks) }
    ensures zero { IfOk result (λ image. (b i : ℕ) → byte_at image b i ≡ 0) }
{
    let bytes = vec![in alloc; 0_u8; BLOCK_BYTES as usize * blocks as usize]?;
    let Ok(image) = Image::from_bytes(bytes) else {
        unreachable!()
    };
    Ok(image)
}

/// Whether each block is the root or a bitmap block.
fn named_blocks(alloc: Global, blocks: u32) -> Result<Vec<bool>, AllocError>
    requires { IsSize blocks }
    ensures { IfOk result (λ named. NamesBlank blocks named.items) }
{
    let root = ((blocks + 1) / 2) as usize;
    let pages = page_count(blocks) as usize;
    let mut named = vec![in alloc; false; blocks as usize]?;
    for block in root..root + 1 + pages {
        named[block] = true;
    }
    Ok(named)
}

/// Writes the four bytes of the kind: `DOS` and 0 (OFS) or 1 (FFS).
fn put_kind(image: &mut Image, format: Format)
    ensures kind { bytes_at image.new 0 0 4 ≡ kind_bytes format }
    ensures rest { SameBut (Within 0 0 (KIND_BYTE + 1)) image.old image.new }
{
    prove!(image.blocks() >= 16);
    let kind = match format {
        Format::Ofs => 0,
        Format::Ffs => 1,
    };
    image.put_bytes(0, 0, &[b'D', b'O', b'S', kind]);
}

/// Turns the root block, which is empty, into the root of a blank volume.
fn put_root(image: &mut Image, name: &Name, moment: Date3)
    requires { (i : ℕ) → i < BLOCK_BYTES → byte_at image.old (root_key (block_count image.old)) i ≡ 0 }
    ensures name { IsName name.now }
    ensures root { IsBlankRoot (block_count image.old) name.now moment image.new }
    ensures rest { OnlyBlock (root_key (block_count image.old)) image.old image.new }
{
    prove!(image.blocks() >= 16);
    let root = image.root();
    image.set_long(root, PRIMARY_TYPE, HEADER_TYPE);
    image.set_long(root, TABLE_SIZE, TABLE_LONGS);
    image.set_long(root, BITMAP_FLAG, BITMAP_VALID);
    name_pages(image, root);
    put_date(image, root, DATE, moment);
    put_text(image, root, NAME_BYTE as usize, name.bytes());
    put_date(image, root, DISK_DATE, moment);
    put_date(image, root, CREATION_DATE, moment);
    image.set_long(root, SECONDARY_TYPE, ROOT_TYPE);
    image.settle(root, CHECKSUM);
}

/// Makes the blocks after the root the bitmap blocks.
fn name_pages(image: &mut Image, root: u32)
    requires { root ≡ root_key (block_count image.old) }
    ensures named { (p : ℕ) → p < page_count (block_count image.old) → long image.new root (FIRST_PAGE + p) ≡ root + 1 + p }
    ensures rest { SameBut (Within root (long_byte FIRST_PAGE) (long_byte FIRST_PAGE + 4 * page_count (block_count image.old))) image.old image.new }
{
    for p in 0..page_count(image.blocks()) {
        image.set_long(root, FIRST_PAGE + p, root + 1 + p);
    }
}
