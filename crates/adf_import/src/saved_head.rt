//! The label, the dates and the boot block of a damaged image, for a new volume.
ghost use Rattle.std.specs.Prelude.{◌≡◌, ◌<◌, ◌≤◌, ◌↔◌, IfOk, IsTrue, MatchOption, codes};
ghost use Rattle.adf_block.specs.Image.{block_count, root_key};
ghost use Rattle.adf_block.specs.Whole.{text_at};
ghost use Rattle.adf_block.specs.declared.layout.TheConstants.{NAME_BYTE};
ghost use Rattle.ados_model.specs.Stands.{Stands, date_at};
ghost use Rattle.ados_model.specs.Tree.{Tree};
ghost use Rattle.adf_record.specs.Bundle.{IsHeadOf};
ghost use Rattle.adf_import.specs.SavedVolume.{HasBootOf, HasRootFields, HasSoundRoot, IsHeadFor, is_boot_hole};

use adf_block::layout::{
    CREATION_DATE, DATE, DISK_DATE, HEADER_TYPE, PRIMARY_TYPE, ROOT_TYPE, SECONDARY_TYPE,
};
use adf_block::{BootCode, Image, boot_bytes, boot_code};
use adf_record::{BundleHead, bundle_of};
use ados_name::{Date3, Name};
use ados_salvage::{Salvage, is_hole, name_of};
use ados_volume::Volume;
use std::alloc::{AllocError, Global};

/// The label of a volume if that of the image is not sound.
const LABEL: &[u8] = b"Saved";

/// The bytes of the kind of a disk.
const KIND_BYTES: usize = 4;

/// The head of the new volume for an image: its kind and its size, and if its root is sound, its label and its dates.
pub(crate) fn head_of(image: &Image, moment: Date3) -> BundleHead
    ensures { IsHeadFor image.now moment result }
{
    match sound_label(image) {
        Some(label) => root_head(image, label),
        None => usual_head(image, moment),
    }
}

/// The head with this label and the dates of the root.
fn root_head(image: &Image, label: Name) -> BundleHead
    requires root { HasSoundRoot image.now }
    requires label { label ≡ text_at image.now (root_key (block_count image.now)) NAME_BYTE }
    ensures { (moment : Date3) → IsHeadFor image.now moment result }
{
    BundleHead {
        format: image.format(),
        blocks: image.blocks(),
        label,
        created: root_date(image, CREATION_DATE),
        changed: root_date(image, DISK_DATE),
        root_date: root_date(image, DATE),
    }
}

/// The head without a sound root.
fn usual_head(image: &Image, moment: Date3) -> BundleHead
    requires { ¬ HasSoundRoot image.now }
    ensures { IsHeadFor image.now moment result }
{
    BundleHead {
        format: image.format(),
        blocks: image.blocks(),
        label: usual_label(),
        created: moment,
        changed: moment,
        root_date: moment,
    }
}

/// The usual label.
fn usual_label() -> Name
    ensures { result ≡ codes "Saved" }
{
    let Ok(label) = Name::new(LABEL) else {
        unreachable!()
    };
    label
}

/// The label of an image, if its root is sound.
fn sound_label(image: &Image) -> Option<Name>
    ensures { MatchOption result (¬ HasSoundRoot image.now)
        (λ label. HasSoundRoot image.now × (label ≡ text_at image.now (root_key (block_count image.now)) NAME_BYTE)) }
{
    prove!(image.blocks() >= 16);
    let root = image.root();
    if !is_sound(image, root) {
        return None;
    }
    name_of(image, root)
}

/// Whether the block has the types of a root and a right checksum.
fn is_sound(image: &Image, root: u32) -> bool
    requires { root < block_count image.now }
    ensures { IsTrue result ↔ HasRootFields image.now root }
{
    image.long(root, PRIMARY_TYPE) == HEADER_TYPE
        && image.long(root, SECONDARY_TYPE) == ROOT_TYPE
        && image.sum(root) == 0
}

/// The date at this long of the root.
fn root_date(image: &Image, at: u32) -> Date3
    requires { at ≤ 125 }
    ensures { result ≡ date_at image.now (root_key (block_count image.now)) at }
{
    prove!(image.blocks() >= 16);
    let root = image.root();
    Date3 {
        days: image.long(root, at),
        minutes: image.long(root, at + 1),
        ticks: image.long(root, at + 2),
    }
}

/// Whether a volume has this head.
pub(crate) fn has_head(
    alloc: Global,
    volume: &Volume,
    head: &BundleHead,
) -> Result<bool, AllocError>
    ensures { IfOk result (λ has. (t : Tree) → Stands volume.now.image t → IsTrue has → IsHeadOf t head.now) }
{
    let found = bundle_of(alloc, volume)?;
    Ok(same_head(&found.head, head))
}

/// Whether the same is told of two volumes themselves.
fn same_head(one: &BundleHead, other: &BundleHead) -> bool
    ensures { IsTrue result ↔ (one.now ≡ other.now) }
{
    one.format == other.format
        && one.blocks == other.blocks
        && one.label.bytes() == other.label.bytes()
        && one.created == other.created
        && one.changed == other.changed
        && one.root_date == other.root_date
}

/// The bytes of the boot block of an image. If one of its blocks is a hole, those of the kind alone.
pub(crate) fn boot_for(salvage: &Salvage) -> &[u8] {
    let bytes = boot_bytes(salvage.image());
    if is_boot_hole(salvage.holes()) {
        return &bytes[..KIND_BYTES];
    }
    bytes
}

/// Whether an image has that boot block.
pub(crate) fn has_boot(image: &Image, salvage: &Salvage) -> bool
    ensures { IsTrue result → HasBootOf salvage.now image.now }
{
    if is_boot_hole(salvage.holes()) {
        return boot_code(image) == BootCode::Empty;
    }
    boot_bytes(image) == boot_bytes(salvage.image())
}

/// Whether one of the two boot blocks is a hole.
fn is_boot_hole(holes: &[bool]) -> bool
    ensures { result ≡ is_boot_hole holes.now }
{
    is_hole(holes, 0) || is_hole(holes, 1)
}
