//! The volume of a bundle.
ghost use Rattle.std.specs.Prelude.{IfOk, IsTrue, OnOk, map};
ghost use Rattle.ados_model.specs.Stands.{Stands};
ghost use Rattle.ados_model.specs.Tree.{Tree};
ghost use Rattle.adf_record.specs.Bundle.{AreBundleOf, AreContentsOf};
ghost use Rattle.adf_import.specs.Progress.{Advances, IsReady};

use crate::bundle_files::host_path;
use crate::fault::{FileWhy, InFault, SourceFault, unusable};
use crate::item::{Content, How, Item, put_item};
use crate::paths::directory_at;
use crate::progress::Progress;
use adf_block::beside::CHECKSUM;
use adf_block::layout::DATE;
use adf_block::{Image, LongBoot, restore_boot, size_ok};
use adf_cli::Refused;
use adf_record::{Bundle, BundleHead, bundle_of, contents_of, same_bundle, same_contents};
use adf_text::Uaem;
use ados_change::put_date;
use ados_model::DosError;
use ados_volume::{Volume, blank, check};
use std::alloc::{AllocError, Global};

/// The volume of a bundle, with these bytes for its entries, one after the other: a blank volume, in which each entry is made
/// in the order of the bundle. Faults name files below `files` in a directory of the host.
///
/// The volume is checked and looked through when it is made: if it had another bundle or other bytes, there is none.
pub fn volume_of_bundle(
    alloc: Global,
    bundle: &Bundle,
    contents: &[Vec<u8>],
    directory: &str,
) -> Result<Volume, InFault>
    ensures bundle { IfOk result (λ volume. (t : Tree) → Stands volume.image t → AreBundleOf volume.image t bundle.now) }
    ensures contents { IfOk result (λ volume. (t : Tree) → Stands volume.image t → AreContentsOf t (map (λ bytes. bytes.items) contents.now)) }
{
    let image = image_of(alloc, bundle, contents, directory)?;
    let Ok(volume) = check(alloc, image) else {
        return Err(InFault::Memory);
    };
    let made = is_made(alloc, &volume, bundle, contents)?;
    if !made {
        return Err(InFault::Source(SourceFault::Unlike));
    }
    Ok(volume)
}

/// Whether a volume has this bundle, and its entries these bytes.
fn is_made(
    alloc: Global,
    volume: &Volume,
    bundle: &Bundle,
    contents: &[Vec<u8>],
) -> Result<bool, AllocError>
    ensures bundle { IfOk result (λ is_made. IsTrue is_made → (t : Tree) → Stands volume.now.image t → AreBundleOf volume.now.image t bundle.now) }
    ensures contents { IfOk result (λ is_made. IsTrue is_made → (t : Tree) → Stands volume.now.image t
        → AreContentsOf t (map (λ bytes. bytes.items) contents.now)) }
{
    let found = bundle_of(alloc, volume)?;
    if !same_bundle(&found, bundle) {
        return Ok(false);
    }
    let bytes = contents_of(alloc, volume)?;
    Ok(same_contents(&bytes, contents))
}

/// The image with the entries, the root's date and the boot block of a bundle. Each entry that is put into the root sets its
/// date, so that is set last.
fn image_of(
    alloc: Global,
    bundle: &Bundle,
    contents: &[Vec<u8>],
    directory: &str,
) -> Result<Image, InFault> {
    let head = bundle.head;
    if !size_ok(head.blocks) {
        return Err(InFault::Source(SourceFault::Unlike));
    }
    let mut volume = blank(alloc, head.format, head.blocks, head.label, head.created)?;
    put_entries(alloc, &mut volume, bundle, contents, directory)?;
    match with_head(volume, &head, &bundle.boot) {
        Ok(image) => Ok(image),
        Err(_) => Err(InFault::Source(SourceFault::Unlike)),
    }
}

/// The image of a volume with the label, the dates but that of its making, and the boot block of another one. More than 1,024 bytes are no boot
/// block.
pub(crate) fn with_head(
    mut volume: Volume,
    head: &BundleHead,
    boot: &[u8],
) -> Result<Image, LongBoot> {
    volume.rename_disk(head.label, head.changed);
    let mut image = volume.into_image();
    prove!(image.blocks() >= 16);
    let root = image.root();
    put_date(&mut image, root, DATE, head.root_date);
    image.settle(root, CHECKSUM);
    restore_boot(&mut image, boot)?;
    Ok(image)
}

/// Puts all entries of a bundle into a volume. Metadata of directories is set last, because each entry put into a
/// directory sets its date.
fn put_entries(
    alloc: Global,
    volume: &mut Volume,
    bundle: &Bundle,
    contents: &[Vec<u8>],
    directory: &str,
) -> Result<(), InFault> {
    let Ok(top) = directory_at(volume, b"") else {
        return Err(InFault::Source(SourceFault::Unlike));
    };
    let how = How {
        force: false,
        moment: bundle.head.changed,
    };
    let mut progress = Progress::new(alloc, bundle.head.blocks)?;
    for (place, entry) in bundle.entries.iter().enumerate() {
        let path = host_path(alloc, directory, &bundle.entries, entry)?;
        let item = Item {
            path: path.as_str(),
            dir: progress.directory(entry.above, top),
            name: entry.name,
            noted: Uaem {
                protect: entry.protection,
                date: entry.date,
                comment: entry.comment,
            },
        };
        let content = match (entry.size, contents.get(place)) {
            (Some(_), Some(bytes)) => Some(Content {
                bytes: bytes.as_slice(),
                more: 0,
            }),
            _ => None,
        };
        put_entry(alloc, volume, &item, content, how, &mut progress)?;
    }
    progress.note_directories(volume, how.moment);
    Ok(())
}

/// Puts one entry of a bundle into a volume that has only entries of this bundle. So a name that exists is in the
/// description twice.
fn put_entry(
    alloc: Global,
    volume: &mut Volume,
    item: &Item<'_>,
    content: Option<Content<'_>>,
    how: How,
    progress: &mut Progress,
) -> Result<(), InFault>
    requires { IsReady volume.old.image item.now.dir progress.old }
    ensures { OnOk result (Advances volume.old.image volume.new.image progress.new) }
{
    match put_item(alloc, volume, item, content, how, progress) {
        Ok(true) => Ok(()),
        Ok(false) => Err(unusable(alloc, item.path, FileWhy::Twice)),
        Err(
            InFault::Refused(
                Refused {
                    error: DosError::ObjectExists,
                    path,
                },
            ),
        ) => Err(InFault::Source(SourceFault::File {
            path,
            why: FileWhy::Twice,
        })),
        Err(fault) => Err(fault),
    }
}
