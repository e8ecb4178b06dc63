//! A bundle read from a directory of the host, in place of an empty volume.

use crate::bundle_files::read_files;
use crate::bundle_put::volume_of_bundle;
use crate::fault::{InFault, SourceFault, WrongVolume};
use crate::host_files::{read_host, unopened, unread};
use adf_host::{HeldTree, OwnedFile, PromptFiles, ReadReason};
use adf_record::{Bundle, BundleHead, MOST_BUNDLE_BYTES, bundle_of, format_word, read_bundle};
use ados_volume::Volume;
use std::alloc::{AllocError, Global};

/// The volume that a directory of the host describes, in place of an empty volume of the same kind and size. The files are
/// below `files` there, and the description is `volume.json`.
///
/// The new volume has the description's label, dates and boot block, and no lost blocks. No link is followed, but for
/// the directory itself.
pub fn add_bundle<R: PromptFiles>(
    rt: &R,
    alloc: Global,
    old: &Volume,
    directory: &str,
) -> Result<Volume, InFault>
where
    R::File: OwnedFile,
{
    let mut tree = held_tree(rt, alloc, directory)?;
    let bundle = described(rt, alloc, &mut tree, directory)?;
    refuse_other(alloc, old, bundle.head)?;
    let contents = read_files(rt, alloc, &mut tree, &bundle, directory)?;
    volume_of_bundle(alloc, &bundle, &contents, directory)
}

/// The directory of a bundle, held open.
fn held_tree<R: PromptFiles>(
    rt: &R,
    alloc: Global,
    directory: &str,
) -> Result<HeldTree<R::File>, InFault>
where
    R::File: OwnedFile,
{
    match HeldTree::at(rt, alloc, directory) {
        Ok(tree) => Ok(tree),
        Err(fault) => {
            let path = description_path(alloc, directory)?;
            Err(unread(alloc, path.as_str(), ReadReason::from(fault)))
        }
    }
}

/// The path of the description of the bundle in a directory.
fn description_path(alloc: Global, directory: &str) -> Result<String, AllocError> {
    format!(in alloc; "{directory}/volume.json")
}

/// The bundle that the description in a directory is of.
fn described<R: PromptFiles>(
    rt: &R,
    alloc: Global,
    tree: &mut HeldTree<R::File>,
    directory: &str,
) -> Result<Bundle, InFault>
where
    R::File: OwnedFile,
{
    let path = description_path(alloc, directory)?;
    let text = description_text(rt, alloc, tree, path.as_str())?;
    match read_bundle(alloc, &text) {
        Ok(bundle) => Ok(bundle),
        Err(fault) if fault.is_memory() => Err(InFault::Memory),
        Err(fault) => Err(InFault::Source(SourceFault::Description { path, fault })),
    }
}

/// The bytes of the description in a directory; `path` names it.
fn description_text<R: PromptFiles>(
    rt: &R,
    alloc: Global,
    tree: &mut HeldTree<R::File>,
    path: &str,
) -> Result<Vec<u8>, InFault>
where
    R::File: OwnedFile,
{
    match tree.open(rt, alloc, "volume.json") {
        Ok(file) => read_host(alloc, file, path, MOST_BUNDLE_BYTES + 1),
        Err(fault) => Err(unopened(alloc, path, fault)),
    }
}

/// Refuses a volume that is not empty, or that has another kind or size than the bundle.
fn refuse_other(alloc: Global, old: &Volume, head: BundleHead) -> Result<(), InFault> {
    let found = bundle_of(alloc, old)?;
    if !found.entries.is_empty() {
        return Err(InFault::Source(SourceFault::Volume(WrongVolume::NotEmpty)));
    }
    if found.head.format != head.format || found.head.blocks != head.blocks {
        return Err(InFault::Source(SourceFault::Volume(WrongVolume::Other {
            kind: format_word(head.format),
            blocks: head.blocks,
        })));
    }
    Ok(())
}
