//! A volume written to a directory of the host, from which it can be made again.
ghost use Rattle.std.specs.Prelude.{◌≡◌};

use crate::bundle_items::{BundleBytes, bundle_items};
use crate::bytes::VolumeBytes;
use crate::entry::Outgoing;
use crate::items::outgoing;
use adf_host::{HostWords, OwnedFile, PromptFiles, WriteFault, write_tree};
use adf_record::{
    Bundle, BundleFault, BundleHead, BundleWhy, MOST_BUNDLE_BYTES, bundle_of, bundle_text,
};
use ados_volume::Volume;
use std::alloc::{AllocError, Global};
use std::fs;
use std::io::{Error, ErrorKind};
use std::rt::Files;
use thiserror::Error;

/// Why a bundle was not written.
#[derive(Debug, Drop, Error)]
pub enum BundleOutFault {
    #[error("{0}")]
    Host(WriteFault),
    /// There is something in the directory.
    #[error("'{0}' is not empty")]
    Full(String),
    /// The directory cannot be read.
    #[error("cannot read '{path}': {}", HostWords(*.error))]
    Read { path: String, error: Error },
    /// The volume has no description.
    #[error("the description of the volume {0}")]
    Description(BundleFault),
    #[error("there is not enough memory")]
    Memory,
}

impl From<AllocError> for BundleOutFault {
    fn from(_error: AllocError) -> BundleOutFault {
        BundleOutFault::Memory
    }
}

/// Writes everything in a volume to a directory of the host, which is new or empty: all entries below `files`, as `extract`
/// writes them, and then the text of the volume's bundle in `volume.json`.
///
/// It refuses before anything is written, as `extract` does. The volume does not change.
pub fn extract_bundle<R: PromptFiles>(
    rt: &R,
    alloc: Global,
    volume: &mut Volume,
    to: &str,
) -> Result<(), BundleOutFault>
where
    R::File: OwnedFile,
    ensures same { volume.new ≡ volume.old }
{
    refuse_full(rt, alloc, to)?;
    let (head, description) = described(alloc, volume)?;
    let Ok(Outgoing { items, sources }) = outgoing(alloc, volume, &[], false) else {
        return Err(BundleOutFault::Memory);
    };
    let items = bundle_items(alloc, items, head.root_date, head.changed)?;
    let mut bytes = BundleBytes {
        files: VolumeBytes::of(volume, &sources),
        description,
        last: items.len().saturating_sub(1),
    };
    match write_tree(rt, alloc, to, &items, &mut bytes, false) {
        Ok(()) => Ok(()),
        Err(fault) => Err(BundleOutFault::Host(fault)),
    }
}

/// Refuses a directory that has something in it, and anything that is no directory. It may be missing.
fn refuse_full<R: Files>(rt: &R, alloc: Global, directory: &str) -> Result<(), BundleOutFault> {
    match has_some(rt, alloc, directory) {
        Ok(false) => Ok(()),
        Ok(true) => Err(BundleOutFault::Full(String::from_str(alloc, directory)?)),
        Err(error) if error.kind() == ErrorKind::NotFound => Ok(()),
        Err(error) => Err(BundleOutFault::Read {
            path: String::from_str(alloc, directory)?,
            error,
        }),
    }
}

/// Whether a directory has something in it.
fn has_some<R: Files>(rt: &R, alloc: Global, directory: &str) -> Result<bool, Error> {
    let mut names = fs::read_dir(&(rt, alloc), directory)?;
    Ok(names.next().is_some())
}

/// What is told of the volume itself, and the text of its bundle. One that is too long because of its paths is refused before it is made.
fn described(alloc: Global, volume: &Volume) -> Result<(BundleHead, Vec<u8>), BundleOutFault> {
    let bundle = bundle_of(alloc, volume)?;
    if paths_length(alloc, &bundle)? > MOST_BUNDLE_BYTES {
        let fault = BundleFault::from(BundleWhy::Long);
        return Err(BundleOutFault::Description(fault));
    }
    match bundle_text(alloc, &bundle) {
        Ok(text) => Ok((bundle.head, text)),
        Err(fault) if fault.is_memory() => Err(BundleOutFault::Memory),
        Err(fault) => Err(BundleOutFault::Description(fault)),
    }
}

/// The number of bytes of all paths in a bundle. Its text has all of these, and more.
fn paths_length(alloc: Global, bundle: &Bundle) -> Result<usize, AllocError> {
    let mut lengths: Vec<usize> = Vec::with_capacity(alloc, bundle.entries.len())?;
    let mut all = 0_usize;
    for entry in bundle.entries.iter() {
        let front = match entry.above.and_then(|above| lengths.get(above)) {
            Some(length) => length.saturating_add(1),
            None => 0,
        };
        let length = front.saturating_add(entry.name.bytes().len());
        all = all.saturating_add(length);
        lengths.push(length)?;
    }
    Ok(all)
}
