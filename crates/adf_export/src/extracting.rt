//! Entries written to files and directories of the host.
ghost use Rattle.std.specs.Prelude.{◌≡◌, IfErr, map};
ghost use Rattle.ados_model.specs.Tree.{Tree};
ghost use Rattle.ados_model.specs.Stands.{Stands};
ghost use Rattle.adf_export.specs.Words.{IsExtractFault};

use crate::bytes::VolumeBytes;
use crate::fault::OutFault;
use crate::items::outgoing;
use adf_cli::ExtractJob;
use adf_host::{OwnedFile, PromptFiles, write_tree};
use ados_volume::Volume;
use std::alloc::Global;

/// Writes the entries of the job's paths, with everything below them, below a directory of the host. Without a path,
/// or for the root, it writes all entries of the root. With `meta`, a note is written beside each.
///
/// Nothing is written if a path leads nowhere, if an existing file or directory of the host is in the way, or if two
/// entries would have one path. The volume does not change.
pub fn extract<R: PromptFiles>(
    rt: &R,
    alloc: Global,
    volume: &mut Volume,
    job: &ExtractJob<'_>,
) -> Result<(), OutFault>
where
    R::File: OwnedFile,
    ensures fault { IfErr result (λ fault. (t : Tree) → Stands volume.old.image t → IsExtractFault t (map (λ word. word.now) job.now.paths.items) fault) }
    ensures same { volume.new ≡ volume.old }
{
    let out = match outgoing(alloc, volume, &job.paths, job.meta) {
        Ok(out) => out,
        Err(fault) => return Err(fault),
    };
    let mut bytes = VolumeBytes::of(volume, &out.sources);
    match write_tree(rt, alloc, job.to, &out.items, &mut bytes, job.force) {
        Ok(()) => Ok(()),
        Err(fault) => Err(OutFault::Host(fault)),
    }
}
