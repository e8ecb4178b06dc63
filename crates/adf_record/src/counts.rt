//! How many files and directories a volume has.
ghost use Rattle.std.specs.Prelude.{◌≡◌, ◌≤◌, IfOk, All, length};
ghost use Rattle.ados_model.specs.Tree.{Tree};
ghost use Rattle.ados_model.specs.Stands.{Stands};
ghost use Rattle.ados_model.specs.Keys.{HasKey};
ghost use Rattle.adf_record.specs.Counts.{AreCounts, file_count};

use ados_volume::{Below, Volume, entries_below};
use std::alloc::{AllocError, Global};

/// How many files and directories a volume has.
#[derive(Clone, Copy)]
pub struct Counts {
    pub files: usize,
    /// The directories without the root.
    pub directories: usize,
}

/// Counts the files and directories of a volume, in one walk.
pub fn counts_of(alloc: Global, volume: &Volume) -> Result<Counts, AllocError>
    ensures { IfOk result (λ counts. (t : Tree) → Stands volume.now.image t → AreCounts t counts) }
{
    let below = entries_below(alloc, volume, volume.root())?;
    let files = count_files(volume, &below);
    Ok(Counts {
        files,
        directories: below.len() - files,
    })
}

/// The number of files among these entries.
fn count_files(volume: &Volume, below: &[Below]) -> usize
    requires { All (λ e. HasKey volume.now.image e.key) below.now }
    ensures count { (t : Tree) → Stands volume.now.image t → result ≡ file_count t below.now }
    ensures within { result ≤ length below.now }
{
    let mut files = 0;
    for entry in below {
        if volume.is_file(entry.key) {
            files += 1;
        }
    }
    files
}
