//! The marked entries, block by block.
ghost use Rattle.std.specs.Prelude.{◌<◌, ℕ, length, MatchOption, MatchResult};
ghost use Rattle.adf_block.specs.Whole.{IsImage};
ghost use Rattle.adf_block.specs.Image.{block_count};
ghost use Rattle.ados_model.specs.Faults.{Shows};
ghost use Rattle.ados_check.specs.Marks.{AreReached, IsMarkedEntry};
ghost use Rattle.ados_check.specs.Entries.{AreSoundFiles, IsMarkedIn, IsSoundIfFile};

use crate::file::check_file;
use crate::mark::Mark;
use crate::source::Source;
use adf_block::layout::{FILE_TYPE, SECONDARY_TYPE};
use ados_model::{Role, VolumeFault};

/// Checks that the counts and the size of each marked file match its blocks. The time is linear in the blocks of the
/// image.
pub fn check_files(source: &Source<'_>, marks: &[Option<Mark>]) -> Result<(), VolumeFault>
    requires { AreReached source.now.bytes marks.now }
    ensures { MatchResult result (λ _. AreSoundFiles source.now.bytes marks.now) (λ fault. Shows source.now.bytes fault.kind fault.block) }
{
    for block in 0..source.blocks() {
        check_marked(source, marks, block)?;
    }
    Ok(())
}

/// Checks a block if it is marked as an entry and is a file.
fn check_marked(source: &Source<'_>, marks: &[Option<Mark>], block: u32) -> Result<(), VolumeFault>
    requires image { IsImage source.now.bytes }
    requires reached { AreReached source.now.bytes marks.now }
    requires inside { block < block_count source.now.bytes }
    ensures { MatchResult result (λ _. IsSoundIfFile source.now.bytes marks.now block) (λ fault. Shows source.now.bytes fault.kind fault.block) }
{
    let Some(entry) = entry_role(marks, block) else {
        return Ok(());
    };
    if source.long(block, SECONDARY_TYPE) == FILE_TYPE {
        check_file(source, block, entry)?;
    }
    Ok(())
}

/// The role of a block that is marked as an entry, or `None`.
fn entry_role(marks: &[Option<Mark>], block: u32) -> Option<Role>
    requires { block < length marks.now }
    ensures { MatchOption result ((dir : ℕ) → ¬ IsMarkedEntry marks.now block dir) (IsMarkedIn marks.now block) }
{
    let mark = marks[block as usize]?;
    match mark.role {
        Role::Entry(_, _) => Some(mark.role),
        _ => None,
    }
}

/// The directory of a block that is marked as an entry, or `None`.
pub(crate) fn directory_of(marks: &[Option<Mark>], block: u32) -> Option<u32>
    requires { block < length marks.now }
    ensures { MatchOption result ((dir : ℕ) → ¬ IsMarkedEntry marks.now block dir) (IsMarkedEntry marks.now block) }
{
    let mark = marks[block as usize]?;
    match mark.role {
        Role::Entry(dir, _) => Some(dir),
        _ => None,
    }
}
