//! The check of one file: its counts, its size and, in OFS, the links of its data blocks.
ghost use Rattle.std.specs.Prelude.{MatchResult};
ghost use Rattle.ados_check.specs.Marks.{IsSoundFile};
ghost use Rattle.ados_model.specs.Faults.{Shows};
ghost use Rattle.ados_check.specs.steps.Files.{IsReachedEntry, IsReachedFile};

use crate::chain::check_chain;
use crate::counts::check_counts;
use crate::source::Source;
use ados_model::{Role, VolumeFault};

/// Checks that the counts and the size of a file, reached as an entry in this role, match its blocks.
pub(crate) fn check_file(source: &Source<'_>, file: u32, entry: Role) -> Result<(), VolumeFault>
    requires reached { IsReachedFile source.now.bytes file }
    requires entry { IsReachedEntry source.now.bytes file entry }
    ensures { MatchResult result (λ _. IsSoundFile source.now.bytes file) (λ fault. Shows source.now.bytes fault.kind fault.block) }
{
    let count = check_counts(source, file, entry)?;
    if source.kind_byte() == 0 {
        check_chain(source, file, entry, count)?;
    }
    Ok(())
}
