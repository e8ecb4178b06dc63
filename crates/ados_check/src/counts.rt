//! The counts in a file's header and extension blocks, against its size.
ghost use Rattle.std.specs.Prelude.{◌≡◌, ◌<◌, ℕ, IfErr, IfOk, MatchResult};
ghost use Rattle.adf_block.specs.Image.{block_count};
ghost use Rattle.ados_model.specs.Faults.{Shows, count_of_size};
ghost use Rattle.ados_check.specs.Rules.{TellsFields};
ghost use Rattle.ados_check.specs.Source.{Tells};
ghost use Rattle.ados_check.specs.steps.Files.{HasCount, HasCounts, HasPointersAs, IsReachedEntry, IsReachedFile};

use crate::looks::check_field;
use crate::rules::FieldRule;
use crate::sizes::needs_other_count;
use crate::source::Source;
use adf_block::layout::{NEXT_EXTENSION, POINTER_COUNT, TABLE_LONGS};
use ados_model::{FaultKind, Role, VolumeFault};

/// Adds up the data blocks of a file, reached as an entry in this role. All its pointer blocks but the last have to be
/// full, and no extension block may be empty.
fn count_blocks(source: &Source<'_>, file: u32, entry: Role) -> Result<u32, VolumeFault>
    requires reached { IsReachedFile source.now.bytes file }
    requires entry { IsReachedEntry source.now.bytes file entry }
    ensures { MatchResult result (HasCounts source.now.bytes file) (λ fault. Shows source.now.bytes fault.kind fault.block) }
{
    let mut holder = file;
    let mut role = entry;
    for passed in 0..source.blocks() {
        let next = source.long(holder, NEXT_EXTENSION);
        let count = count_in(source, holder, role)?;
        if next == 0 {
            return Ok(TABLE_LONGS * passed + count);
        }
        holder = next;
        role = Role::Extension(file);
    }
    unreachable!()
}

/// The number of data pointers in a header or extension block.
fn count_in(source: &Source<'_>, holder: u32, role: Role) -> Result<u32, VolumeFault>
    requires inside { holder < block_count source.now.bytes }
    requires held { HasPointersAs source.now.bytes holder role }
    requires fields { TellsFields source.now holder role }
    requires told { (i : ℕ) → Tells source.now holder i }
    ensures { MatchResult result (HasCount source.now.bytes holder role) (λ fault. Shows source.now.bytes fault.kind fault.block) }
{
    check_field(source, holder, role, FieldRule::PointerCount)?;
    Ok(source.long(holder, POINTER_COUNT))
}

/// The number of data blocks of a file, if its size needs exactly these.
pub(crate) fn check_counts(source: &Source<'_>, file: u32, entry: Role) -> Result<u32, VolumeFault>
    requires reached { IsReachedFile source.now.bytes file }
    requires entry { IsReachedEntry source.now.bytes file entry }
    ensures counts { IfOk result (HasCounts source.now.bytes file) }
    ensures size { IfOk result (λ count. count ≡ count_of_size source.now.bytes file) }
    ensures fault { IfErr result (λ fault. Shows source.now.bytes fault.kind fault.block) }
{
    let count = count_blocks(source, file, entry)?;
    if needs_other_count(source, file, u64::from(count)) {
        return Err(VolumeFault {
            kind: FaultKind::BadCount,
            block: file,
        });
    }
    Ok(count)
}
