//! The data blocks of an OFS file: their links, sequence numbers and bytes.
ghost use Rattle.std.specs.Prelude.{◌≡◌, ◌≢◌, ◌<◌, ◌≤◌, ◌+◌, ◌-◌, ◌%◌, ℕ, MatchOption, MatchResult};
ghost use Rattle.adf_block.specs.Image.{block_count, long};
ghost use Rattle.adf_block.specs.Fields.{pointer};
ghost use Rattle.adf_block.specs.declared.layout.TheConstants.{NEXT_EXTENSION, TABLE_LONGS};
ghost use Rattle.ados_model.specs.Faults.{InImage, IsOfs, Shows, count_of_size};
ghost use Rattle.ados_check.specs.DataRules.{IsPlaced, TellsHeader};
ghost use Rattle.ados_check.specs.Source.{Tells};
ghost use Rattle.ados_check.specs.steps.Files.{HasCounts, IsLinked, IsReachedEntry, IsReachedFile, KeepsRules};

use crate::data_rules::{DATA_RULES, Place, data_evidence};
use crate::looks::check_field;
use crate::rules::{FieldRule, first_pointer};
use crate::sizes::has_other_size;
use crate::source::Source;
use adf_block::layout::{FIRST_POINTER, HELD, NEXT_EXTENSION, TABLE_LONGS};
use ados_model::{FaultKind, Role, VolumeFault};

/// Checks the data blocks of a file along its pointers, each at its place. The header has to link to the first one, and
/// together they have to hold as many bytes as the file's size.
pub(crate) fn check_chain(
    source: &Source<'_>,
    file: u32,
    entry: Role,
    count: u32,
) -> Result<(), VolumeFault>
    requires ofs { IsOfs source.now.bytes }
    requires reached { IsReachedFile source.now.bytes file }
    requires entry { IsReachedEntry source.now.bytes file entry }
    requires counts { HasCounts source.now.bytes file count }
    requires size { count ≡ count_of_size source.now.bytes file }
    ensures { MatchResult result (λ _. IsLinked source.now.bytes file) (λ fault. Shows source.now.bytes fault.kind fault.block) }
{
    check_field(source, file, entry, FieldRule::FirstData)?;
    let mut holder = file;
    let mut block = first_pointer(source, file);
    let mut sum = 0_u64;
    for position in 0..count {
        holder = holder_behind(source, holder, position);
        let next = pointer_at(source, holder, position + 1, count);
        let place = Place {
            block,
            position: u64::from(position),
            next,
        };
        check_place(source, place)?;
        sum += u64::from(source.long(block, HELD));
        block = next.unwrap_or(0);
    }
    if has_other_size(source, file, sum) {
        return Err(VolumeFault {
            kind: FaultKind::BadCount,
            block: file,
        });
    }
    Ok(())
}

/// The header or extension block with the pointer behind this position, from the one with the pointer at it.
fn holder_behind(source: &Source<'_>, holder: u32, position: u32) -> u32
    requires inside { holder < block_count source.now.bytes }
    requires told { Tells source.now holder NEXT_EXTENSION }
    ensures next { position % TABLE_LONGS ≡ TABLE_LONGS - 1 → result ≡ long source.now.bytes holder NEXT_EXTENSION }
    ensures same { position % TABLE_LONGS ≢ TABLE_LONGS - 1 → result ≡ holder }
{
    if position % TABLE_LONGS == TABLE_LONGS - 1 {
        source.long(holder, NEXT_EXTENSION)
    } else {
        holder
    }
}

/// The data block at a position, if the file has more data blocks than that.
fn pointer_at(source: &Source<'_>, holder: u32, position: u32, count: u32) -> Option<u32>
    requires inside { position < count → holder < block_count source.now.bytes }
    requires told { position < count → (i : ℕ) → Tells source.now holder i }
    ensures { MatchOption result (count ≤ position) (λ block. (position < count) × (block ≡ pointer source.now.bytes holder (position % TABLE_LONGS))) }
{
    if position >= count {
        return None;
    }
    Some(source.long(holder, FIRST_POINTER - position % TABLE_LONGS))
}

/// Checks a data block at its place.
fn check_place(source: &Source<'_>, place: Place) -> Result<(), VolumeFault>
    requires ofs { IsOfs source.now.bytes }
    requires inside { InImage source.now.bytes place.block }
    requires at { IsPlaced source.now.bytes place }
    requires told { TellsHeader source.now place.block }
    ensures { MatchResult result (λ _. KeepsRules source.now.bytes place) (λ fault. Shows source.now.bytes fault.kind fault.block) }
{
    for rule in DATA_RULES.iter() {
        let is_broken = data_evidence(source, place, *rule).is_some();
        if is_broken {
            return Err(VolumeFault {
                kind: rule.kind(),
                block: place.block,
            });
        }
    }
    Ok(())
}
