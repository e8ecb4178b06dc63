//! The check of one reached block by itself: its checksum, its types and the fields that need no other block.
ghost use Rattle.std.specs.Prelude.{◌<◌, MatchResult};
ghost use Rattle.adf_block.specs.Image.{block_count};
ghost use Rattle.ados_model.specs.Faults.{Reached, Shows};
ghost use Rattle.ados_check.specs.Marks.{IsSound};
ghost use Rattle.ados_check.specs.Rules.{HasBadField, TellsFields};

use crate::rules::{FIELD_RULES, FieldRule, field_evidence, has_bad_sum, type_evidence};
use crate::source::Source;
use adf_block::layout::FEWEST_BLOCKS;
use ados_model::{FaultKind, Role, VolumeFault};

/// Checks a reached block in its role. A fault is shown by the block itself.
pub(crate) fn look(source: &Source<'_>, block: u32, role: Role) -> Result<(), FaultKind>
    requires inside { block < block_count source.now.bytes }
    requires reached { Reached source.now.bytes block role }
    ensures { MatchResult result (λ _. IsSound source.now.bytes block role) (λ kind. Shows source.now.bytes kind block) }
{
    prove!(source.blocks() >= FEWEST_BLOCKS);
    if has_bad_sum(source, block, role) {
        return Err(FaultKind::BadSum);
    }
    let has_bad_type = type_evidence(source, block, role).is_some();
    if has_bad_type {
        return Err(FaultKind::BadType);
    }
    for rule in FIELD_RULES.iter() {
        let is_broken = field_evidence(source, block, role, *rule).is_some();
        if is_broken {
            return Err(rule.kind());
        }
    }
    Ok(())
}

/// Checks a field of a reached block in its role by one rule.
pub(crate) fn check_field(
    source: &Source<'_>,
    block: u32,
    role: Role,
    rule: FieldRule,
) -> Result<(), VolumeFault>
    requires inside { block < block_count source.now.bytes }
    requires reached { Reached source.now.bytes block role }
    requires told { TellsFields source.now block role }
    ensures { MatchResult result (λ _. ¬ HasBadField source.now.bytes block role rule) (λ fault. Shows source.now.bytes fault.kind fault.block) }
{
    let is_broken = field_evidence(source, block, role, rule).is_some();
    if is_broken {
        return Err(VolumeFault {
            kind: rule.kind(),
            block,
        });
    }
    Ok(())
}
