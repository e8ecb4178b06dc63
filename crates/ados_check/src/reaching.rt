//! The walk from the root over every place of every reached block.
ghost use Rattle.std.specs.Prelude.{◌≡◌, ◌+◌, ◌<◌, ◌≤◌, IfNone, IfSome, IfOk, IfErr, MatchResult, vec_capacity};
ghost use Rattle.adf_block.specs.Image.{block_count};
ghost use Rattle.adf_block.specs.declared.layout.TheConstants.{FIRST_SLOT};
ghost use Rattle.ados_model.specs.Accepted.{IsRefusal};
ghost use Rattle.ados_model.specs.Faults.{Shows};
ghost use Rattle.ados_check.specs.Marks.{AreReached};
ghost use Rattle.ados_check.specs.steps.Reaching.{IsBetween, IsInHand, work};

use crate::looks::look;
use crate::mark::Mark;
use crate::places::{TABLE_END, fields_from, has_places, place_role, table_from};
use crate::source::Source;
use adf_block::layout::{FEWEST_BLOCKS, SECONDARY_TYPE};
use ados_model::{FaultKind, Role, VolumeFault};
use std::alloc::Global;

/// The marks so far, and the marked blocks whose places are still to be visited.
#[derive(Drop)]
struct Progress {
    marks: Vec<Option<Mark>>,
    pending: Vec<u32>,
}

/// Out of memory, which has block 0.
pub(crate) const NO_MEMORY: VolumeFault = VolumeFault {
    kind: FaultKind::NoMemory,
    block: 0,
};

/// The marks of all reached blocks, one cell for each block of the image; or a fault found on the way.
///
/// Time and memory are linear in the size of the image. `NoMemory` means that one of the two lists could not be
/// allocated.
pub fn reach(alloc: Global, source: &Source<'_>) -> Result<Vec<Option<Mark>>, VolumeFault>
    ensures { MatchResult result (λ marks. AreReached source.now.bytes marks.items) (λ fault. IsRefusal source.now.bytes fault) }
{
    prove!(source.blocks() >= FEWEST_BLOCKS);
    let mut progress = Progress::start(alloc, source)?;
    while let Some((block, role)) = progress.next(source) {
        let from = table_from(source, block, role);
        progress.pass_all(source, block, role, from, TABLE_END)?;
        progress.pass_all(source, block, role, fields_from(role), SECONDARY_TYPE)?;
    }
    Ok(progress.marks)
}

impl Progress {
    /// Marks the root only.
    fn start(alloc: Global, source: &Source<'_>) -> Result<Progress, VolumeFault>
        ensures between { IfOk result (λ progress. IsBetween source.now.bytes progress.marks.items progress.pending.items) }
        ensures capacity { IfOk result (λ progress. block_count source.now.bytes ≤ vec_capacity progress.pending) }
        ensures refused { IfErr result (λ fault. IsRefusal source.now.bytes fault) }
    {
        let root = source.root();
        let blocks = source.blocks() as usize;
        let Ok(mut marks) = Vec::from_elem(alloc, None, blocks) else {
            return Err(NO_MEMORY);
        };
        let Ok(mut pending) = Vec::with_capacity(alloc, blocks) else {
            return Err(NO_MEMORY);
        };
        if let Err(kind) = look(source, root, Role::Root) {
            return Err(VolumeFault { kind, block: root });
        }
        marks[root as usize] = Some(Mark {
            role: Role::Root,
            holder: 0,
            long: 0,
        });
        pending.push_reserved(root);
        Ok(Progress { marks, pending })
    }

    /// Takes the next pending block.
    fn next(&mut self, source: &Source<'_>) -> Option<(u32, Role)>
        requires between { IsBetween source.now.bytes self.old.marks.items self.old.pending.items }
        ensures ended { IfNone result (AreReached source.now.bytes self.new.marks.items) }
        ensures hand { IfSome result (λ found. IsInHand source.now.bytes self.new.marks.items self.new.pending.items found.0 found.1 FIRST_SLOT) }
        ensures less { IfSome result (λ _. work self.new.marks.items self.new.pending.items < work self.old.marks.items self.old.pending.items) }
        ensures capacity { vec_capacity self.new.pending ≡ vec_capacity self.old.pending }
    {
        prove!(source.blocks() >= FEWEST_BLOCKS);
        let block = self.pending.pop()?;
        match self.marks[block as usize] {
            Some(mark) => Some((block, mark.role)),
            None => unreachable!(),
        }
    }

    /// Visits the longs in a part of a block. If a long is a place, the block that it names is checked and marked. That
    /// block becomes pending if it can name others itself.
    fn pass_all(
        &mut self,
        source: &Source<'_>,
        holder: u32,
        role: Role,
        from: u32,
        to: u32,
    ) -> Result<(), VolumeFault>
        requires hand { IsInHand source.now.bytes self.old.marks.items self.old.pending.items holder role from }
        requires part { from ≤ to }
        requires longs { to ≤ SECONDARY_TYPE }
        requires capacity { block_count source.now.bytes ≤ vec_capacity self.old.pending }
        ensures hand { IfOk result (λ _. IsInHand source.now.bytes self.new.marks.items self.new.pending.items holder role to) }
        ensures work { IfOk result (λ _. work self.new.marks.items self.new.pending.items ≤ work self.old.marks.items self.old.pending.items) }
        ensures capacity { vec_capacity self.new.pending ≡ vec_capacity self.old.pending }
        ensures shown { IfErr result (λ fault. Shows source.now.bytes fault.kind fault.block) }
    {
        for i in from..to {
            let Some(next) = place_role(source, holder, role, i) else {
                continue;
            };
            let block = source.long(holder, i);
            if !source.contains(block) {
                return Err(VolumeFault {
                    kind: FaultKind::BadPointer,
                    block: holder,
                });
            }
            if self.marks[block as usize].is_some() {
                return Err(VolumeFault {
                    kind: FaultKind::BlockUsedTwice,
                    block,
                });
            }
            if let Err(kind) = look(source, block, next) {
                return Err(VolumeFault { kind, block });
            }
            self.marks[block as usize] = Some(Mark {
                role: next,
                holder,
                long: i,
            });
            if !has_places(next) {
                continue;
            }
            self.pending.push_reserved(block);
        }
        Ok(())
    }
}
