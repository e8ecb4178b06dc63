//! The directories and the files of an image.
ghost use Rattle.std.specs.Prelude.{ℕ, All, Contains, IfOk};
ghost use Rattle.ados_model.specs.Faults.{InImage};
ghost use Rattle.ados_faults.specs.steps.Blocks.{AreMet, HasTypeAs, IsGrown, IsOfType};
ghost use Rattle.ados_faults.specs.steps.Roles.{AreCovered};
ghost use Rattle.ados_faults.specs.steps.Walked.{IsStep};

use crate::blocks::Blocks;
use crate::walk::Step;
use adf_block::Image;
use adf_block::layout::{DIRECTORY_TYPE, SECONDARY_TYPE};
use ados_model::Role;
use std::alloc::{AllocError, Global};

/// The entries with this secondary type, each once; among the directories the root.
pub(crate) fn blocks_of_type(
    alloc: Global,
    image: &Image,
    steps: &[Step],
    kind: u32,
) -> Result<Vec<u32>, AllocError>
    requires steps { All (IsStep image.now) steps.now }
    requires covered { AreCovered image.now steps.now }
    ensures typed { IfOk result (λ blocks. All (IsOfType image.now kind) blocks.items) }
    ensures inside { IfOk result (λ blocks. All (InImage image.now) blocks.items) }
    ensures each { IfOk result (λ blocks. (block : ℕ) → IsOfType image.now kind block → Contains blocks.items block) }
{
    let mut blocks = Blocks::none(alloc, image)?;
    for step in steps {
        add_step(image, *step, kind, &mut blocks)?;
    }
    Ok(blocks.list)
}

/// Adds the block of a step, if it has this type.
fn add_step(image: &Image, step: Step, kind: u32, blocks: &mut Blocks) -> Result<(), AllocError>
    requires step { IsStep image.now step }
    requires met { AreMet image.now blocks.old.has.items blocks.old.list.items }
    ensures met { IfOk result (λ _. AreMet image.now blocks.new.has.items blocks.new.list.items) }
    ensures grown { IfOk result (λ _. IsGrown image.now step.block blocks.old.list.items blocks.new.list.items) }
    ensures typed { IfOk result (λ _. All (IsOfType image.now kind) blocks.old.list.items → All (IsOfType image.now kind) blocks.new.list.items) }
    ensures there { IfOk result (λ _. HasTypeAs image.now kind step.block step.role → Contains blocks.new.list.items step.block) }
{
    match step.role {
        Role::Root if kind == DIRECTORY_TYPE => {}
        Role::Entry(_, _) if image.long(step.block, SECONDARY_TYPE) == kind => {}
        _ => return Ok(()),
    }
    blocks.add(image, step.block)?;
    Ok(())
}
