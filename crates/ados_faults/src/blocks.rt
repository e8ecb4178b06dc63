//! Lists of blocks, each once, that are quick to empty.
ghost use Rattle.std.specs.Prelude.{◌≡◌, ◌∷◌, ◌++◌, [], Contains, IfOk, IsTrue, false, true};
ghost use Rattle.ados_model.specs.Faults.{InImage};
ghost use Rattle.ados_faults.specs.steps.Blocks.{AreMet, IsGrown};

use crate::bits::is_inside;
use adf_block::Image;
use std::alloc::{AllocError, Global};

/// Blocks in the order in which they were added, each once.
#[derive(Drop)]
pub(crate) struct Blocks {
    pub(crate) list: Vec<u32>,
    /// Whether each block of the image is in the list.
    has: Vec<bool>,
}

impl Blocks {
    /// No blocks.
    pub(crate) fn none(alloc: Global, image: &Image) -> Result<Blocks, AllocError>
        ensures met { IfOk result (λ blocks. AreMet image.now blocks.has.items blocks.list.items) }
        ensures none { IfOk result (λ blocks. blocks.list.items ≡ []) }
    {
        let has = Vec::from_elem(alloc, false, image.blocks() as usize)?;
        Ok(Blocks {
            list: Vec::new(alloc),
            has,
        })
    }

    /// Removes all blocks.
    pub(crate) fn clear(&mut self, image: &Image)
        requires { AreMet image.now self.old.has.items self.old.list.items }
        ensures met { AreMet image.now self.new.has.items self.new.list.items }
        ensures none { self.new.list.items ≡ [] }
    {
        let _image = image;
        while let Some(block) = self.list.pop() {
            self.has[block as usize] = false;
        }
    }

    /// Adds a block. The result is false if it was there, or is not inside the image.
    pub(crate) fn add(&mut self, image: &Image, block: u32) -> Result<bool, AllocError>
        requires { AreMet image.now self.old.has.items self.old.list.items }
        ensures met { IfOk result (λ _. AreMet image.now self.new.has.items self.new.list.items) }
        ensures grown { IfOk result (λ _. IsGrown image.now block self.old.list.items self.new.list.items) }
        ensures there { IfOk result (λ _. InImage image.now block → Contains self.new.list.items block) }
        ensures same { IfOk result (λ is_new. is_new ≡ false → self.new.list.items ≡ self.old.list.items) }
        ensures inside { IfOk result (λ is_new. is_new ≡ true → InImage image.now block) }
        ensures new { IfOk result (λ is_new. is_new ≡ true → self.new.list.items ≡ self.old.list.items ++ block ∷ []) }
        ensures fresh { IfOk result (λ is_new. is_new ≡ true → ¬ Contains self.old.list.items block) }
    {
        if !is_inside(image, block) {
            return Ok(false);
        }
        if self.has[block as usize] {
            return Ok(false);
        }
        self.list.push(block)?;
        self.has[block as usize] = true;
        Ok(true)
    }

    /// Whether a block is in the list, or is not inside the image.
    pub(crate) fn has(&self, image: &Image, block: u32) -> bool
        requires { AreMet image.now self.now.has.items self.now.list.items }
        ensures { IsTrue result → InImage image.now block → Contains self.now.list.items block }
    {
        !is_inside(image, block) || self.has[block as usize]
    }
}
