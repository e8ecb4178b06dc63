//! The headers of an image that are told: all sound ones but those that are left out, and the doubtful ones that the root
//! or another header names.
ghost use Rattle.std.specs.Prelude.{◌<◌, ◌↔◌, ℕ, List, length, IfOk, IsTrue, OnOk};
ghost use Rattle.adf_block.specs.Image.{block_count};
ghost use Rattle.ados_salvage.specs.Doubtful.{IsHeader, IsRoot, IsToldHeader, MayBeHeader, NamesEntries};
ghost use Rattle.ados_salvage.specs.steps.Heading.{AreFound, AreSought, AreSound, FindsMore, IsFound, IsSought};
ghost use Rattle.ados_salvage.specs.Known.{AreHeaders};

use crate::known::header::{dir_of_place, is_root, is_sound, looks_like_header};
use crate::known::left_out::LeftOut;
use adf_block::Image;
use adf_block::layout::{BLOCK_LONGS, PARENT};
use std::alloc::{AllocError, Global};

/// The headers found so far.
#[derive(Drop)]
pub(crate) struct Found {
    /// For each block, whether it is one.
    marks: Vec<bool>,
    /// Each of them once.
    blocks: Vec<u32>,
}

/// For each block of an image, whether it is a sound or a doubtful header, and not left out.
pub(crate) fn headers(
    alloc: Global,
    image: &Image,
    left_out: &LeftOut,
    sound: &[bool],
) -> Result<Vec<bool>, AllocError>
    requires { AreSound image.now sound.now }
    ensures { IfOk result (λ headers. AreHeaders left_out.now image.now headers.items) }
{
    let mut found = first_headers(alloc, image, left_out, sound)?;
    let mut place = 0;
    while place < found.blocks.len() {
        let block = found.blocks[place];
        found.follow(image, left_out, block)?;
        place += 1;
    }
    Ok(found.marks)
}

/// All sound headers of an image that are not left out, and those that its root names.
fn first_headers(
    alloc: Global,
    image: &Image,
    left_out: &LeftOut,
    sound: &[bool],
) -> Result<Found, AllocError>
    requires { AreSound image.now sound.now }
    ensures found { IfOk result (AreFound left_out.now image.now) }
    ensures sound { IfOk result (λ found. (block : ℕ) → IsToldHeader left_out.now image.now block → IsFound found.marks.items block) }
    ensures root { IfOk result (λ found. (block : ℕ) → IsRoot image.now block → AreSought left_out.now image.now found.marks.items block) }
{
    let mut found = all_sound(alloc, image, left_out, sound)?;
    prove!(image.blocks() >= 16);
    let root = image.root();
    if !is_root(image, root) {
        return Ok(found);
    }
    found.follow(image, left_out, root)?;
    Ok(found)
}

/// All sound headers of an image that are not left out.
fn all_sound(
    alloc: Global,
    image: &Image,
    left_out: &LeftOut,
    sound: &[bool],
) -> Result<Found, AllocError>
    requires { AreSound image.now sound.now }
    ensures found { IfOk result (AreFound left_out.now image.now) }
    ensures all { IfOk result (λ found. (block : ℕ) → IsToldHeader left_out.now image.now block → IsFound found.marks.items block) }
{
    let mut found = no_headers(alloc, image)?;
    for block in 0..image.blocks() {
        if is_told_header(left_out, sound, block) {
            found.note(block)?;
        }
    }
    Ok(found)
}

/// Whether a block is a sound header, and not left out.
fn is_told_header(left_out: &LeftOut, sound: &[bool], block: u32) -> bool
    ensures { (image : List ℕ) → AreSound image sound.now → block < block_count image → IsTrue result ↔ IsToldHeader left_out.now image block }
{
    is_sound(sound, block) && !left_out.has(block)
}

/// No headers.
fn no_headers(alloc: Global, image: &Image) -> Result<Found, AllocError>
    ensures { IfOk result (λ found. (out : List ℕ) → AreFound out image.now found) }
{
    let count = image.blocks() as usize;
    Ok(Found {
        marks: vec![in alloc; false; count]?,
        blocks: Vec::with_capacity(alloc, count)?,
    })
}

impl Found {
    /// Notes a header, unless it was found before.
    fn note(&mut self, block: u32) -> Result<(), AllocError>
        requires inside { block < length self.old.marks.items }
        ensures more { OnOk result ((out image : List ℕ) → IsHeader out image block → AreFound out image self.old → FindsMore out image self.old self.new) }
        ensures found { OnOk result (IsFound self.new.marks.items block) }
    {
        if self.marks[block as usize] {
            return Ok(());
        }
        self.marks[block as usize] = true;
        self.blocks.push(block)?;
        Ok(())
    }

    /// Notes the doubtful headers that a block names as entries.
    fn follow(&mut self, image: &Image, left_out: &LeftOut, block: u32) -> Result<(), AllocError>
        requires inside { block < block_count image.now }
        requires accepted { NamesEntries left_out.now image.now block }
        requires found { AreFound left_out.now image.now self.old }
        ensures more { OnOk result (FindsMore left_out.now image.now self.old self.new) }
        ensures sought { OnOk result (AreSought left_out.now image.now self.new.marks.items block) }
    {
        for at in 0..BLOCK_LONGS {
            self.follow_long(image, left_out, block, at)?;
        }
        Ok(())
    }

    /// Notes the block that a long of a block names as an entry, if it looks like a header of the same directory.
    fn follow_long(
        &mut self,
        image: &Image,
        left_out: &LeftOut,
        block: u32,
        at: u32,
    ) -> Result<(), AllocError>
        requires inside { (block < block_count image.now) × (at < 128) }
        requires accepted { NamesEntries left_out.now image.now block }
        requires found { AreFound left_out.now image.now self.old }
        ensures more { OnOk result (FindsMore left_out.now image.now self.old self.new) }
        ensures sought { OnOk result (IsSought left_out.now image.now self.new.marks.items block at) }
    {
        let Some(dir) = dir_of_place(image, block, at) else {
            return Ok(());
        };
        let named = image.long(block, at);
        if !may_be_header(image, left_out, named) || image.long(named, PARENT) != dir {
            return Ok(());
        }
        self.note(named)
    }
}

/// Whether a block looks like a header, and is not left out.
fn may_be_header(image: &Image, left_out: &LeftOut, block: u32) -> bool
    ensures { IsTrue result ↔ MayBeHeader left_out.now image.now block }
{
    looks_like_header(image, block) && !left_out.has(block)
}
