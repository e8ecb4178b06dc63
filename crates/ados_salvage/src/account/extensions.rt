//! The extension blocks of files that are not whole: those that links lead to, whatever their checksums are, and those of FFS with right
//! checksums.
ghost use Rattle.std.specs.Prelude.{◌≡◌, ◌<◌, length, IfOk, MatchBool, MatchOption, OnOk};
ghost use Rattle.adf_block.specs.Image.{block_count};
ghost use Rattle.ados_model.specs.Faults.{InImage};
ghost use Rattle.ados_salvage.specs.Account.{HasExtensionBlock, IsDamagedFile, IsOfDamaged, OfOne};
ghost use Rattle.ados_salvage.specs.steps.Accounting.{Adds, AreClosed, AreMarkedAfter, HasExactly, HasNoMarks, IsDamagedHeader, IsLinkedOf, IsLooseOf, IsLooseOfAny, IsNewAfter};

use crate::account::accounted::mark;
use crate::known::looks_like_extension;
use crate::links::is_loose_extension;
use crate::{Salvaged, State};
use adf_block::Image;
use adf_block::layout::{BOOT_BLOCKS, NEXT_EXTENSION, PARENT};
use std::alloc::{AllocError, Global};
use std::collections::BTreeSet;

/// Marks the extension blocks of all files that are not whole, where no block is marked before.
pub(crate) fn mark_extensions(
    alloc: Global,
    image: &Image,
    entries: &[Salvaged],
    marks: &mut Vec<bool>,
) -> Result<(), AllocError>
    requires { HasNoMarks image.now marks.old.items }
    ensures { OnOk result (Adds (OfOne (IsOfDamaged image.now) entries.now) marks.old.items marks.new.items) }
{
    mark_linked(image, entries, marks);
    mark_loose(alloc, image, entries, marks)
}

/// Marks the extension blocks of all files that are not whole to which links lead, where no block is marked before. Each is marked
/// once: a walk ends at a marked one, since only its own file leads to it.
fn mark_linked(image: &Image, entries: &[Salvaged], marks: &mut Vec<bool>)
    requires { HasNoMarks image.now marks.old.items }
    ensures { Adds (OfOne (IsLinkedOf image.now) entries.now) marks.old.items marks.new.items }
{
    for entry in entries {
        mark_extensions_of(image, entry, marks);
    }
}

/// Marks the extension blocks of an entry to which links lead, if it is a file that is not whole.
fn mark_extensions_of(image: &Image, entry: &Salvaged, marks: &mut Vec<bool>)
    requires { AreClosed image.now marks.old.items }
    ensures closed { AreClosed image.now marks.new.items }
    ensures added { Adds (IsLinkedOf image.now entry.now) marks.old.items marks.new.items }
{
    let header = entry.header;
    if !is_damaged_file(entry.state) || header < BOOT_BLOCKS || header >= image.blocks() {
        return;
    }
    follow(image, header, marks);
}

/// Whether the state is that of a file that is not whole.
fn is_damaged_file(state: State) -> bool
    ensures { MatchBool result (IsDamagedFile state) (¬ IsDamagedFile state) }
{
    matches!(state, State::Doubtful { .. } | State::Broken { .. })
}

/// Marks the extension blocks of a file, up to one that was marked before.
fn follow(image: &Image, file: u32, marks: &mut Vec<bool>)
    requires inside { InImage image.now file }
    requires closed { AreClosed image.now marks.old.items }
    ensures closed { AreClosed image.now marks.new.items }
    ensures added { Adds (HasExtensionBlock image.now file) marks.old.items marks.new.items }
{
    let mut holder = file;
    while let Some(next) = next_extension(image, file, holder, marks) {
        marks[next as usize] = true;
        holder = next;
    }
}

/// The extension block of a file that its header or another one names, unless it is marked.
fn next_extension(image: &Image, file: u32, holder: u32, marks: &Vec<bool>) -> Option<u32>
    requires inside { holder < block_count image.now }
    requires size { length marks.now.items ≡ block_count image.now }
    ensures { MatchOption result (AreMarkedAfter image.now marks.now.items file holder) (IsNewAfter image.now marks.now.items file holder) }
{
    let next = image.long(holder, NEXT_EXTENSION);
    if next < BOOT_BLOCKS || next >= image.blocks() {
        return None;
    }
    if marks[next as usize] || !looks_like_extension(image, file, next) {
        return None;
    }
    Some(next)
}

/// Marks the extension blocks with right checksums of all FFS files that are not whole, whatever names them.
fn mark_loose(
    alloc: Global,
    image: &Image,
    entries: &[Salvaged],
    marks: &mut Vec<bool>,
) -> Result<(), AllocError>
    requires { length marks.old.items ≡ block_count image.now }
    ensures { OnOk result (Adds (OfOne (IsLooseOf image.now) entries.now) marks.old.items marks.new.items) }
{
    let damaged = damaged_headers(alloc, entries)?;
    mark_naming(image, &damaged, marks);
    Ok(())
}

/// The headers of the files that are not whole.
fn damaged_headers(alloc: Global, entries: &[Salvaged]) -> Result<BTreeSet<u32>, AllocError>
    ensures { IfOk result (HasExactly (OfOne IsDamagedHeader entries.now)) }
{
    let mut headers = BTreeSet::new(alloc);
    for entry in entries {
        if is_damaged_file(entry.state) {
            headers.insert(entry.header)?;
        }
    }
    Ok(headers)
}

/// Marks the FFS extension blocks with right checksums that name one of these headers.
fn mark_naming(image: &Image, headers: &BTreeSet<u32>, marks: &mut Vec<bool>)
    requires { length marks.old.items ≡ block_count image.now }
    ensures { Adds (IsLooseOfAny image.now headers.now) marks.old.items marks.new.items }
{
    for block in 0..image.blocks() {
        if names_one(image, headers, block) {
            mark(marks, block);
        }
    }
}

/// Whether a block is an FFS extension block with a right checksum that names one of these headers.
fn names_one(image: &Image, headers: &BTreeSet<u32>, block: u32) -> bool
    requires { block < block_count image.now }
    ensures { MatchBool result (IsLooseOfAny image.now headers.now block) (¬ IsLooseOfAny image.now headers.now block) }
{
    let header = image.long(block, PARENT);
    if headers.contains(&header) {
        return is_loose_extension(image, header, block);
    }
    false
}
