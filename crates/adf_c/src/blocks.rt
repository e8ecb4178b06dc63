//! What the blocks of an image are, for C, as far as a salvage tells of them.

ghost use Rattle.std.specs.Prelude.{◌≡◌, MatchResult, pos};
ghost use Rattle.std.specs.Option.{MatchOption};
ghost use Rattle.adf_c.specs.Salvaged.{yes_number};
ghost use Rattle.adf_c.specs.Blocks.{TellsAll};
ghost use Rattle.adf_c.specs.declared.values.refusal.Refusal.TheVariants.{NoMemory};
ghost use Rattle.adf_c.specs.Telling.{BlocksEnd, RefusesBlocks, TellsHeld};

use crate::handle::{Holder, JipSalvage};
use crate::values::{JipTold, Refusal, copy_to, told_of};
use ados_salvage::Salvage;
use std::alloc::Global;

/// Lists what the blocks of a salvage's image are: the boot blocks, the root, the bitmap blocks that it names, the data blocks of
/// whole files, the blocks given to files that are not whole, the extension blocks of these, the blocks that are used and part
/// of nothing, and the headers of deleted entries. They are written to `told`, as many as it has room for, and `count` is how many there
/// are. The status is 0.
///
/// Status 2: out of memory. Status 3: a closed salvage. In these cases nothing is written.
#[unsafe(no_mangle)]
pub extern "C" fn jip_lib_salvage_blocks(
    alloc: Global,
    salvage: &mut JipSalvage,
    told: &mut [JipTold],
    count: &mut usize,
) -> i32
    ensures told { BlocksEnd salvage.old.held told.old told.new count.old count.new result }
    ensures same { salvage.new.held ≡ salvage.old.held }
{
    match blocks_of(alloc, salvage) {
        Ok(blocks) => {
            *count = copy_to(&blocks, told);
            0
        }
        Err(refusal) => refusal.number(),
    }
}

/// What the blocks of the image of a salvage that C holds are.
fn blocks_of(alloc: Global, salvage: &mut JipSalvage) -> Result<Vec<JipTold>, Refusal>
    ensures told { MatchResult result (λ told. TellsHeld salvage.old.held told.items) (RefusesBlocks salvage.old.held) }
    ensures same { salvage.new.held ≡ salvage.old.held }
{
    let Some(saved) = salvage.take(alloc) else {
        return Err(Refusal::WrongArgument);
    };
    let outcome = blocks_in(alloc, &saved);
    salvage.put(saved);
    outcome
}

/// What the blocks of a salvage's image are.
fn blocks_in(alloc: Global, saved: &Salvage) -> Result<Vec<JipTold>, Refusal>
    ensures { MatchResult result (λ told. TellsAll saved.now told.items) (λ refusal. refusal ≡ NoMemory) }
{
    match told_of(alloc, saved) {
        Ok(told) => Ok(told),
        Err(_) => Err(Refusal::NoMemory),
    }
}

/// Whether the bitmap of the image can be trusted: 1 if so, else 0. Only then it is known which entries are deleted. It is 0
/// for a closed salvage.
#[unsafe(no_mangle)]
pub extern "C" fn jip_lib_salvage_trusts_bitmap(alloc: Global, salvage: &mut JipSalvage) -> i32
    ensures trust { MatchOption salvage.old.held (result ≡ pos 0) (λ saved. result ≡ pos (yes_number saved.trusted)) }
    ensures same { salvage.new.held ≡ salvage.old.held }
{
    let Some(saved) = salvage.take(alloc) else {
        return 0;
    };
    let trusted = saved.is_bitmap_trusted();
    salvage.put(saved);
    yes_number(trusted)
}

/// 1 for yes, 0 for no.
fn yes_number(yes: bool) -> i32
    ensures { result ≡ pos (yes_number yes) }
{
    if yes { 1 } else { 0 }
}
