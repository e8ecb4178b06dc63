//! Changes of a file's bytes.

ghost use Rattle.std.specs.Prelude.{◌<◌, ◌≤◌, IfOk, MatchResult};
ghost use Rattle.ados_data.specs.Place.{IsPlace};
ghost use Rattle.ados_map.specs.Pages.{NoneFreeBelow};
ghost use Rattle.ados_model.specs.Tree.{Tree, size_of};
ghost use Rattle.ados_model.specs.Stands.{Stands};
ghost use Rattle.ados_model.specs.Keys.{HasFileKey, HasTree};
ghost use Rattle.ados_model.specs.Edits.{shortened};
ghost use Rattle.ados_change.specs.NewBlocks.{KeepsRest, TakesNone};
ghost use Rattle.ados_change.specs.Cuts.{KeepsBeside, KeepsHeader};
ghost use Rattle.ados_change.specs.Renewed.{Grows, StaysUngrown, StaysUnwritten, Writes};

use crate::space::{has_room, size_of};
use crate::stamp::stamp;
use adf_block::Image;
use ados_data::{Place, extend_near, write_near};
use ados_model::Full;
use ados_name::Date3;

/// Writes bytes into a file from byte `pos`, at most its size. The file grows if they reach past its end. No bytes
/// change nothing.
///
/// `Full` (DOS error 221) means that too few blocks are free; then the image is unchanged. No block below `from` may
/// be free. The result is such a bound for the next search.
pub fn write(
    image: &mut Image,
    file: u32,
    near: Place,
    pos: u64,
    bytes: &[u8],
    moment: Date3,
    from: u32,
) -> Result<u32, Full>
    requires tree { HasTree image.old }
    requires file { HasFileKey image.old file }
    requires near { IsPlace image.old file near }
    requires start { (t : Tree) → Stands image.old t → pos ≤ size_of t file }
    requires below { NoneFreeBelow image.old from }
    ensures done { MatchResult result (λ _. Writes moment file pos bytes.now image.old image.new) (λ _. StaysUnwritten file pos bytes.now image.old image.new) }
    ensures below { IfOk result (λ bound. NoneFreeBelow image.new bound) }
    ensures keeps { KeepsRest image.old image.new }
{
    if bytes.is_empty() {
        return Ok(from);
    }
    let size = (size_of(image, file) as u64).max(pos + bytes.len() as u64);
    if !has_room(image, file, size, from) {
        return Err(Full);
    }
    stamp(image, file, moment);
    prove!(image.blocks() >= 16);
    let bound = write_near(image, file, near, pos, bytes, from);
    prove!(image.blocks() >= 16);
    Ok(bound)
}

/// Cuts a file to `size` bytes. The bytes of freed blocks are unchanged, and so are all other blocks but the bitmap and
/// the disk date.
pub fn cut(image: &mut Image, file: u32, size: u32, moment: Date3)
    requires tree { HasTree image.old }
    requires file { HasFileKey image.old file }
    requires shorter { (t : Tree) → Stands image.old t → size ≤ size_of t file }
    ensures stands { (t : Tree) → Stands image.old t → Stands image.new (shortened moment file size t) }
    ensures keeps { KeepsRest image.old image.new }
    ensures none { TakesNone image.old image.new }
    ensures header { KeepsHeader file image.old image.new }
    ensures others { KeepsBeside file image.old image.new }
{
    stamp(image, file, moment);
    prove!(image.blocks() >= 16);
    ados_data::cut(image, file, size);
    prove!(image.blocks() >= 16);
}

/// Appends zeros to a file, up to `size` bytes.
///
/// `Full` (DOS error 221) means that too few blocks are free; then the image is unchanged. No block below `from` may
/// be free. The result is such a bound for the next search.
pub fn grow(
    image: &mut Image,
    file: u32,
    near: Place,
    size: u32,
    moment: Date3,
    from: u32,
) -> Result<u32, Full>
    requires tree { HasTree image.old }
    requires file { HasFileKey image.old file }
    requires near { IsPlace image.old file near }
    requires longer { (t : Tree) → Stands image.old t → size_of t file < size }
    requires below { NoneFreeBelow image.old from }
    ensures done { MatchResult result (λ _. Grows moment file size image.old image.new) (λ _. StaysUngrown file size image.old image.new) }
    ensures below { IfOk result (λ bound. NoneFreeBelow image.new bound) }
    ensures keeps { KeepsRest image.old image.new }
{
    if !has_room(image, file, size as u64, from) {
        return Err(Full);
    }
    stamp(image, file, moment);
    let bound = extend_near(image, file, near, size, from);
    prove!(image.blocks() >= 16);
    Ok(bound)
}
