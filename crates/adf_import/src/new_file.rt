//! Files put into a volume: new ones, or in place of existing ones.

ghost use Rattle.std.specs.Prelude.{◌≡◌, ◌<◌, ◌≤◌, ◌&&◌, not, length, IfOk, None, OnOk, MatchResult};
ghost use Rattle.ados_name.specs.Name.{denies_write};
ghost use Rattle.ados_model.specs.Tree.{Tree, free};
ghost use Rattle.ados_model.specs.Parts.{IsUnused};
ghost use Rattle.ados_model.specs.Change.{child_of};
ghost use Rattle.ados_model.specs.Stands.{Stands};
ghost use Rattle.ados_model.specs.Keys.{HasDirectory, HasEntryKey, HasFileKey, HasKey};
ghost use Rattle.ados_change.specs.NewBlocks.{KeepsRest};
ghost use Rattle.ados_model.specs.Objects.{protection_of};
ghost use Rattle.adf_import.specs.Changes.{ChangesTree, cut_back, described, describing, filled, filling};
ghost use Rattle.adf_import.specs.InTurn.{GoesThrough};
ghost use Rattle.adf_import.specs.Put.{KeepsKeys, put, put_refusal, putting};
ghost use Rattle.adf_import.specs.Refusals.{more_blocks, replace_refusal};
ghost use Rattle.adf_import.specs.declared.new_file.NotPut.TheVariants.{NoRoom};

use crate::room::{more_blocks, new_file_blocks};
use ados_model::DosError;
use ados_name::{Comment, Date3, Name, Protect};
use ados_volume::{NodeKind, Volume, free_blocks, is_denied};

/// The contents and metadata of a file: its bytes, all 32 protection bits, its comment and its own date.
#[derive(Clone, Copy)]
pub struct NewFile<'a> {
    pub bytes: &'a [u8],
    pub date: Date3,
    pub protection: Protect,
    pub comment: Comment,
}

/// Why a file was not put into a volume. The volume is unchanged.
#[derive(Clone, Copy)]
pub enum NotPut {
    /// An error other than 221.
    Refused(DosError),
    /// Error 221: the number of free blocks needed, and the number of free blocks.
    NoRoom { needed: u64, free: u32 },
}

/// Puts a file into a directory and returns its key: a new file, or with `force` in place of the existing one. The date of
/// the directory of a new file, and the disk date, become `moment`.
///
/// Errors: 203 if an entry has the name, with `force` those of [`replace_file`]; 221 if the file needs more blocks than are
/// free. It needs no memory. [`place`](ados_volume::place) has the errors of a path that names no place: 204, 205, 210
/// and 212.
pub fn put_file(
    volume: &mut Volume,
    dir: u32,
    name: Name,
    file: &NewFile<'_>,
    force: bool,
    moment: Date3,
) -> Result<u32, NotPut>
    requires { HasDirectory volume.old.image dir }
    ensures put { ChangesTree (put_refusal dir name (length file.now.bytes.now) force) (λ key t. put moment dir name file.now key t) volume.old volume.new result }
    ensures unused { IfOk result (λ key. (t : Tree) → Stands volume.old.image t → child_of t dir name ≡ None → IsUnused t key) }
    ensures goes { IfOk result (λ key. (t : Tree) → Stands volume.old.image t → GoesThrough (putting moment dir name file.now key t) volume.old.image volume.new.image) }
    ensures keys { OnOk result (KeepsKeys volume.old.image volume.new.image) }
    ensures validated { volume.new.was_validated ≡ volume.old.was_validated }
{
    prove!(volume.image().blocks() >= 16);
    if let Some(key) = volume.child(dir, &name) {
        if !force {
            return Err(NotPut::Refused(DosError::ObjectExists));
        }
        return match replace_file(volume, key, file, false, moment) {
            Ok(()) => Ok(key),
            Err(refused) => Err(refused),
        };
    }
    let needed = new_file_blocks(volume, file.bytes.len());
    if let Err(refused) = need_free(volume, needed) {
        return Err(refused);
    }
    let Ok(key) = volume.create(dir, name, NodeKind::File, moment) else {
        unreachable!()
    };
    fill(volume, key, file, moment);
    Ok(key)
}

/// Replaces the bytes, protection bits, comment and date of a file. With `force` a protected one too. The disk date
/// becomes `moment`.
///
/// Errors: 212 for a directory; 222 and 223 if a protection bit denies deletion or writing; 221 if it needs more
/// additional blocks than are free. It needs no memory.
pub fn replace_file(
    volume: &mut Volume,
    key: u32,
    file: &NewFile<'_>,
    force: bool,
    moment: Date3,
) -> Result<(), NotPut>
    requires { HasKey volume.old.image key }
    ensures done { ChangesTree (replace_refusal key (length file.now.bytes.now) force) (λ _ t. filled moment key file.now t) volume.old volume.new result }
    ensures goes { OnOk result (GoesThrough (filling moment key file.now) volume.old.image volume.new.image) }
    ensures validated { volume.new.was_validated ≡ volume.old.was_validated }
{
    if !volume.is_file(key) {
        return Err(NotPut::Refused(DosError::ObjectWrongType));
    }
    if is_denied(volume, key, force) {
        return Err(NotPut::Refused(DosError::DeleteProtected));
    }
    if is_write_denied(volume, key, force) {
        return Err(NotPut::Refused(DosError::WriteProtected));
    }
    let needed = more_blocks(volume, key, file.bytes.len());
    if let Err(refused) = need_free(volume, needed) {
        return Err(refused);
    }
    fill(volume, key, file, moment);
    Ok(())
}

/// Whether a protection bit of a file denies writing, without `force`.
fn is_write_denied(volume: &Volume, key: u32, force: bool) -> bool
    requires { HasKey volume.now.image key }
    ensures { (t : Tree) → Stands volume.now.image t → result ≡ not force && denies_write (protection_of t key) }
{
    let denied = volume.protection(key).denies_write();
    !force && denied
}

/// Checks that at least this many blocks are free.
fn need_free(volume: &Volume, needed: u64) -> Result<(), NotPut>
    ensures { (t : Tree) → Stands volume.now.image t
        → MatchResult result (λ _. needed ≤ free t) (λ refused. (free t < needed) × (refused ≡ NoRoom needed (free t))) }
{
    let free = free_blocks(volume);
    if (free as u64) < needed {
        return Err(NotPut::NoRoom { needed, free });
    }
    Ok(())
}

/// Replaces the bytes, protection bits, comment and date of a file. Enough blocks are free.
fn fill(volume: &mut Volume, key: u32, file: &NewFile<'_>, moment: Date3)
    requires key { HasFileKey volume.old.image key }
    requires room { (t : Tree) → Stands volume.old.image t → more_blocks t key (length file.now.bytes.now) ≤ free t }
    ensures stands { (t : Tree) → Stands volume.old.image t → Stands volume.new.image (filled moment key file.now t) }
    ensures goes { GoesThrough (filling moment key file.now) volume.old.image volume.new.image }
    ensures validated { volume.new.was_validated ≡ volume.old.was_validated }
{
    prove!(volume.image().blocks() >= 16);
    let Ok(()) = volume.write(key, 0, file.bytes, moment) else {
        unreachable!()
    };
    cut_behind(volume, key, file.bytes.len(), moment);
    describe(volume, key, file, moment);
}

/// Cuts a file if it is longer than `size` bytes.
#[tactic(auto, using(ados_change::proofs::Keeping::same_keeps))]
fn cut_behind(volume: &mut Volume, key: u32, size: usize, moment: Date3)
    requires { HasFileKey volume.old.image key }
    ensures stands { (t : Tree) → Stands volume.old.image t → Stands volume.new.image (cut_back moment key size t) }
    ensures keeps { KeepsRest volume.old.image volume.new.image }
    ensures validated { volume.new.was_validated ≡ volume.old.was_validated }
{
    if volume.examine(key).size as usize <= size {
        return;
    }
    volume.cut(key, size as u32, moment);
}

/// Sets the metadata of a file or a directory.
pub(crate) fn describe(volume: &mut Volume, key: u32, file: &NewFile<'_>, moment: Date3)
    requires { HasEntryKey volume.old.image key }
    ensures stands { (t : Tree) → Stands volume.old.image t → Stands volume.new.image (described moment key file.now t) }
    ensures keys { KeepsKeys volume.old.image volume.new.image }
    ensures goes { GoesThrough (describing moment key file.now) volume.old.image volume.new.image }
    ensures validated { volume.new.was_validated ≡ volume.old.was_validated }
{
    prove!(volume.image().blocks() >= 16);
    volume.set_protect(key, file.protection, moment);
    volume.set_comment(key, file.comment, moment);
    volume.set_date(key, file.date, moment);
}
