//! The longs of a block that name other blocks.
ghost use Rattle.std.specs.Prelude.{◌≡◌, ◌<◌, ◌+◌, ◌-◌, ◌≤◌, ◌↔◌, ℕ, List, IsTrue, Some, false};
ghost use Rattle.adf_block.specs.Image.{block_count};
ghost use Rattle.adf_block.specs.declared.layout.TheConstants.{BLOCK_LONGS};
ghost use Rattle.ados_model.specs.declared.role.Role.{Role};
ghost use Rattle.ados_model.specs.declared.role.Role.TheVariants.{Root, Entry, Extension};
ghost use Rattle.ados_model.specs.Faults.{IsPlace, IsPointer};
ghost use Rattle.ados_check.specs.PlacesTold.{TellsAll, TellsOf};

use crate::source::Source;
use adf_block::layout::{
    DIRECTORY_TYPE, FILE_TYPE, FIRST_PAGE, FIRST_POINTER, FIRST_SLOT, NEXT_EXTENSION,
    NEXT_IN_CHAIN, POINTER_COUNT, SECONDARY_TYPE, TABLE_LONGS,
};
use adf_block::page_count;
use ados_model::Role;

/// Whether a block in this role can name others. Bitmap blocks and data blocks cannot.
pub fn has_places(role: Role) -> bool
    ensures { result ≡ false → (image : List ℕ) → (block i : ℕ) → (next : Role) → ¬ IsPlace image block role i next }
{
    !matches!(role, Role::Page | Role::Data(_))
}

/// The long after the table of a block.
pub(crate) const TABLE_END: u32 = FIRST_POINTER + 1;

/// The first long of a block's table that may name another block. A file's pointers are at the end of its table.
pub(crate) fn table_from(source: &Source<'_>, block: u32, role: Role) -> u32
    requires inside { block < block_count source.now.bytes }
    requires told { TellsOf source.now block role }
    ensures from { FIRST_SLOT ≤ result }
    ensures within { result ≤ FIRST_SLOT + TABLE_LONGS }
    ensures none { (i : ℕ) → i < result → (next : Role) → ¬ IsPlace source.now.bytes block role i next }
{
    let has_pointers = match role {
        Role::Entry(_, _) => source.long(block, SECONDARY_TYPE) == FILE_TYPE,
        Role::Extension(_) => true,
        Role::Root | Role::Page | Role::Data(_) => false,
    };
    if has_pointers {
        TABLE_END - source.long(block, POINTER_COUNT).min(TABLE_LONGS)
    } else {
        FIRST_SLOT
    }
}

/// The first long after a block's table that may name another block.
pub(crate) fn fields_from(role: Role) -> u32
    ensures from { FIRST_SLOT + TABLE_LONGS ≤ result }
    ensures within { result < SECONDARY_TYPE }
    ensures none { (image : List ℕ) → (block i : ℕ) → FIRST_SLOT + TABLE_LONGS ≤ i → i < result → (next : Role) → ¬ IsPlace image block role i next }
{
    match role {
        Role::Root => FIRST_PAGE,
        _ => NEXT_IN_CHAIN,
    }
}

/// The role of the block that long `i` names, or `None` if the long names no block.
pub fn place_role(source: &Source<'_>, block: u32, role: Role, i: u32) -> Option<Role>
    requires inside { block < block_count source.now.bytes }
    requires long { i < BLOCK_LONGS }
    requires told { TellsOf source.now block role }
    ensures { (next : Role) → (result ≡ Some next) ↔ IsPlace source.now.bytes block role i next }
{
    match role {
        Role::Root => root_place(source, block, i),
        Role::Entry(dir, slot) => entry_place(source, block, dir, slot, i),
        Role::Extension(file) => extension_place(source, block, file, i),
        Role::Page | Role::Data(_) => None,
    }
}

/// In a root: the pointers to bitmap blocks, and the slots of the hash table.
fn root_place(source: &Source<'_>, block: u32, i: u32) -> Option<Role>
    requires inside { block < block_count source.now.bytes }
    requires long { i < BLOCK_LONGS }
    requires told { TellsAll source.now block }
    ensures { (next : Role) → (result ≡ Some next) ↔ IsPlace source.now.bytes block Root i next }
{
    let pages = page_count(source.blocks());
    if FIRST_PAGE <= i && i - FIRST_PAGE < pages {
        return Some(Role::Page);
    }
    if is_slot(i) && source.long(block, i) != 0 {
        return Some(Role::Entry(block, i - FIRST_SLOT));
    }
    None
}

/// In an entry: the next entry of its hash chain; the slots of a directory; the data pointers and the extension block
/// of a file.
fn entry_place(source: &Source<'_>, block: u32, dir: u32, slot: u32, i: u32) -> Option<Role>
    requires inside { block < block_count source.now.bytes }
    requires long { i < BLOCK_LONGS }
    requires told { TellsAll source.now block }
    ensures { (next : Role) → (result ≡ Some next) ↔ IsPlace source.now.bytes block (Entry dir slot) i next }
{
    let kind = source.long(block, SECONDARY_TYPE);
    let is_named = source.long(block, i) != 0;
    if i == NEXT_IN_CHAIN && is_named {
        return Some(Role::Entry(dir, slot));
    }
    if kind == DIRECTORY_TYPE && is_slot(i) && is_named {
        return Some(Role::Entry(block, i - FIRST_SLOT));
    }
    if kind == FILE_TYPE && is_pointer(source, block, i) {
        return Some(Role::Data(block));
    }
    if kind == FILE_TYPE && i == NEXT_EXTENSION && is_named {
        return Some(Role::Extension(block));
    }
    None
}

/// In an extension block: the data pointers and the next extension block.
fn extension_place(source: &Source<'_>, block: u32, file: u32, i: u32) -> Option<Role>
    requires inside { block < block_count source.now.bytes }
    requires long { i < BLOCK_LONGS }
    requires told { TellsAll source.now block }
    ensures { (next : Role) → (result ≡ Some next) ↔ IsPlace source.now.bytes block (Extension file) i next }
{
    if is_pointer(source, block, i) {
        return Some(Role::Data(file));
    }
    if i == NEXT_EXTENSION && source.long(block, i) != 0 {
        return Some(Role::Extension(file));
    }
    None
}

/// Whether long `i` is one of the 72 slots of a hash table.
fn is_slot(i: u32) -> bool
    ensures { IsTrue result ↔ ((FIRST_SLOT ≤ i) × (i < FIRST_SLOT + TABLE_LONGS)) }
{
    FIRST_SLOT <= i && i <= FIRST_POINTER
}

/// Whether long `i` is a data pointer in use. A count of more than 72 means that none is.
fn is_pointer(source: &Source<'_>, block: u32, i: u32) -> bool
    requires inside { block < block_count source.now.bytes }
    requires told { TellsAll source.now block }
    ensures { IsTrue result ↔ ((i ≤ FIRST_POINTER) × IsPointer source.now.bytes block (FIRST_POINTER - i)) }
{
    let count = source.long(block, POINTER_COUNT);
    i <= FIRST_POINTER && FIRST_POINTER - i < count && count <= TABLE_LONGS
}
