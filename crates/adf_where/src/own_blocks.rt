//! The blocks of a file or directory.
ghost use Rattle.std.specs.Prelude.{◌≡◌, IfOk};
ghost use Rattle.ados_model.specs.Stands.{Stands};
ghost use Rattle.ados_model.specs.Tree.{Tree};
ghost use Rattle.adf_where.specs.Own.{IsWhereOf, belongs, own_from, own_text};

use crate::own_object::own_object;
use adf_text::ranges_text;
use ados_volume::{Owner, Volume, owners};
use std::alloc::{AllocError, Global};

/// All blocks of a file or directory: ranges on lines of their own, or with `json` an object on a line of its own.
pub fn where_path_text(
    alloc: Global,
    volume: &Volume,
    key: u32,
    json: bool,
) -> Result<Vec<u8>, AllocError>
    ensures { IfOk result (λ text. (t : Tree) → Stands volume.now.image t → IsWhereOf json volume.now.image t key text.items) }
{
    let owners = owners(alloc, volume)?;
    let blocks = own_blocks(alloc, &owners, key as usize)?;
    own_text(alloc, &blocks, json)
}

/// These blocks in one of the forms.
fn own_text(alloc: Global, blocks: &[usize], json: bool) -> Result<Vec<u8>, AllocError>
    ensures { IfOk result (λ text. text.items ≡ own_text json blocks.now) }
{
    if json {
        own_object(alloc, blocks)
    } else {
        ranges_text(alloc, blocks)
    }
}

/// The blocks of a file or directory, in order.
fn own_blocks(alloc: Global, owners: &[Owner], key: usize) -> Result<Vec<usize>, AllocError>
    ensures { IfOk result (λ blocks. blocks.items ≡ own_from key 0 owners.now) }
{
    let mut blocks = Vec::new(alloc);
    for (block, owner) in owners.iter().enumerate() {
        if belongs(key, block, *owner) {
            blocks.push(block)?;
        }
    }
    Ok(blocks)
}

/// Whether a block with this owner belongs to a file or directory.
fn belongs(key: usize, block: usize, owner: Owner) -> bool
    ensures { result ≡ belongs key block owner }
{
    match owner {
        Owner::Root | Owner::Directory | Owner::File => block == key,
        Owner::Data(file, _) | Owner::Extension(file, _) => file as usize == key,
        Owner::Boot | Owner::Page(_) | Owner::Lost | Owner::Free => false,
    }
}
