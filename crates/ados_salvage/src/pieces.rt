//! The bytes of a broken file.
ghost use Rattle.std.specs.Prelude.{◌≡◌, ◌<◌, ℕ, length, All, IfOk};
ghost use Rattle.adf_block.specs.Image.{block_count};
ghost use Rattle.ados_salvage.specs.Saved.{IsPieced};
ghost use Rattle.ados_salvage.specs.steps.Keeping.{IsPutAt};

use crate::giving::{BLOCK, Piece, data_start};
use adf_block::Image;
use std::alloc::{AllocError, Global};

/// The bytes of the broken file at a position: those of the blocks given to it, each at its place, and zeros.
#[tactic(auto, using(crate::proofs::Filled::pieced_none))]
pub(crate) fn pieced(
    alloc: Global,
    image: &Image,
    pieces: &[Piece],
    place: usize,
    count: usize,
) -> Result<Vec<u8>, AllocError>
    requires { All (λ piece. piece.block < block_count image.now) pieces.now }
    ensures { IfOk result (λ bytes. IsPieced image.now pieces.now place count bytes.items) }
{
    let room = BLOCK - data_start(image);
    let mut bytes = vec![in alloc; 0_u8; count]?;
    // The pieces are in the order of the files.
    for at in pieces.partition_point(|piece| piece.place < place)..pieces.len() {
        let piece = pieces[at];
        if piece.place != place {
            break;
        }
        put(image, piece.block, &mut bytes, piece.at as usize * room);
    }
    Ok(bytes)
}

/// Puts the data of a block at a place, as far as there is room.
fn put(image: &Image, block: u32, bytes: &mut Vec<u8>, place: usize)
    requires { block < block_count image.now }
    ensures count { length bytes.new.items ≡ length bytes.old.items }
    ensures put { (k : ℕ) → k < length bytes.old.items → IsPutAt image.now block bytes.old.items bytes.new.items k }
{
    let start = data_start(image);
    let behind = place.saturating_add(BLOCK - start).min(bytes.len());
    for at in place..behind {
        bytes[at] = image.byte(block, (start + (at - place)) as u32);
    }
}
