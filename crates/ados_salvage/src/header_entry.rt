//! The entry of a header.
ghost use Rattle.std.specs.Prelude.{◌≡◌, ◌<◌, ◌≤◌, ℕ, Bool, List, length};
ghost use Rattle.adf_block.specs.Image.{block_count, byte_at};
ghost use Rattle.adf_block.specs.Whole.{text_at};
ghost use Rattle.ados_model.specs.Stands.{date_at};
ghost use Rattle.ados_salvage.specs.Doubtful.{IsHeader, LooksLikeHeader};
ghost use Rattle.ados_salvage.specs.Salvaged.{HasState, IsSalvaged};

use crate::known::name_of;
use crate::names::Standing;
use crate::salvaged::{Salvaged, State};
use adf_block::Image;
use adf_block::layout::{COMMENT_BYTE, DATE, PROTECTION};
use ados_name::{Comment, Date3, Name, Protect};

/// The entry of a header, with this state.
pub(crate) fn entry_of(
    image: &Image,
    block: u32,
    standing: Standing,
    endings: u32,
    state: State,
) -> Salvaged
    requires { LooksLikeHeader image.now block }
    ensures told { (out : List ℕ) (holes : List Bool) (fillers : Bool) → IsHeader out image.now block → HasState out holes fillers image.now block state → IsSalvaged out holes fillers image.now result }
    ensures header { result.header ≡ block }
    ensures state { result.state ≡ state }
    ensures found { result.found ≡ standing.found }
{
    let Some(name) = name_of(image, block) else {
        unreachable!()
    };
    Salvaged {
        header: block,
        above: standing.above,
        found: standing.found,
        name,
        endings,
        protection: Protect(image.long(block, PROTECTION)),
        date: date_of(image, block),
        comment: comment_of(image, block),
        state,
    }
}

/// The date of a header.
fn date_of(image: &Image, block: u32) -> Date3
    requires { block < block_count image.now }
    ensures { result ≡ date_at image.now block DATE }
{
    Date3 {
        days: image.long(block, DATE),
        minutes: image.long(block, DATE + 1),
        ticks: image.long(block, DATE + 2),
    }
}

/// The comment in a header, or none if it is too long for one.
fn comment_of(image: &Image, block: u32) -> Comment
    requires inside { block < block_count image.now }
    ensures { byte_at image.now block COMMENT_BYTE ≤ 79 → result ≡ text_at image.now block COMMENT_BYTE }
{
    if usize::from(image.byte(block, COMMENT_BYTE)) > Comment::MAX_LEN {
        return as_comment(b"");
    }
    as_comment(comment_text(image, block))
}

/// The bytes of the comment in a header.
fn comment_text(image: &Image, block: u32) -> &[u8]
    requires inside { block < block_count image.now }
    requires short { byte_at image.now block COMMENT_BYTE ≤ 79 }
    ensures text { result.now ≡ text_at image.now block COMMENT_BYTE }
    ensures short { length result.now ≤ 79 }
{
    let start = COMMENT_BYTE as usize + 1;
    let length = image.byte(block, COMMENT_BYTE) as usize;
    &image.block(block)[start..start + length]
}

/// These bytes as a comment.
fn as_comment(text: &[u8]) -> Comment
    requires { length text.now ≤ 79 }
    ensures { result ≡ text.now }
{
    match Comment::new(text) {
        Ok(comment) => comment,
        Err(_) => unreachable!(),
    }
}

/// The entry of a block that is no header, under this name.
pub(crate) fn told_by_name(
    block: u32,
    standing: Standing,
    endings: u32,
    name: Name,
    state: State,
) -> Salvaged
    ensures header { result.header ≡ block }
    ensures name { result.name ≡ name }
    ensures state { result.state ≡ state }
{
    Salvaged {
        header: block,
        above: standing.above,
        found: standing.found,
        name,
        endings,
        protection: Protect(0),
        date: Date3 {
            days: 0,
            minutes: 0,
            ticks: 0,
        },
        comment: as_comment(b""),
        state,
    }
}
