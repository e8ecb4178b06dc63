//! Blocks that could not be read.
ghost use Rattle.std.specs.Prelude.{◌≡◌};
ghost use Rattle.adf_where.specs.BlockMap.{shown_letter};
ghost use Rattle.adf_where.specs.Unread.{is_unread, unread_of};

use crate::block_mark::BlockMark;

/// Whether a block could not be read, by the marks of all blocks. A block without a mark was read.
pub(crate) fn is_unread(unread: &[bool], block: usize) -> bool
    ensures { result ≡ is_unread unread.now block }
{
    match unread.get(block) {
        Some(mark) => *mark,
        None => false,
    }
}

/// Whether a block could not be read, if there are marks.
pub(crate) fn unread_of(unread: &[bool], block: usize) -> Option<bool>
    ensures { result ≡ unread_of unread.now block }
{
    if unread.is_empty() {
        None
    } else {
        Some(is_unread(unread, block))
    }
}

/// The letter of a block that is this: another one if it could not be read.
pub(crate) fn shown_letter(unread: &[bool], block: usize, mark: BlockMark) -> u8
    ensures { result ≡ shown_letter unread.now block mark }
{
    if is_unread(unread, block) {
        return BlockMark::Unread.letter();
    }
    mark.letter()
}
