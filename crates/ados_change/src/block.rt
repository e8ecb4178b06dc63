//! Fields written into the block of one node, with the right checksum.

ghost use Rattle.std.specs.Prelude.{◌<◌};
ghost use Rattle.adf_block.specs.Whole.{IsImage};
ghost use Rattle.adf_block.specs.Image.{block_count, root_key};
ghost use Rattle.adf_block.specs.Frame.{OnlyBlock};
ghost use Rattle.ados_name.specs.Name.{IsName};
ghost use Rattle.ados_change.specs.Kinds.{content_of};
ghost use Rattle.ados_change.specs.steps.Making.{IsHead, IsNewEntry};
ghost use Rattle.ados_change.specs.steps.Writes.{Dated, Titled};

use crate::edit::{put_date, put_text};
use crate::node_kind::NodeKind;
use crate::settled::settle_date;
use adf_block::Image;
use adf_block::beside::CHECKSUM;
use adf_block::layout::{
    DATE, DISK_DATE, HEADER_TYPE, NAME_BYTE, OWN_KEY, PARENT, PRIMARY_TYPE, SECONDARY_TYPE,
};
use ados_name::{Date3, Name};

/// Sets the date of a directory.
pub fn touch(image: &mut Image, dir: u32, moment: Date3)
    requires { dir < block_count image.old }
    ensures dated { Dated dir DATE moment image.old image.new }
    ensures image { IsImage image.new }
{
    settle_date(image, dir, DATE, moment);
}

/// Sets the disk date.
pub fn stamp(image: &mut Image, moment: Date3)
    requires { IsImage image.old }
    ensures dated { Dated (root_key (block_count image.old)) DISK_DATE moment image.old image.new }
    ensures image { IsImage image.new }
{
    prove!(image.blocks() >= 16);
    let root = image.root();
    settle_date(image, root, DISK_DATE, moment);
}

/// Sets the name and the directory of an entry. Bytes of a longer old name after the new one are unchanged (this
/// project's own choice).
pub fn put_title(image: &mut Image, key: u32, dir: u32, name: &Name)
    requires { key < block_count image.old }
    ensures titled { Titled key dir name.now image.old image.new }
    ensures valid { IsName name.now }
    ensures image { IsImage image.new }
{
    put_text(image, key, NAME_BYTE as usize, name.bytes());
    image.set_long(key, PARENT, dir);
    image.settle(key, CHECKSUM);
}

/// Makes a block the block of a new entry. All bytes outside its fields become 0.
pub fn make_entry(image: &mut Image, key: u32, dir: u32, name: &Name, kind: NodeKind, moment: Date3)
    requires { key < block_count image.old }
    ensures entry { IsNewEntry image.new key dir name.now (content_of kind) moment }
    ensures rest { OnlyBlock key image.old image.new }
    ensures image { IsImage image.new }
{
    make_head(image, key, kind, moment);
    put_title(image, key, dir, name);
}

/// Fills a block with zeros, and sets its types, its own number and its date.
fn make_head(image: &mut Image, key: u32, kind: NodeKind, moment: Date3)
    requires { key < block_count image.old }
    ensures head { IsHead image.new key (content_of kind) moment }
    ensures rest { OnlyBlock key image.old image.new }
{
    image.clear(key);
    image.set_long(key, PRIMARY_TYPE, HEADER_TYPE);
    image.set_long(key, OWN_KEY, key);
    image.set_long(key, SECONDARY_TYPE, kind.secondary_type());
    put_date(image, key, DATE, moment);
}
