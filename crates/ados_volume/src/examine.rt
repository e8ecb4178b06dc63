//! The description of a directory or file.

ghost use Rattle.std.specs.Prelude.{◌≡◌, ◌<◌, ◌≤◌, ◌+◌, Some, length};
ghost use Rattle.adf_block.specs.Image.{block_count, byte_at};
ghost use Rattle.adf_block.specs.Whole.{text_at};
ghost use Rattle.adf_block.specs.declared.layout.TheConstants.{BLOCK_BYTES};
ghost use Rattle.ados_model.specs.Tree.{Node, Tree, cost_in};
ghost use Rattle.ados_model.specs.Parts.{size_in};
ghost use Rattle.ados_model.specs.Stands.{Stands};
ghost use Rattle.ados_model.specs.Keys.{HasKey, HasTree};
ghost use Rattle.ados_model.specs.Objects.{entry_type, file_info, protection_of};

use crate::look::is_file_in;
use crate::volume::Volume;
use adf_block::Image;
use adf_block::layout::{COMMENT_BYTE, DATE, FILE_SIZE, NAME_BYTE, PROTECTION};
use ados_data::blocks_of;
use ados_model::FileInfo;
use ados_name::{Comment, Date3, Name, Protect};

impl Volume {
    /// Describes the object of a key.
    pub fn examine(&self, key: u32) -> FileInfo
        requires { HasKey self.now.image key }
        ensures { (t : Tree) (node : Node) → Stands self.now.image t → t.nodes key ≡ Some node → result ≡ file_info t.format key node }
    {
        examine_in(self.image(), key)
    }

    /// The size of a file in bytes, as in `examine`; 0 for a directory.
    pub fn size(&self, key: u32) -> u32
        requires { HasKey self.now.image key }
        ensures { (t : Tree) (node : Node) → Stands self.now.image t → t.nodes key ≡ Some node → result ≡ size_in (Some node.content) }
    {
        size_in(self.image(), key)
    }

    /// The protection bits of an object, as in `examine`; 0 for the root.
    pub fn protection(&self, key: u32) -> Protect
        requires { HasKey self.now.image key }
        ensures { (t : Tree) → Stands self.now.image t → result.0 ≡ protection_of t key }
    {
        protection_in(self.image(), key)
    }
}

/// Describes the object of a key.
fn examine_in(image: &Image, key: u32) -> FileInfo
    requires tree { HasTree image.now }
    requires key { HasKey image.now key }
    ensures { (t : Tree) (node : Node) → Stands image.now t → t.nodes key ≡ Some node → result ≡ file_info t.format key node }
{
    let size = size_in(image, key);
    FileInfo {
        key,
        entry_type: entry_type_in(image, key),
        name: name_in(image, key),
        protection: protection_in(image, key),
        size,
        blocks: cost_in(image, key, size),
        date: date_in(image, key),
        comment: comment_in(image, key),
    }
}

/// 1 for the root, 2 for a directory, -3 for a file.
fn entry_type_in(image: &Image, key: u32) -> i32
    requires tree { HasTree image.now }
    requires key { HasKey image.now key }
    ensures { (t : Tree) (node : Node) → Stands image.now t → t.nodes key ≡ Some node → result ≡ entry_type node.parent node.content }
{
    if key == image.root() {
        1
    } else if is_file_in(image, key) {
        -3
    } else {
        2
    }
}

/// The size of a file in bytes; 0 for a directory.
fn size_in(image: &Image, key: u32) -> u32
    requires tree { HasTree image.now }
    requires key { HasKey image.now key }
    ensures { (t : Tree) (node : Node) → Stands image.now t → t.nodes key ≡ Some node → result ≡ size_in (Some node.content) }
{
    if is_file_in(image, key) {
        image.long(key, FILE_SIZE)
    } else {
        0
    }
}

/// The number of blocks of an object with this size.
fn cost_in(image: &Image, key: u32, size: u32) -> u32
    requires tree { HasTree image.now }
    requires key { HasKey image.now key }
    requires size { (t : Tree) (node : Node) → Stands image.now t → t.nodes key ≡ Some node → size ≡ size_in (Some node.content) }
    ensures { (t : Tree) (node : Node) → Stands image.now t → t.nodes key ≡ Some node → result ≡ cost_in t.format (Some node.content) }
{
    if is_file_in(image, key) {
        1 + blocks_of(image.format(), size as u64) as u32
    } else {
        1
    }
}

/// The protection bits; 0 for the root.
fn protection_in(image: &Image, key: u32) -> Protect
    requires tree { HasTree image.now }
    requires key { HasKey image.now key }
    ensures { (t : Tree) (node : Node) → Stands image.now t → t.nodes key ≡ Some node → result.0 ≡ node.protection }
{
    if key == image.root() {
        Protect(0)
    } else {
        Protect(image.long(key, PROTECTION))
    }
}

/// The date of an object. For the root it is the root's own, not that of the disk.
fn date_in(image: &Image, key: u32) -> Date3
    requires tree { HasTree image.now }
    requires key { HasKey image.now key }
    ensures { (t : Tree) (node : Node) → Stands image.now t → t.nodes key ≡ Some node → result ≡ node.date }
{
    Date3 {
        days: image.long(key, DATE),
        minutes: image.long(key, DATE + 1),
        ticks: image.long(key, DATE + 2),
    }
}

/// The name.
pub fn name_in(image: &Image, key: u32) -> Name
    requires tree { HasTree image.now }
    requires key { HasKey image.now key }
    ensures { (t : Tree) (node : Node) → Stands image.now t → t.nodes key ≡ Some node → result ≡ node.name }
{
    match Name::new(text_in(image, key, NAME_BYTE)) {
        Ok(name) => name,
        Err(_) => unreachable!(),
    }
}

/// The comment; empty for the root.
fn comment_in(image: &Image, key: u32) -> Comment
    requires tree { HasTree image.now }
    requires key { HasKey image.now key }
    ensures { (t : Tree) (node : Node) → Stands image.now t → t.nodes key ≡ Some node → result ≡ node.comment }
{
    if key == image.root() {
        comment_of(&[])
    } else {
        comment_of(text_in(image, key, COMMENT_BYTE))
    }
}

/// These bytes as a comment.
fn comment_of(text: &[u8]) -> Comment
    requires { length text.now ≤ 79 }
    ensures { result ≡ text.now }
{
    match Comment::new(text) {
        Ok(comment) => comment,
        Err(_) => unreachable!(),
    }
}

/// The text of a block after its length byte `at`.
fn text_in(image: &Image, key: u32, at: u32) -> &[u8]
    requires inside { key < block_count image.now }
    requires place { at < BLOCK_BYTES }
    requires room { at + 1 + byte_at image.now key at ≤ BLOCK_BYTES }
    ensures { result.now ≡ text_at image.now key at }
{
    let start = at as usize + 1;
    let length = image.byte(key, at) as usize;
    &image.block(key)[start..start + length]
}
