//! The FFS extension blocks with right checksums, by the headers that they name, and the chains that they make.
ghost use Rattle.std.specs.Prelude.{◌≡◌, ◌<◌, ◌↔◌, IsTrue, length, OnOk};
ghost use Rattle.adf_block.specs.Image.{block_count};
ghost use Rattle.ados_salvage.specs.Loose.{IsLooseExtension};

use crate::known::looks_like_extension;
use adf_block::layout::{BOOT_BLOCKS, NEXT_EXTENSION, PARENT};
use adf_block::{Format, Image};
use std::alloc::{AllocError, Global};

/// An extension block with a right checksum, by the header that it names. They are in the order of these fields.
#[derive(Clone, Copy, PartialEq, Eq, PartialOrd, Ord)]
pub(crate) struct Naming {
    pub(crate) header: u32,
    block: u32,
}

/// An extension block, where it stands among those of its file. They are in the order of these fields.
#[derive(Clone, Copy, PartialEq, Eq, PartialOrd, Ord)]
pub(crate) struct Link {
    /// Whether its chain is the end of the file: the last block of the chain names no other.
    pub(crate) ends: bool,
    /// The first block of its chain.
    first: u32,
    /// Its position in its chain.
    pub(crate) nth: u32,
    /// The number of blocks in its chain.
    pub(crate) length: u32,
    pub(crate) block: u32,
}

/// All extension blocks with right checksums of an FFS image. An OFS image has none.
#[derive(Drop)]
pub(crate) struct Links {
    /// In order.
    pub(crate) blocks: Vec<Naming>,
    /// For each block of the image, whether one of them names it as the next one of its file.
    named: Vec<bool>,
}

impl Links {
    /// Those of an image.
    pub(crate) fn new(alloc: Global, image: &Image) -> Result<Links, AllocError> {
        let mut blocks = Vec::new(alloc);
        let mut named = vec![in alloc; false; image.blocks() as usize]?;
        for block in BOOT_BLOCKS..image.blocks() {
            let header = image.long(block, PARENT);
            if is_loose_extension(image, header, block) {
                blocks.push(Naming { header, block })?;
                if let Some(next) = next_of(image, block) {
                    mark(&mut named, next);
                }
            }
        }
        blocks.sort_unstable();
        Ok(Links { blocks, named })
    }

    /// Those that name a header and were not passed before, by chains. They are passed then.
    ///
    /// A chain starts with one that no other names. Those that lead round start with the lowest.
    pub(crate) fn chains_of(
        &self,
        alloc: Global,
        image: &Image,
        header: u32,
        passed: &mut Vec<bool>,
    ) -> Result<Vec<Link>, AllocError>
        ensures { OnOk result (length passed.new.items ≡ length passed.old.items) }
    {
        let mut links = Vec::new(alloc);
        self.add_chains(image, header, false, passed, &mut links)?;
        self.add_chains(image, header, true, passed, &mut links)?;
        links.sort_unstable();
        Ok(links)
    }

    /// Adds the chains that start with those that another one names, or with those that no other does.
    fn add_chains(
        &self,
        image: &Image,
        header: u32,
        named: bool,
        passed: &mut Vec<bool>,
        links: &mut Vec<Link>,
    ) -> Result<(), AllocError>
        ensures { OnOk result (length passed.new.items ≡ length passed.old.items) }
    {
        for it in self.of(header) {
            if is_marked(&self.named, it.block) == named {
                add_chain(image, it.block, passed, links)?;
            }
        }
        Ok(())
    }

    /// Those that name a header, in order.
    fn of(&self, header: u32) -> &[Naming] {
        let first = self.blocks.partition_point(|it| it.header < header);
        let end = self.blocks.partition_point(|it| it.header <= header);
        if first >= end {
            return &[];
        }
        &self.blocks[first..end]
    }
}

/// Adds a chain of extension blocks, up to one that was passed before.
fn add_chain(
    image: &Image,
    first: u32,
    passed: &mut Vec<bool>,
    links: &mut Vec<Link>,
) -> Result<(), AllocError>
    ensures { OnOk result (length passed.new.items ≡ length passed.old.items) }
{
    let start = links.len();
    let mut block = first;
    let mut ends = false;
    for nth in 0..image.blocks() {
        if block >= image.blocks() || !mark(passed, block) {
            break;
        }
        links.push(Link {
            ends: false,
            first,
            nth,
            length: 0,
            block,
        })?;
        ends = image.long(block, NEXT_EXTENSION) == 0;
        match next_of(image, block) {
            Some(next) => block = next,
            None => break,
        }
    }
    end_chain(&mut links.as_mut_slice()[start..], ends);
    Ok(())
}

/// Notes of the blocks of a chain how many they are, and whether the chain is the end of its file.
fn end_chain(links: &mut [Link], ends: bool) {
    let length = u32::try_from(links.len()).unwrap_or(u32::MAX);
    for link in links {
        link.ends = ends;
        link.length = length;
    }
}

/// The next extension block of a file, if it is one with a right checksum.
fn next_of(image: &Image, block: u32) -> Option<u32>
    requires { block < block_count image.now }
{
    let next = image.long(block, NEXT_EXTENSION);
    if is_loose_extension(image, image.long(block, PARENT), next) {
        return Some(next);
    }
    None
}

/// Marks a block. The result is false if it was marked before.
fn mark(marks: &mut Vec<bool>, block: u32) -> bool
    ensures { length marks.new.items ≡ length marks.old.items }
{
    let at = block as usize;
    if at >= marks.len() || marks[at] {
        return false;
    }
    marks[at] = true;
    true
}

/// Whether a block is marked.
fn is_marked(marks: &Vec<bool>, block: u32) -> bool {
    (block as usize) < marks.len() && marks[block as usize]
}

/// Whether a block is an FFS extension block with a right checksum that names this header.
pub(crate) fn is_loose_extension(image: &Image, header: u32, block: u32) -> bool
    ensures { IsTrue result ↔ IsLooseExtension image.now header block }
{
    image.format() == Format::Ffs
        && block >= BOOT_BLOCKS
        && block < image.blocks()
        && looks_like_extension(image, header, block)
        && image.sum(block) == 0
}
