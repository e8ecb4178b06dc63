//! Links of hash chains.

ghost use Rattle.std.specs.Prelude.{◌≡◌, ◌≢◌, ◌<◌, ◌+◌, ℕ, List};
ghost use Rattle.adf_block.specs.declared.layout.TheConstants.{TABLE_LONGS};
ghost use Rattle.adf_block.specs.Image.{block_count, long};
ghost use Rattle.adf_block.specs.Whole.{IsImage};
ghost use Rattle.ados_chain.specs.Chains.{HasChains, LawfulChains};
ghost use Rattle.ados_chain.specs.Relinks.{Relinks};
ghost use Rattle.ados_chain.specs.Links.{IsNear, LeadsTo, IsLink};

use adf_block::Image;
use adf_block::beside::CHECKSUM;
use adf_block::layout::{FIRST_SLOT, NEXT_IN_CHAIN};

/// A long that holds the next key of a hash chain, or 0 at its end. It is in the hash table of a directory, or it is
/// an entry's next-in-chain long.
#[derive(Clone, Copy)]
pub struct Link {
    pub block: u32,
    pub long: u32,
}

impl Link {
    /// The link that starts the hash chain of a slot, 0 to 71.
    pub fn first(dir: u32, slot: u32) -> Link
        requires { slot < TABLE_LONGS }
        ensures block { result.block ≡ dir }
        ensures long { result.long ≡ FIRST_SLOT + slot }
    {
        Link {
            block: dir,
            long: FIRST_SLOT + slot,
        }
    }

    /// The link after an entry; for the directory, the one that starts the hash chain of a slot, 0 to 71.
    pub fn after(dir: u32, slot: u32, near: u32) -> Link
        requires { slot < TABLE_LONGS }
        ensures start { near ≡ dir → (result.block ≡ dir) × (result.long ≡ FIRST_SLOT + slot) }
        ensures later { near ≢ dir → (result.block ≡ near) × (result.long ≡ NEXT_IN_CHAIN) }
    {
        if near == dir {
            return Link::first(dir, slot);
        }
        Link::behind(near)
    }

    /// The link after an entry.
    pub fn behind(key: u32) -> Link
        ensures block { result.block ≡ key }
        ensures long { result.long ≡ NEXT_IN_CHAIN }
    {
        Link {
            block: key,
            long: NEXT_IN_CHAIN,
        }
    }
}

/// The link to an entry in the hash chain of a slot. If the chain has no such entry, it is the link that ends the
/// chain.
pub fn link_to(image: &Image, dir: u32, slot: u32, entry: u32) -> Link
    requires chains { HasChains image.now dir }
    requires slot { slot < TABLE_LONGS }
    ensures { (chains : ℕ → List ℕ) → LawfulChains image.now dir chains → LeadsTo dir slot (chains slot) entry result.block result.long }
{
    let mut link = Link::first(dir, slot);
    let mut key = image.long(link.block, link.long);
    while key != 0 && key != entry {
        link = Link::behind(key);
        key = image.long(key, NEXT_IN_CHAIN);
    }
    link
}

/// The link that ends the hash chain of a slot. The search starts at the directory, or at an entry of the chain.
pub fn end_of(image: &Image, dir: u32, slot: u32, near: u32) -> Link
    requires chains { HasChains image.now dir }
    requires slot { slot < TABLE_LONGS }
    requires near { (chains : ℕ → List ℕ) → LawfulChains image.now dir chains → IsNear dir (chains slot) near }
    ensures { (chains : ℕ → List ℕ) → LawfulChains image.now dir chains → LeadsTo dir slot (chains slot) 0 result.block result.long }
{
    let mut link = Link::after(dir, slot, near);
    let mut key = image.long(link.block, link.long);
    while key != 0 {
        link = Link::behind(key);
        key = image.long(key, NEXT_IN_CHAIN);
    }
    link
}

/// Sets the link to `next` and the next-in-chain long of `key` to 0. Then it sets the checksums of both blocks.
pub fn relink(image: &mut Image, link: Link, next: u32, key: u32)
    requires block { link.block < block_count image.old }
    requires long { IsLink link.long }
    requires key { key < block_count image.old }
    requires apart { link.block ≢ key }
    ensures relinks { Relinks link.block link.long next key image.old image.new }
    ensures image { IsImage image.new }
{
    image.set_long(link.block, link.long, next);
    image.settle(link.block, CHECKSUM);
    image.set_long(key, NEXT_IN_CHAIN, 0);
    image.settle(key, CHECKSUM);
}
