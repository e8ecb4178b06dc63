//! An entry's block: its name, and the slot of that name.

ghost use Rattle.std.specs.Prelude.{◌≡◌, ◌<◌, ◌↔◌, IsTrue, MatchOption};
ghost use Rattle.adf_block.specs.Image.{block_count};
ghost use Rattle.ados_name.specs.Name.{IsName, Same};
ghost use Rattle.ados_chain.specs.Chains.{name_at, slot_at};

use adf_block::Image;
use adf_block::layout::NAME_BYTE;
use ados_name::Name;

/// The name in block `key`, or `None` if it is not a valid name.
pub fn name_of(image: &Image, key: u32) -> Option<Name>
    requires { key < block_count image.now }
    ensures { MatchOption result (¬ IsName (name_at image.now key)) (λ name. (name ≡ name_at image.now key) × IsName (name_at image.now key)) }
{
    let block = image.block(key);
    let at = NAME_BYTE as usize;
    let length = block[at] as usize;
    if length > Name::MAX_LEN {
        return None;
    }
    Name::new(&block[at + 1..at + 1 + length]).ok()
}

/// The hash slot, 0 to 71, of the valid name in block `key`.
pub fn slot_of(image: &Image, key: u32) -> u32
    requires inside { key < block_count image.now }
    requires name { IsName (name_at image.now key) }
    ensures { result ≡ slot_at image.now key }
{
    match name_of(image, key) {
        Some(name) => name.slot(),
        None => unreachable!(),
    }
}

/// Whether the valid name in block `key` is the same as this one, with a to z in upper case.
pub fn has_name(image: &Image, key: u32, name: &Name) -> bool
    requires inside { key < block_count image.now }
    requires name { IsName (name_at image.now key) }
    ensures { IsTrue result ↔ Same (name_at image.now key) name.now }
{
    match name_of(image, key) {
        Some(own) => own.same(name),
        None => false,
    }
}
