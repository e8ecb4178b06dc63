//! The bytes of an image, and the label of a volume.

ghost use Rattle.std.specs.Prelude.{◌≡◌, MatchResult};
ghost use Rattle.adf_block.specs.Whole.{IsImage};
ghost use Rattle.adf_c.specs.Images.{IsLabel, RefusesImage, RefusesLabel};

use crate::values::refusal::Refusal;
use adf_block::Image;
use ados_name::Name;
use ados_salvage::name_of;
use std::alloc::Global;

/// The image with a copy of these bytes.
pub fn image_of(alloc: Global, bytes: &[u8]) -> Result<Image, Refusal>
    ensures { MatchResult result (λ image. (image ≡ bytes.now) × IsImage image) (RefusesImage bytes.now) }
{
    let Ok(copy) = Vec::from_slice(alloc, bytes) else {
        return Err(Refusal::NoMemory);
    };
    match Image::from_bytes(copy) {
        Ok(image) => Ok(image),
        Err(refused) => {
            drop(refused);
            Err(Refusal::NotAnImage)
        }
    }
}

/// The label of a volume: the name in the root block of its image, whatever else is wrong there.
pub fn label_of(alloc: Global, bytes: &[u8]) -> Result<Name, Refusal>
    ensures { MatchResult result (IsLabel bytes.now) (RefusesLabel bytes.now) }
{
    let image = match image_of(alloc, bytes) {
        Ok(image) => image,
        Err(refusal) => return Err(refusal),
    };
    prove!(image.blocks() >= 16);
    match name_of(&image, image.root()) {
        Some(name) => Ok(name),
        None => Err(Refusal::WrongArgument),
    }
}
