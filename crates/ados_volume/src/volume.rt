//! The volume: an image that represents a tree.

ghost use Rattle.std.specs.Prelude.{◌≡◌, []};
ghost use Rattle.ados_model.specs.Tree.{Tree};
ghost use Rattle.ados_model.specs.Stands.{Stands};

use crate::cache::NameCache;
use crate::listed_cache::ListedCache;
use crate::places::PlaceCache;
use adf_block::Image;
use adf_block::layout::BOOT_BLOCKS;
use std::marker::Model;

/// A volume. Its image represents exactly one tree, by `one_tree` of `ados_model`.
///
/// Contracts see the image and whether its bitmap was rebuilt, and are about that tree. They do not see the caches or
/// the start of the search for free blocks.
#[derive(Drop)]
pub struct Volume {
    pub(crate) image: Image,
    was_validated: bool,
    pub(crate) names: NameCache,
    pub(crate) places: PlaceCache,
    pub(crate) listed: ListedCache,
    /// No block below this one is free.
    pub(crate) free_from: u32,
}

impl Model for Volume {
    ghost use Rattle.ados_volume.specs.steps.SoundVolume.{IsSoundVolume};
    ghost use Rattle.ados_volume.specs.Shown.{Shown};

    ghost Value = { Shown };

    ghost view = { λ volume. record { image = volume.image; was_validated = volume.was_validated } };

    ghost invariant = { λ volume. IsSoundVolume volume.image volume.names.pairs volume.names.whole
        volume.listed.entries.entries volume.places.places.entries volume.free_from };
}

impl Volume {
    /// The volume of an image that represents a tree, with empty caches.
    pub(crate) fn standing(
        image: Image,
        was_validated: bool,
        names: NameCache,
        places: PlaceCache,
        listed: ListedCache,
    ) -> Volume
        requires stands { (t : Tree) × Stands image t }
        requires no_names { names.pairs.entries ≡ [] }
        requires no_slots { names.whole.keys ≡ [] }
        requires no_places { places.places.entries ≡ [] }
        requires no_entries { listed.entries.entries ≡ [] }
        ensures image { result.image ≡ image }
        ensures validated { result.was_validated ≡ was_validated }
    {
        Volume {
            image,
            was_validated,
            names,
            places,
            listed,
            free_from: BOOT_BLOCKS,
        }
    }

    /// The image.
    pub fn image(&self) -> &Image
        ensures same { result.now ≡ self.now.image }
        ensures stands { (t : Tree) × Stands self.now.image t }
    {
        &self.image
    }

    /// The image. The volume is consumed.
    pub fn into_image(self) -> Image
        ensures same { result ≡ self.image }
        ensures stands { (t : Tree) × Stands self.image t }
    {
        self.image
    }

    /// Whether `check` found the bitmap invalid and rebuilt it.
    pub fn was_validated(&self) -> bool
        ensures { result ≡ self.now.was_validated }
    {
        self.was_validated
    }
}
