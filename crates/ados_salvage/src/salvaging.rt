//! Everything in an image that can be trusted.
ghost use Rattle.std.specs.Prelude.{◌≡◌, ℕ, List, IfOk};
ghost use Rattle.ados_model.specs.Stands.{Stands};
ghost use Rattle.ados_model.specs.Tree.{Tree};
ghost use Rattle.ados_salvage.specs.Holes.{SalvagesBeside};
ghost use Rattle.ados_salvage.specs.Kind.{IsReadAs};
ghost use Rattle.ados_salvage.specs.Salvaged.{AreOfTree, Salvages, SavesBeside, SavesRest};

use crate::chains::add_reached;
use crate::gathered::Gathered;
use crate::giving::Giving;
use crate::holes::{emptied, leads_to_unread};
use crate::kind::with_kind;
use crate::known::Known;
use crate::listing::volume_entries;
use crate::loose::add_loose;
use crate::lost::add_lost;
use crate::mended::put_right;
use crate::saved::Salvage;
use crate::unreached::add_unreached;
use adf_block::Image;
use ados_volume::{FaultKind, check};
use std::alloc::{AllocError, Global};

/// Everything in an image that can be told, each header once, a directory before its entries.
///
/// For an image that the check accepts, these are the entries of its tree. For any other, they are its sound and doubtful
/// headers, first those along hash chains from the root and then the others, and then its lost entries. In OFS, data blocks that
/// name no such header make a file, in place of the lost entry with that header, or else behind all others; and so do, in FFS,
/// extension blocks that name no such header. Deleted entries are
/// left out, if the bitmap can be trusted: they claim no blocks, so a file that has such blocks now can be whole. It is read as the
/// kind that its blocks say, whatever its boot block says (`with_kind`). A lost entry that would be a header with a right checksum if
/// one of its types or its own number was another is read with that value, and its checksum stays as wrong as it is: so such a header
/// is doubtful, and never sound (`put_right`). A file with a data block that holds a known filler is not whole. A block is given to
/// one file at most of those that are not whole, to the first in this order, and all of these together have at most four times the
/// bytes of the image.
///
/// The bytes of files are made when they are asked for.
pub fn salvage(alloc: Global, image: Image) -> Result<Salvage, AllocError>
    ensures salvages { IfOk result (Salvages image) }
    ensures tree { IfOk result (λ saved. (t : Tree) → Stands image t → AreOfTree t saved) }
{
    salvage_of(alloc, image, Vec::new(alloc), false)
}

/// The same of an image with holes, blocks that nobody read: whatever stands in their place is not believed. A file that a hole
/// belongs to is not whole, and the hole is a missing block of it. The image counts as refused if the root leads to a hole.
///
/// `holes` says for each block whether it is one. A block without a mark is none. `listed` says whether they are from a list of unread
/// blocks. If so, the image counts as refused too if a data block to which the root leads holds a known filler, since a copying
/// program may have written it in place of what it could not read.
pub fn salvage_beside(
    alloc: Global,
    image: Image,
    holes: Vec<bool>,
    listed: bool,
) -> Result<Salvage, AllocError>
    ensures { IfOk result (SalvagesBeside holes.items listed image) }
{
    let image = emptied(image, &holes);
    let reaches = leads_to_unread(alloc, &image, &holes, listed)?;
    if reaches {
        let image = with_kind(alloc, image)?;
        return told_headers(alloc, image, holes);
    }
    salvage_of(alloc, image, holes, listed)
}

/// Everything in an image that can be told. The root leads to no hole, if the image is accepted.
fn salvage_of(
    alloc: Global,
    image: Image,
    holes: Vec<bool>,
    listed: bool,
) -> Result<Salvage, AllocError>
    ensures salvages { IfOk result (SavesBeside holes.items listed image) }
    ensures tree { IfOk result (λ saved. (t : Tree) → Stands image t → AreOfTree t saved) }
{
    match check(alloc, image) {
        Ok(volume) => volume_entries(alloc, volume, holes, listed),
        Err(rejected) => match rejected.fault.kind {
            FaultKind::NoMemory => Err(AllocError),
            _ => {
                let image = with_kind(alloc, rejected.image)?;
                told_headers(alloc, image, holes)
            }
        },
    }
}

/// The entries of all sound and doubtful headers of an image but the deleted ones, its lost entries, and the files without a
/// header.
fn told_headers(alloc: Global, image: Image, holes: Vec<bool>) -> Result<Salvage, AllocError>
    ensures saves { (given : List ℕ) → IsReadAs given image → IfOk result (SavesRest given) }
    ensures holes { IfOk result (λ saved. saved.holes ≡ holes.items) }
{
    let given = Known::without_deleted(alloc, image, holes)?;
    let known = put_right(given)?;
    let mut gathered = Gathered::new(alloc, &known.image, &known.holes)?;
    add_reached(&known, &mut gathered)?;
    add_unreached(&known, &mut gathered)?;
    add_lost(&known, &mut gathered)?;
    add_loose(&known, &mut gathered)?;
    let Gathered {
        entries,
        giving,
        ..
    } = gathered;
    let Giving { pieces, .. } = giving;
    let Known {
        image,
        trusted,
        left_out,
        holes,
        fillers,
        ..
    } = known;
    let deleted = left_out.into_headers();
    Ok(Salvage {
        accepted: false,
        image,
        trusted,
        entries,
        deleted,
        pieces,
        holes,
        fillers,
    })
}
