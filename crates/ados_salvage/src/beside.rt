//! What an accepted image has beside its tree.
ghost use Rattle.std.specs.Prelude.{◌≡◌, IfOk, true};
ghost use Rattle.ados_salvage.specs.steps.Finding.{AddsLost, AreOfOneTree};

use crate::gathered::Gathered;
use crate::giving::Giving;
use crate::known::Known;
use crate::saved::Salvage;
use crate::unreached::add_unreached;
use std::alloc::{AllocError, Global};

/// The salvage of an accepted image, with the sound headers among its lost blocks behind the entries of its tree.
///
/// A file among them is whole as on a damaged image: it is sound, no file of the tree and no other one among them has one of its
/// blocks, none of these is a hole, and if fillers count, none of its data blocks holds one.
pub(crate) fn with_lost(alloc: Global, tree: Salvage) -> Result<Salvage, AllocError>
    requires trusted { tree.trusted ≡ true }
    requires tree { AreOfOneTree tree.image tree.entries }
    ensures { IfOk result (AddsLost tree) }
{
    let Salvage {
        accepted,
        image,
        entries,
        deleted,
        holes,
        fillers,
        ..
    } = tree;
    let known = Known::with_lost(alloc, image, holes, fillers, entries.len())?;
    let mut gathered = Gathered::behind(alloc, &known.image, &known.holes, entries)?;
    add_unreached(&known, &mut gathered)?;
    let Gathered {
        entries,
        giving,
        ..
    } = gathered;
    let Giving { pieces, .. } = giving;
    let Known {
        image,
        holes,
        fillers,
        ..
    } = known;
    Ok(Salvage {
        accepted,
        image,
        trusted: true,
        entries,
        deleted,
        pieces,
        holes,
        fillers,
    })
}
