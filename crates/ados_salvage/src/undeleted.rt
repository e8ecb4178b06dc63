//! The deleted entries of an image, with the directories that they were in.
ghost use Rattle.std.specs.Prelude.{◌≡◌, [], ℕ, List, false, length, IfOk, IsSome, OnOk};
ghost use Rattle.adf_block.specs.Image.{block_count};
ghost use Rattle.ados_salvage.specs.Deleted.{IsTrustedBitmap, ListsDeleted};
ghost use Rattle.ados_salvage.specs.Sound.{IsSoundHeader};
ghost use Rattle.ados_salvage.specs.Known.{AreKnown};
ghost use Rattle.ados_salvage.specs.Undeleted.{IsRead, TellsUndeleted};
ghost use Rattle.ados_salvage.specs.steps.Gathering.{AreGathered, AreGatheredBy, GathersMore, place_at};
ghost use Rattle.ados_salvage.specs.steps.Undeleting.{AreHeaders, HasEach};

use crate::gathered::Gathered;
use crate::giving::Giving;
use crate::kind::with_kind;
use crate::known::{Deleted, DeletedEntries, Known, Recovery, deleted_entries, is_faultless};
use crate::saved::Salvage;
use crate::unreached::add_with_parents;
use adf_block::Image;
use std::alloc::{AllocError, Global};

/// The deleted entries of an image, and all directories above them as far as these are sound.
#[derive(Drop)]
pub struct Undeleted {
    /// The deleted entries, the entries that have blocks of deleted files now, and the directories above all of these, a
    /// directory before its entries. An entry that is in none of them is in the root, or in a directory that is not sound. A
    /// file that is not whole has zeros where its blocks are not there.
    pub salvage: Salvage,
    /// The deleted entries, by block.
    pub deleted: Vec<Deleted>,
    /// For each block, the position of its entry, if it has one. Each deleted entry has one.
    pub places: Vec<Option<usize>>,
}

/// The deleted entries of an image with their directories, if its bitmap says which they are.
#[derive(Drop)]
pub enum UndeletedEntries {
    Found(Undeleted),
    /// The bitmap cannot be trusted.
    NoTrustedBitmap,
}

/// The deleted entries of an image with their directories. An image that shows a fault is read as the kind that its blocks say, as
/// `salvage` reads it.
///
/// Time and memory grow as a sort of the blocks does.
pub fn undelete(alloc: Global, image: Image) -> Result<UndeletedEntries, AllocError>
    ensures { IfOk result (λ entries. (read : List ℕ) × IsRead image read × TellsUndeleted read entries) }
{
    if is_faultless(alloc, &image) {
        return undelete_read(alloc, image);
    }
    undelete_read(alloc, with_kind(alloc, image)?)
}

/// The deleted entries of an image of this kind with their directories.
fn undelete_read(alloc: Global, image: Image) -> Result<UndeletedEntries, AllocError>
    ensures { IfOk result (TellsUndeleted image) }
{
    match deleted_entries(alloc, image)? {
        DeletedEntries::Found(known, deleted) => {
            let gathered = gathered_deleted(&known, &deleted)?;
            Ok(found(alloc, known.image, deleted, gathered))
        }
        DeletedEntries::Nothing(image) => {
            let gathered = Gathered::new(alloc, &image, &[])?;
            Ok(found(alloc, image, Vec::new(alloc), gathered))
        }
        DeletedEntries::NoTrustedBitmap => Ok(UndeletedEntries::NoTrustedBitmap),
    }
}

/// The deleted entries of an image, with what was gathered of them.
fn found(alloc: Global, image: Image, deleted: Vec<Deleted>, gathered: Gathered) -> UndeletedEntries
    requires trusted { IsTrustedBitmap image }
    requires deleted { ListsDeleted image deleted.items }
    requires gathered { AreGathered 0 [] [] false image gathered }
    requires each { HasEach gathered.places.items deleted.items }
    ensures { TellsUndeleted image result }
{
    let Gathered {
        entries,
        places,
        giving,
        ..
    } = gathered;
    let Giving { pieces, .. } = giving;
    UndeletedEntries::Found(Undeleted {
        salvage: Salvage {
            accepted: false,
            image,
            trusted: true,
            entries,
            deleted: Vec::new(alloc),
            pieces,
            holes: Vec::new(alloc),
            fillers: false,
        },
        deleted,
        places,
    })
}

/// The deleted entries, each after the directories above it. The entries that have blocks of deleted files now come first, so
/// that their names have no endings.
fn gathered_deleted(known: &Known, deleted: &[Deleted]) -> Result<Gathered, AllocError>
    requires sound { AreHeaders known.now.image deleted.now }
    requires known { AreKnown known.now }
    requires all { known.now.left_out ≡ [] }
    requires none { known.now.before ≡ 0 }
    ensures gathered { IfOk result (AreGatheredBy known.now) }
    ensures each { IfOk result (λ gathered. HasEach gathered.places.items deleted.now) }
{
    let mut gathered = Gathered::new(known.alloc, &known.image, &known.holes)?;
    let mut climbed = vec![in known.alloc; false; known.image.blocks() as usize]?;
    for entry in deleted {
        if let Recovery::Used { by: Some(user), .. } = entry.recovery {
            add_entry(known, user, &mut climbed, &mut gathered)?;
        }
    }
    for entry in deleted {
        add_entry(known, entry.header, &mut climbed, &mut gathered)?;
    }
    Ok(gathered)
}

/// Adds a header after the directories above it, if it is sound and was not added before.
fn add_entry(
    known: &Known,
    header: u32,
    climbed: &mut Vec<bool>,
    gathered: &mut Gathered,
) -> Result<(), AllocError>
    requires climbed { length climbed.old.items ≡ block_count known.now.image }
    requires gathered { AreGatheredBy known.now gathered.old }
    requires all { known.now.left_out ≡ [] }
    ensures climbed { OnOk result (length climbed.new.items ≡ block_count known.now.image) }
    ensures more { OnOk result (GathersMore known.now gathered.old gathered.new) }
    ensures met { OnOk result (IsSoundHeader known.now.image header → IsSome (place_at gathered.new.places.items header)) }
{
    if !gathered.is_new(known, header) {
        return Ok(());
    }
    add_with_parents(known, header, climbed, gathered)
}
