//! The deleted entries of an image, and how much of each can be recovered.
ghost use Rattle.std.specs.Prelude.{[], IfOk};
ghost use Rattle.adf_block.specs.Image.{block_count};
ghost use Rattle.ados_salvage.specs.Deleted.{AreDeleted, ListsDeleted};
ghost use Rattle.ados_salvage.specs.Holders.{HeaderNames};
ghost use Rattle.ados_salvage.specs.Known.{AreAllClaims, HasClaim};
ghost use Rattle.ados_salvage.specs.Listing.{TellsDeleted};
ghost use Rattle.ados_salvage.specs.steps.Deleting.{AreOfReached};

use crate::known::claims::Claim;
use crate::known::header::sound_headers;
use crate::known::image_known::Known;
use crate::known::left_out::{LeftOut, deleted_headers};
use crate::known::named::named_claims;
use crate::known::recovery::recovery_of;
use crate::known::trust::trusted_marks;
use adf_block::Image;
use ados_check::Mark;
use std::alloc::{AllocError, Global};

/// How much of a deleted entry can be recovered.
#[derive(Clone, Copy, PartialEq, Eq)]
pub enum Recovery {
    /// The entry is a directory, which has no bytes.
    Directory,
    /// The file is intact. All its blocks are free, as many as `all`, and no other sound header names one of them.
    Free {
        all: usize,
    },
    /// Some blocks of the file are used now: `used` of `all`, the header among them. `by` is the header of an entry that has
    /// one of them, where one is known.
    Used {
        used: usize,
        all: usize,
        by: Option<u32>,
    },
    /// No block of the file is used, but other sound headers name `shared` of `all`. Their files may be damaged.
    Shared {
        shared: usize,
        all: usize,
    },
    /// The blocks of the file are not those that its size needs, and as far as they are known, none is used or shared.
    NotIntact,
}

/// A deleted entry.
#[derive(Clone, Copy)]
pub struct Deleted {
    /// The block number of its header.
    pub header: u32,
    pub recovery: Recovery,
}

/// The deleted entries of an image, if its bitmap says which they are.
#[derive(Drop)]
pub enum DeletedEntries {
    /// These, by block, and what is known of the image, where no header is left out.
    Found(Known, Vec<Deleted>),
    /// None. The image is as it was given.
    Nothing(Image),
    /// The bitmap cannot be trusted.
    NoTrustedBitmap,
}

/// The deleted entries of an image, each with how much of it can be recovered.
///
/// Time and memory grow about linearly with the size of the image.
pub fn deleted_entries(alloc: Global, image: Image) -> Result<DeletedEntries, AllocError>
    ensures { IfOk result (TellsDeleted image) }
{
    let Some(marks) = trusted_marks(alloc, &image)? else {
        return Ok(DeletedEntries::NoTrustedBitmap);
    };
    let sound = sound_headers(alloc, &image)?;
    let headers = deleted_headers(alloc, &image, Some(&sound))?;
    if headers.is_empty() {
        return Ok(DeletedEntries::Nothing(image));
    }
    let named = named_claims(alloc, &image, &sound)?;
    let holes = Vec::new(alloc);
    let known = Known::of(alloc, image, holes, true, LeftOut::none(alloc), &sound)?;
    let deleted = all_deleted(&known, &named, &headers, &marks)?;
    Ok(DeletedEntries::Found(known, deleted))
}

/// How much of each deleted entry of an image can be recovered. `named` has the sound headers that name each block.
fn all_deleted(
    known: &Known,
    named: &[Claim],
    headers: &[u32],
    marks: &[Option<Mark>],
) -> Result<Vec<Deleted>, AllocError>
    requires headers { AreDeleted known.now.image headers.now }
    requires claims { AreAllClaims (HasClaim [] known.now.image) (block_count known.now.image) known.now.claims.items }
    requires named { AreAllClaims (HeaderNames known.now.image) (block_count known.now.image) named.now }
    requires marks { AreOfReached known.now.image marks.now }
    ensures { IfOk result (λ found. ListsDeleted known.now.image found.items) }
{
    let mut found = Vec::new(known.alloc);
    for header in headers {
        let recovery = recovery_of(known, named, *header, marks)?;
        found.push(Deleted {
            header: *header,
            recovery,
        })?;
    }
    Ok(found)
}
