//! The kind of a damaged image.
ghost use Rattle.std.specs.Prelude.{◌≡◌, IfOk};
ghost use Rattle.adf_block.specs.declared.beside.TheConstants.{KIND as kind_place};
ghost use Rattle.adf_block.specs.Frame.{OnlyLong};
ghost use Rattle.adf_block.specs.Image.{long};
ghost use Rattle.ados_salvage.specs.Kind.{IsReadAs, SaysKind, by_boot, by_data, by_votes, first_told, kind_long};

use crate::known::reached_entries;
use crate::votes::{Votes, ofs_data_count, volume_votes, votes_of};
use adf_block::beside::KIND;
use adf_block::{Format, Image};
use std::alloc::{AllocError, Global};

/// `DOS`, 0: OFS, as a long.
pub const OFS_KIND: u32 = 0x444f_5300;

/// `DOS`, 1: FFS, as a long.
pub const FFS_KIND: u32 = 0x444f_5301;

/// The image with the kind that its blocks say. If its first four bytes are not those of this kind, they become so.
///
/// The files to which the root leads decide, by most of them. If they say nothing, the boot block does, unless all other files speak
/// against it. If it names neither OFS nor FFS, most of all files decide, and at last whether there are OFS data blocks.
pub(crate) fn with_kind(alloc: Global, image: Image) -> Result<Image, AllocError>
    ensures { IfOk result (IsReadAs image) }
{
    let kind = kind_of(alloc, &image)?;
    Ok(with_long(image, long_of(kind)))
}

/// The kind that the blocks of an image say.
fn kind_of(alloc: Global, image: &Image) -> Result<Format, AllocError>
    ensures { IfOk result (SaysKind image.now) }
{
    prove!(image.blocks() >= 16);
    let entries = reached_entries(alloc, image)?;
    let reached = votes_of(image, &entries);
    let all = volume_votes(image);
    Ok(first_told(
        by_votes(reached),
        by_boot(image.long(0, KIND), all),
        by_votes(all),
        by_data(ofs_data_count(image)),
    ))
}

/// The kind for which more headers vote.
fn by_votes(votes: Votes) -> Option<Format>
    ensures { result ≡ by_votes votes.ofs votes.ffs }
{
    if votes.ofs > votes.ffs {
        return Some(Format::Ofs);
    }
    if votes.ffs > votes.ofs {
        return Some(Format::Ffs);
    }
    None
}

/// The kind in the boot block, unless all other votes are against it.
fn by_boot(boot: u32, votes: Votes) -> Option<Format>
    ensures { result ≡ by_boot boot votes.ofs votes.ffs }
{
    if boot == OFS_KIND && !(votes.ofs == 0 && votes.ffs > 0) {
        return Some(Format::Ofs);
    }
    if boot == FFS_KIND && !(votes.ffs == 0 && votes.ofs > 0) {
        return Some(Format::Ffs);
    }
    None
}

/// The kind if nothing else tells it, by the number of OFS data blocks.
fn by_data(count: usize) -> Format
    ensures { result ≡ by_data count }
{
    if count > 0 { Format::Ofs } else { Format::Ffs }
}

/// The first kind that is told.
fn first_told(
    first: Option<Format>,
    second: Option<Format>,
    third: Option<Format>,
    last: Format,
) -> Format
    ensures { result ≡ first_told first second third last }
{
    match (first, second, third) {
        (Some(kind), _, _) => kind,
        (None, Some(kind), _) => kind,
        (None, None, Some(kind)) => kind,
        (None, None, None) => last,
    }
}

/// The first long of a disk of a kind.
fn long_of(kind: Format) -> u32
    ensures { result ≡ kind_long kind }
{
    match kind {
        Format::Ofs => OFS_KIND,
        Format::Ffs => FFS_KIND,
    }
}

/// The image with this first long.
fn with_long(image: Image, first: u32) -> Image
    ensures stands { long result 0 kind_place ≡ first }
    ensures kept { long image 0 kind_place ≡ first → result ≡ image }
    ensures rest { OnlyLong 0 kind_place image result }
{
    let mut image = image;
    prove!(image.blocks() >= 16);
    if image.long(0, KIND) == first {
        return image;
    }
    image.set_long(0, KIND, first);
    image
}
