//! Deleted entries, as files and directories of the host.
ghost use Rattle.std.specs.Prelude.{ℕ, List, IfErr, IfOk, MatchResult, map};
ghost use Rattle.ados_salvage.specs.Deleted.{IsTrustedBitmap};
ghost use Rattle.ados_salvage.specs.Undeleted.{IsRead, IsUndeleted};
ghost use Rattle.adf_rescue.specs.Undelete.{IsUndeleteFault, IsUndeletion, key_of};

use crate::asked::Asked;
use crate::chosen::{Chosen, chosen_entries};
use crate::deleted_lines::Labels;
use crate::idle::refuse_idle;
use crate::placing::placed_entries;
use crate::saving::Saving;
use crate::undelete_fault::UndeleteFault;
use adf_block::{Format, Image};
use adf_cli::UndeleteJob;
use adf_host::{OwnedFile, PromptFiles};
use ados_salvage::{Undeleted, UndeletedEntries, undelete};
use std::alloc::Global;

/// The deleted entries that arguments choose, the files and directories of the host for them, and what is told of them.
#[derive(Drop)]
pub struct Undeletion {
    found: Undeleted,
    chosen: Vec<Chosen>,
    plan: Saving,
    /// A line or an object for each entry that is chosen, in the order of their headers.
    pub text: Vec<u8>,
}

impl Undeletion {
    /// The kind of disk as which the image was read.
    pub fn format(&self) -> Format {
        self.found.salvage.image().format()
    }
}

/// Writes deleted entries of an image below a directory of the host: those that the job's paths choose, or all without one.
/// A file is written if all its blocks are free, and with `force` any file. The directories above it, as far as they are
/// sound, are written too. With `meta`, a note is written beside each.
///
/// Nothing is written if the job only lists, if the bitmap cannot be trusted, if a path chooses nothing, or if an existing
/// file or directory of the host is in the way. The image does not change.
///
/// Time and memory grow as a sort of the blocks does, however deep the directories are: a path of more than 255 bytes is
/// not told.
pub fn undelete_entries<R: PromptFiles>(
    rt: &R,
    alloc: Global,
    image: Image,
    job: &UndeleteJob<'_>,
) -> Result<Undeletion, UndeleteFault>
where
    R::File: OwnedFile,
    ensures done { IfOk result (IsUndeletion image (map (λ word. key_of word.now) job.now.paths.items) job.now.force job.now.json) }
    ensures fault { IfErr result (IsUndeleteFault image) }
{
    let found = found_entries(alloc, image)?;
    let undeletion = undeletion_of(alloc, found, job)?;
    if job.list {
        return Ok(undeletion);
    }
    let (out, salvage) = (&undeletion.plan.out, &undeletion.found.salvage);
    match out.write(rt, alloc, salvage, job.to, job.force) {
        Ok(()) => Ok(undeletion),
        Err(fault) => Err(UndeleteFault::Host(fault)),
    }
}

/// The deleted entries of an image.
fn found_entries(alloc: Global, image: Image) -> Result<Undeleted, UndeleteFault>
    ensures { MatchResult result (λ found. (read : List ℕ) × IsRead image read × IsTrustedBitmap read × IsUndeleted read found) (IsUndeleteFault image) }
{
    match undelete(alloc, image)? {
        UndeletedEntries::Found(found) => Ok(found),
        UndeletedEntries::NoTrustedBitmap => Err(UndeleteFault::NoTrustedBitmap),
    }
}

/// The deleted entries that a job chooses among these, and what is written of them.
fn undeletion_of(
    alloc: Global,
    found: Undeleted,
    job: &UndeleteJob<'_>,
) -> Result<Undeletion, UndeleteFault>
    ensures done { IfOk result (λ done. (image read : List ℕ) → IsRead image read → IsTrustedBitmap read → IsUndeleted read found
        → IsUndeletion image (map (λ word. key_of word.now) job.now.paths.items) job.now.force job.now.json done) }
    ensures fault { IfErr result (λ fault. (image : List ℕ) → IsUndeleteFault image fault) }
{
    let asked = Asked::of(alloc, &job.paths)?;
    let entries = found.salvage.entries();
    let places = placed_entries(alloc, &asked, entries)?;
    refuse_idle(alloc, &found, &places, &job.paths)?;
    let chosen = chosen_entries(alloc, &found.places, &places, &found.deleted)?;
    let labels = Labels {
        alloc,
        positions: &found.places,
        places: &places,
    };
    let text = labels.text(&chosen, job.json)?;
    let plan = Saving::of(alloc, entries, &chosen, job.force, job.meta)?;
    Ok(Undeletion {
        found,
        chosen,
        plan,
        text,
    })
}
