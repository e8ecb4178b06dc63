//! The bytes of host files, from the volume.
ghost use Rattle.std.specs.Prelude.{◌≡◌, All, IfOk, IfSome, slice_get};
ghost use Rattle.ados_model.specs.Keys.{HasKey};
ghost use Rattle.ados_model.specs.Stands.{Stands};
ghost use Rattle.ados_model.specs.Tree.{Tree};
ghost use Rattle.adf_export.specs.Items.{AreBytesOf, HasSource};
ghost use Rattle.adf_text.specs.Uaem.{IsLineOf};
ghost use Rattle.adf_export.specs.declared.entry.Source.TheVariants.{Note};

use crate::entry::Source;
use adf_host::Contents;
use adf_text::{Uaem, uaem_line};
use ados_volume::{Volume, read_file};
use std::alloc::{AllocError, Global};
use std::marker::Model;

/// The bytes of host files, read from the volume as they are asked for.
#[derive(Drop)]
pub struct VolumeBytes<'a> {
    volume: &'a Volume,
    sources: &'a [Source],
}

impl<'a> Model for VolumeBytes<'a> {
    ghost use Rattle.std.specs.Prelude.{All};
    ghost use Rattle.adf_export.specs.Bytes.{BytesView};
    ghost use Rattle.adf_export.specs.Items.{HasSource};

    ghost Value = { BytesView };

    ghost view = { λ from. record { image = from.volume.now.image; sources = from.sources.now } };

    ghost invariant = { λ from. All (HasSource from.volume.now.image) from.sources.now };
}

impl<'a> VolumeBytes<'a> {
    /// The bytes of host files by these sources, one for each file.
    pub fn of(volume: &'a Volume, sources: &'a [Source]) -> VolumeBytes<'a>
        requires { All (HasSource volume.now.image) sources.now }
        ensures { result ≡ record { image = volume.now.image; sources = sources.now } }
    {
        VolumeBytes { volume, sources }
    }
}

impl<'a> Contents for VolumeBytes<'a> {
    /// The bytes of the host file at a position: those of the volume's file, or the line of a note. A directory has none.
    fn bytes_of(&mut self, alloc: Global, place: usize) -> Result<Vec<u8>, AllocError>
        ensures bytes { IfOk result (λ bytes. (t : Tree) → Stands self.old.image t
            → IfSome (slice_get self.old.sources place) (λ source. AreBytesOf t source bytes.items)) }
        ensures same { self.new ≡ self.old }
    {
        match self.sources.get(place) {
            Some(Source::Entry(key)) => read_file(alloc, self.volume, *key),
            Some(Source::Note(key)) => note_bytes(alloc, self.volume, *key),
            None => Ok(Vec::new(alloc)),
        }
    }
}

/// The line of the note of an entry.
fn note_bytes(alloc: Global, volume: &Volume, key: u32) -> Result<Vec<u8>, AllocError>
    requires { HasKey volume.now.image key }
    ensures { IfOk result (λ bytes. (t : Tree) → Stands volume.now.image t → AreBytesOf t (Note key) bytes.items) }
{
    let told = volume.examine(key);
    line_of(
        alloc,
        &Uaem {
            protect: told.protection,
            date: told.date,
            comment: told.comment,
        },
    )
}

/// The line of a note.
fn line_of(alloc: Global, noted: &Uaem) -> Result<Vec<u8>, AllocError>
    ensures { IfOk result (λ line. IsLineOf noted.now line.items) }
{
    Ok(uaem_line(alloc, noted)?.into_bytes())
}
