//! The check of a sketch: whether its image is accepted as it is.
ghost use Rattle.std.specs.Prelude.{◌≡◌, IsTrue, IfSome, false};
ghost use Rattle.adf_block.specs.Boot.{HasKind};
ghost use Rattle.adf_block.specs.Image.{block_count, bytes_at};
ghost use Rattle.adf_block.specs.Whole.{IsSize};
ghost use Rattle.adf_block.specs.Fields.{format_of};
ghost use Rattle.ados_model.specs.Accepted.{Accepts};
ghost use Rattle.ados_model.specs.Phrases.{kind_bytes};
ghost use Rattle.ados_check.specs.Marks.{IsChecked};
ghost use Rattle.ados_check.specs.BitmapTold.{TellsBitmap};

use crate::bitmap::{has_valid_bitmap, reached_and_free};
use crate::check::sound_marks;
use crate::mark::Mark;
use crate::sketch::Sketch;
use crate::source::Source;
use adf_block::layout::{DATA_TYPE, FIRST_PAGE, PRIMARY_TYPE};
use adf_block::{BootKind, page_count};
use std::alloc::Global;

/// The DOS type of the disk, if the sketch shows that its image is accepted as it is.
///
/// `None` decides nothing: the image may have a fault or need a new bitmap, or there was no memory. Only a check of
/// the image itself distinguishes these cases.
pub fn accepted_kind(alloc: Global, sketch: &Sketch) -> Option<BootKind>
    requires { IsSize (block_count sketch.now) }
    ensures { IfSome result (λ kind. HasKind sketch.now kind × Accepts sketch.now false sketch.now) }
{
    let kind = file_system_of(sketch)?;
    let source = Source::sketch(sketch);
    match sound_marks(alloc, &source) {
        Ok(marks) if is_accepted(&source, &marks) => Some(kind),
        _ => None,
    }
}

/// OFS or FFS, if the first four bytes name it.
fn file_system_of(sketch: &Sketch) -> Option<BootKind>
    requires { IsSize (block_count sketch.now) }
    ensures { IfSome result (λ kind. HasKind sketch.now kind × (bytes_at sketch.now 0 0 4 ≡ kind_bytes (format_of sketch.now))) }
{
    let boot = sketch.boot();
    if boot == *b"DOS\0" {
        return Some(BootKind::Ofs);
    }
    if boot == *b"DOS\x01" {
        return Some(BootKind::Ffs);
    }
    None
}

/// Whether the bitmap is valid and marks no reached block free.
#[tactic(auto, using(crate::proofs::Accepted::checked_is_accepted))]
fn is_accepted(source: &Source<'_>, marks: &[Option<Mark>]) -> bool
    requires { IsChecked source.now.bytes marks.now }
    ensures { IsTrue result → Accepts source.now.bytes false source.now.bytes }
{
    tells_bitmap(source, marks)
        && has_valid_bitmap(source)
        && reached_and_free(source, marks).is_none()
}

/// Whether the sketch has all bitmap blocks. One that looks like an OFS data block is kept only in part.
#[tactic(auto, using(crate::proofs::Accepted::lawful_pages))]
fn tells_bitmap(source: &Source<'_>, marks: &[Option<Mark>]) -> bool
    requires { IsChecked source.now.bytes marks.now }
    ensures { IsTrue result → TellsBitmap source.now }
{
    let root = source.root();
    for p in 0..page_count(source.blocks()) {
        let page = source.long(root, FIRST_PAGE + p);
        if source.long(page, PRIMARY_TYPE) == DATA_TYPE {
            return false;
        }
    }
    true
}
