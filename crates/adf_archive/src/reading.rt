//! Reads of image files, on any thread.
ghost use Rattle.std.specs.Prelude.{IfSome};
ghost use Rattle.adf_block.specs.Image.{block_count};
ghost use Rattle.adf_block.specs.Whole.{IsSize};

use crate::found_file::FoundFile;
use adf_block::Image;
use adf_host::{
    OwnedFile, PromptFiles, ReadReason, input_path, open_below, read_image_below, read_image_file,
    sketch_image_below, sketch_image_file, why_no_image, why_no_image_below,
};
use adf_io::{LoadFault, read_bounded};
use ados_check::Sketch;
use std::alloc::Global;
use std::fs;
use std::io::Read;

/// A host whose image files can be read on any thread. One that was found in a directory is read from there, whatever takes
/// its place, or the place of a directory on the way to it, meanwhile.
pub trait ReadImages {
    /// The image of a file. At most one byte more than the largest image is read.
    fn read_image(&self, alloc: Global, found: FoundFile<'_>) -> Result<Image, LoadFault>;

    /// A sketch of that image, if it is all of the file, and the file has one. It needs less time and memory than the image.
    fn read_sketch(&self, alloc: Global, found: FoundFile<'_>) -> Option<Sketch>
        ensures { IfSome result (λ sketch. IsSize (block_count sketch)) };

    /// Why no image was read from a file, by asking the host once more.
    fn why_unread(&self, alloc: Global, found: FoundFile<'_>) -> ReadReason;

    /// The first bytes of a file, at most this many; none if they cannot be read.
    fn read_front(&self, alloc: Global, found: FoundFile<'_>, most: usize) -> Vec<u8>;
}

impl<R: PromptFiles> ReadImages for R
where
    R::File: OwnedFile,
{
    fn read_image(&self, alloc: Global, found: FoundFile<'_>) -> Result<Image, LoadFault> {
        let blocks = found.file.blocks;
        match found.parts() {
            Some((top, path)) => Ok(read_image_below(self, alloc, top, path, blocks)?.image),
            None => Ok(read_image_file(self, alloc, found.file.path, blocks)?.image),
        }
    }

    fn read_sketch(&self, alloc: Global, found: FoundFile<'_>) -> Option<Sketch>
        ensures { IfSome result (λ sketch. IsSize (block_count sketch)) }
    {
        match (found.file.blocks, found.parts()) {
            (None, Some((top, path))) => sketch_image_below(self, alloc, top, path),
            (None, None) => sketch_image_file(self, alloc, found.file.path),
            (Some(_), _) => None,
        }
    }

    fn why_unread(&self, alloc: Global, found: FoundFile<'_>) -> ReadReason {
        let blocks = found.file.blocks;
        match found.parts() {
            Some((top, path)) => why_no_image_below(self, alloc, top, path, blocks),
            None => why_no_image(self, found.file.path, blocks),
        }
    }

    fn read_front(&self, alloc: Global, found: FoundFile<'_>, most: usize) -> Vec<u8> {
        match found.parts() {
            Some((top, path)) => match open_below(self, alloc, top, path) {
                Ok(mut file) => front_of(alloc, &mut file, most),
                Err(_) => Vec::new(alloc),
            },
            None => match fs::open(self, input_path(found.file.path)) {
                Ok(mut file) => front_of(alloc, &mut file, most),
                Err(_) => Vec::new(alloc),
            },
        }
    }
}

/// The first bytes of an open file, at most this many; none if they cannot be read.
fn front_of<F: Read>(alloc: Global, file: &mut F, most: usize) -> Vec<u8> {
    match read_bounded(alloc, file, most) {
        Ok(front) => front,
        Err(_) => Vec::new(alloc),
    }
}
