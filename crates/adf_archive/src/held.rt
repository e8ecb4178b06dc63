//! What is printed of images that another command works on.
use crate::finding::FoundImages;
use adf_host::{PromptFiles, is_held, is_held_below};
use adf_text::print_line;
use std::alloc::Global;
use std::fs::File;
use std::io::Write;
use std::rt::Files;

/// Prints a line for an image file that is only read, if another command or a mount has it locked. What is read then is the
/// state that was saved last.
pub fn tell_held<R: Files<File = File>, F: Write>(rt: &R, path: &str, faults: &mut F) {
    if is_held(rt, path) {
        print_held(path, faults);
    }
}

/// Prints the line for an image that is locked.
fn print_held<F: Write>(path: &str, faults: &mut F) {
    print_line(
        faults,
        format_args!(
            "adf_serve: '{path}' is mounted or being changed: the state saved last is read"
        ),
    );
}

/// Prints the line for each of the image files that were found.
pub(crate) fn tell_each_held<R: Files<File = File> + PromptFiles, F: Write>(
    rt: &R,
    alloc: Global,
    found: &FoundImages,
    faults: &mut F,
) {
    for (place, path) in found.paths.iter().enumerate() {
        let file = found.file(place, path.as_str(), None);
        let is_locked = match file.parts() {
            Some((directory, below)) => is_held_below(rt, alloc, directory, below),
            None => is_held(rt, path.as_str()),
        };
        if is_locked {
            print_held(path.as_str(), faults);
        }
    }
}
