//! What is printed of a refused image.
use crate::checking::{Detail, report_file};
use crate::found_file::FoundFile;
use crate::next_step::Repair;
use crate::person::{About, OutputSettings, regular_length};
use crate::reading::ReadImages;
use crate::report::{ImageReport, RefusedImage, ShownFault};
use crate::telling::Form;
use crate::words::{kind_word, size_word};
use adf_block::{BootKind, SizeFault};
use adf_cli::ImageFile;
use adf_record::size_words;
use adf_text::print_line;
use ados_model::FaultKind;
use std::alloc::Global;
use std::io::Write;
use std::rt::Files;

/// The image is the only one.
const ALONE: Form = Form {
    json: false,
    paths: false,
};

/// What is reported of the image: its first fault.
const FIRST_FAULT: Detail<'static> = Detail {
    all: false,
    contents: false,
    filler: false,
    bad: None,
};

/// Each fault.
const EACH_FAULT: Detail<'static> = Detail {
    all: true,
    ..FIRST_FAULT
};

/// Prints why the image of a file is refused with this word and this block: its format and its size, the text that explains the
/// fault, what the file looks like, and the next command for it. For that the file is read once more. Of what is no regular file
/// only the command is printed, because it may be read only once.
pub fn explain_refused<R: Files + ReadImages, F: Write>(
    rt: &R,
    alloc: Global,
    file: ImageFile<'_>,
    kind: &str,
    block: u32,
    faults: &mut F,
) {
    let about = About {
        path: file.path,
        top: None,
        settings: OutputSettings {
            form: ALONE,
            blocks: file.blocks,
            tops: &[],
            terminal: false,
        },
    };
    if regular_length(rt, file.path).is_none() {
        about.tell_next(repair_of_word(kind), faults);
        return;
    }
    let found = FoundFile::named(file);
    match report_file(rt, alloc, found, true, FIRST_FAULT) {
        ImageReport::Refused(told) => {
            tell_size_of(alloc, &told, faults);
            let file_type = about.file_type(rt, alloc, &told);
            match shown_in(&told, kind, block) {
                Some(shown) => about.tell_fault(shown, file_type, faults),
                // It is not the first fault of the image.
                None => tell_later_fault(rt, alloc, about, kind, block, faults),
            }
            about.tell_rest(rt, alloc, &told, faults);
        }
        ImageReport::WrongSize(fault) => about.tell_size(rt, alloc, fault, faults),
        _ => {}
    }
}

/// Prints the text of a fault that is not the first one of an image.
fn tell_later_fault<R: Files + ReadImages, F: Write>(
    rt: &R,
    alloc: Global,
    about: About<'_>,
    kind: &str,
    block: u32,
    faults: &mut F,
) {
    if let ImageReport::Refused(told) = report_file(rt, alloc, about.found(), true, EACH_FAULT) {
        if let Some(shown) = shown_in(&told, kind, block) {
            about.tell_fault(shown, None, faults);
        }
    }
}

/// The reported fault with this word and this block.
fn shown_in<'a>(told: &'a RefusedImage, kind: &str, block: u32) -> Option<&'a ShownFault> {
    told.faults.iter().find(|shown| shown.fault.block == block
        && kind_word(shown.fault.kind) == kind)
}

/// What can be done with an image of which only the word for a fault is known.
fn repair_of_word(kind: &str) -> Option<Repair> {
    let is_volume = [
        size_word(SizeFault::NotWholeBlocks),
        size_word(SizeFault::TooFewBlocks),
        size_word(SizeFault::TooManyBlocks),
        kind_word(FaultKind::NotADosDisk),
        kind_word(FaultKind::UnsupportedKind),
    ]
    .iter()
    .all(|word| *word != kind);
    if is_volume { Some(Repair::Files) } else { None }
}

/// Prints the format of an image, the density of a floppy and the number of blocks.
fn tell_size_of<F: Write>(alloc: Global, told: &RefusedImage, faults: &mut F) {
    if let Ok(size) = size_words(alloc, told.blocks) {
        let size = size.as_str();
        match told.kind {
            BootKind::Ofs => print_line(faults, format_args!("OFS{size}")),
            BootKind::Ffs => print_line(faults, format_args!("FFS{size}")),
            BootKind::OtherDos(last) => print_line(faults, format_args!("DOS\\{last}{size}")),
            BootKind::NotDos => print_line(faults, format_args!("no AmigaDOS format{size}")),
        };
    }
}
