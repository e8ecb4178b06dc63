//! What a person is told of images beside the reports.
use crate::file_type::{FRONT_BYTES, FileType, filling, look_of, other_root, root_in};
use crate::finding::Remark;
use crate::found_file::FoundFile;
use crate::next_step::{NextStep, Repair};
use crate::reading::ReadImages;
use crate::report::{ImageReport, RefusedImage, ShownFault, WhyNot};
use crate::telling::Form;
use adf_block::layout::{BLOCK_BYTES, MOST_BLOCKS};
use adf_block::{Image, MOST_BYTES, SizeFault};
use adf_cli::ImageFile;
use adf_host::input_path;
use adf_record::Grouped;
use adf_text::print_line;
use ados_model::FaultKind;
use std::alloc::Global;
use std::fmt::{Display, Formatter};
use std::io::Write;
use std::rt::Files;
use std::{fmt, fs};

/// Bytes in a block.
const BLOCK: u64 = BLOCK_BYTES as u64;

/// How a person is told of images.
#[derive(Clone, Copy)]
pub struct OutputSettings<'a> {
    /// The form of the reports. With paths, each line begins with the path.
    pub form: Form,
    /// The number of blocks at the start of a file that are its image; by default all of it is.
    pub blocks: Option<u32>,
    /// For each image, the number of bytes of its path that are the argument's directory in which it was found; `None` for
    /// an argument.
    pub tops: &'a [Option<usize>],
    /// Of several images the progress is shown on a terminal.
    pub terminal: bool,
}

impl<'a> OutputSettings<'a> {
    /// How a person is told of the images from this one on.
    pub(crate) fn from(self, first: usize) -> OutputSettings<'a> {
        OutputSettings {
            tops: self.tops.get(first..).unwrap_or(&[]),
            ..self
        }
    }
}

/// Prints what a search for images found beside them.
pub(crate) fn tell_remarks<F: Write>(remarks: &[Remark], faults: &mut F) {
    for remark in remarks {
        print_line(faults, format_args!("adf_serve: {remark}"));
    }
}

/// Prints which of these images were not checked and why, and what explains the faults of the others and what to do with
/// these. `paths` are theirs, in order.
pub(crate) fn tell_person<R: Files + ReadImages, F: Write>(
    rt: &R,
    alloc: Global,
    paths: &[String],
    reports: &[ImageReport],
    settings: OutputSettings<'_>,
    faults: &mut F,
) {
    for (place, (path, report)) in paths.iter().zip(reports).enumerate() {
        let path = path.as_str();
        let top = settings.tops.get(place).copied().unwrap_or(None);
        let about = About {
            path,
            top,
            settings,
        };
        match report {
            ImageReport::NotChecked(why) => about.tell_unread(rt, alloc, *why, faults),
            ImageReport::WrongSize(fault) => about.tell_size(rt, alloc, *fault, faults),
            ImageReport::Refused(told) => about.tell_refused(rt, alloc, told, faults),
            ImageReport::Accepted(_) => {}
        }
    }
}

/// The text for a length that no image has.
#[derive(Clone, Copy)]
struct WrongLength {
    fault: SizeFault,
    /// The length, if it is known.
    length: Option<u64>,
}

impl Display for WrongLength {
    fn fmt<W: fmt::Write>(&self, f: &mut Formatter<W>) -> fmt::Result {
        match self.length {
            Some(length) => write!(f, "{} bytes ", Grouped(length))?,
            None => f.write_str("its bytes ")?,
        }
        f.write_str(match self.fault {
            SizeFault::NotWholeBlocks => {
                "are no whole number of blocks: cut short, or not an ADF file"
            }
            SizeFault::TooFewBlocks => {
                "are too few: a volume has 16 to 101,602 blocks of 512 bytes"
            }
            SizeFault::TooManyBlocks => {
                "are too many: a volume has 16 to 101,602 blocks of 512 bytes"
            }
        })
    }
}

/// The text for a file whose root is that of an image of another size.
#[derive(Clone, Copy)]
struct OtherSize {
    root: u32,
    /// What has the bytes: the file, or the option that takes its first blocks as the image.
    holder: &'static str,
    /// The bytes.
    length: u64,
}

impl OtherSize {
    /// The blocks of an image of this size.
    fn needed(self) -> u64 {
        2 * u64::from(self.root)
    }

    /// What can be done with the image, if its last blocks are missing. Otherwise the text says which option to use.
    fn repair(self) -> Option<Repair> {
        let needed = self.needed();
        if self.length / BLOCK < needed && needed <= u64::from(MOST_BLOCKS) {
            Some(Repair::CutFiles(needed))
        } else {
            None
        }
    }
}

impl Display for OtherSize {
    fn fmt<W: fmt::Write>(&self, f: &mut Formatter<W>) -> fmt::Result {
        let needed = self.needed();
        let blocks = self.length / BLOCK;
        let (holder, rest) = (self.holder, PartOfBlock(self.length % BLOCK));
        write!(
            f,
            "the root at block {} fits {} blocks; {holder} {}{rest}",
            self.root,
            Grouped(needed),
            Grouped(blocks)
        )?;
        if blocks < needed {
            return Ok(());
        }
        write!(f, ": try --blocks {needed}")
    }
}

/// The text for the bytes behind the last whole block; empty if there are none.
#[derive(Clone, Copy)]
struct PartOfBlock(u64);

impl Display for PartOfBlock {
    fn fmt<W: fmt::Write>(&self, f: &mut Formatter<W>) -> fmt::Result {
        match self.0 {
            0 => Ok(()),
            1 => f.write_str(" and 1 byte"),
            rest => write!(f, " and {rest} bytes"),
        }
    }
}

/// An image that a person is told about.
#[derive(Clone, Copy)]
pub(crate) struct About<'a> {
    pub(crate) path: &'a str,
    /// The number of bytes of the path that are the argument's directory in which it was found; `None` for an argument.
    pub(crate) top: Option<usize>,
    pub(crate) settings: OutputSettings<'a>,
}

impl<'a> About<'a> {
    /// The file of the image.
    pub(crate) fn found(self) -> FoundFile<'a> {
        FoundFile {
            file: ImageFile {
                path: self.path,
                blocks: self.settings.blocks,
            },
            top: self.top,
        }
    }

    /// Prints a text on the image, with its path if it is one of several.
    fn tell<F: Write, T: Display + Drop>(self, text: T, faults: &mut F) {
        if self.settings.form.paths {
            print_line(faults, format_args!("{}: {text}", self.path));
        } else {
            print_line(faults, text);
        }
    }

    /// Prints why the image was not checked.
    fn tell_unread<R: ReadImages, F: Write>(
        self,
        rt: &R,
        alloc: Global,
        why: WhyNot,
        faults: &mut F,
    ) {
        let path = self.path;
        match why {
            WhyNot::Read => {
                let reason = rt.why_unread(alloc, self.found());
                print_line(
                    faults,
                    format_args!("adf_serve: cannot read '{path}': {reason}"),
                );
            }
            WhyNot::Name => {
                print_line(
                    faults,
                    format_args!("adf_serve: cannot read '{path}': name is not UTF-8"),
                );
            }
            WhyNot::Memory | WhyNot::Endless | WhyNot::BadLine(_, _) => {
                print_line(faults, format_args!("adf_serve: '{path}' {why}"));
            }
        }
    }

    /// Prints what explains a wrong size, and what the file looks like.
    pub(crate) fn tell_size<R: Files + ReadImages, F: Write>(
        self,
        rt: &R,
        alloc: Global,
        fault: SizeFault,
        faults: &mut F,
    ) {
        let length = regular_length(rt, self.path);
        self.tell(WrongLength { fault, length }, faults);
        if let Some(length) = length {
            let front = rt.read_front(alloc, self.found(), most_of(length));
            if let Some(file_type) = look_of(&front) {
                self.tell(file_type, faults);
            }
            self.tell_filling(&front, length, faults);
            if front.len() as u64 != length {
                return;
            }
            if let Some(root) = root_in(front) {
                let holder = "the file has";
                let size = OtherSize {
                    root,
                    holder,
                    length,
                };
                self.tell(size, faults);
                self.tell_next(size.repair(), faults);
            }
        }
    }

    /// Prints what explains the faults of the image, and what the file looks like.
    fn tell_refused<R: Files + ReadImages, F: Write>(
        self,
        rt: &R,
        alloc: Global,
        told: &RefusedImage,
        faults: &mut F,
    ) {
        let file_type = self.file_type(rt, alloc, told);
        for shown in told.faults.iter() {
            self.tell_fault(shown, file_type, faults);
        }
        self.tell_rest(rt, alloc, told, faults);
    }

    /// What the file of an image that is no AmigaDOS disk looks like, by its first bytes.
    pub(crate) fn file_type<R: Files + ReadImages>(
        self,
        rt: &R,
        alloc: Global,
        told: &RefusedImage,
    ) -> Option<FileType> {
        let is_other = told
            .faults
            .iter()
            .any(|shown| shown.fault.kind == FaultKind::NotADosDisk);
        if !is_other || regular_length(rt, self.path).is_none() {
            return None;
        }
        look_of(&rt.read_front(alloc, self.found(), FRONT_BYTES))
    }

    /// Prints the text of a fault; of a file of another known kind what it is.
    pub(crate) fn tell_fault<F: Write>(
        self,
        shown: &ShownFault,
        file_type: Option<FileType>,
        faults: &mut F,
    ) {
        match file_type {
            Some(file_type) if shown.fault.kind == FaultKind::NotADosDisk => {
                self.tell(file_type, faults);
            }
            _ => self.tell(shown.text.as_str(), faults),
        }
    }

    /// Prints what a refused image looks like, and the next command for it.
    pub(crate) fn tell_rest<R: Files + ReadImages, F: Write>(
        self,
        rt: &R,
        alloc: Global,
        told: &RefusedImage,
        faults: &mut F,
    ) {
        let repair = match self.tell_other(rt, alloc, told, faults) {
            Some(size) => size.repair(),
            None => Repair::of(told),
        };
        self.tell_next(repair, faults);
    }

    /// Prints the next command for a refused image, if one is known.
    pub(crate) fn tell_next<F: Write>(self, repair: Option<Repair>, faults: &mut F) {
        if let Some(repair) = repair {
            let file = self.found().file;
            print_line(faults, NextStep { file, repair });
        }
    }

    /// Prints what a refused image looks like, if there is no disk of DOS, or no root where it should be, and returns which other
    /// size its root fits. For that a regular file is read once more.
    fn tell_other<R: Files + ReadImages, F: Write>(
        self,
        rt: &R,
        alloc: Global,
        told: &RefusedImage,
        faults: &mut F,
    ) -> Option<OtherSize> {
        let About { path, settings, .. } = self;
        let may_be_other = told.faults.iter().any(|shown| {
            let fault = shown.fault;
            let is_root = fault.block == told.blocks.div_ceil(2);
            fault.kind == FaultKind::NotADosDisk || (is_root && fault.kind == FaultKind::BadType)
        });
        if !may_be_other || regular_length(rt, path).is_none() {
            return None;
        }
        let image = rt.read_image(alloc, self.found()).ok()?;
        let length = image.as_bytes().len() as u64;
        self.tell_filling(image.as_bytes(), length, faults);
        let holder = match settings.blocks {
            Some(_) => "--blocks takes",
            None => "the file has",
        };
        let root = other_root(&image)?;
        let size = OtherSize {
            root,
            holder,
            length,
        };
        self.tell(size, faults);
        Some(size)
    }

    /// Prints that all of a file of this length is one byte, if it is.
    fn tell_filling<F: Write>(self, front: &[u8], length: u64, faults: &mut F) {
        if front.len() as u64 != length {
            return;
        }
        if let Some(byte) = filling(front) {
            let text = format_args!("each of its bytes is {byte:02X}: nothing was written or read");
            self.tell(text, faults);
        }
    }
}

/// The number of bytes that are read of a file of this length. Of a longer file than an image, only the first ones are read,
/// which tell its kind.
fn most_of(length: u64) -> usize {
    if length > MOST_BYTES as u64 {
        FRONT_BYTES
    } else {
        MOST_BYTES
    }
}

/// The length of a regular file. Anything else, as a pipe, may be read only once.
pub(crate) fn regular_length<R: Files>(rt: &R, path: &str) -> Option<u64> {
    match fs::metadata(rt, input_path(path)) {
        Ok(found) if found.is_file() => Some(found.len()),
        _ => None,
    }
}
