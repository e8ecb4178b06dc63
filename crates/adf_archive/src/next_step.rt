//! The next command for a refused image.
use crate::report::RefusedImage;
use crate::shell_word::ShellWord;
use adf_block::BootKind;
use adf_cli::ImageFile;
use ados_model::FaultKind;
use std::fmt;
use std::fmt::{Display, Formatter};

/// What a person is told to do with a refused image.
#[derive(Clone, Copy)]
pub(crate) struct NextStep<'a> {
    pub(crate) file: ImageFile<'a>,
    pub(crate) repair: Repair,
}

/// What can be done with a refused image.
#[derive(Clone, Copy)]
pub(crate) enum Repair {
    /// A new bitmap mends it.
    Bitmap,
    /// Its files can be saved.
    Files,
    /// Its file ends before the last of its blocks, of which there are so many. Its files can be saved.
    CutFiles(u64),
    /// It has another file system of AmigaDOS, with this last byte of the kind and this name.
    OtherTool(u8, &'static str),
}

impl Repair {
    /// What can be done with a refused image; nothing is known for one that is no AmigaDOS disk.
    pub(crate) fn of(told: &RefusedImage) -> Option<Repair> {
        if told.only_bitmap {
            return Some(Repair::Bitmap);
        }
        let is_other = told.faults.iter().any(|shown| matches!(
            shown.fault.kind,
            FaultKind::NotADosDisk | FaultKind::UnsupportedKind
        ));
        match told.kind {
            BootKind::OtherDos(last) if is_other => {
                Some(Repair::OtherTool(last, file_system(last)?))
            }
            _ if is_other => None,
            _ => Some(Repair::Files),
        }
    }
}

/// The file system of the disks whose kind ends in this byte, if AmigaDOS has one.
fn file_system(last: u8) -> Option<&'static str> {
    match last {
        2 => Some("Old File System in international mode"),
        3 => Some("Fast File System in international mode"),
        4 => Some("Old File System with a directory cache"),
        5 => Some("Fast File System with a directory cache"),
        6 => Some("Old File System with long file names"),
        7 => Some("Fast File System with long file names"),
        _ => None,
    }
}

impl Display for NextStep<'_> {
    fn fmt<W: fmt::Write>(&self, f: &mut Formatter<W>) -> fmt::Result {
        let path = self.file.path;
        let image = ImageWords { file: self.file };
        match self.repair {
            Repair::Bitmap => write!(
                f,
                "'{path}' has a wrong bitmap and no other fault; `adf_serve validate {image}` mends it"
            ),
            Repair::Files => write!(
                f,
                "'{path}' is damaged; `adf_serve extract --damaged {image}` saves its files"
            ),
            Repair::CutFiles(blocks) => write!(
                f,
                "'{path}' is cut short; `adf_serve extract --damaged --blocks {blocks} {}` saves its files",
                ImageWord(path)
            ),
            Repair::OtherTool(last, name) => write!(
                f,
                "'{path}' has the {name} (DOS\\{last}); `xdftool` of amitools reads it"
            ),
        }
    }
}

/// The arguments that name an image.
#[derive(Clone, Copy)]
struct ImageWords<'a> {
    file: ImageFile<'a>,
}

impl Display for ImageWords<'_> {
    fn fmt<W: fmt::Write>(&self, f: &mut Formatter<W>) -> fmt::Result {
        let ImageFile { path, blocks } = self.file;
        if let Some(blocks) = blocks {
            write!(f, "--blocks {blocks} ")?;
        }
        write!(f, "{}", ImageWord(path))
    }
}

/// The path of an image as an argument. A path with control characters cannot be shown as it has to be typed.
#[derive(Clone, Copy)]
struct ImageWord<'a>(&'a str);

impl Display for ImageWord<'_> {
    fn fmt<W: fmt::Write>(&self, f: &mut Formatter<W>) -> fmt::Result {
        if self.0.chars().any(|letter| letter.is_control()) {
            return f.write_str("IMAGE");
        }
        write!(f, "{}", ShellWord(self.0))
    }
}
