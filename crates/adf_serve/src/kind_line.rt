//! The line that says as what kind of disk an image is read.

use adf_block::{BootKind, Format};
use adf_record::format_word;
use adf_text::print_line;
use std::io::Write;

/// Prints as what kind of disk an image with this boot block is read, if that is not the kind in the boot block.
pub(crate) fn tell_kind<F: Write>(boot: BootKind, read: Format, faults: &mut F) {
    let said = match (boot, read) {
        (BootKind::Ofs, Format::Ofs) | (BootKind::Ffs, Format::Ffs) => return,
        (BootKind::Ofs, Format::Ffs) => "OFS",
        (BootKind::Ffs, Format::Ofs) => "FFS",
        (BootKind::OtherDos(_) | BootKind::NotDos, _) => "neither OFS nor FFS",
    };
    let read = format_word(read);
    print_line(
        faults,
        format_args!("adf_serve: read as {read}, as its blocks say; the boot block says {said}"),
    );
}
