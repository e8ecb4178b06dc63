//! An Amiga floppy image: blocks of 512 bytes, each of 128 big-endian longs, with their checksums and the boot blocks.
#![tactic(auto)]

pub mod beside;
mod boot;
mod boot_blocks;
mod code;
mod code_text;
mod floppy;
mod hex;
pub mod layout;
mod standard;
mod sums;
mod volume_size;
mod writing;

pub use boot::BootKind;
pub use boot_blocks::{LongBoot, boot_image, install_standard, restore_boot};
pub use code::{BootCode, boot_bytes, boot_code};
pub use code_text::{boot_text, code_line};
pub use floppy::Image;
pub use layout::Format;
pub use standard::STANDARD_BOOT;
pub use volume_size::{MOST_BYTES, SizeFault, SizeRefused, page_count, size_ok};
