//! The boot blocks, 0 and 1: the DOS type of the disk, and the checksum of its boot code.

ghost use Rattle.std.specs.Prelude.{◌≡◌, ◌≤◌, ◌^◌, ◌↔◌, IsTrue};
ghost use Rattle.adf_block.specs.Image.{long, total};
ghost use Rattle.adf_block.specs.Fields.{format_of};
ghost use Rattle.adf_block.specs.Boot.{HasKind, boot_long, boot_sum, carried_sum};

use crate::Format;
use crate::beside::{BOOT_CHECKSUM, KIND_BYTE};
use crate::floppy::Image;
use crate::layout::{BLOCK_LONGS, BOOT_BLOCKS};

/// The DOS type of a disk: the first four bytes of its image.
#[derive(Clone, Copy, PartialEq, Eq)]
pub enum BootKind {
    /// `DOS`, 0: the old file system.
    Ofs,
    /// `DOS`, 1: the fast file system.
    Ffs,
    /// `DOS`, then another byte.
    OtherDos(u8),
    /// Other bytes than `DOS`.
    NotDos,
}

impl Image {
    /// The DOS type of the disk, from bytes 0 to 3 of block 0.
    pub fn boot_kind(&self) -> BootKind
        ensures { HasKind self.now result }
    {
        prove!(self.blocks() >= 2);
        if self.byte(0, 0) != b'D' || self.byte(0, 1) != b'O' || self.byte(0, 2) != b'S' {
            return BootKind::NotDos;
        }
        match self.byte(0, KIND_BYTE) {
            0 => BootKind::Ofs,
            1 => BootKind::Ffs,
            other => BootKind::OtherDos(other),
        }
    }

    /// How the volume's data blocks are laid out: byte 3 of block 0 is 0 for OFS. Any other byte counts as FFS.
    pub fn format(&self) -> Format
        ensures { result ≡ format_of self.now }
    {
        prove!(self.blocks() >= 2);
        match self.byte(0, KIND_BYTE) {
            0 => Format::Ofs,
            _ => Format::Ffs,
        }
    }

    /// Whether long 1 of block 0 is the checksum of the two boot blocks. AmigaDOS boots only from such a disk
    /// (AmigaDOS Technical Reference). No other call depends on it.
    pub fn is_bootable(&self) -> bool
        ensures { IsTrue result ↔ (long self.now 0 1 ≡ boot_sum self.now) }
    {
        prove!(self.blocks() >= 2);
        self.long(0, BOOT_CHECKSUM) == self.boot_sum()
    }

    /// The checksum of the two boot blocks that belongs in long 1 of block 0: the complement of an end-around-carry
    /// sum.
    pub fn boot_sum(&self) -> u32
        ensures { result ≡ boot_sum self.now }
    {
        !carry_round(self.boot_total())
    }

    /// The sum of the 256 longs of the boot blocks without the checksum's own long. It does not wrap.
    fn boot_total(&self) -> u64
        ensures total { result ≡ total (boot_long self.now) 256 }
        ensures bound { result ≤ 2 ^ 40 }
    {
        prove!(self.blocks() >= 2);
        let mut total = 0_u64;
        for k in 0..BOOT_BLOCKS * BLOCK_LONGS {
            if k != BOOT_CHECKSUM {
                total += u64::from(self.long(k / BLOCK_LONGS, k % BLOCK_LONGS));
            }
        }
        total
    }
}

/// The end-around-carry sum: the carries out of 32 bits are added back.
fn carry_round(total: u64) -> u32
    requires { total ≤ 2 ^ 40 }
    ensures { result ≡ carried_sum total }
{
    let once = (total & 0xffff_ffff) + (total >> 32);
    let twice = (once & 0xffff_ffff) + (once >> 32);
    twice as u32
}
