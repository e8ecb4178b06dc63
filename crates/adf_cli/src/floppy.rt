//! The sizes and the tracks of floppies.

/// The blocks of a double-density floppy.
pub const DOUBLE_DENSITY: u32 = 1_760;

/// The blocks of a high-density floppy.
pub const HIGH_DENSITY: u32 = 3_520;

/// The sectors in a track of a double-density floppy.
pub const DOUBLE_TRACK: u32 = 11;

/// The sectors in a track of a high-density floppy.
pub const HIGH_TRACK: u32 = 22;

/// The cylinders of a floppy.
pub const CYLINDERS: u32 = 80;

/// The heads of a drive, each with one track of a cylinder.
pub const HEADS: u32 = 2;
