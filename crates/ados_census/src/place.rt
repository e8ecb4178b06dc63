//! Places: the longs of reached blocks that name other blocks.
ghost use Rattle.std.specs.Prelude.{◌≡◌, ◌<◌};
ghost use Rattle.ados_census.specs.Places.{rank};

/// What a place makes of the block that it names.
#[derive(Clone, Copy, PartialEq, Eq)]
pub enum PlaceKind {
    /// The first entry of a hash chain.
    Entry,
    /// The next entry of a hash chain.
    NextEntry,
    /// The next extension block of a file.
    Extension,
    /// A data block.
    Data,
    /// A bitmap block.
    Page,
}

/// A place: the block that has it, its long there, and what it makes of the block that it names.
#[derive(Clone, Copy)]
pub struct Place {
    pub holder: u32,
    pub long: u32,
    pub kind: PlaceKind,
}

/// The number of kinds.
pub(crate) const KINDS: u32 = 5;

/// The kind with a number.
pub(crate) fn kind_at(number: u32) -> PlaceKind
    requires { number < KINDS }
    ensures { rank result ≡ number }
{
    match number {
        0 => PlaceKind::Entry,
        1 => PlaceKind::NextEntry,
        2 => PlaceKind::Extension,
        3 => PlaceKind::Data,
        _ => PlaceKind::Page,
    }
}
