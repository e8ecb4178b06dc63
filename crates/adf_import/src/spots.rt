//! Where the entries of a salvage stand in a new volume.
ghost use Rattle.std.specs.Prelude.{◌≡◌, ◌↔◌, IsTrue};
ghost use Rattle.adf_import.specs.SavedLeft.{is_directory, root_spot, spot_above};
ghost use Rattle.adf_import.specs.SavedNames.{is_whole};
ghost use Rattle.adf_import.specs.SavedVolume.{spot_of};

use ados_salvage::{Salvaged, State};

/// A place in the new volume: of an entry, of `Damaged` or `lost+found`, or the root.
#[derive(Clone, Copy, PartialEq, Eq, PartialOrd, Ord)]
pub struct Spot {
    /// Whether it is below `Damaged`, or is that directory.
    pub damaged: bool,
    /// Whether it is below `lost+found`, or is that directory.
    pub found: bool,
    /// The position of the entry; `None` for the last of these directories, or for the root.
    pub entry: Option<usize>,
}

impl Spot {
    /// The place of the entry at a position.
    pub(crate) fn of(place: usize, entry: &Salvaged) -> Spot
        ensures { result ≡ spot_of place entry.now }
    {
        Spot {
            damaged: !is_whole(entry.state),
            found: entry.found,
            entry: Some(place),
        }
    }

    /// The place of the directory that it is in; `None` for the root, and for an entry that there is not.
    pub(crate) fn above(self, entries: &[Salvaged]) -> Option<Spot>
        ensures { result ≡ spot_above entries.now self }
    {
        let Spot {
            damaged,
            found,
            entry,
        } = self;
        if let Some(place) = entry {
            let entry = entries.get(place)?.above;
            return Some(Spot {
                damaged,
                found,
                entry,
            });
        }
        match (damaged, found) {
            (_, true) => Some(Spot {
                damaged,
                found: false,
                entry,
            }),
            (true, false) => Some(Spot {
                damaged: false,
                found,
                entry,
            }),
            (false, false) => None,
        }
    }

    /// Whether it is the root.
    pub(crate) fn is_root(self) -> bool
        ensures { IsTrue result ↔ (self ≡ root_spot) }
    {
        !self.damaged && !self.found && self.entry.is_none()
    }
}

/// Whether an entry in this state is a sound directory or a whole file.
pub(crate) fn is_whole(state: State) -> bool
    ensures { result ≡ is_whole state }
{
    matches!(state, State::Directory | State::Whole)
}

/// Whether an entry in this state is a directory.
pub(crate) fn is_directory(state: State) -> bool
    ensures { result ≡ is_directory state }
{
    matches!(state, State::Directory | State::DoubtfulDirectory)
}
