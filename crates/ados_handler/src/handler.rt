//! The handler: a volume, the locks and handles on it, and whether it has died.

ghost use Rattle.std.specs.Prelude.{◌≡◌};
ghost use Rattle.ados_model.specs.Session.{opening_session};
ghost use Rattle.ados_handler.specs.HandlerState.{no_places};

use crate::table::Table;
use ados_model::{HandleHold, LockHold};
use ados_volume::Volume;
use std::alloc::Global;
use std::marker::Model;

/// A handler over a volume. Contracts see the volume's image, the holds and whether there are places for more, and are
/// about the tree that the image represents.
#[derive(Drop)]
pub struct Handler {
    pub(crate) volume: Volume,
    pub(crate) locks: Table<LockHold>,
    pub(crate) handles: Table<HandleHold>,
    pub(crate) died: bool,
}

impl Model for Handler {
    ghost use Rattle.ados_model.specs.Codes.{session_of};
    ghost use Rattle.ados_handler.specs.Codes.{handler_code};
    ghost use Rattle.ados_handler.specs.HandlerState.{HandlerState};
    ghost use Rattle.ados_handler.specs.Gives.{IsSoundHandler};

    ghost Value = { HandlerState };

    ghost coded = { handler_code };

    ghost view = { λ h. record {
      image = h.volume.image;
      was_validated = h.volume.was_validated;
      session = session_of h.locks.held h.handles.held h.died;
      places = record { for_lock = h.locks.ready; for_handle = h.handles.ready };
    } };

    ghost invariant = { λ h. IsSoundHandler h.volume.image (session_of h.locks.held h.handles.held h.died) };
}

impl Handler {
    /// Makes a handler without locks and handles. It allocates memory for them with `alloc`.
    pub fn new(alloc: Global, volume: Volume) -> Handler
        ensures image { result.image ≡ volume.image }
        ensures validated { result.was_validated ≡ volume.was_validated }
        ensures session { result.session ≡ opening_session }
        ensures places { result.places ≡ no_places }
    {
        prove!(volume.image().blocks() >= 16);
        Handler {
            volume,
            locks: Table::new(alloc),
            handles: Table::new(alloc),
            died: false,
        }
    }

    /// Whether a DIE was served. Once true, it stays true.
    pub fn died(&self) -> bool
        ensures { result ≡ self.now.session.died }
    {
        self.died
    }

    /// The handler's volume, to read it between packets.
    pub fn volume(&self) -> &Volume
        ensures image { result.now.image ≡ self.now.image }
        ensures validated { result.now.was_validated ≡ self.now.was_validated }
    {
        &self.volume
    }

    /// Ends the handler, with all its locks and file handles, and returns its volume.
    pub fn into_volume(self) -> Volume
        ensures image { result.image ≡ self.image }
        ensures validated { result.was_validated ≡ self.was_validated }
    {
        self.volume
    }
}
