//! The mark that the handler sets when its server dies, and its two kinds of end.
ghost use Rattle.std.specs.Prelude.{◌≡◌, true, false, IfOk, IsTrue};
ghost use Rattle.ados_port.specs.steps.ClosingMark.{CloseView};

use once_cell::race::{Note, OnceBox};
use std::alloc::{AllocError, Global};
use std::marker::Model;
use std::sync::Arc;

/// The mark: a cell that can be set once. The byte in it has no meaning.
type Mark = OnceBox<u8>;

/// A reading end of the mark. It knows of the close once its note knows a value.
#[derive(Drop)]
pub struct CloseReader {
    mark: Arc<Mark, Global>,
    note: Note<u8>,
}

impl Model for CloseReader {
    ghost use Rattle.std.specs.Prelude.{◌≡◌, is_some};
    ghost use Rattle.std.specs.Arc.{arc_value};
    ghost use Rattle.once_cell.specs.Once.{cell_name};
    ghost use Rattle.ados_port.specs.steps.ClosingMark.{CloseView};

    ghost Value = { CloseView };

    ghost view = { λ m. record { mark = cell_name (arc_value m.mark); knows = is_some m.note.known } };

    ghost invariant = { λ m. m.note.cell ≡ cell_name (arc_value m.mark) };
}

/// The setting end of the mark. It holds the box for the mark until it sets it.
#[derive(Drop)]
pub struct CloseSetter {
    mark: Arc<Mark, Global>,
    note: Note<u8>,
    unset: Option<Box<u8>>,
}

impl Model for CloseSetter {
    ghost use Rattle.std.specs.Prelude.{◌≡◌, is_some, not};
    ghost use Rattle.std.specs.Arc.{arc_value};
    ghost use Rattle.once_cell.specs.Once.{cell_name};
    ghost use Rattle.ados_port.specs.steps.ClosingMark.{CloseView};

    ghost Value = { CloseView };

    ghost view = { λ m. record { mark = cell_name (arc_value m.mark); knows = is_some m.note.known } };

    ghost invariant = { λ m. (m.note.cell ≡ cell_name (arc_value m.mark)) × (is_some m.unset ≡ not (is_some m.note.known)) };
}

impl CloseReader {
    /// Looks at the mark. Returns whether it is known to be set.
    pub fn look(&mut self) -> bool
        ensures mark { self.new.mark ≡ self.old.mark }
        ensures knows { result ≡ self.new.knows }
        ensures stays { self.old.knows ≡ true → self.new.knows ≡ true }
    {
        self.mark.get_as(&mut self.note).is_some()
    }

    /// Returns whether one more look finds the mark set. This end learns nothing from it.
    pub fn finds_set(&mut self) -> bool
        ensures same { self.new ≡ self.old }
        ensures found { self.old.knows ≡ true → result ≡ true }
    {
        let mut note = self.note.again();
        self.mark.get_as(&mut note).is_some()
    }
}

impl CloseSetter {
    /// Makes a mark that is not set.
    pub fn new(alloc: Global) -> Result<CloseSetter, AllocError>
        ensures { IfOk result (λ m. m.knows ≡ false) }
    {
        let unset = Some(Box::new(alloc, 0u8)?);
        let mark = Arc::new(alloc, Mark::new(alloc))?;
        let note = mark.note();
        Ok(CloseSetter { mark, note, unset })
    }

    /// Makes a reading end of this mark, which knows of no close.
    pub fn reader(&self) -> Result<CloseReader, AllocError>
        ensures { IfOk result (λ m. (m.mark ≡ self.now.mark) × (m.knows ≡ false)) }
    {
        let mark = Arc::try_clone(&self.mark)?;
        let note = mark.note();
        Ok(CloseReader { mark, note })
    }

    /// Sets the mark. It needs no memory.
    pub fn set(&mut self)
        ensures { self.new ≡ record { mark = self.old.mark; knows = true } }
    {
        if let Some(unset) = self.unset.take() {
            self.mark.get_or_init_as(move || unset, &mut self.note);
        }
    }

    /// Lets a reader look at this mark. Returns whether the result is consistent. It is inconsistent if the reader
    /// finds the mark set and this end has not set it, which no run can show.
    pub fn hear(&self, reader: &mut CloseReader) -> bool
        ensures same { reader.new ≡ reader.old }
        ensures set { IsTrue result → reader.old.knows ≡ true → self.now.knows ≡ true }
    {
        let found = reader.finds_set();
        !found || self.unset.is_none()
    }
}
