//! Names of host files that are written.
ghost use Rattle.std.specs.Prelude.{◌≡◌, ◌≢◌, ◌≤◌, ◌++◌, All, IfOk, length};
ghost use Rattle.std.specs.String.{string_bytes};
ghost use Rattle.adf_text.specs.HostNames.{host_name, IsHostName};
ghost use Rattle.adf_host.specs.Notes.{IsBesideNotes, note_of};

use crate::trees::notes::{note_name, noted_name};
use adf_text::host_name;
use ados_name::Name;
use std::alloc::{AllocError, Global};
use std::marker::Model;

/// One name of a host file: not empty, not `.` or `..`, with no `/` and no NUL. Contracts see the bytes.
#[derive(Drop)]
pub struct HostName {
    text: String,
}

impl Model for HostName {
    ghost use Rattle.std.specs.Prelude.{ℕ, List};
    ghost use Rattle.std.specs.String.{string_bytes};
    ghost use Rattle.adf_text.specs.HostNames.{IsHostName};

    ghost Value = { List ℕ };

    ghost view = { λ name. string_bytes name.text };

    ghost invariant = { λ name. IsHostName (string_bytes name.text) };
}

impl HostName {
    /// The host name of an entry.
    pub fn of_name(alloc: Global, name: &Name) -> Result<HostName, AllocError>
        ensures { IfOk result (λ host. host ≡ host_name name.now) }
    {
        let text = host_name(alloc, name)?;
        Ok(HostName { text })
    }

    /// This name with an ending.
    pub fn with_ending(&self, alloc: Global, ending: &str) -> Result<HostName, AllocError>
        requires long { 2 ≤ length ending.now }
        requires plain { All (λ c. (c ≢ 0) × (c ≢ 47)) ending.now }
        ensures { IfOk result (λ name. name ≡ self.now ++ ending.now) }
    {
        let text = format!(in alloc; "{}{ending}", self.as_str())?;
        Ok(HostName { text })
    }

    /// The name for the same entry in a directory with notes. The name of an entry may end as that of a note does: then the
    /// dot of this ending gets an escape.
    pub fn beside_notes(self, alloc: Global) -> Result<HostName, AllocError>
        ensures { IfOk result (λ name. IsBesideNotes self name) }
    {
        let Some(noted) = noted_name(self.as_str()) else {
            return Ok(self);
        };
        let text = format!(in alloc; "{noted}%2Euaem")?;
        Ok(HostName { text })
    }

    /// The name of the note that belongs to the file with this name.
    pub fn note(&self, alloc: Global) -> Result<HostName, AllocError>
        ensures { IfOk result (λ name. name ≡ note_of self.now) }
    {
        let text = note_name(alloc, self.as_str())?;
        Ok(HostName { text })
    }

    /// The name as text.
    pub fn as_str(&self) -> &str
        ensures value { result.now ≡ self.now }
        ensures proper { IsHostName self.now }
    {
        self.text.as_str()
    }
}
