//! The texts in packets.
ghost use Rattle.std.specs.Prelude.{◌≡◌, IfOk};

use ados_name::PathText;
use std::alloc::{AllocError, Global};
use std::marker::Model;

/// A path, a name or a comment in a packet. Its bytes are in separate memory, so a packet is as small with a text as
/// without. Contracts see the bytes.
#[derive(Drop)]
pub struct Text {
    path: Box<PathText>,
}

impl Model for Text {
    ghost use Rattle.std.specs.Prelude.{List, ℕ};

    ghost Value = { List ℕ };

    ghost view = { λ text. text.path.value };
}

impl Text {
    /// Puts the path into memory of its own. It fails if there is no memory.
    pub fn new(alloc: Global, path: PathText) -> Result<Text, AllocError>
        ensures { IfOk result (λ text. text ≡ path) }
    {
        let path = Box::new(alloc, path)?;
        Ok(Text { path })
    }

    /// The text as a path.
    pub fn path(&self) -> &PathText
        ensures { result.now ≡ self.now }
    {
        &self.path
    }
}
