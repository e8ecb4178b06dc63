//! Why entries are doubtful or cut short.
ghost use Rattle.std.specs.Prelude.{◌≡◌, IfOk};
ghost use Rattle.std.specs.String.{string_bytes};
ghost use Rattle.adf_rescue.specs.Reasons.{reason_text};

use std::alloc::{AllocError, Global};

/// Why an entry is doubtful or cut short.
#[derive(Clone, Copy)]
pub enum Doubt {
    /// This block of it, which may be its header, has a wrong checksum.
    Sum(u32),
    /// The comment in its header is too long.
    Comment,
    /// Nobody read this block of it, its header or an extension block.
    Hole(u32),
    /// This block of it is also one of the entry at this position.
    Shared(u32, usize),
    /// This data block of it holds a known filler, which a copying program may have written in place of its bytes.
    Filler(u32),
    /// This block of it has a wrong field.
    Field(u32),
    /// It has no header: it is what is left in the data blocks that name it.
    Gone,
    /// Its bytes end early, because of the limit for all files that are not whole.
    Cut,
}

impl Doubt {
    /// What the entry is: `doubtful` or `cut short`.
    pub fn word(self) -> &'static str {
        match self {
            Doubt::Cut => "cut short",
            _ => "doubtful",
        }
    }

    /// Why, as standard error and JSON say it. `other` is the path of the entry that has a block of it too.
    pub fn reason(self, alloc: Global, other: &str) -> Result<String, AllocError>
        ensures { IfOk result (λ text. string_bytes text ≡ reason_text other.now self) }
    {
        match self {
            Doubt::Sum(block) => {
                let text = format!(in alloc; "block {block} has a wrong checksum")?;
                Ok(text)
            }
            Doubt::Comment => String::from_str(alloc, "the comment in its header is too long"),
            Doubt::Hole(block) => {
                let text = format!(in alloc; "block {block} could not be read")?;
                Ok(text)
            }
            Doubt::Shared(block, _) => {
                let text = format!(in alloc; "block {block} is in '{other}' too")?;
                Ok(text)
            }
            Doubt::Filler(block) => {
                let text = format!(in alloc; "block {block} holds a filler")?;
                Ok(text)
            }
            Doubt::Field(block) => {
                let text = format!(in alloc; "block {block} has a wrong field")?;
                Ok(text)
            }
            Doubt::Gone => String::from_str(alloc, GONE),
            Doubt::Cut => String::from_str(alloc, CUT),
        }
    }
}

/// A file is doubtful because it has no header.
const GONE: &str = "its header is gone, and it is made of the data blocks that name it";

/// A file is cut short because of the bound for all of them.
const CUT: &str = "incomplete files may have at most four times the bytes of the image in all";
