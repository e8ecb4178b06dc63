//! The description of an entry.
ghost use Rattle.std.specs.Prelude.{◌≡◌, ◌++◌, ◌∷◌, decimal, IfOk, OnOk};
ghost use Rattle.ados_salvage.specs.Salvaged.{broken_length, ended, is_cut, missing_in};

use ados_name::{Comment, Date3, Name, Protect};
use itoa::Buffer;
use std::alloc::{AllocError, Global};

/// An entry of an image that can be trusted as far as its state says. Of a lost one, only its name and its place mean
/// something.
#[derive(Drop)]
pub struct Salvaged {
    /// The block number of its header, which may be gone.
    pub header: u32,
    /// The position of its directory in the list of entries, which is before it. `None` is the root, or `lost+found` for
    /// a recovered entry.
    pub above: Option<usize>,
    /// Whether it was recovered: no hash chain from the root leads to it. Its path then starts with `lost+found`, even
    /// if its directory was not recovered.
    pub found: bool,
    /// The name in the header. If a lost entry has none that is valid, or no header is left, it is `block-` with the number of
    /// its block.
    pub name: Name,
    /// How often `~` and the header follow the name, since it is in use in the directory already.
    pub endings: u32,
    pub protection: Protect,
    pub date: Date3,
    pub comment: Comment,
    pub state: State,
}

/// The kind of an entry, and how much of it is left.
#[derive(Clone, Copy, PartialEq, Eq)]
pub enum State {
    Directory,
    /// A directory whose header has a wrong checksum or too long a comment.
    DoubtfulDirectory,
    Whole,
    /// A file of which no data block is missing, but which is not whole.
    Doubtful {
        header: HeaderState,
        /// The number of its bytes.
        length: usize,
    },
    /// An entry that its directory or another entry names, without a header that can be told. Nothing is left of it.
    Lost,
    /// A file of which only the blocks are left that were given to it. `missing` is the number of its other data
    /// blocks.
    Broken {
        missing: u32,
        /// Whether its bytes end before its last block, because of the limit for all broken files together.
        cut: bool,
        /// The number of its bytes.
        length: usize,
    },
}

/// What the header of a file is like that is not whole.
#[derive(Clone, Copy, PartialEq, Eq)]
pub enum HeaderState {
    /// It is sound. Then another of its blocks is not, or is named by another file too, or holds a known filler.
    Sound,
    /// It has a wrong checksum or too long a comment.
    Doubtful,
    /// It is gone: the file is what is left in the OFS data blocks that name it. (Of an FFS file without a header the data blocks that
    /// its header named are missing, so it is broken.)
    Gone,
}

impl State {
    /// The number of missing data blocks: only a broken file has any.
    pub fn missing(self) -> u32
        ensures { result ≡ missing_in self }
    {
        match self {
            State::Broken { missing, .. } => missing,
            _ => 0,
        }
    }

    /// Whether it is cut short: only a broken file is.
    pub fn is_cut(self) -> bool
        ensures { result ≡ is_cut self }
    {
        match self {
            State::Broken { cut, .. } => cut,
            _ => false,
        }
    }

    /// The number of bytes of a file that is not whole.
    pub(crate) fn broken_length(self) -> usize
        ensures { result ≡ broken_length self }
    {
        match self {
            State::Doubtful { length, .. } | State::Broken { length, .. } => length,
            _ => 0,
        }
    }
}

impl Salvaged {
    /// Its name in its directory: the name in the header and its endings.
    pub fn own_name(&self, alloc: Global) -> Result<Vec<u8>, AllocError>
        ensures { IfOk result (λ name. name.items ≡ ended self.now.name self.now.header self.now.endings) }
    {
        let mut text = Vec::from_slice(alloc, self.name.bytes())?;
        for _ending in 0..self.endings {
            push_ending(&mut text, self.header)?;
        }
        Ok(text)
    }
}

/// Appends `~` and the number of a header.
pub(crate) fn push_ending(text: &mut Vec<u8>, header: u32) -> Result<(), AllocError>
    ensures { OnOk result (text.new.items ≡ text.old.items ++ 126 ∷ decimal header) }
{
    text.push(b'~')?;
    text.extend_from_slice(Buffer::new().format(header).as_bytes())
}
