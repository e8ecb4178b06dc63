//! The entries of a salvage for C.

ghost use Rattle.std.specs.Prelude.{◌≡◌};
ghost use Rattle.adf_c.specs.Salvaged.{told_above, told_salvaged, told_state, yes_number};

use crate::values::answer::cells;
use crate::values::date::JipDate;
use ados_salvage::{Salvaged, State};

/// An entry of an image that can be trusted as far as its state says. The name is not here, since it has no bound.
#[repr(C)]
#[derive(Clone, Copy)]
pub struct JipSalvaged {
    /// The position of its directory, or 2^64 - 1 for an entry of the root or of `lost+found`.
    pub directory: usize,
    /// The number of its bytes; 0 for a directory and a lost entry.
    pub size: usize,
    /// 1 for a directory, 2 for a whole file, 3 for a broken one, 4 for a lost entry, 5 for a doubtful file, 6 for a doubtful
    /// directory.
    pub state: u32,
    /// The block number of its header.
    pub header: u32,
    /// 1 if no hash chain from the root leads to it, else 0.
    pub is_found: u32,
    /// How many data blocks of a broken file are missing; else 0.
    pub missing: u32,
    /// 1 if the bytes of a broken file end early, because of the limit for all of them; else 0.
    pub is_cut: u32,
    pub protection: u32,
    pub date: JipDate,
    pub comment_length: u32,
    pub comment: [u8; 80],
}

impl JipSalvaged {
    /// An entry with this number of bytes.
    pub fn of(entry: &Salvaged, size: usize) -> JipSalvaged
        ensures { result ≡ told_salvaged entry.now size }
    {
        let comment = entry.comment.bytes();
        JipSalvaged {
            directory: above_of(entry.above),
            size,
            state: state_number(entry.state),
            header: entry.header,
            is_found: yes_number(entry.found),
            missing: entry.state.missing(),
            is_cut: yes_number(entry.state.is_cut()),
            protection: entry.protection.bits(),
            date: JipDate::of(entry.date),
            comment_length: comment.len() as u32,
            comment: cells(comment),
        }
    }
}

fn above_of(above: Option<usize>) -> usize
    ensures { result ≡ told_above above }
{
    match above {
        Some(place) => place,
        None => usize::MAX,
    }
}

fn state_number(state: State) -> u32
    ensures { result ≡ told_state state }
{
    match state {
        State::Directory => 1,
        State::Whole => 2,
        State::Broken { .. } => 3,
        State::Lost => 4,
        State::Doubtful { .. } => 5,
        State::DoubtfulDirectory => 6,
    }
}

/// 1 for yes, 0 for no.
fn yes_number(yes: bool) -> u32
    ensures { result ≡ yes_number yes }
{
    if yes { 1 } else { 0 }
}
