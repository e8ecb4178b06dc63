//! The state of a file.
ghost use Rattle.std.specs.Prelude.{◌≡◌, ◌+◌, ◌≤◌, IfOk, OnOk};
ghost use Rattle.ados_salvage.specs.Doubtful.{IsHeader};
ghost use Rattle.ados_salvage.specs.Known.{AreKnown};
ghost use Rattle.ados_salvage.specs.Missing.{TellsMissing};
ghost use Rattle.ados_salvage.specs.Salvaged.{HasState, broken_length, missing_in};
ghost use Rattle.ados_salvage.specs.steps.Counting.{GivesMore, HasNone};
ghost use Rattle.ados_salvage.specs.steps.Settling.{IsDamaged};
ghost use Rattle.ados_salvage.specs.steps.Giving.{IsGiving};

use crate::giving::{Giving, Remains};
use crate::known::{Known, is_file, is_sound_header, is_whole};
use crate::salvaged::{HeaderState, State};
use std::alloc::AllocError;

/// The state of a header whose entry has this position. A file that is not whole is given its blocks, and as many bytes as
/// are left for it. If no block is missing, and it has all these bytes, it is doubtful.
pub(crate) fn state_of(
    known: &Known,
    block: u32,
    place: usize,
    giving: &mut Giving,
) -> Result<State, AllocError>
    requires header { IsHeader known.now.left_out known.now.image block }
    requires known { AreKnown known.now }
    requires giving { IsGiving known.now.holes.items known.now.image giving.old }
    ensures state { IfOk result (HasState known.now.left_out known.now.holes.items known.now.fillers known.now.image block) }
    ensures giving { OnOk result (IsGiving known.now.holes.items known.now.image giving.new) }
    ensures left { IfOk result (λ state. broken_length state + giving.new.left ≡ giving.old.left) }
    ensures more { OnOk result (GivesMore known.now.image block place giving.old.pieces.items giving.new.pieces.items) }
    ensures missing { IfOk result (λ state. HasNone giving.old.pieces.items place → TellsMissing known.now.image giving.new.pieces.items place block state) }
{
    let image = &known.image;
    let sound = is_sound_header(image, block);
    if !is_file(image, block) {
        return Ok(if sound {
            State::Directory
        } else {
            State::DoubtfulDirectory
        });
    }
    if is_whole(known, block)? {
        return Ok(State::Whole);
    }
    let remains = giving.give(known, block, place)?;
    let header = if sound {
        HeaderState::Sound
    } else {
        HeaderState::Doubtful
    };
    let state = damaged(remains, giving.left, header);
    giving.left -= state.broken_length();
    Ok(state)
}

/// The state of a file that is not whole, with as many of its bytes as are left for it.
pub(crate) fn damaged(remains: Remains, left: usize, header: HeaderState) -> State
    ensures state { IsDamaged header result }
    ensures length { broken_length result ≤ left }
    ensures missing { missing_in result ≡ remains.missing }
{
    let length = remains.end.min(left);
    let cut = length < remains.end;
    if remains.missing == 0 && !cut {
        return State::Doubtful { header, length };
    }
    State::Broken {
        missing: remains.missing,
        cut,
        length,
    }
}
