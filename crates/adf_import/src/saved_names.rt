//! Names and comments of the entries of a salvage in a new volume.
ghost use Rattle.std.specs.Prelude.{◌≡◌, IfOk, take};
ghost use Rattle.adf_import.specs.SavedNames.{broken_text, comment_for, doubt_of, joined, name_for, why_of};

use crate::spots::is_whole;
use ados_name::{Comment, Name, upper};
use ados_salvage::{HeaderState, Salvaged, State};
use itoa::Buffer;
use std::alloc::{AllocError, Global};
use std::collections::BTreeSet;

/// The directory for what is not whole.
const DAMAGED: &[u8] = b"Damaged";

/// The directory for what was found.
const LOST_AND_FOUND: &[u8] = b"lost+found";

/// What stands between the reason and the comment of an entry that is not whole.
const BETWEEN: &[u8] = b"; ";

/// The names of the two directories that a new volume has beside those of the old one.
#[derive(Clone, Copy)]
pub struct OwnNames {
    /// The directory for what is not whole.
    pub damaged: Name,
    /// The directory for what was found.
    pub found: Name,
}

impl OwnNames {
    /// Names that no entry of the root has.
    pub(crate) fn beside(alloc: Global, entries: &[Salvaged]) -> Result<OwnNames, AllocError> {
        let mut taken = BTreeSet::new(alloc);
        for entry in entries {
            if entry.above.is_none() && !entry.found {
                let name = name_for(alloc, entry)?;
                taken.insert(upper_case(alloc, &name)?)?;
            }
        }
        Ok(OwnNames {
            damaged: free_name(alloc, &taken, DAMAGED)?,
            found: free_name(alloc, &taken, LOST_AND_FOUND)?,
        })
    }
}

/// The first of a name, and of this name with `-1`, `-2` and so on behind it, that is not taken. The taken ones are in upper case.
fn free_name(alloc: Global, taken: &BTreeSet<Vec<u8>>, name: &[u8]) -> Result<Name, AllocError> {
    let mut text = Vec::from_slice(alloc, name)?;
    for number in 0..taken.len() {
        if !taken.contains(&upper_case(alloc, &text)?) {
            break;
        }
        text.truncate(name.len());
        text.push(b'-')?;
        text.extend_from_slice(Buffer::new().format(number as u64 + 1).as_bytes())?;
    }
    Ok(Name::new(&text).unwrap_or(Name::new(DAMAGED).unwrap()))
}

/// These bytes with a to z in upper case.
fn upper_case(alloc: Global, text: &[u8]) -> Result<Vec<u8>, AllocError> {
    text.iter().map(|byte| upper(*byte)).collect(alloc)
}

/// The name of an entry in the new volume: its name in its directory. If that is longer than a name, bytes before its endings are
/// cut, and then the last of these.
pub(crate) fn name_for(alloc: Global, entry: &Salvaged) -> Result<Vec<u8>, AllocError>
    ensures { IfOk result (λ name. name.items ≡ name_for entry.now) }
{
    let own = entry.own_name(alloc)?;
    let name = entry.name.bytes();
    let ending = cut(&own[name.len().min(own.len())..]);
    let front = name.len().min(Name::MAX_LEN.saturating_sub(ending.len()));
    let mut text = Vec::from_slice(alloc, &name[..front])?;
    text.extend_from_slice(ending)?;
    Ok(text)
}

/// The first bytes, as many as a name has at most.
#[tactic(auto, using(std::proofs::lemmas::List::take_min))]
fn cut(text: &[u8]) -> &[u8]
    ensures { result.now ≡ take 30 text.now }
{
    &text[..Name::MAX_LEN.min(text.len())]
}

/// The comment of an entry in this state, with this comment: if it is not whole, the reason, and the comment behind it if there is room.
pub(crate) fn comment_for(alloc: Global, state: State, old: &[u8]) -> Result<Vec<u8>, AllocError>
    ensures { IfOk result (λ text. text.items ≡ comment_for state old.now) }
{
    if is_whole(state) {
        return Vec::from_slice(alloc, old);
    }
    let why = why_of(alloc, state)?;
    joined(why, old)
}

/// A reason, and a comment behind it if there is one and there is room for it.
fn joined(mut why: Vec<u8>, old: &[u8]) -> Result<Vec<u8>, AllocError>
    ensures { IfOk result (λ text. text.items ≡ joined why.items old.now) }
{
    let room = Comment::MAX_LEN.saturating_sub(why.len() + BETWEEN.len());
    if old.is_empty() || old.len() > room {
        return Ok(why);
    }
    why.extend_from_slice(BETWEEN)?;
    why.extend_from_slice(old)?;
    Ok(why)
}

/// Why an entry is not whole.
fn why_of(alloc: Global, state: State) -> Result<Vec<u8>, AllocError>
    ensures { IfOk result (λ text. text.items ≡ why_of state) }
{
    match state {
        State::Directory | State::Whole | State::Lost => Ok(Vec::new(alloc)),
        State::DoubtfulDirectory => Vec::from_slice(alloc, DOUBTFUL_HEADER),
        State::Doubtful { header, .. } => Vec::from_slice(alloc, doubt_of(header)),
        State::Broken { missing, cut, .. } => broken(alloc, missing, cut),
    }
}

/// Why a file of which no block is missing is doubtful.
fn doubt_of(header: HeaderState) -> &'static [u8]
    ensures { result.now ≡ doubt_of header }
{
    match header {
        HeaderState::Sound =>
            b"doubtful: a block has a wrong checksum or field, or is in another file too",
        HeaderState::Doubtful => DOUBTFUL_HEADER,
        HeaderState::Gone =>
            b"doubtful: its header is gone, and it is made of the blocks that name it",
    }
}

/// A file or directory is doubtful because of its header.
const DOUBTFUL_HEADER: &[u8] = b"doubtful: its header has a wrong checksum or too long a comment";

/// How much of a broken file is missing.
fn broken(alloc: Global, missing: u32, cut: bool) -> Result<Vec<u8>, AllocError>
    ensures { IfOk result (λ text. text.items ≡ broken_text missing cut) }
{
    let mut text = Vec::from_slice(alloc, b"broken, data blocks missing: ")?;
    text.extend_from_slice(Buffer::new().format(missing).as_bytes())?;
    if cut {
        text.extend_from_slice(b", and cut short")?;
    }
    Ok(text)
}
