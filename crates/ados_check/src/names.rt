//! The names of the entries: each once in its directory.
ghost use Rattle.std.specs.Prelude.{MatchResult};
ghost use Rattle.ados_model.specs.Accepted.{IsRefusal};
ghost use Rattle.ados_check.specs.Marks.{AreReached, AreUnlike};

use crate::entries::directory_of;
use crate::mark::Mark;
use crate::naming::{UPPER_BYTES, upper_name};
use crate::reaching::NO_MEMORY;
use crate::source::Source;
use ados_model::{FaultKind, VolumeFault};
use std::alloc::Global;
use std::collections::BTreeSet;

/// A name in a directory, in the form for comparison.
#[derive(Clone, Copy, PartialEq, Eq, PartialOrd, Ord)]
struct EntryName {
    dir: u32,
    /// The length, the bytes in upper case, then zeros.
    name: [u8; UPPER_BYTES],
}

/// Checks that no two marked entries of a directory have the same name. Each name goes into a sorted set. A duplicate
/// is a fault of the later block; out of memory has block 0.
pub fn check_names(
    alloc: Global,
    source: &Source<'_>,
    marks: &[Option<Mark>],
) -> Result<(), VolumeFault>
    requires { AreReached source.now.bytes marks.now }
    ensures { MatchResult result (λ _. AreUnlike source.now.bytes marks.now) (IsRefusal source.now.bytes) }
{
    let mut names = BTreeSet::new(alloc);
    for block in 0..source.blocks() {
        if let Some(dir) = directory_of(marks, block) {
            let name = upper_name(source, block);
            match names.insert(EntryName { dir, name }) {
                Ok(true) => {}
                Ok(false) => {
                    return Err(VolumeFault {
                        kind: FaultKind::DuplicateName,
                        block,
                    });
                }
                Err(_) => return Err(NO_MEMORY),
            }
        }
    }
    Ok(())
}
