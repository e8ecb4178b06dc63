//! The map of a handle's image: who owns each block.

ghost use Rattle.std.specs.Prelude.{◌≡◌, MatchResult};
ghost use Rattle.adf_c.specs.Owners.{MapsOwners};
ghost use Rattle.adf_c.specs.declared.values.refusal.Refusal.TheVariants.{NoMemory};
ghost use Rattle.adf_c.specs.Map.{MapEnds, MapsHeld, RefusesMap};

use crate::handle::{Holder, JipHandle};
use crate::values::{JipOwner, Refusal, copy_to, owners_of};
use ados_volume::Volume;
use std::alloc::Global;

/// Lists the owner of each block of the image, in the order of the blocks. They are written to `owners`, as many as it
/// has room for, and `count` is how many there are: one for each block. The status is 0.
///
/// Status 2: out of memory. Status 3: a closed handle. In these cases nothing is written.
#[unsafe(no_mangle)]
pub extern "C" fn jip_lib_map(
    alloc: Global,
    handle: &mut JipHandle,
    owners: &mut [JipOwner],
    count: &mut usize,
) -> i32
    ensures maps { MapEnds handle.old.held owners.old owners.new count.old count.new result }
    ensures same { handle.new.held ≡ handle.old.held }
{
    match map(alloc, handle) {
        Ok(told) => {
            *count = copy_to(&told, owners);
            0
        }
        Err(refusal) => refusal.number(),
    }
}

/// The owners of the blocks of a handle's image.
fn map(alloc: Global, handle: &mut JipHandle) -> Result<Vec<JipOwner>, Refusal>
    ensures maps { MatchResult result (λ told. MapsHeld handle.old.held told.items) (RefusesMap handle.old.held) }
    ensures same { handle.new.held ≡ handle.old.held }
{
    let Some(desk) = handle.take(alloc) else {
        return Err(Refusal::WrongArgument);
    };
    let outcome = owners_in(alloc, desk.handler.volume());
    handle.put(desk);
    outcome
}

/// The owners of the blocks of a volume.
fn owners_in(alloc: Global, volume: &Volume) -> Result<Vec<JipOwner>, Refusal>
    ensures { MatchResult result (λ told. MapsOwners volume.now.image told.items) (λ refusal. refusal ≡ NoMemory) }
{
    match owners_of(alloc, volume) {
        Ok(told) => Ok(told),
        Err(_) => Err(Refusal::NoMemory),
    }
}
