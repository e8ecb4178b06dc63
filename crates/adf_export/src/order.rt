//! The entries of a directory, in an order.
ghost use Rattle.std.specs.Prelude.{◌≡◌, ◌≢◌, All, AllPairs, IfOk, map};
ghost use Rattle.ados_model.specs.Keys.{HasDirectory, HasKey};
ghost use Rattle.ados_model.specs.Stands.{Stands};
ghost use Rattle.ados_model.specs.Tree.{Tree, entries};
ghost use Rattle.adf_export.specs.Ordered.{comes_before, date_weight, ordered, size_weight, sorted, weight};
ghost use Rattle.ados_name.specs.Name.{upper as upper_of};
ghost use Rattle.std.specs.BTreeMap.{values};
ghost use Rattle.adf_export.specs.steps.Ranked.{IsRank};

use crate::keys::{entry_behind, is_file};
use adf_cli::ListOrder;
use ados_model::FileInfo;
use ados_name::{Date3, upper};
use ados_volume::Volume;
use std::alloc::{AllocError, Global};
use std::collections::BTreeMap;

/// The place of an entry among those of its directory. The smaller come first.
#[derive(PartialEq, Eq, PartialOrd, Ord, Drop)]
pub struct Rank {
    /// What the order goes by, before the name.
    weight: [u32; 3],
    /// The name in upper case.
    name: Vec<u8>,
    key: u32,
}

/// The keys of a directory's entries, in an order.
pub(crate) fn ordered_keys(
    alloc: Global,
    volume: &Volume,
    dir: u32,
    order: ListOrder,
) -> Result<Vec<u32>, AllocError>
    requires { HasDirectory volume.now.image dir }
    ensures keys { IfOk result (λ keys. All (HasKey volume.now.image) keys.items) }
    ensures order { IfOk result (λ keys. (t : Tree) → Stands volume.now.image t → keys.items ≡ ordered t order dir) }
{
    prove!(volume.image().blocks() >= 16);
    let keys = keys_in(alloc, volume, dir)?;
    match order {
        ListOrder::Disk => Ok(keys),
        _ => {
            let sorted = sorted_keys(alloc, volume, &keys, order)?;
            Ok(sorted)
        }
    }
}

/// The keys of a directory's entries, as in the directory.
fn keys_in(alloc: Global, volume: &Volume, dir: u32) -> Result<Vec<u32>, AllocError>
    requires { HasDirectory volume.now.image dir }
    ensures { IfOk result (λ keys. (t : Tree) → Stands volume.now.image t → keys.items ≡ entries t dir) }
{
    prove!(volume.image().blocks() >= 16);
    let mut keys = Vec::new(alloc);
    let mut last = dir;
    while let Some(key) = entry_behind(volume, dir, last) {
        keys.push(key)?;
        last = key;
    }
    Ok(keys)
}

/// These keys by rank.
fn sorted_keys(
    alloc: Global,
    volume: &Volume,
    keys: &[u32],
    order: ListOrder,
) -> Result<Vec<u32>, AllocError>
    requires keys { All (HasKey volume.now.image) keys.now }
    requires once { AllPairs (λ j k. j ≢ k) keys.now }
    ensures { IfOk result (λ found. (t : Tree) → Stands volume.now.image t → found.items ≡ sorted (comes_before t order) keys.now) }
{
    let mut ranked = BTreeMap::new(alloc);
    for key in keys {
        let rank = rank_of(alloc, volume, *key, order)?;
        ranked.insert(rank, *key)?;
    }
    let found = keys_of(alloc, ranked)?;
    Ok(found)
}

/// The keys of ranked entries, in order.
fn keys_of(alloc: Global, ranked: BTreeMap<Rank, u32>) -> Result<Vec<u32>, AllocError>
    ensures { IfOk result (λ keys. keys.items ≡ values ranked) }
{
    ranked.into_values().collect(alloc)
}

/// The rank of an entry.
fn rank_of(alloc: Global, volume: &Volume, key: u32, order: ListOrder) -> Result<Rank, AllocError>
    requires { HasKey volume.now.image key }
    ensures { IfOk result (λ rank. (t : Tree) → Stands volume.now.image t → IsRank t order key rank) }
{
    let info = volume.examine(key);
    let name = upper_name(alloc, info.name.bytes())?;
    Ok(Rank {
        weight: weight_of(&info, order),
        name,
        key,
    })
}

/// A name in upper case.
fn upper_name(alloc: Global, name: &[u8]) -> Result<Vec<u8>, AllocError>
    ensures { IfOk result (λ upper. upper.items ≡ map upper_of name.now) }
{
    name.iter().map(|byte| upper(*byte)).collect(alloc)
}

/// What an order goes by before the name: the size, the largest file first and directories last; or the date, the
/// latest first.
fn weight_of(info: &FileInfo, order: ListOrder) -> [u32; 3]
    ensures { result ≡ weight order info.now }
{
    match order {
        ListOrder::Disk | ListOrder::Name => [0, 0, 0],
        ListOrder::Size => size_weight(info),
        ListOrder::Date => date_weight(info.date),
    }
}

/// Files before directories, and the largest file first.
fn size_weight(info: &FileInfo) -> [u32; 3]
    ensures { result ≡ size_weight info.now }
{
    if is_file(info) {
        [0, u32::MAX - info.size, 0]
    } else {
        [1, 0, 0]
    }
}

/// The latest date first.
fn date_weight(date: Date3) -> [u32; 3]
    ensures { result ≡ date_weight date }
{
    [
        u32::MAX - date.days,
        u32::MAX - date.minutes,
        u32::MAX - date.ticks,
    ]
}
