//! The order in which items are written.
ghost use Rattle.std.specs.Prelude.{◌≡◌, length, map, IfOk};
ghost use Rattle.std.specs.List.{range_with_len};
ghost use Rattle.adf_host.specs.Order.{IsEachOnce};

use crate::trees::items::{HostItem, above};
use std::alloc::{AllocError, Global};

/// The number of an item in the order of writing, and its place in the list.
type Numbered = (Option<usize>, usize);

/// The places of the items, depth first: a directory, then directly what is in it, in the order of the list. So the way from
/// one item to the next goes through each directory once down and once up.
pub(crate) fn depth_first(alloc: Global, items: &[HostItem]) -> Result<Vec<usize>, AllocError>
    ensures each { IfOk result (λ order. IsEachOnce items.now order.items) }
    ensures count { IfOk result (λ order. length order.items ≡ length items.now) }
{
    let mut pairs = numbered(alloc, items)?;
    pairs.sort_unstable();
    let order = places_of(alloc, &pairs)?;
    Ok(order)
}

/// The place of each item, after its number in the order of writing.
fn numbered(alloc: Global, items: &[HostItem]) -> Result<Vec<Numbered>, AllocError>
    ensures { IfOk result (λ pairs. map (λ pair. pair.1) pairs.items ≡ range_with_len 0 (length items.now)) }
{
    let numbers = numbers_of(alloc, items)?;
    let mut pairs = Vec::with_capacity(alloc, items.len())?;
    for place in 0..items.len() {
        pairs.push((numbers.get(place).copied(), place))?;
    }
    Ok(pairs)
}

/// The places of these pairs.
fn places_of(alloc: Global, pairs: &[Numbered]) -> Result<Vec<usize>, AllocError>
    ensures { IfOk result (λ places. places.items ≡ map (λ pair. pair.1) pairs.now) }
{
    let mut places = Vec::with_capacity(alloc, pairs.len())?;
    for pair in pairs {
        places.push(pair.1)?;
    }
    Ok(places)
}

/// For each item, the number of items that come before it, depth first.
fn numbers_of(alloc: Global, items: &[HostItem]) -> Result<Vec<usize>, AllocError> {
    let sizes = sizes_of(alloc, items)?;
    let mut numbers = Vec::with_capacity(alloc, items.len())?;
    // What comes before the next item at the top, and then before the next one in each item.
    let mut before_next = Vec::with_capacity(alloc, items.len().saturating_add(1))?;
    before_next.push(0_usize)?;
    for (item, size) in items.iter().zip(&sizes) {
        let Some(before) = before_next.get_mut(index_above(item)) else {
            break;
        };
        let number = *before;
        *before = number.saturating_add(*size);
        numbers.push(number)?;
        before_next.push(number.saturating_add(1))?;
    }
    Ok(numbers)
}

/// The index of the directory of an item, in a list in which the top comes before all items.
fn index_above(item: &HostItem) -> usize {
    match item.above {
        Some(above) => above.saturating_add(1),
        None => 0,
    }
}

/// For each item, the number of items that are in it or below, and itself.
fn sizes_of(alloc: Global, items: &[HostItem]) -> Result<Vec<usize>, AllocError> {
    let mut sizes = vec![in alloc; 1_usize; items.len()]?;
    for place in (0..items.len()).rev() {
        let Some(above) = above(items, place) else {
            continue;
        };
        let size = sizes.get(place).copied().unwrap_or(0);
        if let Some(whole) = sizes.get_mut(above) {
            *whole = whole.saturating_add(size);
        }
    }
    Ok(sizes)
}
