//! The places that name a block, whatever faults an image shows.
ghost use Rattle.std.specs.Prelude.{◌≡◌, ◌+◌, ◌*◌, ◌<◌, IfOk, MatchBool, OnOk};
ghost use Rattle.adf_block.specs.Image.{block_count, long};
ghost use Rattle.adf_block.specs.declared.layout.TheConstants.{BLOCK_LONGS};
ghost use Rattle.ados_census.specs.Places.{AreAllPlaces, Gives, IsPlaceOfReached, kind_of};
ghost use Rattle.ados_census.specs.steps.Placing.{ArePlacesBelow, IsGivenIn};
ghost use Rattle.ados_census.specs.steps.Reaching.{form};

use crate::census::Census;
use crate::place::{KINDS, Place, PlaceKind, kind_at};
use crate::reached::{FORMS, Reached};
use adf_block::Image;
use adf_block::layout::{BLOCK_LONGS, MOST_BLOCKS, NEXT_IN_CHAIN};
use ados_check::{Source, place_role};
use ados_model::Role;
use std::alloc::{AllocError, Global};

/// All places of reached blocks that name a block, by the blocks that have them and then by their longs.
///
/// Time and memory grow linearly with the number of the block's namings.
pub fn places_of(
    alloc: Global,
    census: &Census<'_>,
    reached: &Reached<'_>,
    block: u32,
) -> Result<Vec<Place>, AllocError>
    requires inside { block < block_count census.now }
    requires reached { reached.now ≡ census.now }
    ensures { IfOk result (λ places. AreAllPlaces census.now block places.items) }
{
    prove!(reached.image().blocks() <= MOST_BLOCKS);
    let mut places = Vec::new(alloc);
    for number in census.namings_of(block) {
        let (holder, i) = (number / BLOCK_LONGS, number % BLOCK_LONGS);
        push_places(reached, holder, i, &mut places)?;
    }
    Ok(places)
}

/// Appends a long of a holder as the places that it is.
fn push_places(
    reached: &Reached<'_>,
    holder: u32,
    i: u32,
    places: &mut Vec<Place>,
) -> Result<(), AllocError>
    requires inside { holder < block_count reached.now }
    requires long { i < BLOCK_LONGS }
    requires below { ArePlacesBelow reached.now (long reached.now holder i) (640 * holder + 5 * i) places.old.items }
    ensures { OnOk result (ArePlacesBelow reached.now (long reached.now holder i) (640 * holder + 5 * (i + 1)) places.new.items) }
{
    prove!(reached.image().blocks() <= MOST_BLOCKS);
    for number in 0..KINDS {
        let place = Place {
            holder,
            long: i,
            kind: kind_at(number),
        };
        if is_place(reached, place) {
            places.push(place)?;
        }
    }
    Ok(())
}

/// Whether a place is one of a reached block.
fn is_place(reached: &Reached<'_>, place: Place) -> bool
    requires inside { place.holder < block_count reached.now }
    requires long { place.long < BLOCK_LONGS }
    ensures { MatchBool result (IsPlaceOfReached reached.now place) (¬ IsPlaceOfReached reached.now place) }
{
    for form in 0..FORMS {
        if is_place_in(reached, place, form) {
            return true;
        }
    }
    false
}

/// Whether a place is one of a block that is reached in a role of a form.
fn is_place_in(reached: &Reached<'_>, place: Place, form: u32) -> bool
    requires inside { place.holder < block_count reached.now }
    requires long { place.long < BLOCK_LONGS }
    requires few { form < 4 }
    ensures { MatchBool result (IsGivenIn reached.now place form) (¬ IsGivenIn reached.now place form) }
{
    if !reached.has_in_form(place.holder, form) {
        return false;
    }
    gives(reached.image(), place, role_of(form))
}

/// Whether a block in a role has a place.
fn gives(image: &Image, place: Place, role: Role) -> bool
    requires inside { place.holder < block_count image.now }
    requires long { place.long < BLOCK_LONGS }
    ensures { MatchBool result (Gives image.now place role) (¬ Gives image.now place role) }
{
    let source = Source::whole(image);
    match place_role(&source, place.holder, role, place.long) {
        Some(next) => kind_of(next, place.long) == place.kind,
        None => false,
    }
}

/// What a place makes of the block that it names, by the role that it gives and by its long.
fn kind_of(role: Role, i: u32) -> PlaceKind
    ensures { result ≡ kind_of role i }
{
    match role {
        Role::Entry(_, _) if i == NEXT_IN_CHAIN => PlaceKind::NextEntry,
        Role::Root | Role::Entry(_, _) => PlaceKind::Entry,
        Role::Extension(_) => PlaceKind::Extension,
        Role::Data(_) => PlaceKind::Data,
        Role::Page => PlaceKind::Page,
    }
}

/// A role of a form.
fn role_of(number: u32) -> Role
    requires { number < 4 }
    ensures { form result ≡ number }
{
    match number {
        0 => Role::Root,
        1 => Role::Entry(0, 0),
        2 => Role::Extension(0),
        _ => Role::Data(0),
    }
}
