//! What can be saved of an image, for C.

ghost use Rattle.std.specs.Prelude.{◌≡◌, ◌≤◌, pos, length, None, MatchResult};
ghost use Rattle.std.specs.Option.{MatchOption};
ghost use Rattle.adf_c.specs.Buffers.{Refuses, TextEnds};
ghost use Rattle.adf_c.specs.Salvaging.{AtPlace, EntryEnds, HasFileBytes, HasOwnName, InSaved, IsNoPlace, IsPast, IsToldAs, RefusesPlace, SalvageComes, SalvageEnds};

use crate::handle::{Holder, JipSalvage};
use crate::values::{JipSalvaged, Refusal, put, status};
use adf_block::Image;
use ados_salvage::{Salvage, salvage as salvaged};
use std::alloc::Global;

/// Opens a closed salvage on a copy of these bytes. The status is 0, and the bytes are not used afterwards.
///
/// Status 1: the bytes are not whole blocks, too few or too many. Status 2: out of memory. Status 3: the salvage is open
/// already. In these cases it is unchanged.
#[unsafe(no_mangle)]
pub extern "C" fn jip_lib_salvage_open(alloc: Global, bytes: &[u8], salvage: &mut JipSalvage) -> i32
    ensures { SalvageEnds bytes.now salvage.old.held salvage.new.held result }
{
    status(open(alloc, bytes, salvage))
}

fn open(alloc: Global, bytes: &[u8], salvage: &mut JipSalvage) -> Result<(), Refusal>
    ensures { SalvageComes bytes.now salvage.old.held salvage.new.held result }
{
    if salvage.is_open(alloc) {
        return Err(Refusal::WrongArgument);
    }
    let Ok(copy) = Vec::from_slice(alloc, bytes) else {
        return Err(Refusal::NoMemory);
    };
    let image = match Image::from_bytes(copy) {
        Ok(image) => image,
        Err(refused) => {
            drop(refused);
            return Err(Refusal::NotAnImage);
        }
    };
    let Ok(saved) = salvaged(alloc, image) else {
        return Err(Refusal::NoMemory);
    };
    let Ok(saved) = Box::new(alloc, saved) else {
        return Err(Refusal::NoMemory);
    };
    salvage.put(saved);
    Ok(())
}

/// Closes the salvage and frees everything that it owns. A closed one stays closed. The status is 0.
#[unsafe(no_mangle)]
pub extern "C" fn jip_lib_salvage_close(alloc: Global, salvage: &mut JipSalvage) -> i32
    ensures status { result ≡ pos 0 }
    ensures closed { salvage.new.held ≡ None }
{
    drop(salvage.take(alloc));
    0
}

/// The number of entries; 0 for a closed salvage.
#[unsafe(no_mangle)]
pub extern "C" fn jip_lib_salvage_count(alloc: Global, salvage: &mut JipSalvage) -> usize
    ensures count { MatchOption salvage.old.held (result ≡ 0) (λ saved. result ≡ length saved.entries) }
    ensures same { salvage.new.held ≡ salvage.old.held }
{
    let Some(saved) = salvage.take(alloc) else {
        return 0;
    };
    let count = saved.entries().len();
    salvage.put(saved);
    count
}

/// The entry at a position, from 0. The status is 0.
///
/// Status 3: there is no such position, or the salvage is closed; the entry is unchanged.
#[unsafe(no_mangle)]
pub extern "C" fn jip_lib_salvage_entry(
    alloc: Global,
    salvage: &mut JipSalvage,
    place: usize,
    entry: &mut JipSalvaged,
) -> i32
    ensures told { EntryEnds salvage.old.held place entry.old entry.new result }
    ensures same { salvage.new.held ≡ salvage.old.held }
{
    match entry_at(alloc, salvage, place) {
        Ok(told) => {
            *entry = told;
            0
        }
        Err(refusal) => refusal.number(),
    }
}

fn entry_at(alloc: Global, salvage: &mut JipSalvage, place: usize) -> Result<JipSalvaged, Refusal>
    ensures told { MatchResult result (λ told. AtPlace (IsToldAs told) salvage.old.held place) (RefusesPlace salvage.old.held place) }
    ensures same { salvage.new.held ≡ salvage.old.held }
{
    let Some(saved) = salvage.take(alloc) else {
        return Err(Refusal::WrongArgument);
    };
    let outcome = entry_in(&saved, place);
    salvage.put(saved);
    outcome
}

fn entry_in(saved: &Salvage, place: usize) -> Result<JipSalvaged, Refusal>
    ensures { MatchResult result (λ told. InSaved (IsToldAs told) saved.now place) (IsPast saved.now place) }
{
    let entries = saved.entries();
    if place >= entries.len() {
        return Err(Refusal::WrongArgument);
    }
    Ok(JipSalvaged::of(&entries[place], saved.size_of(place)))
}

/// The name of the entry at a position: that of its header, and if another entry of its directory has it already, `~` and
/// the number of its header after it. The status is 0.
///
/// Status 2: out of memory. Status 3: there is no such position, or the salvage is closed. In these cases `to` and
/// `length` are unchanged.
#[unsafe(no_mangle)]
pub extern "C" fn jip_lib_salvage_name(
    alloc: Global,
    salvage: &mut JipSalvage,
    place: usize,
    to: &mut [u8],
    length: &mut usize,
) -> i32
    ensures told { TextEnds (λ name. AtPlace (HasOwnName name) salvage.old.held place) (IsNoPlace salvage.old.held place) to.old to.new length.old length.new result }
    ensures same { salvage.new.held ≡ salvage.old.held }
{
    match name_at(alloc, salvage, place) {
        Ok(name) => {
            *length = put(&name, to);
            0
        }
        Err(refusal) => refusal.number(),
    }
}

fn name_at(alloc: Global, salvage: &mut JipSalvage, place: usize) -> Result<Vec<u8>, Refusal>
    ensures told { MatchResult result (λ name. AtPlace (HasOwnName name.items) salvage.old.held place) (Refuses (IsNoPlace salvage.old.held place)) }
    ensures same { salvage.new.held ≡ salvage.old.held }
{
    let Some(saved) = salvage.take(alloc) else {
        return Err(Refusal::WrongArgument);
    };
    let outcome = name_in(alloc, &saved, place);
    salvage.put(saved);
    outcome
}

fn name_in(alloc: Global, saved: &Salvage, place: usize) -> Result<Vec<u8>, Refusal>
    ensures { MatchResult result (λ name. InSaved (HasOwnName name.items) saved.now place) (Refuses (length saved.now.entries ≤ place)) }
{
    let entries = saved.entries();
    if place >= entries.len() {
        return Err(Refusal::WrongArgument);
    }
    match entries[place].own_name(alloc) {
        Ok(name) => Ok(name),
        Err(_) => Err(Refusal::NoMemory),
    }
}

/// The bytes of the file at a position: all of a whole file, and of a broken one what is left, with zeros between; none
/// for a directory. The status is 0.
///
/// Status 2: out of memory. Status 3: there is no such position, or the salvage is closed. In these cases `to` and
/// `length` are unchanged.
#[unsafe(no_mangle)]
pub extern "C" fn jip_lib_salvage_read(
    alloc: Global,
    salvage: &mut JipSalvage,
    place: usize,
    to: &mut [u8],
    length: &mut usize,
) -> i32
    ensures told { TextEnds (λ bytes. AtPlace (HasFileBytes place bytes) salvage.old.held place) (IsNoPlace salvage.old.held place) to.old to.new length.old length.new result }
    ensures same { salvage.new.held ≡ salvage.old.held }
{
    match bytes_at(alloc, salvage, place) {
        Ok(bytes) => {
            *length = put(&bytes, to);
            0
        }
        Err(refusal) => refusal.number(),
    }
}

fn bytes_at(alloc: Global, salvage: &mut JipSalvage, place: usize) -> Result<Vec<u8>, Refusal>
    ensures told { MatchResult result (λ bytes. AtPlace (HasFileBytes place bytes.items) salvage.old.held place) (Refuses (IsNoPlace salvage.old.held place)) }
    ensures same { salvage.new.held ≡ salvage.old.held }
{
    let Some(saved) = salvage.take(alloc) else {
        return Err(Refusal::WrongArgument);
    };
    let outcome = bytes_in(alloc, &saved, place);
    salvage.put(saved);
    outcome
}

fn bytes_in(alloc: Global, saved: &Salvage, place: usize) -> Result<Vec<u8>, Refusal>
    ensures { MatchResult result (λ bytes. InSaved (HasFileBytes place bytes.items) saved.now place) (Refuses (length saved.now.entries ≤ place)) }
{
    if place >= saved.entries().len() {
        return Err(Refusal::WrongArgument);
    }
    match saved.bytes_of(alloc, place) {
        Ok(bytes) => Ok(bytes),
        Err(_) => Err(Refusal::NoMemory),
    }
}
