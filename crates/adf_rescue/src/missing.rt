//! The data blocks that are missing in files, as runs.
ghost use Rattle.std.specs.Prelude.{◌≡◌, ◌≢◌, ◌<◌, ◌≤◌, ◌++◌, ◌∷◌, [], ℕ, All, Contains, IfOk, OnOk, length};
ghost use Rattle.std.specs.List.Sorted.{IsStrictlyIncreasing};
ghost use Rattle.adf_rescue.specs.Missing.{AreMissing, AreRuns, IsLeftOut, block_total, given_to, run_to, values_at};

use ados_salvage::{Piece, Salvage};
use std::alloc::{AllocError, Global};

/// The most data blocks of a file that are counted.
const MOST_OF_FILE: u64 = 4_294_967_295;

/// Data blocks of a file, one after the other, by their numbers from 0.
#[derive(Clone, Copy)]
pub(crate) struct Run {
    pub(crate) first: u32,
    pub(crate) last: u32,
}

/// For each entry of a salvage, the runs of its missing data blocks.
pub(crate) fn missing_runs(alloc: Global, salvage: &Salvage) -> Result<Vec<Vec<Run>>, AllocError>
    ensures { IfOk result (λ runs. AreMissing salvage.now runs.items) }
{
    let entries = salvage.entries();
    let numbers = given_numbers(alloc, salvage.pieces(), entries.len())?;
    let mut runs = Vec::with_capacity(alloc, entries.len())?;
    for place in 0..entries.len() {
        let missing = entries[place].state.missing();
        runs.push(runs_of(alloc, numbers[place].as_slice(), missing)?)?;
    }
    Ok(runs)
}

/// For each of so many entries, the numbers of the data blocks that were given to it.
fn given_numbers(alloc: Global, pieces: &[Piece], count: usize) -> Result<Vec<Vec<u32>>, AllocError>
    ensures count { IfOk result (λ numbers. length numbers.items ≡ count) }
    ensures each { IfOk result (λ numbers. (place : ℕ) → place < count → values_at numbers.items place ≡ given_to pieces.now place) }
{
    let mut numbers = no_numbers(alloc, count)?;
    for piece in pieces {
        note(&mut numbers, piece.place, piece.at)?;
    }
    Ok(numbers)
}

/// So many empty lists.
fn no_numbers(alloc: Global, count: usize) -> Result<Vec<Vec<u32>>, AllocError>
    ensures count { IfOk result (λ numbers. length numbers.items ≡ count) }
    ensures none { IfOk result (λ numbers. (place : ℕ) → values_at numbers.items place ≡ []) }
{
    let mut numbers = Vec::with_capacity(alloc, count)?;
    for _place in 0..count {
        numbers.push(Vec::new(alloc))?;
    }
    Ok(numbers)
}

/// Appends a number to the list at a place, if there is one.
fn note(numbers: &mut Vec<Vec<u32>>, place: usize, number: u32) -> Result<(), AllocError>
    ensures count { OnOk result (length numbers.new.items ≡ length numbers.old.items) }
    ensures here { OnOk result (place < length numbers.old.items → values_at numbers.new.items place ≡ values_at numbers.old.items place ++ number ∷ []) }
    ensures others { OnOk result ((other : ℕ) → other ≢ place → values_at numbers.new.items other ≡ values_at numbers.old.items other) }
{
    if place < numbers.len() {
        numbers[place].push(number)?;
    }
    Ok(())
}

/// The runs of the numbers that are not among these, of as many as there are with so many missing ones.
fn runs_of(alloc: Global, numbers: &[u32], missing: u32) -> Result<Vec<Run>, AllocError>
    ensures { IfOk result (λ runs. AreRuns (IsLeftOut numbers.now (block_total numbers.now missing)) runs.items) }
{
    let count = (numbers.len() as u64 + u64::from(missing)).min(MOST_OF_FILE);
    let numbers = in_order(alloc, numbers)?;
    gaps(alloc, numbers.as_slice(), count)
}

/// These numbers in order, each once.
fn in_order(alloc: Global, numbers: &[u32]) -> Result<Vec<u32>, AllocError>
    ensures increasing { IfOk result (λ ordered. IsStrictlyIncreasing ordered.items) }
    ensures all { IfOk result (λ ordered. All (Contains ordered.items) numbers.now) }
    ensures only { IfOk result (λ ordered. All (Contains numbers.now) ordered.items) }
{
    let mut ordered = Vec::from_slice(alloc, numbers)?;
    ordered.sort_unstable();
    ordered.dedup();
    Ok(ordered)
}

/// The runs of the numbers below `count` that are not among these.
fn gaps(alloc: Global, numbers: &[u32], count: u64) -> Result<Vec<Run>, AllocError>
    requires order { IsStrictlyIncreasing numbers.now }
    requires small { count ≤ MOST_OF_FILE }
    ensures { IfOk result (λ runs. AreRuns (IsLeftOut numbers.now count) runs.items) }
{
    let mut runs = Vec::new(alloc);
    let mut next = 0_u64;
    for number in numbers {
        let number = u64::from(*number);
        push_run(&mut runs, next, number.min(count))?;
        next = number + 1;
    }
    push_run(&mut runs, next, count)?;
    Ok(runs)
}

/// Appends the run from a number up to the one before another, if there are numbers between.
fn push_run(runs: &mut Vec<Run>, first: u64, behind: u64) -> Result<(), AllocError>
    requires { behind ≤ MOST_OF_FILE }
    ensures { OnOk result (runs.new.items ≡ runs.old.items ++ run_to first behind) }
{
    if first < behind {
        runs.push(Run {
            first: first as u32,
            last: (behind - 1) as u32,
        })?;
    }
    Ok(())
}
