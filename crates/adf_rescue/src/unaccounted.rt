//! The used blocks that belong to nothing of a salvage, as files of the host: one for each run of consecutive blocks.
ghost use Rattle.std.specs.Prelude.{◌≡◌, ◌+◌, ◌-◌, ◌<◌, ◌≤◌, AllPairs, IfOk, IfSome, OnOk, flat_map, length, slice_get};
ghost use Rattle.adf_block.specs.Image.{block_count};
ghost use Rattle.adf_rescue.specs.Rescue.{HasSource};
ghost use Rattle.adf_rescue.specs.BlockRuns.{run_bytes};
ghost use Rattle.adf_rescue.specs.Unaccounted.{AreRunFiles, AreWanted};
ghost use Rattle.adf_rescue.specs.Undelete.{file_in};
ghost use Rattle.adf_rescue.specs.steps.Sourcing.{AreApart};

use crate::block_runs::{BlockRun, run_bytes, runs_of};
use crate::plan::Plan;
use crate::sourced::{Rescued, SourcedItems};
use adf_host::{Contents, HostItem, HostName, OwnedFile, PromptFiles, WriteFault, write_tree};
use ados_name::{Date3, Name};
use ados_salvage::Salvage;
use std::alloc::{AllocError, Global};

/// The directory for the files of runs, in the one for recovered entries.
const UNACCOUNTED: &[u8] = b"unaccounted";

/// The time stamp of these files, and of directories that are made for them: the first one of AmigaDOS.
const DATE: Date3 = Date3 {
    days: 0,
    minutes: 0,
    ticks: 0,
};

/// Runs of blocks that are written as files.
#[derive(Drop)]
pub(crate) struct RunFiles {
    runs: Vec<BlockRun>,
    /// The position of the item of the first run. Behind it each run has one, in order.
    from: usize,
}

/// The bytes of the items of entries, and of those of runs behind them.
#[derive(Drop)]
struct WithRuns<'a> {
    entries: Rescued<'a>,
    salvage: &'a Salvage,
    files: &'a RunFiles,
}

impl RunFiles {
    /// The runs of blocks, if they are wanted, and none otherwise. Their items are added to the plan.
    pub(crate) fn of(
        alloc: Global,
        plan: &mut Plan,
        blocks: &[u32],
        wanted: bool,
    ) -> Result<RunFiles, AllocError>
        requires order { AllPairs (λ a b. a < b) blocks.now }
        requires apart { AreApart plan.old.out }
        ensures runs { IfOk result (AreRunFiles wanted blocks.now plan.new) }
        ensures apart { OnOk result (AreApart plan.new.out) }
        ensures files { OnOk result (flat_map file_in plan.new.out.sources.items ≡ flat_map file_in plan.old.out.sources.items) }
    {
        let runs = wanted_runs(alloc, blocks, wanted)?;
        let from = put_runs(alloc, plan, &runs)?;
        Ok(RunFiles { runs, from })
    }

    /// Writes the items of entries and of runs below a directory of the host, with bytes of this salvage. Nothing there is replaced.
    pub(crate) fn write<R: PromptFiles>(
        &self,
        rt: &R,
        alloc: Global,
        out: &SourcedItems,
        salvage: &Salvage,
        to: &str,
    ) -> Result<(), WriteFault>
    where
        R::File: OwnedFile,
    {
        let mut contents = WithRuns {
            entries: out.contents(salvage),
            salvage,
            files: self,
        };
        write_tree(rt, alloc, to, &out.items, &mut contents, false)
    }
}

impl Contents for WithRuns<'_> {
    fn bytes_of(&mut self, alloc: Global, place: usize) -> Result<Vec<u8>, AllocError>
        ensures entries { IfOk result (λ bytes. place < self.old.files.now.from →
            IfSome (slice_get self.old.entries.sources.now place) (λ source. HasSource self.old.entries.salvage.now source bytes.items)) }
        ensures runs { IfOk result (λ bytes. self.old.files.now.from ≤ place → IfSome (slice_get self.old.files.now.runs.items (place - self.old.files.now.from))
            (λ run. run.last < block_count self.old.salvage.now.image → bytes.items ≡ run_bytes self.old.salvage.now.image run)) }
    {
        if place < self.files.from {
            return self.entries.bytes_of(alloc, place);
        }
        match self.files.runs.get(place - self.files.from) {
            Some(run) => run_bytes(alloc, self.salvage.image(), *run),
            None => Ok(Vec::new(alloc)),
        }
    }
}

/// Adds a file for each run to a plan, all in one directory, which is made if there are some. The result is the position of the first.
fn put_runs(alloc: Global, plan: &mut Plan, runs: &[BlockRun]) -> Result<usize, AllocError>
    requires { AreApart plan.old.out }
    ensures items { IfOk result (λ from. length plan.new.out.sources.items ≡ from + length runs.now) }
    ensures apart { OnOk result (AreApart plan.new.out) }
    ensures files { OnOk result (flat_map file_in plan.new.out.sources.items ≡ flat_map file_in plan.old.out.sources.items) }
{
    if runs.is_empty() {
        return Ok(plan.out.sources.len());
    }
    let lost = plan.lost_and_found(alloc, DATE)?;
    let name = free_name(alloc, &plan.out.items, lost)?;
    let dir = plan.out.push_directory(alloc, Some(lost), name, DATE)?;
    let from = plan.out.sources.len();
    for run in runs {
        let name = run_name(alloc, *run)?;
        plan.out.push_run(alloc, dir, name, DATE)?;
    }
    Ok(from)
}

/// The runs of blocks, if they are wanted, and none otherwise.
fn wanted_runs(alloc: Global, blocks: &[u32], wanted: bool) -> Result<Vec<BlockRun>, AllocError>
    requires { AllPairs (λ a b. a < b) blocks.now }
    ensures { IfOk result (λ runs. AreWanted wanted blocks.now runs.items) }
{
    if !wanted {
        return Ok(Vec::new(alloc));
    }
    runs_of(alloc, blocks)
}

/// The name of the file of a run: its first block and its last.
fn run_name(alloc: Global, run: BlockRun) -> Result<HostName, AllocError> {
    let text = format!(in alloc; "{}-{}", run.first, run.last)?;
    host_name(alloc, text.as_bytes())
}

/// The name for the directory of runs: `unaccounted`, or if an item of the same directory has that name, the first of
/// `unaccounted-1`, `unaccounted-2` and so on that none has.
fn free_name(alloc: Global, items: &[HostItem], above: usize) -> Result<HostName, AllocError> {
    let mut taken = vec![in alloc; false; items.len().saturating_add(1)]?;
    for item in items {
        if item.above != Some(above) {
            continue;
        }
        if let Some(at) = number_in(item.name.as_str()) {
            if let Some(mark) = taken.get_mut(at) {
                *mark = true;
            }
        }
    }
    match first_unmarked(&taken) {
        0 => host_name(alloc, UNACCOUNTED),
        number => {
            let text = format!(in alloc; "unaccounted-{number}")?;
            host_name(alloc, text.as_bytes())
        }
    }
}

/// The number of such a name, and 0 for the one without a number. `None` for any other name.
fn number_in(name: &str) -> Option<usize> {
    let rest = name.strip_prefix("unaccounted")?;
    if rest.is_empty() {
        return Some(0);
    }
    let digits = rest.strip_prefix('-')?;
    if digits.starts_with('0') || digits.starts_with('+') {
        return None;
    }
    digits.parse().ok()
}

/// The first position without a mark, or 0.
fn first_unmarked(marks: &[bool]) -> usize {
    marks.iter().position(|mark| !*mark).unwrap_or(0)
}

/// The host name of a short text without `/` and `:`.
fn host_name(alloc: Global, text: &[u8]) -> Result<HostName, AllocError> {
    let name = Name::new(text).unwrap_or(Name::new(UNACCOUNTED).unwrap());
    HostName::of_name(alloc, &name)
}
