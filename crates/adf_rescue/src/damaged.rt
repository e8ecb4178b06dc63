//! What can be trusted in a damaged image, as files and directories of the host.
ghost use Rattle.std.specs.Prelude.{◌≡◌, ◌<◌, ℕ, Bool, List, IfErr, IfOk, OnErr, is_some, length, ◌||◌};
ghost use Rattle.std.specs.String.{string_bytes};
ghost use Rattle.adf_io.specs.Prefix.{Writes, WritesFrontOf};
ghost use Rattle.ados_salvage.specs.Marks.{mark_at};
ghost use Rattle.ados_salvage.specs.Holes.{SalvagesBeside};
ghost use Rattle.ados_salvage.specs.Saved.{IsAt};
ghost use Rattle.adf_rescue.specs.Missing.{values_at};
ghost use Rattle.adf_rescue.specs.Reasons.{doubt_at};
ghost use Rattle.adf_rescue.specs.Rescue.{AreRescued, AreSomeRescued, IsRescue, IsRescueFault, count_line, rescue_line};
ghost use Rattle.adf_rescue.specs.RescueObject.{is_summed, is_told, written};
ghost use Rattle.adf_rescue.specs.Unaccounted.{WritesRuns};
ghost use Rattle.adf_text.specs.Ranges.{ranges};
ghost use Rattle.adf_rescue.specs.steps.Reporting.{IsPart, rest_of};
ghost use Rattle.adf_rescue.specs.steps.Writing.{IsOutput};

use crate::doubt::Doubt;
use crate::missing::{Run, missing_runs};
use crate::missing_text::missing_text;
use crate::plan::Plan;
use crate::reasons::doubts;
use crate::rescue_object::{Row, entry_object, front_text, is_told, rest_object};
use crate::unaccounted::RunFiles;
use crate::untrusted::untrusted_marks;
use adf_block::{Format, Image};
use adf_cli::SalvageJob;
use adf_host::{OwnedFile, PromptFiles, WriteFault};
use adf_io::{PrintFault, write_text, write_when_long};
use adf_text::ranges_text;
use ados_salvage::{Salvage, Salvaged, State, salvage_beside, unaccounted_blocks};
use std::alloc::{AllocError, Global};
use std::io::Write;

/// What was written of a damaged image. It can be reported, entry by entry.
#[derive(Drop)]
pub struct Rescue {
    salvage: Salvage,
    plan: Plan,
    /// The blocks that are used and belong to nothing of the salvage.
    unaccounted: Vec<u32>,
    /// For each entry, why it is doubtful or cut short, if it is.
    doubts: Vec<Option<Doubt>>,
    /// For each entry, the runs of its missing data blocks.
    missing: Vec<Vec<Run>>,
    /// For each entry, whether it would be a deleted one if the bitmap could be trusted.
    untrusted: Vec<bool>,
    /// The runs of the unaccounted blocks, as far as they are written as files.
    files: RunFiles,
}

/// What is written of a damaged image.
#[derive(Drop)]
struct Output {
    plan: Plan,
    /// The blocks that are used and belong to nothing of the salvage.
    unaccounted: Vec<u32>,
    /// The runs of these, as far as they are written as files.
    files: RunFiles,
}

/// Why a damaged image is neither told nor written.
#[derive(Drop)]
pub enum RescueFault {
    Host(WriteFault),
    Memory,
}

impl From<AllocError> for RescueFault {
    ghost use Rattle.std.specs.Prelude.{◌≡◌};
    ghost use Rattle.adf_rescue.specs.declared.damaged.RescueFault.TheVariants.{Memory};

    ghost from_gives = { λ _ fault. fault ≡ Memory };

    fn from(_error: AllocError) -> RescueFault {
        RescueFault::Memory
    }
}

/// Writes everything in an image with these holes that can be trusted below a directory of the host. Fillers count where the image is
/// refused, and where the job has a list of blocks that could not be read. With `meta`, a note is written beside each entry, and with `unaccounted` a file for each run of used blocks that belong to nothing of it. Nothing is written if the job
/// only lists or makes a new image, or if an existing file or directory of the host is in the way.
pub fn extract_damaged<R: PromptFiles>(
    rt: &R,
    alloc: Global,
    image: Image,
    holes: Vec<bool>,
    job: &SalvageJob<'_>,
) -> Result<Rescue, RescueFault>
where
    R::File: OwnedFile,
    ensures told { IfOk result (IsRescue holes.items (is_some job.now.bad) image) }
    ensures runs { IfOk result (WritesRuns job.now.unaccounted) }
    ensures fault { IfErr result (IsRescueFault job.now.list) }
{
    let salvage = salvage_beside(alloc, image, holes, job.bad.is_some())?;
    let output = output_of(alloc, &salvage, job)?;
    if !(job.list || job.out.is_some()) {
        let (out, files) = (&output.plan.out, &output.files);
        if let Err(fault) = files.write(rt, alloc, out, &salvage, job.to) {
            return Err(RescueFault::Host(fault));
        }
    }
    Ok(rescue_of(alloc, salvage, output)?)
}

/// The host files and directories for a salvage, with the used blocks that belong to nothing of it.
fn output_of(alloc: Global, salvage: &Salvage, job: &SalvageJob<'_>) -> Result<Output, AllocError>
    ensures { IfOk result (IsOutput salvage.now job.now.unaccounted) }
{
    let unaccounted = unaccounted_blocks(alloc, salvage)?;
    let mut plan = Plan::of(alloc, salvage, job.meta)?;
    let files = RunFiles::of(alloc, &mut plan, &unaccounted, job.unaccounted)?;
    plan.out.forget_names(alloc);
    Ok(Output {
        plan,
        unaccounted,
        files,
    })
}

/// What was saved with these host files and directories, with what only the report needs: why entries are doubtful, the missing data
/// blocks of the files, and what the bitmap says of the entries. So less memory is held while files are written.
fn rescue_of(alloc: Global, salvage: Salvage, output: Output) -> Result<Rescue, AllocError>
    ensures told { IfOk result (λ rescue. (holes : List Bool) (listed : Bool) (image : List ℕ) (wanted : Bool) → SalvagesBeside holes listed image salvage → IsOutput salvage wanted output → IsRescue holes listed image rescue) }
    ensures runs { IfOk result (λ rescue. (wanted : Bool) → IsOutput salvage wanted output → WritesRuns wanted rescue) }
{
    let doubts = doubts(alloc, &salvage)?;
    let missing = missing_runs(alloc, &salvage)?;
    let untrusted = untrusted_marks(alloc, &salvage)?;
    Ok(Rescue {
        salvage,
        plan: output.plan,
        unaccounted: output.unaccounted,
        doubts,
        missing,
        untrusted,
        files: output.files,
    })
}

impl Rescue {
    /// The kind of disk as which the image was read.
    pub fn format(&self) -> Format {
        self.salvage.image().format()
    }

    /// What is saved.
    pub fn salvage(&self) -> &Salvage
        ensures { result.now ≡ self.now.salvage }
    {
        &self.salvage
    }

    /// The number of entries.
    pub fn len(&self) -> usize {
        self.salvage.entries().len()
    }

    /// Whether the data blocks of the image have checksums: in OFS alone. In FFS a file is whole if every pointer and header of it is
    /// right, whatever its bytes are.
    pub fn is_summed(&self) -> bool
        ensures { result ≡ is_summed self.now.salvage }
    {
        match self.salvage.image().format() {
            Format::Ofs => true,
            Format::Ffs => false,
        }
    }

    /// The path of the entry at a position, or in its place `the entry at block N`, and why it is doubtful or cut short, if it is.
    pub fn doubt_at(
        &self,
        alloc: Global,
        place: usize,
    ) -> Result<Option<(String, Doubt)>, AllocError> {
        match self.doubt_of(place) {
            Some(doubt) => Ok(Some((self.path_at(alloc, place)?, doubt))),
            None => Ok(None),
        }
    }

    /// Why the entry at a position is doubtful or cut short, if it is.
    fn doubt_of(&self, place: usize) -> Option<Doubt>
        ensures { result ≡ doubt_at self.now.doubts.items place }
    {
        match self.doubts.get(place) {
            Some(doubt) => *doubt,
            None => None,
        }
    }

    /// The path of the entry that has a block too, if that is the doubt; else nothing. [`Doubt::reason`] names it.
    pub fn other_path(&self, alloc: Global, doubt: Option<Doubt>) -> Result<String, AllocError> {
        match doubt {
            Some(Doubt::Shared(_, place)) => self.path_at(alloc, place),
            _ => Ok(String::new(alloc)),
        }
    }

    /// The path of the entry at a position, or in its place `the entry at block N`, and which of its bytes and data blocks are missing, if
    /// some are: `bytes 976 to 1951 are missing (data 2 and 3)`.
    pub fn missing_at(
        &self,
        alloc: Global,
        place: usize,
    ) -> Result<Option<(String, String)>, AllocError> {
        let runs = self.runs_at(place);
        match self.salvage.entries().get(place) {
            Some(entry) if !runs.is_empty() => {
                let text = missing_text(alloc, self.salvage.image(), entry.header, runs)?;
                Ok(Some((self.path_at(alloc, place)?, text)))
            }
            _ => Ok(None),
        }
    }

    /// The runs of the missing data blocks of the entry at a position.
    fn runs_at(&self, place: usize) -> &[Run]
        ensures { result.now ≡ values_at self.now.missing.items place }
    {
        match self.missing.get(place) {
            Some(runs) => runs.as_slice(),
            None => &[],
        }
    }

    /// Whether the entry at a position would be a deleted one if the bitmap could be trusted.
    fn is_untrusted_at(&self, place: usize) -> bool
        ensures { result ≡ mark_at self.now.untrusted.items place }
    {
        match self.untrusted.get(place) {
            Some(mark) => *mark,
            None => false,
        }
    }

    /// The number of bytes of the entry at a position that are written, if it is a file.
    fn written_at(&self, place: usize, entry: &Salvaged) -> Option<u64>
        requires inside { place < length self.now.salvage.entries }
        requires at { IsAt self.now.salvage.entries place entry.now }
        ensures { result ≡ written self.now.salvage.image entry.now.header entry.now.state }
    {
        match entry.state {
            State::Directory | State::DoubtfulDirectory | State::Lost => None,
            State::Whole | State::Doubtful { .. } | State::Broken { .. } => {
                Some(self.salvage.size_of(place) as u64)
            }
        }
    }

    /// The host path of the entry at a position. If it has more than 4,095 bytes, the entry is told by its header's block.
    pub fn path_at(&self, alloc: Global, place: usize) -> Result<String, AllocError> {
        if let Some(path) = self.plan.path_of(alloc, place)? {
            return Ok(path);
        }
        let entry = self.salvage.entries().get(place);
        let block = entry.map_or(0, |entry| entry.header);
        format!(in alloc; "the entry at block {block}")
    }

    /// The numbers of the blocks that are used and belong to nothing that is told, as ranges on lines of their own.
    pub fn unaccounted_ranges(&self, alloc: Global) -> Result<Vec<u8>, AllocError>
        ensures { IfOk result (λ text. text.items ≡ ranges self.now.unaccounted.items) }
    {
        let blocks = self.unaccounted.iter();
        let numbers: Vec<usize> = blocks.map(|block| *block as usize).collect(alloc)?;
        ranges_text(alloc, &numbers)
    }

    /// Writes a line for each file, for each recovered or doubtful directory, and for each lost entry, and then one with the number
    /// of deleted entries and one with that of the used blocks that belong to nothing, each if there are some. With `json` it writes
    /// an object that says the same, with the numbers of these blocks. The result is whether the image was accepted: then every
    /// file is whole.
    ///
    /// It writes entry by entry, since the report may be much longer than the image. If the writer fails or memory runs out, it has
    /// written a prefix of that text.
    pub fn tell<W: Write>(
        &self,
        alloc: Global,
        json: bool,
        writer: &mut W,
    ) -> Result<bool, PrintFault>
        ensures ok { IfOk result (λ accepted. Writes (W.contents writer.old) (W.contents writer.new) (AreRescued json self.now accepted)) }
        ensures front { OnErr result (WritesFrontOf (W.contents writer.old) (W.contents writer.new) (AreSomeRescued json self.now)) }
    {
        let entries = self.salvage.entries();
        let mut text = front_text(alloc, json)?;
        let mut after = false;
        for (place, entry) in entries.iter().enumerate() {
            let part = self.part_at(alloc, json, place, entry, after)?;
            text.extend_from_slice(&part)?;
            write_when_long(&mut text, writer)?;
            after = is_after(after, entry);
        }
        let rest = self.rest_text(alloc, json)?;
        text.extend_from_slice(&rest)?;
        write_text(text.as_slice(), writer)?;
        Ok(self.salvage.is_accepted())
    }

    /// What is told of the entry at a position, if it is told: its line, or with `json` its object, behind a comma after another one.
    fn part_at(
        &self,
        alloc: Global,
        json: bool,
        place: usize,
        entry: &Salvaged,
        after: bool,
    ) -> Result<Vec<u8>, AllocError>
        requires inside { place < length self.now.salvage.entries }
        requires at { IsAt self.now.salvage.entries place entry.now }
        ensures { IfOk result (λ part. IsPart json self.now after place entry.now part.items) }
    {
        let (found, state) = (entry.found, entry.state);
        if !is_told(state, found) {
            return Ok(Vec::new(alloc));
        }
        let path = self.path_at(alloc, place)?;
        if json {
            let other = self.other_path(alloc, self.doubt_of(place))?;
            let row = self.row_at(place, entry, other.as_str());
            return entry_object(alloc, &row, path.as_str(), after);
        }
        let line = line_of_path(alloc, found, state, path.as_str())?;
        Ok(line.into_bytes())
    }

    /// The entry at a position, with what its object says. `other` is the path of the entry that has a block of it too.
    fn row_at<'a>(&'a self, place: usize, entry: &'a Salvaged, other: &'a str) -> Row<'a>
        requires inside { place < length self.now.salvage.entries }
        requires at { IsAt self.now.salvage.entries place entry.now }
        ensures image { result.image.now ≡ self.now.salvage.image }
        ensures entry { result.entry.now ≡ entry.now }
        ensures size { result.size ≡ written self.now.salvage.image entry.now.header entry.now.state }
        ensures doubt { result.doubt ≡ doubt_at self.now.doubts.items place }
        ensures other { result.other.now ≡ other.now }
        ensures deleted { result.deleted ≡ mark_at self.now.untrusted.items place }
        ensures missing { result.missing.now ≡ values_at self.now.missing.items place }
    {
        Row {
            image: self.salvage.image(),
            entry,
            size: self.written_at(place, entry),
            doubt: self.doubt_of(place),
            other,
            deleted: self.is_untrusted_at(place),
            missing: self.runs_at(place),
        }
    }

    /// What is behind the entries: the line with the number of deleted entries, and that with the number of used blocks that belong
    /// to nothing; or with `json` the rest of the object.
    fn rest_text(&self, alloc: Global, json: bool) -> Result<Vec<u8>, AllocError>
        ensures { IfOk result (λ text. text.items ≡ rest_of json self.now) }
    {
        if json {
            let deleted = self.salvage.deleted().len() as u64;
            return rest_object(alloc, deleted, &self.unaccounted, self.is_summed());
        }
        let mut lines = count_line(alloc, "deleted", self.salvage.deleted().len())?;
        let unaccounted = count_line(alloc, "unaccounted", self.unaccounted.len())?;
        lines.push_str(unaccounted.as_str())?;
        Ok(lines.into_bytes())
    }
}

/// Whether an object is written, after this entry too.
fn is_after(after: bool, entry: &Salvaged) -> bool
    ensures { result ≡ (after || is_told entry.now.state entry.now.found) }
{
    after || is_told(entry.state, entry.found)
}

/// The line of an entry at a host path.
fn line_of_path(alloc: Global, found: bool, state: State, path: &str) -> Result<String, AllocError>
    ensures { IfOk result (λ line. string_bytes line ≡ rescue_line found state path.now) }
{
    let front = if found { "found " } else { "" };
    let line = match state {
        State::Directory if found => format!(in alloc; "found {path}\n")?,
        State::Directory => String::new(alloc),
        State::DoubtfulDirectory => format!(in alloc; "{front}doubtful {path}/\n")?,
        State::Whole => format!(in alloc; "{front}whole {path}\n")?,
        State::Doubtful { .. } => format!(in alloc; "{front}doubtful {path}\n")?,
        State::Lost => format!(in alloc; "{front}lost {path}\n")?,
        State::Broken { missing, .. } => format!(in alloc; "{front}broken {missing} {path}\n")?,
    };
    Ok(line)
}

/// The line with the number of these things, if there are some.
fn count_line(alloc: Global, word: &str, count: usize) -> Result<String, AllocError>
    ensures { IfOk result (λ line. string_bytes line ≡ count_line word.now count) }
{
    if count == 0 {
        return Ok(String::new(alloc));
    }
    let line = format!(in alloc; "{word} {count}\n")?;
    Ok(line)
}
