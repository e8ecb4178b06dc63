//! The parts of the JSON object that reports on a damaged image.
ghost use Rattle.std.specs.Prelude.{◌≡◌, ◌++◌, ◌∷◌, [], IfOk, OnOk, codes, decimal, flat_map, if◌then◌else◌};
ghost use Rattle.std.specs.String.{string_bytes};
ghost use Rattle.json.specs.Print.{print, print_from};
ghost use Rattle.adf_record.specs.Members.{string_token};
ghost use Rattle.json.specs.Token.{key, number};
ghost use Rattle.adf_rescue.specs.Reasons.{reason_by};
ghost use Rattle.adf_rescue.specs.RescueObject.{detail_tokens, entry_tokens, hole_tokens, holes_tokens, is_told, path_end, rest_tokens, state_tokens, state_word, written};
ghost use Rattle.adf_rescue.specs.steps.Reporting.{front_of};

use crate::doubt::Doubt;
use crate::missing::Run;
use crate::spans::{first_byte, last_byte};
use adf_block::Image;
use adf_record::{put_flag, put_number, put_text};
use ados_salvage::{Salvaged, State};
use json::Writer;
use std::alloc::{AllocError, Global};

/// An entry with what its object says.
#[derive(Clone, Copy)]
pub(crate) struct Row<'a> {
    pub(crate) image: &'a Image,
    pub(crate) entry: &'a Salvaged,
    /// The number of bytes of it that are written, if it is a file.
    pub(crate) size: Option<u64>,
    /// Why it is doubtful or cut short, if it is.
    pub(crate) doubt: Option<Doubt>,
    /// The path of the entry that has a block of it too, if that is why.
    pub(crate) other: &'a str,
    /// Whether it would be a deleted entry if the bitmap could be trusted.
    pub(crate) deleted: bool,
    /// The runs of its missing data blocks.
    pub(crate) missing: &'a [Run],
}

/// What is before the entries of a report: with `json` the begin of the object.
pub(crate) fn front_text(alloc: Global, json: bool) -> Result<Vec<u8>, AllocError>
    ensures { IfOk result (λ text. text.items ≡ front_of json) }
{
    if json {
        return Vec::from_slice(alloc, b"{\"entries\":[");
    }
    Ok(Vec::new(alloc))
}

/// The object of an entry at a host path, behind a comma after another one.
pub(crate) fn entry_object(
    alloc: Global,
    row: &Row<'_>,
    path: &str,
    after: bool,
) -> Result<Vec<u8>, AllocError>
    requires { row.now.size ≡ written row.now.image.now row.now.entry.now.header row.now.entry.now.state }
    ensures { IfOk result (λ text. text.items ≡ print_from after (entry_tokens row.now.image.now row.now.entry.now (reason_by row.now.other.now row.now.doubt) row.now.deleted row.now.missing.now (path.now ++ path_end row.now.entry.now.state))) }
{
    let path = slashed(alloc, row.entry.state, path)?;
    let mut writer = Writer::new(comma(alloc, after)?);
    put_entry(alloc, &mut writer, row, path.as_str())?;
    Ok(writer.into_inner())
}

/// The path of an entry, with a slash behind that of a directory.
fn slashed(alloc: Global, state: State, path: &str) -> Result<String, AllocError>
    ensures { IfOk result (λ slashed. string_bytes slashed ≡ path.now ++ path_end state) }
{
    let end = path_end(state);
    let slashed = format!(in alloc; "{path}{end}")?;
    Ok(slashed)
}

/// A comma after an object.
fn comma(alloc: Global, after: bool) -> Result<Vec<u8>, AllocError>
    ensures { IfOk result (λ text. text.items ≡ (if after then codes "," else [])) }
{
    if after {
        return Vec::from_slice(alloc, b",");
    }
    Ok(Vec::new(alloc))
}

/// Writes the object of an entry with this path.
fn put_entry(
    alloc: Global,
    writer: &mut Writer,
    row: &Row<'_>,
    path: &str,
) -> Result<(), AllocError>
    requires { row.now.size ≡ written row.now.image.now row.now.entry.now.header row.now.entry.now.state }
    ensures before { writer.new.before ≡ writer.old.before }
    ensures tokens { OnOk result (writer.new.tokens ≡ writer.old.tokens ++ entry_tokens row.now.image.now row.now.entry.now (reason_by row.now.other.now row.now.doubt) row.now.deleted row.now.missing.now path.now) }
{
    writer.begin_object()?;
    put_state(writer, row.entry.found, row.entry.state, path)?;
    put_detail(alloc, writer, row)?;
    put_holes(writer, row.image, row.entry.header, row.missing)?;
    writer.end_object()
}

/// Writes the members for the state of an entry with this path.
fn put_state(writer: &mut Writer, found: bool, state: State, path: &str) -> Result<(), AllocError>
    ensures before { writer.new.before ≡ writer.old.before }
    ensures tokens { OnOk result (writer.new.tokens ≡ writer.old.tokens ++ state_tokens found state path.now) }
{
    put_text(writer, "path", Some(path))?;
    put_text(writer, "state", Some(state_word(state)))?;
    put_flag(writer, "found", found)?;
    put_number(writer, "missing", Some(u64::from(state.missing())))?;
    put_flag(writer, "cut", state.is_cut())
}

/// Writes the members for the header and the size of an entry, for what is wrong with it, and for what the bitmap says of it.
fn put_detail(alloc: Global, writer: &mut Writer, row: &Row<'_>) -> Result<(), AllocError>
    requires { row.now.size ≡ written row.now.image.now row.now.entry.now.header row.now.entry.now.state }
    ensures before { writer.new.before ≡ writer.old.before }
    ensures tokens { OnOk result (writer.new.tokens ≡ writer.old.tokens ++ detail_tokens row.now.image.now row.now.entry.now.header row.now.entry.now.state (reason_by row.now.other.now row.now.doubt) row.now.deleted) }
{
    put_number(writer, "header", Some(u64::from(row.entry.header)))?;
    put_number(writer, "size", row.size)?;
    put_reason(alloc, writer, row.doubt, row.other)?;
    put_flag(writer, "deleted", row.deleted)
}

/// Writes the member for why an entry is doubtful or cut short. `other` is the path of the entry that has a block of it too.
fn put_reason(
    alloc: Global,
    writer: &mut Writer,
    doubt: Option<Doubt>,
    other: &str,
) -> Result<(), AllocError>
    ensures before { writer.new.before ≡ writer.old.before }
    ensures tokens { OnOk result (writer.new.tokens ≡ writer.old.tokens ++ key (codes "reason") ∷ string_token (reason_by other.now doubt) ∷ []) }
{
    let Some(doubt) = doubt else {
        return put_text(writer, "reason", None);
    };
    let reason = doubt.reason(alloc, other)?;
    put_text(writer, "reason", Some(reason.as_str()))
}

/// Writes the member for the runs of missing data blocks of a file with this header.
fn put_holes(
    writer: &mut Writer,
    image: &Image,
    header: u32,
    runs: &[Run],
) -> Result<(), AllocError>
    ensures before { writer.new.before ≡ writer.old.before }
    ensures tokens { OnOk result (writer.new.tokens ≡ writer.old.tokens ++ holes_tokens image.now header runs.now) }
{
    writer.key("holes")?;
    writer.begin_array()?;
    put_runs(writer, image, header, runs)?;
    writer.end_array()
}

/// Writes the objects of runs of missing data blocks.
fn put_runs(writer: &mut Writer, image: &Image, header: u32, runs: &[Run]) -> Result<(), AllocError>
    ensures before { writer.new.before ≡ writer.old.before }
    ensures tokens { OnOk result (writer.new.tokens ≡ writer.old.tokens ++ flat_map (hole_tokens image.now header) runs.now) }
{
    for run in runs {
        put_run(writer, image, header, *run)?;
    }
    Ok(())
}

/// Writes the object of a run of missing data blocks.
fn put_run(writer: &mut Writer, image: &Image, header: u32, run: Run) -> Result<(), AllocError>
    ensures before { writer.new.before ≡ writer.old.before }
    ensures tokens { OnOk result (writer.new.tokens ≡ writer.old.tokens ++ hole_tokens image.now header run) }
{
    writer.begin_object()?;
    put_number(writer, "first", Some(first_byte(image, run)))?;
    put_number(writer, "last", Some(last_byte(image, header, run)))?;
    put_number(writer, "first_data", Some(u64::from(run.first)))?;
    put_number(writer, "last_data", Some(u64::from(run.last)))?;
    writer.end_object()
}

/// What is behind the objects of the entries, for so many deleted entries and these blocks, and a line feed.
pub(crate) fn rest_object(
    alloc: Global,
    deleted: u64,
    unaccounted: &[u32],
    summed: bool,
) -> Result<Vec<u8>, AllocError>
    ensures { IfOk result (λ text. text.items ≡ print (rest_tokens deleted unaccounted.now summed) ++ codes "\n") }
{
    let mut writer = Writer::new(Vec::new(alloc));
    put_rest(&mut writer, deleted, unaccounted, summed)?;
    let mut text = writer.into_inner();
    text.push(b'\n')?;
    Ok(text)
}

/// Writes what is behind the objects of the entries.
fn put_rest(
    writer: &mut Writer,
    deleted: u64,
    unaccounted: &[u32],
    summed: bool,
) -> Result<(), AllocError>
    ensures before { writer.new.before ≡ writer.old.before }
    ensures tokens { OnOk result (writer.new.tokens ≡ writer.old.tokens ++ rest_tokens deleted unaccounted.now summed) }
{
    writer.end_array()?;
    put_number(writer, "deleted", Some(deleted))?;
    writer.key("unaccounted")?;
    writer.begin_array()?;
    put_blocks(writer, unaccounted)?;
    writer.end_array()?;
    put_flag(writer, "summed", summed)?;
    writer.end_object()
}

/// Writes the numbers of blocks.
fn put_blocks(writer: &mut Writer, blocks: &[u32]) -> Result<(), AllocError>
    ensures before { writer.new.before ≡ writer.old.before }
    ensures tokens { OnOk result (writer.new.tokens ≡ writer.old.tokens ++ flat_map (λ block. number (decimal block) ∷ []) blocks.now) }
{
    for block in blocks {
        writer.u64(u64::from(*block))?;
    }
    Ok(())
}

/// Whether an entry is told: not if it is a sound directory that was not recovered.
pub(crate) fn is_told(state: State, found: bool) -> bool
    ensures { result ≡ is_told state found }
{
    match state {
        State::Directory => found,
        _ => true,
    }
}

/// The state of an entry as a word.
fn state_word(state: State) -> &'static str
    ensures { result.now ≡ state_word state }
{
    match state {
        State::Directory | State::Whole => "whole",
        State::DoubtfulDirectory | State::Doubtful { .. } => "doubtful",
        State::Lost => "lost",
        State::Broken { .. } => "broken",
    }
}

/// A slash behind the path of a directory.
fn path_end(state: State) -> &'static str
    ensures { result.now ≡ path_end state }
{
    match state {
        State::Directory | State::DoubtfulDirectory => "/",
        _ => "",
    }
}
