//! The JSON object of a report on an image.
ghost use Rattle.std.specs.Prelude.{◌≡◌, ◌++◌, ◌∷◌, [], OnOk, codes, flat_map, option_map};
ghost use Rattle.json.specs.Token.{key};
ghost use Rattle.adf_record.specs.Members.{string_token};
ghost use Rattle.adf_archive.specs.Owned.{entry_of};
ghost use Rattle.adf_archive.specs.Objects.{contents_tokens, data_place, fault_tokens, faults_tokens, found_in, kind_text, known_tokens, members_of, members_tokens, object_line, object_tokens, owner_tokens, place_tokens, further_tokens, shown_tokens, suspect_tokens, suspects_tokens, wanted_in};

use crate::owned::{entry_of, owner_word, position_of};
use crate::report::{Contents, ImageReport, ShownFault};
use crate::suspects::Suspect;
use crate::words::{kind_word, size_word};
use adf_block::BootKind;
use adf_record::{put_flag, put_number, put_text};
use adf_text::letter_text;
use ados_faults::Evidence;
use ados_volume::Owner;
use json::Writer;
use std::alloc::{AllocError, Global};

/// Appends the line with the JSON object of a report; no line for an image that was not checked.
pub fn push_object(
    alloc: Global,
    text: &mut Vec<u8>,
    path: &str,
    report: &ImageReport,
) -> Result<(), AllocError>
    ensures { OnOk result (text.new.items ≡ text.old.items ++ object_line path.now report.now) }
{
    if matches!(report, ImageReport::NotChecked(_)) {
        return Ok(());
    }
    let mut writer = Writer::new(Vec::new(alloc));
    put_object(alloc, &mut writer, path, report)?;
    text.extend_from_slice(writer.into_inner().as_slice())?;
    text.push(b'\n')?;
    Ok(())
}

/// The members of an object before its faults.
#[derive(Clone, Copy)]
pub struct Members {
    ok: bool,
    validated: bool,
    kind: Option<BootKind>,
    blocks: Option<u64>,
    contents: Option<Contents>,
}

/// The members of this report's object before its faults.
fn members_of(report: &ImageReport) -> Members
    ensures { result ≡ members_of report.now }
{
    match report {
        ImageReport::Accepted(told) => Members {
            ok: true,
            validated: told.validated,
            kind: Some(told.kind),
            blocks: Some(u64::from(told.blocks)),
            contents: told.contents,
        },
        ImageReport::Refused(told) => Members {
            ok: false,
            validated: false,
            kind: Some(told.kind),
            blocks: Some(u64::from(told.blocks)),
            contents: None,
        },
        _ => Members {
            ok: false,
            validated: false,
            kind: None,
            blocks: None,
            contents: None,
        },
    }
}

/// Writes the object of a report.
fn put_object(
    alloc: Global,
    writer: &mut Writer,
    path: &str,
    report: &ImageReport,
) -> Result<(), AllocError>
    ensures before { writer.new.before ≡ writer.old.before }
    ensures tokens { OnOk result (writer.new.tokens ≡ writer.old.tokens ++ object_tokens path.now report.now) }
{
    writer.begin_object()?;
    put_text(writer, "path", Some(path))?;
    put_members(alloc, writer, members_of(report))?;
    writer.key("faults")?;
    writer.begin_array()?;
    put_faults(writer, report)?;
    writer.end_array()?;
    put_further(writer, report)?;
    writer.end_object()
}

/// Writes the members after the path and before the faults.
fn put_members(alloc: Global, writer: &mut Writer, told: Members) -> Result<(), AllocError>
    ensures before { writer.new.before ≡ writer.old.before }
    ensures tokens { OnOk result (writer.new.tokens ≡ writer.old.tokens ++ members_tokens told) }
{
    put_flag(writer, "ok", told.ok)?;
    put_flag(writer, "validated", told.validated)?;
    put_kind(alloc, writer, told.kind)?;
    put_number(writer, "blocks", told.blocks)?;
    put_contents(alloc, writer, told.contents)
}

/// Writes the DOS type of a disk, `DOS\` and the last byte as a number; null if the first three bytes are not `DOS`.
fn put_kind(alloc: Global, writer: &mut Writer, kind: Option<BootKind>) -> Result<(), AllocError>
    ensures before { writer.new.before ≡ writer.old.before }
    ensures tokens { OnOk result (writer.new.tokens ≡ writer.old.tokens ++ key (codes "kind") ∷ string_token (kind_text kind) ∷ []) }
{
    match kind {
        Some(BootKind::Ofs) => put_text(writer, "kind", Some("DOS\\0")),
        Some(BootKind::Ffs) => put_text(writer, "kind", Some("DOS\\1")),
        Some(BootKind::OtherDos(last)) => {
            let word = format!(in alloc; "DOS\\{last}")?;
            put_text(writer, "kind", Some(word.as_str()))
        }
        Some(BootKind::NotDos) | None => put_text(writer, "kind", None),
    }
}

/// Writes the name of a volume in letters, and its numbers; null for unknown values.
fn put_contents(
    alloc: Global,
    writer: &mut Writer,
    contents: Option<Contents>,
) -> Result<(), AllocError>
    ensures before { writer.new.before ≡ writer.old.before }
    ensures tokens { OnOk result (writer.new.tokens ≡ writer.old.tokens ++ contents_tokens contents) }
{
    match contents {
        Some(known) => {
            let name = letter_text(alloc, known.name.bytes())?;
            let files = known.counts.files as u64;
            let directories = known.counts.directories as u64;
            let free = u64::from(known.free);
            put_known(
                writer,
                Some(name.as_str()),
                Some(files),
                Some(directories),
                Some(free),
            )
        }
        None => put_known(writer, None, None, None, None),
    }
}

/// Writes the name of a volume and its numbers, as far as they are known.
fn put_known(
    writer: &mut Writer,
    name: Option<&str>,
    files: Option<u64>,
    directories: Option<u64>,
    free: Option<u64>,
) -> Result<(), AllocError>
    ensures before { writer.new.before ≡ writer.old.before }
    ensures tokens { OnOk result (writer.new.tokens ≡ writer.old.tokens ++ known_tokens (option_map (λ text. text.now) name.entry) files directories free) }
{
    put_text(writer, "name", name)?;
    put_number(writer, "files", files)?;
    put_number(writer, "directories", directories)?;
    put_number(writer, "free", free)
}

/// Writes the objects of the faults.
fn put_faults(writer: &mut Writer, report: &ImageReport) -> Result<(), AllocError>
    ensures before { writer.new.before ≡ writer.old.before }
    ensures tokens { OnOk result (writer.new.tokens ≡ writer.old.tokens ++ faults_tokens report.now) }
{
    match report {
        ImageReport::Refused(told) => put_shown(writer, &told.faults),
        ImageReport::WrongSize(fault) => put_fault(writer, size_word(*fault), 0, None, None, None),
        _ => Ok(()),
    }
}

/// Writes the objects of an image's faults.
fn put_shown(writer: &mut Writer, faults: &[ShownFault]) -> Result<(), AllocError>
    ensures before { writer.new.before ≡ writer.old.before }
    ensures tokens { OnOk result (writer.new.tokens ≡ writer.old.tokens ++ flat_map shown_tokens faults.now) }
{
    for shown in faults {
        put_fault(
            writer,
            kind_word(shown.fault.kind),
            shown.fault.block,
            shown.path.as_deref(),
            shown.values,
            Some(shown.text.as_str()),
        )?;
    }
    Ok(())
}

/// Writes the object of a fault.
fn put_fault(
    writer: &mut Writer,
    kind: &str,
    block: u32,
    path: Option<&str>,
    values: Option<Evidence>,
    text: Option<&str>,
) -> Result<(), AllocError>
    ensures before { writer.new.before ≡ writer.old.before }
    ensures tokens { OnOk result (writer.new.tokens ≡ writer.old.tokens ++ fault_tokens kind.now block (option_map (λ text. text.now) path.entry) values (option_map (λ text. text.now) text.entry)) }
{
    writer.begin_object()?;
    put_text(writer, "kind", Some(kind))?;
    put_number(writer, "block", Some(u64::from(block)))?;
    put_text(writer, "path", path)?;
    put_number(writer, "found", found_in(values))?;
    put_number(writer, "wanted", wanted_in(values))?;
    put_text(writer, "text", text)?;
    writer.end_object()
}

/// Writes the members after the faults: the suspect blocks, if they were requested of an image that is accepted, or that there
/// are more faults.
fn put_further(writer: &mut Writer, report: &ImageReport) -> Result<(), AllocError>
    ensures before { writer.new.before ≡ writer.old.before }
    ensures tokens { OnOk result (writer.new.tokens ≡ writer.old.tokens ++ further_tokens report.now) }
{
    match report {
        ImageReport::Accepted(told) => match &told.suspects {
            Some(suspects) => put_suspects(writer, suspects),
            None => Ok(()),
        },
        ImageReport::Refused(told) if told.more => put_flag(writer, "more", true),
        _ => Ok(()),
    }
}

/// Writes the member with these suspect blocks.
fn put_suspects(writer: &mut Writer, suspects: &[Suspect]) -> Result<(), AllocError>
    ensures before { writer.new.before ≡ writer.old.before }
    ensures tokens { OnOk result (writer.new.tokens ≡ writer.old.tokens ++ suspects_tokens suspects.now) }
{
    writer.key("suspects")?;
    writer.begin_array()?;
    for suspect in suspects {
        put_suspect(writer, suspect)?;
    }
    writer.end_array()
}

/// Writes the object of a suspect block.
fn put_suspect(writer: &mut Writer, suspect: &Suspect) -> Result<(), AllocError>
    ensures before { writer.new.before ≡ writer.old.before }
    ensures tokens { OnOk result (writer.new.tokens ≡ writer.old.tokens ++ suspect_tokens suspect.now) }
{
    writer.begin_object()?;
    put_place(writer, suspect)?;
    put_owner(writer, suspect.owner)?;
    writer.end_object()
}

/// Writes the members on a suspect block itself, with the path of its entry.
fn put_place(writer: &mut Writer, suspect: &Suspect) -> Result<(), AllocError>
    ensures before { writer.new.before ≡ writer.old.before }
    ensures tokens { OnOk result (writer.new.tokens ≡ writer.old.tokens ++ place_tokens suspect.now) }
{
    put_number(writer, "block", Some(u64::from(suspect.block)))?;
    put_number(writer, "header", header_of(suspect))?;
    put_number(writer, "data", data_place(suspect.owner))?;
    put_text(writer, "path", suspect.path.as_deref())
}

/// Writes the members on what a block is.
fn put_owner(writer: &mut Writer, owner: Owner) -> Result<(), AllocError>
    ensures before { writer.new.before ≡ writer.old.before }
    ensures tokens { OnOk result (writer.new.tokens ≡ writer.old.tokens ++ owner_tokens owner) }
{
    put_text(writer, "owner", Some(owner_word(owner)))?;
    put_number(writer, "number", position_of(owner))
}

/// The block of the header of the entry that a suspect block belongs to, if there is one.
fn header_of(suspect: &Suspect) -> Option<u64>
    ensures { result ≡ entry_of suspect.now.block suspect.now.owner }
{
    match entry_of(suspect.block, suspect.owner) {
        Some(entry) => Some(u64::from(entry)),
        None => None,
    }
}

/// The position of a data block in its file, from 0.
fn data_place(owner: Owner) -> Option<u64>
    ensures { result ≡ data_place owner }
{
    match owner {
        Owner::Data(_, place) => Some(u64::from(place)),
        _ => None,
    }
}

/// The value of the long that shows a fault.
fn found_in(values: Option<Evidence>) -> Option<u64>
    ensures { result ≡ found_in values }
{
    Some(u64::from(values?.found))
}

/// The only right value of the long that shows a fault.
fn wanted_in(values: Option<Evidence>) -> Option<u64>
    ensures { result ≡ wanted_in values }
{
    values?.wanted.map(u64::from)
}
