//! The facts of a volume as a JSON object.
ghost use Rattle.std.specs.Prelude.{◌≡◌, ◌++◌, IfOk, OnOk};
ghost use Rattle.adf_record.specs.Object.{IsFactsObject, object_tokens, front_tokens, amount_tokens, end_tokens, lost_tokens};

use crate::facts::Facts;
use crate::members::{put_flag, put_number, put_text};
use crate::words::{boot_word, kind_word};
use adf_text::letter_text;
use json::Writer;
use std::alloc::{AllocError, Global};

/// The facts of a volume as a JSON object, on a line of its own.
pub(crate) fn facts_object(alloc: Global, facts: &Facts) -> Result<Vec<u8>, AllocError>
    ensures { IfOk result (λ text. IsFactsObject facts.now text.items) }
{
    let created = facts.created.text(alloc)?;
    let changed = facts.changed.text(alloc)?;
    let mut writer = Writer::new(Vec::new(alloc));
    put_object(
        alloc,
        &mut writer,
        facts,
        created.as_str(),
        changed.as_str(),
    )?;
    let mut text = writer.into_inner();
    text.push(b'\n')?;
    Ok(text)
}

/// Writes the object, with the texts of both dates.
fn put_object(
    alloc: Global,
    writer: &mut Writer,
    facts: &Facts,
    created: &str,
    changed: &str,
) -> Result<(), AllocError>
    ensures before { writer.new.before ≡ writer.old.before }
    ensures tokens { OnOk result (writer.new.tokens ≡ writer.old.tokens ++ object_tokens facts.now created.now changed.now) }
{
    writer.begin_object()?;
    put_front(alloc, writer, facts)?;
    put_amounts(writer, facts)?;
    put_end(writer, facts, created, changed)?;
    put_lost(writer, facts)?;
    writer.end_object()
}

/// Writes what the volume is.
fn put_front(alloc: Global, writer: &mut Writer, facts: &Facts) -> Result<(), AllocError>
    ensures before { writer.new.before ≡ writer.old.before }
    ensures tokens { OnOk result (writer.new.tokens ≡ writer.old.tokens ++ front_tokens facts.now) }
{
    let label = letter_text(alloc, facts.label.bytes())?;
    put_text(writer, "name", Some(label.as_str()))?;
    put_text(writer, "kind", Some(kind_word(facts.format)))?;
    put_number(writer, "blocks", Some(u64::from(facts.blocks)))?;
    put_flag(writer, "validated", facts.rebuilt)
}

/// Writes what is in the volume.
fn put_amounts(writer: &mut Writer, facts: &Facts) -> Result<(), AllocError>
    ensures before { writer.new.before ≡ writer.old.before }
    ensures tokens { OnOk result (writer.new.tokens ≡ writer.old.tokens ++ amount_tokens facts.now) }
{
    put_number(writer, "files", Some(facts.counts.files as u64))?;
    put_number(writer, "directories", Some(facts.counts.directories as u64))?;
    put_number(writer, "used", Some(u64::from(facts.used)))?;
    put_number(writer, "free", Some(u64::from(facts.free)))
}

/// Writes both dates, and what the boot block is.
fn put_end(
    writer: &mut Writer,
    facts: &Facts,
    created: &str,
    changed: &str,
) -> Result<(), AllocError>
    ensures before { writer.new.before ≡ writer.old.before }
    ensures tokens { OnOk result (writer.new.tokens ≡ writer.old.tokens ++ end_tokens facts.now created.now changed.now) }
{
    put_text(writer, "created", Some(created))?;
    put_text(writer, "changed", Some(changed))?;
    put_text(writer, "boot", Some(boot_word(facts.boot)))
}

/// Writes how many blocks are lost, and how many headers of files and of directories are among them.
fn put_lost(writer: &mut Writer, facts: &Facts) -> Result<(), AllocError>
    ensures before { writer.new.before ≡ writer.old.before }
    ensures tokens { OnOk result (writer.new.tokens ≡ writer.old.tokens ++ lost_tokens facts.now) }
{
    put_number(writer, "lost", Some(facts.lost.blocks as u64))?;
    put_number(writer, "lost_files", Some(facts.lost.files as u64))?;
    put_number(
        writer,
        "lost_directories",
        Some(facts.lost.directories as u64),
    )
}
