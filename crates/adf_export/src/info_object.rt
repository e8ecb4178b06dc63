//! The result of DISK_INFO as a JSON object.
ghost use Rattle.std.specs.Prelude.{◌≡◌, ◌++◌, ◌∷◌, [], IfOk, OnOk, codes};
ghost use Rattle.json.specs.Print.{print};
ghost use Rattle.adf_export.specs.InfoObject.{body_members, disk_members, info_tokens};

use adf_record::{put_flag, put_number};
use ados_model::{Answer, Body, DiskInfo};
use json::Writer;
use std::alloc::{AllocError, Global};

/// The object for an answer to DISK_INFO, and for whether the disk is bootable, on a line of its own.
pub(crate) fn info_object(
    alloc: Global,
    answer: &Answer,
    bootable: bool,
) -> Result<Vec<u8>, AllocError>
    ensures { IfOk result (λ text. text.items ≡ print (info_tokens answer.now bootable) ++ codes "\n") }
{
    let mut writer = Writer::new(Vec::new(alloc));
    put_info(&mut writer, answer, bootable)?;
    let mut text = writer.into_inner();
    text.push(b'\n')?;
    Ok(text)
}

/// Writes the object.
fn put_info(writer: &mut Writer, answer: &Answer, bootable: bool) -> Result<(), AllocError>
    ensures before { writer.new.before ≡ writer.old.before }
    ensures tokens { OnOk result (writer.new.tokens ≡ writer.old.tokens ++ info_tokens answer.now bootable) }
{
    writer.begin_object()?;
    put_body(writer, &answer.body)?;
    put_flag(writer, "bootable", bootable)?;
    writer.end_object()
}

/// Writes the members for the data of an answer.
fn put_body(writer: &mut Writer, body: &Body) -> Result<(), AllocError>
    ensures before { writer.new.before ≡ writer.old.before }
    ensures tokens { OnOk result (writer.new.tokens ≡ writer.old.tokens ++ body_members body.now) }
{
    match body {
        Body::Disk(info) => put_disk(writer, *info),
        _ => Ok(()),
    }
}

/// Writes the members for the description of a volume.
fn put_disk(writer: &mut Writer, info: DiskInfo) -> Result<(), AllocError>
    ensures before { writer.new.before ≡ writer.old.before }
    ensures tokens { OnOk result (writer.new.tokens ≡ writer.old.tokens ++ disk_members info) }
{
    put_number(writer, "state", Some(u64::from(info.state)))?;
    put_number(writer, "blocks", Some(u64::from(info.blocks)))?;
    put_number(writer, "used", Some(u64::from(info.used)))?;
    put_number(
        writer,
        "bytes_per_block",
        Some(u64::from(info.bytes_per_block)),
    )?;
    put_number(writer, "disk_type", Some(u64::from(info.disk_type)))
}
