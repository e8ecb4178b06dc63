//! The lines for a client's replies and for its end.
ghost use Rattle.std.specs.Prelude.{◌≡◌, ◌++◌, IfOk, OnOk};
ghost use Rattle.adf_script.specs.Text.{count_read, read_text, entry_text, disk_text, body_text, results, line, reply_line, closed_line, no_reply_line, no_room_line, fault_line};

use crate::hex::{push_hex, push_hex_long};
use ados_model::{Action, Answer, Body, DiskInfo, FileInfo};
use std::alloc::{AllocError, Global};

/// The line for a reply, with its line feed.
pub fn reply_text(
    alloc: Global,
    client: usize,
    number: u64,
    answer: &Answer,
) -> Result<Vec<u8>, AllocError>
    ensures { IfOk result (λ text. text.items ≡ reply_line client number answer.now) }
{
    let mut text = format!(in alloc; "{client}.{number} ")?.into_bytes();
    push_results(alloc, &mut text, answer)?;
    Ok(text)
}

/// A line with an answer's results only, with its line feed.
pub fn results_text(alloc: Global, answer: &Answer) -> Result<Vec<u8>, AllocError>
    ensures { IfOk result (λ text. text.items ≡ line (results answer.now)) }
{
    let mut text = Vec::new(alloc);
    push_results(alloc, &mut text, answer)?;
    Ok(text)
}

fn push_results(alloc: Global, text: &mut Vec<u8>, answer: &Answer) -> Result<(), AllocError>
    ensures { OnOk result (text.new.items ≡ text.old.items ++ line (results answer.now)) }
{
    let res1 = answer.res1;
    let res2 = answer.res2;
    let numbers = format!(in alloc; "{res1} {res2}")?;
    text.extend_from_slice(numbers.as_bytes())?;
    push_body(alloc, text, answer)?;
    text.push(b'\n')?;
    Ok(())
}

/// The line for a put that was refused as closed.
pub fn closed_text(alloc: Global, client: usize, number: u64) -> Result<Vec<u8>, AllocError>
    ensures { IfOk result (λ text. text.items ≡ closed_line client number) }
{
    let text = format!(in alloc; "{client}.{number} closed\n")?;
    Ok(text.into_bytes())
}

/// The line for a client without a reply to its packet of this number.
pub fn no_reply_text(alloc: Global, client: usize, number: u64) -> Result<Vec<u8>, AllocError>
    ensures { IfOk result (λ text. text.items ≡ no_reply_line client number) }
{
    let text = format!(in alloc; "{client}.{number} no reply\n")?;
    Ok(text.into_bytes())
}

/// The line for a client whose packet found no room. The packet would have had this number.
pub fn no_room_text(alloc: Global, client: usize, number: u64) -> Result<Vec<u8>, AllocError>
    ensures { IfOk result (λ text. text.items ≡ no_room_line client number) }
{
    let text = format!(in alloc; "{client}.{number} no room\n")?;
    Ok(text.into_bytes())
}

/// The line for a faulty line, with its number.
pub fn fault_text(alloc: Global, client: usize, number: u64) -> Result<Vec<u8>, AllocError>
    ensures { IfOk result (λ text. text.items ≡ fault_line client number) }
{
    let text = format!(in alloc; "{client} fault line {number}\n")?;
    Ok(text.into_bytes())
}

fn push_body(alloc: Global, text: &mut Vec<u8>, answer: &Answer) -> Result<(), AllocError>
    ensures { OnOk result (text.new.items ≡ text.old.items ++ body_text answer.now) }
{
    match &answer.body {
        Body::Empty => Ok(()),
        Body::Handle(_) => Ok(()),
        Body::Buffer(buffer) => push_read(text, count_read(answer), buffer.bytes()),
        Body::Entry(info) => push_entry(alloc, text, info),
        Body::Disk(info) => push_disk(alloc, text, info),
    }
}

/// The number of bytes that a READ returned. The buffer of a WRITE is not printed.
fn count_read(answer: &Answer) -> usize
    ensures { result ≡ count_read answer.now.action answer.now.res1 }
{
    if answer.action == Action::Read.number() && answer.res1 > 0 {
        answer.res1 as usize
    } else {
        0
    }
}

fn push_read(text: &mut Vec<u8>, count: usize, bytes: &[u8]) -> Result<(), AllocError>
    ensures { OnOk result (text.new.items ≡ text.old.items ++ read_text count bytes.now) }
{
    if count == 0 {
        return Ok(());
    }
    text.push(b' ')?;
    push_hex(text, &bytes[..count.min(bytes.len())])
}

fn push_entry(alloc: Global, text: &mut Vec<u8>, info: &FileInfo) -> Result<(), AllocError>
    ensures { OnOk result (text.new.items ≡ text.old.items ++ entry_text info.now) }
{
    let FileInfo {
        key,
        entry_type,
        size,
        ..
    } = *info;
    let numbers = format!(in alloc; " {key} {entry_type} {size} ")?;
    text.extend_from_slice(numbers.as_bytes())?;
    text.extend_from_slice(info.name.bytes())?;
    Ok(())
}

fn push_disk(alloc: Global, text: &mut Vec<u8>, info: &DiskInfo) -> Result<(), AllocError>
    ensures { OnOk result (text.new.items ≡ text.old.items ++ disk_text info.now) }
{
    let DiskInfo {
        state,
        blocks,
        used,
        bytes_per_block,
        disk_type,
    } = *info;
    let counts = format!(in alloc; " {state} {blocks} {used} {bytes_per_block} ")?;
    text.extend_from_slice(counts.as_bytes())?;
    push_hex_long(text, disk_type)
}
