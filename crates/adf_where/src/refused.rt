//! What is printed where something is refused: a line, or a JSON object.
ghost use Rattle.std.specs.Prelude.{◌≡◌, ◌++◌, ◌∷◌, [], IfOk, OnOk, codes};
ghost use Rattle.json.specs.Print.{print};
ghost use Rattle.json.specs.Token.{end_object, key};
ghost use Rattle.ados_model.specs.Packet.{error_number};
ghost use Rattle.adf_where.specs.Refused.{dos_reason, fault_reason, refused_line, refused_object, refused_text};
ghost use Rattle.adf_where.specs.steps.Parts.{before_reason, refused_front};

use adf_record::{put_number, put_text};
use ados_model::DosError;
use json::Writer;
use std::alloc::{AllocError, Global};

/// Why an image is refused: the word for its fault, and the block that shows it.
#[derive(Clone, Copy)]
pub struct FaultReason {
    pub kind: &'static str,
    pub block: u32,
}

/// The text for a refused image: `refused KIND BLOCK`, or with `json` an object whose member `refused` has `kind` and `block`.
/// Either is a line.
pub fn refused_text(alloc: Global, reason: FaultReason, json: bool) -> Result<Vec<u8>, AllocError>
    ensures { IfOk result (λ text. text.items ≡ refused_text json reason.kind.now reason.block) }
{
    if !json {
        return refused_line(alloc, reason);
    }
    let mut writer = begin_refused(alloc)?;
    put_fault_reason(&mut writer, reason)?;
    end_refused(writer)
}

/// The object for what AmigaDOS refuses, on a line of its own: its member `refused` has the `number` of the error, and the
/// `path` that it is about.
pub fn dos_refused_text(alloc: Global, error: DosError, path: &str) -> Result<Vec<u8>, AllocError>
    ensures { IfOk result (λ text. text.items ≡ refused_object (dos_reason (error_number error) path.now)) }
{
    let mut writer = begin_refused(alloc)?;
    put_dos_reason(&mut writer, error, path)?;
    end_refused(writer)
}

/// What is before the lines or the array of blocks of a refused image: the line, or the object up to the array.
pub(crate) fn refused_front(
    alloc: Global,
    reason: FaultReason,
    json: bool,
) -> Result<Vec<u8>, AllocError>
    ensures { IfOk result (λ text. text.items ≡ refused_front json reason.kind.now reason.block) }
{
    if !json {
        return refused_line(alloc, reason);
    }
    let mut writer = begin_refused(alloc)?;
    put_fault_reason(&mut writer, reason)?;
    writer.key("blocks")?;
    Ok(writer.into_inner())
}

/// `refused KIND BLOCK`
fn refused_line(alloc: Global, reason: FaultReason) -> Result<Vec<u8>, AllocError>
    ensures { IfOk result (λ text. text.items ≡ refused_line reason.kind.now reason.block) }
{
    let FaultReason { kind, block } = reason;
    let line = format!(in alloc; "refused {kind} {block}\n")?;
    Ok(line.into_bytes())
}

/// An object up to the reason.
pub(crate) fn begin_refused(alloc: Global) -> Result<Writer, AllocError>
    ensures before { IfOk result (λ writer. writer.before ≡ []) }
    ensures tokens { IfOk result (λ writer. writer.tokens ≡ before_reason) }
{
    let mut writer = Writer::new(Vec::new(alloc));
    writer.begin_object()?;
    writer.key("refused")?;
    Ok(writer)
}

/// The whole object after the reason, and the end of its line.
pub(crate) fn end_refused(writer: Writer) -> Result<Vec<u8>, AllocError>
    ensures { IfOk result (λ text. text.items ≡ writer.before ++ (print (writer.tokens ++ end_object ∷ []) ++ codes "\n")) }
{
    let mut writer = writer;
    writer.end_object()?;
    let mut text = writer.into_inner();
    text.push(b'\n')?;
    Ok(text)
}

/// Writes why an image is refused.
pub(crate) fn put_fault_reason(writer: &mut Writer, reason: FaultReason) -> Result<(), AllocError>
    ensures before { writer.new.before ≡ writer.old.before }
    ensures tokens { OnOk result (writer.new.tokens ≡ writer.old.tokens ++ fault_reason reason.kind.now reason.block) }
{
    writer.begin_object()?;
    put_text(writer, "kind", Some(reason.kind))?;
    put_number(writer, "block", Some(u64::from(reason.block)))?;
    writer.end_object()
}

/// Writes why AmigaDOS refuses something.
fn put_dos_reason(writer: &mut Writer, error: DosError, path: &str) -> Result<(), AllocError>
    ensures before { writer.new.before ≡ writer.old.before }
    ensures tokens { OnOk result (writer.new.tokens ≡ writer.old.tokens ++ dos_reason (error_number error) path.now) }
{
    writer.begin_object()?;
    writer.key("number")?;
    writer.i64(i64::from(error.number()))?;
    put_text(writer, "path", Some(path))?;
    writer.end_object()
}
