//! The numbers of blocks as text.
ghost use Rattle.std.specs.Prelude.{◌≡◌, ◌++◌, IfOk, OnOk};
ghost use Rattle.ados_validate.specs.Said.{blocks_were, validated_line, validated_object, validated_text, validated_tokens, were};

use crate::answer::Validated;
use adf_record::put_number;
use json::Writer;
use std::alloc::{AllocError, Global};

impl Validated {
    /// The numbers of blocks as a line, or with `json` as an object on a line of its own.
    pub fn text(&self, alloc: Global, json: bool) -> Result<Vec<u8>, AllocError>
        ensures { IfOk result (λ text. text.items ≡ validated_text json self.now.were_free self.now.were_used) }
    {
        if json {
            self.object(alloc)
        } else {
            self.line(alloc)
        }
    }

    fn line(&self, alloc: Global) -> Result<Vec<u8>, AllocError>
        ensures { IfOk result (λ text. text.items ≡ validated_line self.now.were_free self.now.were_used) }
    {
        let freed = self.were_free;
        let used = self.were_used;
        let blocks = blocks_were(freed);
        let others = were(used);
        let line = format!(in alloc;
            "validated: {freed} {blocks} marked free, {used} {others} marked used\n"
        )?;
        Ok(line.into_bytes())
    }

    fn object(&self, alloc: Global) -> Result<Vec<u8>, AllocError>
        ensures { IfOk result (λ text. text.items ≡ validated_object self.now.were_free self.now.were_used) }
    {
        let mut writer = Writer::new(Vec::new(alloc));
        put_numbers(&mut writer, self.were_free, self.were_used)?;
        let mut text = writer.into_inner();
        text.push(b'\n')?;
        Ok(text)
    }
}

/// Writes the object for these numbers of blocks.
fn put_numbers(writer: &mut Writer, freed: u32, used: u32) -> Result<(), AllocError>
    ensures before { writer.new.before ≡ writer.old.before }
    ensures tokens { OnOk result (writer.new.tokens ≡ writer.old.tokens ++ validated_tokens freed used) }
{
    writer.begin_object()?;
    put_number(writer, "were_free", Some(u64::from(freed)))?;
    put_number(writer, "were_used", Some(u64::from(used)))?;
    writer.end_object()
}

/// The noun and the verb for a number of blocks.
fn blocks_were(number: u32) -> &'static str
    ensures { result.now ≡ blocks_were number }
{
    if number == 1 {
        "block was"
    } else {
        "blocks were"
    }
}

/// The verb for a number of blocks.
fn were(number: u32) -> &'static str
    ensures { result.now ≡ were number }
{
    if number == 1 { "was" } else { "were" }
}
