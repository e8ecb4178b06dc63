//! The JSON object of the blocks of a file or directory.
ghost use Rattle.std.specs.Prelude.{◌≡◌, ◌++◌, IfOk, OnOk, codes, flat_map};
ghost use Rattle.json.specs.Print.{print};
ghost use Rattle.adf_where.specs.Own.{block_number, own_tokens};

use json::Writer;
use std::alloc::{AllocError, Global};

/// The object of these blocks, on a line of its own.
pub(crate) fn own_object(alloc: Global, blocks: &[usize]) -> Result<Vec<u8>, AllocError>
    ensures { IfOk result (λ text. text.items ≡ print (own_tokens blocks.now) ++ codes "\n") }
{
    let mut writer = Writer::new(Vec::new(alloc));
    put_object(&mut writer, blocks)?;
    let mut text = writer.into_inner();
    text.push(b'\n')?;
    Ok(text)
}

/// Writes the object.
fn put_object(writer: &mut Writer, blocks: &[usize]) -> Result<(), AllocError>
    ensures before { writer.new.before ≡ writer.old.before }
    ensures tokens { OnOk result (writer.new.tokens ≡ writer.old.tokens ++ own_tokens blocks.now) }
{
    writer.begin_object()?;
    writer.key("blocks")?;
    writer.begin_array()?;
    put_blocks(writer, blocks)?;
    writer.end_array()?;
    writer.end_object()
}

/// Writes the numbers of blocks.
fn put_blocks(writer: &mut Writer, blocks: &[usize]) -> Result<(), AllocError>
    ensures before { writer.new.before ≡ writer.old.before }
    ensures tokens { OnOk result (writer.new.tokens ≡ writer.old.tokens ++ flat_map block_number blocks.now) }
{
    for block in blocks {
        writer.u64(*block as u64)?;
    }
    Ok(())
}
