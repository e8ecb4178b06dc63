//! The fields of a new block, and a field of an old one.

ghost use Rattle.std.specs.Prelude.{◌≡◌, ◌≢◌, ◌<◌};
ghost use Rattle.adf_block.specs.Image.{block_count, block_sum, long};
ghost use Rattle.adf_block.specs.Fields.{primary_type, own_key, sequence_number, held_count};
ghost use Rattle.adf_block.specs.Frame.{SameBut};
ghost use Rattle.adf_block.specs.declared.layout.TheConstants.{BLOCK_LONGS, NEXT_DATA};
ghost use Rattle.adf_block.specs.declared.beside.TheConstants.{CHECKSUM};
ghost use Rattle.ados_model.specs.Stands.{HasExtension};
ghost use Rattle.ados_data.specs.steps.Edits.{AtExtensionFields, AtDataFields, AtField};

use adf_block::beside::CHECKSUM;
use adf_block::layout::{
    DATA_TYPE, FILE_TYPE, LIST_TYPE, OWN_KEY, PARENT, PRIMARY_TYPE, SECONDARY_TYPE, SEQUENCE,
};
use adf_block::{Format, Image};

/// Makes the empty block `b` an extension block of a file, without pointers.
pub fn make_extension(image: &mut Image, b: u32, file: u32)
    requires { b < block_count image.old }
    ensures fields { HasExtension image.new file b }
    ensures rest { SameBut (AtExtensionFields b) image.old image.new }
{
    image.set_long(b, PRIMARY_TYPE, LIST_TYPE);
    image.set_long(b, OWN_KEY, b);
    image.set_long(b, PARENT, file);
    image.set_long(b, SECONDARY_TYPE, FILE_TYPE);
    image.settle(b, CHECKSUM);
}

/// Makes the empty block `b` a data block of a file with this sequence number, from 1. It holds no data yet. In FFS it
/// has no fields.
pub fn make_data(image: &mut Image, format: Format, b: u32, file: u32, sequence: u32)
    requires { b < block_count image.old }
    ensures primary { format ≡ Format.Ofs → primary_type image.new b ≡ DATA_TYPE }
    ensures header { format ≡ Format.Ofs → own_key image.new b ≡ file }
    ensures sequence { format ≡ Format.Ofs → sequence_number image.new b ≡ sequence }
    ensures held { held_count image.new b ≡ held_count image.old b }
    ensures next { long image.new b NEXT_DATA ≡ long image.old b NEXT_DATA }
    ensures sum { format ≡ Format.Ofs → block_sum image.new b ≡ 0 }
    ensures rest { SameBut (AtDataFields format b) image.old image.new }
{
    if format == Format::Ofs {
        image.set_long(b, PRIMARY_TYPE, DATA_TYPE);
        image.set_long(b, OWN_KEY, file);
        image.set_long(b, SEQUENCE, sequence);
        image.settle(b, CHECKSUM);
    }
}

/// Sets long `i` of block `b`, and makes its checksum anew: its longs add up to 0 afterwards, also if the checksum was
/// wrong before.
pub fn set_settled(image: &mut Image, b: u32, i: u32, v: u32)
    requires block { b < block_count image.old }
    requires place { i < BLOCK_LONGS }
    requires apart { i ≢ CHECKSUM }
    ensures long { long image.new b i ≡ v }
    ensures sum { block_sum image.new b ≡ 0 }
    ensures rest { SameBut (AtField b i) image.old image.new }
{
    image.set_long(b, i, v);
    image.settle(b, CHECKSUM);
}
