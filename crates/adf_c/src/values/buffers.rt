//! Texts for C, in a buffer of the caller.

ghost use Rattle.adf_c.specs.Buffers.{Puts};

/// Copies a text to the start of the buffer, if there is room, and returns the length that it needs.
pub fn put(text: &[u8], to: &mut [u8]) -> usize
    ensures { Puts text.now to.old to.new result }
{
    if text.len() <= to.len() {
        to[..text.len()].copy_from_slice(text);
    }
    text.len()
}
