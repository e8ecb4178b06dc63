//! Escapes of bytes: `%` and two upper-case hexadecimal digits.
ghost use Rattle.std.specs.Prelude.{◌≡◌, IfOk, OnOk, ◌++◌};
ghost use Rattle.adf_text.specs.Escapes.{is_control, needs_escape, escaped_byte, escaped};

use percent_encoding::percent_encode_byte;
use std::alloc::{AllocError, Global};

/// Where bytes are printed.
#[derive(Clone, Copy)]
pub(crate) enum Place {
    HostName,
    Comment,
}

impl Place {
    /// Whether the byte is escaped there: 00 to 1F, 7F to 9F and `%`; in a host's name also `\`.
    fn needs_escape(self, byte: u8) -> bool
        ensures { result ≡ needs_escape self byte }
    {
        match self {
            Place::HostName => is_control(byte) || byte == b'%' || byte == b'\\',
            Place::Comment => is_control(byte) || byte == b'%',
        }
    }
}

/// Whether the byte is a control character: 00 to 1F or 7F to 9F.
pub(crate) fn is_control(byte: u8) -> bool
    ensures { result ≡ is_control byte }
{
    byte < 32 || (127 <= byte && byte < 160)
}

/// The bytes, with an escape for each that needs one there.
pub(crate) fn escaped(alloc: Global, bytes: &[u8], place: Place) -> Result<Vec<u8>, AllocError>
    ensures { IfOk result (λ shown. shown.items ≡ escaped place bytes.now) }
{
    let mut shown = Vec::new(alloc);
    for byte in bytes {
        push_escaped(&mut shown, *byte, place)?;
    }
    Ok(shown)
}

fn push_escaped(shown: &mut Vec<u8>, byte: u8, place: Place) -> Result<(), AllocError>
    ensures { OnOk result (shown.new.items ≡ shown.old.items ++ escaped_byte place byte) }
{
    if place.needs_escape(byte) {
        return shown.extend_from_slice(percent_encode_byte(byte).as_bytes());
    }
    shown.push(byte)?;
    Ok(())
}
