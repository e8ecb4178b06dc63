//! The byte buffers of packets.
ghost use Rattle.std.specs.Prelude.{◌≡◌};

use std::marker::Model;

/// The bytes that a READ fills or a WRITE writes. The answer returns them. Contracts see a list of bytes.
#[derive(Drop)]
pub struct Buffer {
    bytes: Vec<u8>,
}

impl Model for Buffer {
    ghost use Rattle.std.specs.Prelude.{List, ℕ};

    ghost Value = { List ℕ };

    ghost view = { λ buffer. buffer.bytes.items };
}

impl Buffer {
    /// A buffer of these bytes. Their number is the length of a READ or a WRITE.
    pub fn from_vec(bytes: Vec<u8>) -> Self
        ensures { result ≡ bytes.items }
    {
        Buffer { bytes }
    }

    /// The bytes of the buffer, without a copy.
    pub fn into_vec(self) -> Vec<u8>
        ensures { result.items ≡ self }
    {
        self.bytes
    }

    /// A view of the bytes.
    pub fn bytes(&self) -> &[u8]
        ensures { result.now ≡ self.now }
    {
        &self.bytes
    }
}

impl From<Vec<u8>> for Buffer {
    ghost from_gives = { λ bytes buffer. buffer ≡ bytes.items };

    fn from(bytes: Vec<u8>) -> Buffer {
        Buffer::from_vec(bytes)
    }
}

impl From<Buffer> for Vec<u8> {
    ghost from_gives = { λ buffer bytes. bytes.items ≡ buffer };

    fn from(buffer: Buffer) -> Vec<u8> {
        buffer.into_vec()
    }
}
