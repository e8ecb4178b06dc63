//! Reads of a file.

ghost use Rattle.std.specs.Prelude.{◌≡◌, ◌++◌, ◌-◌, min, take, drop, length};
ghost use Rattle.ados_model.specs.File.{ReadableFile, contents};
ghost use Rattle.ados_data.specs.Place.{IsPlace};

use crate::cost::{data_size, data_start};
use crate::fields::data_block;
use crate::place::{Place, pointer_block};
use adf_block::Image;
use adf_block::layout::{FILE_SIZE, NEXT_EXTENSION, TABLE_LONGS};

/// Copies bytes of a file from byte `pos` into the buffer, as many as exist and fit. It returns their number. The rest
/// of the buffer is unchanged.
pub fn read_at(image: &Image, file: u32, pos: u64, buffer: &mut [u8]) -> usize
    requires { ReadableFile image.now file }
    ensures count { result ≡ min (length buffer.old) (length (contents image.now file) - pos) }
    ensures bytes { buffer.new ≡ take result (drop pos (contents image.now file)) ++ drop result buffer.old }
{
    read_near(image, file, Place::header(file), pos, buffer)
}

/// `read_at` with a walk that starts at `near`.
pub fn read_near(image: &Image, file: u32, near: Place, pos: u64, buffer: &mut [u8]) -> usize
    requires readable { ReadableFile image.now file }
    requires near { IsPlace image.now file near }
    ensures count { result ≡ min (length buffer.old) (length (contents image.now file) - pos) }
    ensures bytes { buffer.new ≡ take result (drop pos (contents image.now file)) ++ drop result buffer.old }
{
    let format = image.format();
    let room = data_size(format);
    let size = image.long(file, FILE_SIZE) as u64;
    if size <= pos {
        return 0;
    }
    let count = buffer.len().min((size - pos) as usize);
    let mut holder = pointer_block(image, file, near, pos / room as u64 / TABLE_LONGS as u64);
    let mut done = 0;
    while done < count {
        let at = pos + done as u64;
        let i = at / room as u64;
        let from = (at % room as u64) as usize;
        let part = (room - from).min(count - done);
        let found = &image.block(data_block(image, holder, i))[data_start(format)..];
        buffer[done..done + part].copy_from_slice(&found[from..from + part]);
        done += part;
        if (at + part as u64) % (TABLE_LONGS as u64 * room as u64) == 0 {
            holder = image.long(holder, NEXT_EXTENSION);
        }
    }
    count
}
