//! The notes that emulators keep beside host files, and dates, for C.

ghost use Rattle.std.specs.Prelude.{◌≡◌, pos};
ghost use Rattle.ados_name.specs.Date.{IsTextOf};
ghost use Rattle.ados_name.specs.Name.{IsComment};
ghost use Rattle.adf_c.specs.Buffers.{TextEnds};
ghost use Rattle.adf_c.specs.Dates.{DateOfTextEnds, DateOfTimeEnds, IsTimeOf, date_of};
ghost use Rattle.adf_c.specs.Names.{IsNoteOf, NoteEnds};

use crate::values::{
    JipDate, date_of_text, date_of_time, put, read_uaem, text_of_date, time_of_date, uaem_line,
};
use std::alloc::Global;

/// The line of a `.uaem` file with these protection bits, date and comment, as `adf_text::uaem_line` writes it. The
/// status is 0.
///
/// Status 2: out of memory. Status 3: the comment is longer than 79 bytes. In these cases `to` and `length` are unchanged.
#[unsafe(no_mangle)]
pub extern "C" fn jip_lib_uaem_line(
    alloc: Global,
    bits: u32,
    date: &JipDate,
    comment: &[u8],
    to: &mut [u8],
    length: &mut usize,
) -> i32
    ensures { TextEnds (IsNoteOf bits (date_of date.now) comment.now) (¬ IsComment comment.now) to.old to.new length.old length.new result }
{
    match uaem_line(alloc, bits, date.date(), comment) {
        Ok(line) => {
            *length = put(line.as_bytes(), to);
            0
        }
        Err(refusal) => refusal.number(),
    }
}

/// Reads a `.uaem` file, as `adf_text::read_uaem` does. The comment is put into the buffer. The status is 0.
///
/// Status 2: out of memory. Status 3: the file has a fault. In these cases everything is unchanged.
#[unsafe(no_mangle)]
pub extern "C" fn jip_lib_read_uaem(
    alloc: Global,
    file: &[u8],
    bits: &mut u32,
    date: &mut JipDate,
    comment: &mut [u8],
    length: &mut usize,
) -> i32
    ensures { NoteEnds file.now bits.old bits.new date.old date.new comment.old comment.new length.old length.new result }
{
    match read_uaem(alloc, file) {
        Ok(noted) => {
            *bits = noted.protect.bits();
            *date = JipDate::of(noted.date);
            *length = put(noted.comment.bytes(), comment);
            0
        }
        Err(refusal) => refusal.number(),
    }
}

/// The text of a date: `YYYY-MM-DD hh:mm:ss.cc`, or `raw DAYS MINUTES TICKS` if it has none of this form. The status is 0,
/// or 2 if memory runs out; then `to` and `length` are unchanged.
#[unsafe(no_mangle)]
pub extern "C" fn jip_lib_text_of_date(
    alloc: Global,
    date: &JipDate,
    to: &mut [u8],
    length: &mut usize,
) -> i32
    ensures { TextEnds (IsTextOf (date_of date.now)) ⊥ to.old to.new length.old length.new result }
{
    match text_of_date(alloc, date.date()) {
        Ok(text) => {
            *length = put(text.as_bytes(), to);
            0
        }
        Err(refusal) => refusal.number(),
    }
}

/// The date that has this text, in the form of `jip_lib_text_of_date`. The status is 0.
///
/// Status 2: out of memory. Status 3: no date has this text. In these cases the date is unchanged.
#[unsafe(no_mangle)]
pub extern "C" fn jip_lib_date_of_text(alloc: Global, text: &[u8], date: &mut JipDate) -> i32
    ensures { DateOfTextEnds text.now date.old date.new result }
{
    match date_of_text(alloc, text) {
        Ok(found) => {
            *date = JipDate::of(found);
            0
        }
        Err(refusal) => refusal.number(),
    }
}

/// The date at a host's time, in seconds and nanoseconds since 1970: the last tick that is not after it. A time before
/// 1978 is the first date, and one after the last day the last date. The status is 0.
///
/// Status 3: a second or more in nanoseconds; the date is unchanged.
#[unsafe(no_mangle)]
pub extern "C" fn jip_lib_date_of_time(seconds: i64, nanoseconds: u32, date: &mut JipDate) -> i32
    ensures { DateOfTimeEnds seconds nanoseconds date.old date.new result }
{
    match date_of_time(seconds, nanoseconds) {
        Ok(found) => {
            *date = JipDate::of(found);
            0
        }
        Err(refusal) => refusal.number(),
    }
}

/// The time of a host for a date, in seconds and nanoseconds since 1970: the start of its tick. Minutes beyond a day and
/// ticks beyond a minute are added. The status is 0.
#[unsafe(no_mangle)]
pub extern "C" fn jip_lib_time_of_date(
    date: &JipDate,
    seconds: &mut i64,
    nanoseconds: &mut u32,
) -> i32
    ensures status { result ≡ pos 0 }
    ensures time { IsTimeOf (date_of date.now) seconds.new nanoseconds.new }
{
    let since = time_of_date(date.date());
    *seconds = since.as_secs() as i64;
    *nanoseconds = since.subsec_nanos();
    0
}
