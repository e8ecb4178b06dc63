//! Rows of readers and writers that fail in mid-stream, and of their results.
use crate::fixtures::{START, blank_handler, blank_image};
use crate::rows::{Table, cut, expect_rows};
use crate::streams::{Bytes, Narrow};
use adf_block::SizeFault;
use adf_host::read_sketch;
use adf_io::{InputFault, LoadFault, StoreFault, load_image, store_image};
use adf_script::{TryFault, run_script};
use std::alloc::Global;
use std::process::Abort;
use std::str::from_utf8;

// Rows of reads: the kind of the input, the number of bytes, the maximum number of bytes a read, the event after the
// last byte, and the result.

/// Scripts of remarks.
const SCRIPTS: &str = "\
script 1048576 70000 end = whole
script 1048577 1000 end = faulty: 1 fault line 0
script endless 1 end = no end
script 0 1 fault = a read failed
script 1000 7 fault = a read failed";

/// Image files, and their sketches as volumes of 300 blocks.
const FILES: &str = "\
image 900000 4096 fault = a read failed
image 901120 1 end = blocks 1760
image 20480 512 fault = a read failed
image 52020736 65536 end = too many blocks
image 52020737 65536 end = no whole blocks
image endless 1 end = no end
image endless 65536 end = no end
sketch 20480 512 fault = a read failed
sketch 153599 500 end = none
sketch 153600 500 end = blocks 300
sketch 153601 500 end = none";

/// Rows of writes: the kind of the output, the number of successful writes, the maximum number of bytes a write,
/// whether a flush succeeds, and the result. Two lines of ten bytes are four writes of seven.
const WRITES: &str = "\
script 0 7 flush = a write failed
script 2 7 flush = a write failed
script 3 7 flush = a write failed
script 9 0 flush = a write failed
script 4 7 fault = a write failed
script 4 7 flush = whole
image 2 7 flush = 14
image 9 0 flush = 0
image 15 512 flush = 7680
image 16 512 flush = 8192
image 1170 7 flush = 8190
image 1171 7 flush = 8192";

fn number(text: &str) -> usize {
    text.parse().unwrap_or(usize::MAX)
}

/// The reader of a row.
fn reader_of(fields: &str, byte: u8) -> Bytes {
    let (left, rest) = cut(fields);
    let (step, last) = cut(rest);
    Bytes {
        byte,
        left: number(left),
        step: number(step),
        fails: last == "fault",
        interrupted: false,
    }
}

/// The writer of a row.
fn writer_of(alloc: Global, fields: &str) -> Narrow {
    let (writes, rest) = cut(fields);
    let (step, last) = cut(rest);
    Narrow {
        writes: number(writes),
        step: number(step),
        flushes: last == "flush",
        taken: Vec::new(alloc),
    }
}

fn try_text(ended: Result<(), TryFault>) -> &'static str {
    match ended {
        Ok(()) => "whole",
        Err(TryFault::Script) => "faulty",
        Err(TryFault::Read) => "a read failed",
        Err(TryFault::Write) => "a write failed",
        Err(TryFault::Memory) => "no memory",
        Err(TryFault::TurnLimit) => "no end",
    }
}

/// Whether a script of remarks has the result that a row says, with the line that it prints.
fn script_read(rt: &impl Abort, alloc: Global, reader: &mut Bytes, wanted: &str) -> bool {
    let mut lines = Vec::new(alloc);
    let ended = run_script(alloc, blank_handler(rt, alloc), START, reader, &mut lines);
    let (word, line) = wanted.split_once(": ").unwrap_or((wanted, ""));
    let told = from_utf8(&lines).unwrap_or("no text").trim_end();
    try_text(ended) == word && told == line
}

fn size_text(fault: SizeFault) -> &'static str {
    match fault {
        SizeFault::NotWholeBlocks => "no whole blocks",
        SizeFault::TooFewBlocks => "too few blocks",
        SizeFault::TooManyBlocks => "too many blocks",
    }
}

/// The number of blocks of an image, or why there is none.
type Loaded = Result<u32, &'static str>;

fn image_read(alloc: Global, reader: &mut Bytes) -> Loaded {
    match load_image(alloc, reader) {
        Ok(image) => Ok(image.blocks()),
        Err(LoadFault::Read) => Err("a read failed"),
        Err(LoadFault::Memory) => Err("no memory"),
        Err(LoadFault::TurnLimit) => Err("no end"),
        Err(LoadFault::Size(refused)) => Err(size_text(refused.fault)),
    }
}

/// Whether there is a sketch of 300 blocks.
fn sketch_read(alloc: Global, reader: &mut Bytes) -> Loaded {
    match read_sketch(alloc, reader, 300) {
        Ok(Some(_)) => Ok(300),
        Ok(None) => Err("none"),
        Err(InputFault::Read) => Err("a read failed"),
        Err(InputFault::Memory) => Err("no memory"),
        Err(InputFault::TurnLimit) => Err("no end"),
    }
}

/// Whether a row says this result.
fn is_loaded(wanted: &str, loaded: Loaded) -> bool {
    match loaded {
        Ok(blocks) => {
            let (word, count) = cut(wanted);
            word == "blocks" && number(count) == blocks as usize
        }
        Err(text) => text == wanted,
    }
}

/// Whether a read of a row has the result that it says.
fn is_read(rt: &impl Abort, alloc: Global, row: &str, wanted: &str) -> bool {
    let (what, fields) = cut(row);
    match what {
        "script" => script_read(rt, alloc, &mut reader_of(fields, b'#'), wanted),
        "image" => is_loaded(wanted, image_read(alloc, &mut reader_of(fields, 0))),
        _ => is_loaded(wanted, sketch_read(alloc, &mut reader_of(fields, 0))),
    }
}

fn script_written(rt: &impl Abort, alloc: Global, writer: &mut Narrow) -> &'static str {
    let mut script = b"other 5\nother 6\n".as_slice();
    try_text(run_script(alloc, blank_handler(rt, alloc), START, &mut script, writer))
}

/// The number of written bytes of an image if the writer kept exactly these; `None` if it kept others.
fn image_written(rt: &impl Abort, alloc: Global, writer: &mut Narrow) -> Option<usize> {
    let image = blank_image(rt, alloc, 16);
    let count = match store_image(&image, writer) {
        Ok(()) => image.as_bytes().len(),
        Err(StoreFault { written }) => written,
    };
    let is_front = image.as_bytes().get(..count) == Some(writer.taken.as_slice());
    if is_front { Some(count) } else { None }
}

/// Whether a write of a row has the result that it says.
fn is_written(rt: &impl Abort, alloc: Global, row: &str, wanted: &str) -> bool {
    let (what, fields) = cut(row);
    let mut writer = writer_of(alloc, fields);
    match what {
        "script" => script_written(rt, alloc, &mut writer) == wanted,
        _ => image_written(rt, alloc, &mut writer) == Some(number(wanted)),
    }
}

/// Reads that have the results that their rows say.
#[derive(Clone, Copy)]
struct Reads(Global);

impl Table for Reads {
    fn is_right<R: Abort>(&mut self, rt: &R, turn: &str, wanted: &str) -> bool {
        is_read(rt, self.0, turn, wanted)
    }
}

/// Writes that have the results that their rows say.
#[derive(Clone, Copy)]
struct Writes(Global);

impl Table for Writes {
    fn is_right<R: Abort>(&mut self, rt: &R, turn: &str, wanted: &str) -> bool {
        is_written(rt, self.0, turn, wanted)
    }
}

#[test]
fn failing_scripts(rt: HostRuntime) {
    expect_rows(&rt, &mut Reads(rt.alloc()), SCRIPTS);
}

#[test]
fn failing_files(rt: HostRuntime) {
    expect_rows(&rt, &mut Reads(rt.alloc()), FILES);
}

#[test]
fn failing_writers(rt: HostRuntime) {
    expect_rows(&rt, &mut Writes(rt.alloc()), WRITES);
}
