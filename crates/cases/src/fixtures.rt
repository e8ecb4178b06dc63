//! Volumes `Work`, and handlers over them.
ghost use Rattle.std.specs.Prelude.{◌≡◌, false};
ghost use Rattle.adf_block.specs.Whole.{IsSize};

use adf_block::{Format, Image};
use ados_handler::Handler;
use ados_name::{Date3, Name};
use ados_volume::{Volume, blank};
use std::alloc::Global;
use std::process::Abort;

/// The time stamp of every packet.
pub(crate) const START: Date3 = Date3 {
    days: 0,
    minutes: 0,
    ticks: 0,
};

/// The number of blocks of a double-density floppy.
pub(crate) const FLOPPY: u32 = 1_760;

/// The blank volume `Work` with `blocks` blocks. The call is repeated once if memory was refused.
pub(crate) fn blank_volume(rt: &impl Abort, alloc: Global, format: Format, blocks: u32) -> Volume
    requires { IsSize blocks }
{
    let name = Name::new(b"Work").expect(rt, "a name");
    match blank(alloc, format, blocks, name, START) {
        Ok(volume) => volume,
        Err(_) => blank(alloc, format, blocks, name, START).expect(rt, "error"),
    }
}

/// The blank FFS volume `Work` with `blocks` blocks.
pub(crate) fn work(rt: &impl Abort, alloc: Global, blocks: u32) -> Volume
    requires { IsSize blocks }
{
    blank_volume(rt, alloc, Format::Ffs, blocks)
}

/// Its image.
pub(crate) fn blank_image(rt: &impl Abort, alloc: Global, blocks: u32) -> Image
    requires { IsSize blocks }
{
    work(rt, alloc, blocks).into_image()
}

/// The handler of a blank volume with `blocks` blocks. It has not died.
pub(crate) fn handler_of(rt: &impl Abort, alloc: Global, blocks: u32) -> Handler
    requires { IsSize blocks }
    ensures { result.session.died ≡ false }
{
    Handler::new(alloc, work(rt, alloc, blocks))
}

/// The handler of the blank floppy. It has not died.
pub(crate) fn blank_handler(rt: &impl Abort, alloc: Global) -> Handler
    ensures { result.session.died ≡ false }
{
    handler_of(rt, alloc, FLOPPY)
}
