//! Files that are opened within a time limit.
use std::alloc::Global;
use std::fs::File;
use std::io::{Error, ErrorKind};
use std::random::RandomSource;
use std::rt::{Clock, Files};
use std::sync::Arc;
use std::sync::atomic::{AtomicBool, Ordering};
use std::thread::Threads;
use std::time::Duration;
use std::{fs, thread};

/// A host on which a file is opened within a time limit, and which has the time and random numbers for the names of files.
pub trait PromptFiles: Files + Threads + Clock + RandomSource {
    /// Opens the file at a path for reading. The host waits at a pipe until another program writes to it: after some
    /// seconds the call fails with the kind `TimedOut`.
    fn open_promptly(&self, alloc: Global, path: &str) -> Result<Self::File, Error>;
}

/// The number of times that it is looked whether the file is open before there is a pause.
const LOOKS: u32 = 64;

/// The maximum number of pauses. They take three seconds at least.
const PAUSES: u32 = 30_000;

/// The microseconds of a pause.
const PAUSE: u64 = 100;

/// A host that is this machine, so that another thread can open its files.
pub trait Machine {
    /// The machine.
    fn machine(&self) -> HostRuntime;
}

impl Machine for HostRuntime {
    fn machine(&self) -> HostRuntime {
        *self
    }
}

impl<R: Files<File = File> + Threads + Clock + RandomSource + Machine> PromptFiles for R {
    fn open_promptly(&self, alloc: Global, path: &str) -> Result<File, Error> {
        open_there(self, self.machine(), alloc, path)
    }
}

/// Opens a file of the machine by another thread. One that waits at a pipe is left alone, and ends with the program.
fn open_there<R: Threads + Clock>(
    rt: &R,
    machine: HostRuntime,
    alloc: Global,
    path: &str,
) -> Result<File, Error> {
    let path = String::from_str(alloc, path)?;
    let is_open = Arc::new(alloc, AtomicBool::new(false))?;
    let told = Arc::try_clone(&is_open)?;
    let Ok(opening) = thread::spawn(rt, move || open_and_tell(&machine, path, &told)) else {
        return Err(Error::new(ErrorKind::OutOfMemory, "no thread can be started"));
    };
    for look in 0..LOOKS + PAUSES {
        if is_open.load(Ordering::SeqCst) {
            return opening.join(rt);
        }
        if look < LOOKS {
            thread::yield_now();
        } else {
            thread::sleep(rt, Duration::from_micros(PAUSE));
        }
    }
    Err(Error::new(
        ErrorKind::TimedOut,
        "it is a pipe to which nothing is written",
    ))
}

/// Opens a file, and tells that this is done.
fn open_and_tell(
    machine: &HostRuntime,
    path: String,
    told: &Arc<AtomicBool, Global>,
) -> Result<File, Error> {
    let opened = fs::open(machine, path.as_str());
    told.store(true, Ordering::SeqCst);
    opened
}
