//! The standard streams as files of the host.
use std::fs;
use std::rt::Files;

/// The argument for standard input as the image file of a command that reads it. A file of that name is `./-`.
const STANDARD_INPUT: &str = "-";

/// Where the host has the file of an argument: `/dev/stdin` for standard input, else its own path.
pub fn input_path(path: &str) -> &str {
    match path {
        STANDARD_INPUT => "/dev/stdin",
        path => path,
    }
}

/// A standard stream.
#[derive(Clone, Copy, PartialEq, Eq)]
pub enum Stream {
    Input,
    Output,
    Error,
}

impl Stream {
    /// The path that leads to the file that the stream is open on.
    pub(crate) fn path(self) -> &'static str {
        match self {
            Stream::Input => "/proc/self/fd/0",
            Stream::Output => "/proc/self/fd/1",
            Stream::Error => "/proc/self/fd/2",
        }
    }

    /// The path of the host's description of the open stream.
    pub(crate) fn state_path(self) -> &'static str {
        match self {
            Stream::Input => "/proc/self/fdinfo/0",
            Stream::Output => "/proc/self/fdinfo/1",
            Stream::Error => "/proc/self/fdinfo/2",
        }
    }
}

/// Whether a stream is a regular file. Without `/proc` the host does not say it.
pub(crate) fn is_regular<R: Files>(rt: &R, stream: Stream) -> bool {
    match fs::metadata(rt, stream.path()) {
        Ok(found) => found.is_file(),
        Err(_) => false,
    }
}
