//! The progress of a check of several images, on a terminal.
use adf_record::Grouped;
use std::fmt;
use std::fmt::{Display, Formatter};
use std::io::Write;
use std::rt::Clock;
use std::time::Instant;

/// The progress of a check of several images. It is one line of a terminal, which is written over.
#[derive(Clone, Copy)]
pub(crate) struct Progress {
    images: u64,
    is_shown: bool,
    /// When the check began, if the clock can be read.
    start: Option<Instant>,
}

impl Progress {
    /// The progress of a check of this many images that begins now.
    pub(crate) fn begin<R: Clock>(rt: &R, images: usize, terminal: bool) -> Progress {
        Progress {
            images: images as u64,
            is_shown: terminal && images > 1,
            start: Instant::now(rt).ok(),
        }
    }

    /// Shows how many images are done, and how many of these are refused.
    pub(crate) fn show<R: Clock, F: Write>(
        self,
        rt: &R,
        done: usize,
        refused: u64,
        faults: &mut F,
    ) {
        if self.is_shown {
            let bar = Bar {
                done: done as u64,
                images: self.images,
                refused,
                millis: self.millis(rt),
            };
            let _ = write!(faults, "{bar}");
        }
    }

    /// Removes the line.
    pub(crate) fn clear<F: Write>(self, faults: &mut F) {
        if self.is_shown {
            let _ = write!(faults, "\r\x1b[K");
        }
    }

    /// The milliseconds since the start; 0 if they are not known.
    fn millis<R: Clock>(self, rt: &R) -> u64 {
        let Some(start) = self.start else {
            return 0;
        };
        match start.elapsed(rt) {
            Ok(time) => time
                .as_secs()
                .saturating_mul(1_000)
                .saturating_add(u64::from(time.subsec_millis())),
            Err(_) => 0,
        }
    }
}

/// The letters of a bar.
const WIDTH: u64 = 10;

/// A bar, the number of images that are done, their rate, the time that is left, and the number of refused images.
#[derive(Clone, Copy)]
struct Bar {
    done: u64,
    images: u64,
    refused: u64,
    /// The milliseconds since the start.
    millis: u64,
}

impl Bar {
    /// The letters of the bar that are full.
    fn full(self) -> u64 {
        let parts = self.done.saturating_mul(WIDTH);
        parts.checked_div(self.images).unwrap_or(0)
    }

    /// The images done in a second, if they are known.
    fn rate(self) -> Option<u64> {
        self.done.saturating_mul(1_000).checked_div(self.millis)
    }

    /// The seconds that are left, if they are known.
    fn left(self) -> Option<u64> {
        let rest = self.images.saturating_sub(self.done);
        let millis = rest.saturating_mul(self.millis).checked_div(self.done)?;
        Some(millis / 1_000)
    }
}

impl Display for Bar {
    fn fmt<W: fmt::Write>(&self, f: &mut Formatter<W>) -> fmt::Result {
        let full = self.full();
        f.write_str("[")?;
        for place in 0..WIDTH {
            f.write_str(if place < full { "#" } else { "-" })?;
        }
        write!(
            f,
            "] {} of {} images",
            Grouped(self.done),
            Grouped(self.images)
        )?;
        if let (Some(rate), Some(left)) = (self.rate(), self.left()) {
            write!(f, ", {}/s, {} left", Grouped(rate), TimeLeft(left))?;
        }
        write!(f, ", {} refused", Grouped(self.refused))
    }
}

/// A time in seconds, in its largest unit.
#[derive(Clone, Copy)]
struct TimeLeft(u64);

impl Display for TimeLeft {
    fn fmt<W: fmt::Write>(&self, f: &mut Formatter<W>) -> fmt::Result {
        match self.0 {
            seconds if seconds < 60 => write!(f, "{seconds} s"),
            seconds if seconds < 3_600 => write!(f, "{} min", seconds / 60),
            seconds => write!(f, "{} h", Grouped(seconds / 3_600)),
        }
    }
}
