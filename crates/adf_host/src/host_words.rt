//! An error of the host in words.
use std::fmt;
use std::fmt::{Display, Formatter, Write};
use std::io::Error;

/// The text between the words for an error and its number.
const NUMBER: &str = " (os error ";

/// An error of the host in the host's own words, without its number.
#[derive(Clone, Copy)]
pub struct HostWords(pub Error);

impl Display for HostWords {
    fn fmt<W: Write>(&self, f: &mut Formatter<W>) -> fmt::Result {
        let mut words = Words {
            to: f,
            ended: false,
        };
        write!(words, "{}", self.0)
    }
}

/// Passes a text on up to the number of an error.
#[derive(Drop)]
struct Words<'a, W> {
    to: &'a mut Formatter<W>,
    ended: bool,
}

impl<W: Write> Write for Words<'_, W> {
    fn write_str(&mut self, text: &str) -> fmt::Result {
        if self.ended {
            return Ok(());
        }
        match text.split_once(NUMBER) {
            Some((words, _)) => {
                self.ended = true;
                self.to.write_str(words)
            }
            None => self.to.write_str(text),
        }
    }
}
