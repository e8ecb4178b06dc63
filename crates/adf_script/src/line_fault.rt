//! What is wrong with a line of a script.
use crate::forms::NumberKind;
use crate::pieces::behind;

/// What was expected where the reader stopped.
#[derive(Clone, Copy)]
pub enum Expected {
    /// A keyword.
    Keyword,
    /// A number of this kind.
    Number(NumberKind),
    /// A text in quotes.
    Text,
    /// A text of at most 255 bytes.
    ShortText,
    /// A space or the end of the line.
    Separator,
    /// The end of the line.
    End,
    /// A reply with a value, for each `$k`.
    Reply,
}

/// Where the reader of a line stopped: what was expected there, and what is there.
#[derive(Clone, Copy)]
pub struct Stop<'a> {
    pub expected: Expected,
    /// Empty at the end of the line.
    pub found: &'a [u8],
}

impl<'a> Stop<'a> {
    /// A fault of all fields, with all of them: those after a keyword.
    pub(crate) fn with_fields(self, rest: &'a [u8]) -> Stop<'a> {
        match (self.expected, behind(rest, b' ')) {
            (Expected::Reply, Some(found)) => Stop { found, ..self },
            _ => self,
        }
    }
}

/// A line that is no packet line.
#[derive(Clone, Copy)]
pub struct LineFault<'a> {
    /// The form of the lines with this keyword, as people write it, or `None` if no line has the keyword.
    pub shown: Option<&'static str>,
    pub stop: Stop<'a>,
}
