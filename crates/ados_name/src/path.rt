//! Paths and their steps.
ghost use Rattle.std.specs.Prelude.{◌≡◌, ◌↔◌, IsOk, IfOk, false};
ghost use Rattle.std.specs.List.{list_any, before_first, after_first};
ghost use Rattle.ados_name.specs.Name.{is_slash, is_separator, is_from_root, steps, front, last_name};
ghost use Rattle.ados_name.specs.Path.{walked_part, IsPathText};

use crate::short_text::ShortText;
use bstr::ByteSlice;
use std::marker::Model;

/// A path, or another text in a packet: at most 255 bytes.
#[derive(Clone, Copy, PartialEq, Eq)]
pub struct PathText {
    text: ShortText<255>,
}

impl Model for PathText {
    ghost use Rattle.std.specs.Prelude.{ℕ, List};

    ghost Value = { List ℕ };

    ghost view = { λ s. s.text };

    ghost inverse = { λ bytes. record { text = bytes } };
}

/// The text is longer than 255 bytes.
#[derive(Clone, Copy, Debug, PartialEq, Eq)]
pub struct PathTooLong;

impl PathText {
    /// The most bytes of a path.
    pub const MAX_LEN: usize = 255;

    /// Checks the length of a text. Each byte may have any value, and the names in the path are not checked.
    pub fn new(text: &[u8]) -> Result<PathText, PathTooLong>
        ensures ok { IfOk result (λ path. path ≡ text.now) }
        ensures valid { IsOk result ↔ IsPathText text.now }
    {
        if text.len() > PathText::MAX_LEN {
            return Err(PathTooLong);
        }
        Ok(PathText {
            text: ShortText::new(text),
        })
    }

    /// The 0 to 255 bytes of the path.
    pub fn bytes(&self) -> &[u8]
        ensures value { result.now ≡ self.now }
        ensures valid { IsPathText self.now }
    {
        self.text.bytes()
    }

    /// Whether the path starts at the root: it has a `:`. The text before the `:` is not compared with any volume's
    /// name.
    pub fn from_root(&self) -> bool
        ensures { result ≡ is_from_root self.now }
    {
        from_root(self.bytes())
    }

    /// The steps of the whole path. An empty component before a `/` is a step to the parent.
    pub fn steps(&self) -> PathSteps<'_>
        ensures { result ≡ steps self.now }
    {
        PathSteps::of(self.bytes())
    }

    /// The path without its last name, and that name: the bytes after the last `/` or `:`. The name may be empty or
    /// longer than 30 bytes.
    pub fn split_last(&self) -> (&[u8], &[u8])
        ensures front { result.0.now ≡ front self.now }
        ensures last { result.1.now ≡ last_name self.now }
        ensures plain { list_any is_separator (last_name self.now) ≡ false }
    {
        split_last(self.bytes())
    }
}

/// Whether a path starts at the root, as [`PathText::from_root`] for a path of any length.
pub fn from_root(path: &[u8]) -> bool
    ensures { result ≡ is_from_root path.now }
{
    path.find_byte(b':').is_some()
}

/// A path without its last name, and that name, as [`PathText::split_last`] for a path of any length.
pub fn split_last(path: &[u8]) -> (&[u8], &[u8])
    ensures front { result.0.now ≡ front path.now }
    ensures last { result.1.now ≡ last_name path.now }
    ensures plain { list_any is_separator (last_name path.now) ≡ false }
{
    match path.rfind_byteset(b"/:") {
        Some(at) => path.split_at(at + 1),
        None => path.split_at(0),
    }
}

/// One step of a walk.
#[derive(Clone, Copy, PartialEq, Eq)]
pub enum Step<'a> {
    Parent,
    /// To the child of this name. The name may be longer than 30 bytes or have a `:`.
    Child(&'a [u8]),
}

/// The steps of a path that are not made yet.
#[derive(Drop)]
pub struct PathSteps<'a> {
    rest: &'a [u8],
}

impl<'a> Model for PathSteps<'a> {
    ghost use Rattle.std.specs.Prelude.{List};
    ghost use Rattle.ados_name.specs.Name.{Step, steps_along};

    ghost Value = { List Step };

    ghost view = { λ s. steps_along s.rest.now };
}

impl<'a> PathSteps<'a> {
    /// The steps of a path, or of a path without its last name.
    pub fn of(path: &'a [u8]) -> PathSteps<'a>
        ensures { result ≡ steps path.now }
    {
        PathSteps {
            rest: without_volume(path),
        }
    }
}

impl<'a> Iterator for PathSteps<'a> {
    ghost use Rattle.std.specs.Iterator.{YieldsFirstBy, item_count};
    ghost use Rattle.ados_name.specs.StepView.{step_of};

    type Item = Step<'a>;

    ghost next_gives = { YieldsFirstBy step_of (λ rest. rest) };

    ghost remaining = { item_count (λ rest. rest) };

    fn next(&mut self) -> Option<Step<'a>> {
        if self.rest.is_empty() {
            return None;
        }
        let (component, rest) = split_component(self.rest);
        self.rest = rest;
        if component.is_empty() {
            return Some(Step::Parent);
        }
        Some(Step::Child(component))
    }
}

// The bytes before the first `/`, or all of them; and the bytes after it.
fn split_component(walked: &[u8]) -> (&[u8], &[u8])
    ensures component { result.0.now ≡ before_first is_slash walked.now }
    ensures rest { result.1.now ≡ after_first is_slash walked.now }
{
    match walked.find_byte(b'/') {
        Some(at) => (&walked[..at], &walked[at + 1..]),
        None => (walked, &[]),
    }
}

// The text after the first `:`, or all of it.
fn without_volume(path: &[u8]) -> &[u8]
    ensures { result.now ≡ walked_part path.now }
{
    match path.find_byte(b':') {
        Some(at) => &path[at + 1..],
        None => path,
    }
}
