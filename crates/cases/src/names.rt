//! Names, comments, paths and dates, each call once.

use crate::rows::{Table, cut, expect_rows, holds, long_of};
use ados_name::{
    Comment, CommentTooLong, Date3, Name, NameFault, PathSteps, PathText, PathTooLong, Step, upper,
};
use std::alloc::Global;
use std::process::Abort;

/// The tables of this module.
#[derive(Clone, Copy)]
enum Told {
    Name,
    Steps,
}

impl Table for Told {
    fn is_right<R: Abort>(&mut self, _rt: &R, turn: &str, wanted: &str) -> bool {
        match self {
            Told::Name => name_word(turn.as_bytes()) == wanted,
            Told::Steps => has_steps(turn, wanted),
        }
    }
}

/// The letters that have an upper case, in upper case.
const UPPER: &[u8] = b"ABCDEFGHIJKLMNOPQRSTUVWXYZ";

/// The letters from `a` to `z` become upper case. Every other byte is unchanged, even E0 to FE, the small letters after
/// ASCII.
#[test]
fn upper_cases(rt: HostRuntime) {
    for byte in 0..=255 {
        let wanted = match byte {
            b'a'..=b'z' => UPPER[(byte - b'a') as usize],
            _ => byte,
        };
        holds(&rt, upper(byte) == wanted, "a byte");
    }
}

/// Whether two texts are names, and whether they are the same one.
fn are_same(one: &[u8], other: &[u8]) -> Option<bool> {
    let one = Name::new(one).ok()?;
    Some(one.same(&Name::new(other).ok()?))
}

/// Letters after ASCII have no other case.
#[test]
fn same_names(rt: HostRuntime) {
    holds(&rt, are_same(b"ReadMe", b"README") == Some(true), "ReadMe");
    for small in 0xe0..=0xfe {
        let same = are_same(&[small], &[small - 32]);
        holds(&rt, same == Some(false), "a small letter");
    }
}

/// What becomes of a text as a name.
fn name_word(text: &[u8]) -> &'static str {
    match Name::new(text) {
        Ok(_) => "name",
        Err(NameFault::Empty) => "empty",
        Err(NameFault::TooLong) => "too long",
        Err(NameFault::Separator) => "separator",
    }
}

const NAMES: &str = "\
/////////////////////////////// = too long
 = empty
a/b = separator
a:b = separator
xxxxxxxxxxxxxxxxxxxxxxxxxxxxxx = name";

#[test]
fn name_faults(rt: HostRuntime) {
    expect_rows(&rt, &mut Told::Name, NAMES);
}

#[test]
fn lengths_of_comments_and_paths(rt: HostRuntime) {
    holds(
        &rt,
        matches!(Comment::new(&[b'x'; 80]), Err(CommentTooLong)),
        "a comment",
    );
    holds(
        &rt,
        matches!(PathText::new(&[b'x'; 256]), Err(PathTooLong)),
        "a path",
    );
}

/// The date with these days, minutes and ticks.
fn date_of(text: &str) -> Date3 {
    let (days, rest) = cut(text);
    let (minutes, ticks) = cut(rest);
    Date3 {
        days: long_of(days),
        minutes: long_of(minutes),
        ticks: long_of(ticks),
    }
}

/// Whether this is the text of a date. It is made once more if memory was refused.
fn has_text(rt: &impl Abort, alloc: Global, date: Date3, wanted: &str) -> bool {
    match date.text(alloc) {
        Ok(text) => text.as_str() == wanted,
        Err(_) => date.text(alloc).expect(rt, "error").as_str() == wanted,
    }
}

/// Dates with their texts.
#[derive(Clone, Copy)]
pub(crate) struct DateTexts(pub(crate) Global);

impl Table for DateTexts {
    fn is_right<R: Abort>(&mut self, rt: &R, turn: &str, wanted: &str) -> bool {
        has_text(rt, self.0, date_of(turn), wanted)
    }
}

/// Whether a text spells these steps: `^` for the parent, and `>` before the name of a child.
fn are_steps(steps: PathSteps, text: &str) -> bool {
    let mut rest = text.as_bytes();
    for step in steps {
        let left = match step {
            Step::Parent => rest.strip_prefix(b"^".as_slice()),
            Step::Child(name) => behind_child(rest, name),
        };
        match left {
            Some(left) => rest = left,
            None => return false,
        }
    }
    rest.is_empty()
}

/// The text after a step to a child.
fn behind_child<'a>(text: &'a [u8], name: &[u8]) -> Option<&'a [u8]> {
    text.strip_prefix(b">".as_slice())?.strip_prefix(name)
}

/// Whether a path has these steps, after `:` if it starts from the root.
fn has_steps(path: &str, wanted: &str) -> bool {
    let Ok(path) = PathText::new(path.as_bytes()) else {
        return false;
    };
    match wanted.strip_prefix(':') {
        Some(steps) => path.from_root() && are_steps(path.steps(), steps),
        None => !path.from_root() && are_steps(path.steps(), wanted),
    }
}

const STEPS: &str = "\
a//b = >a^>b
a/ = >a
x:b = :>b
 = 
/ = ^
f/y = >f>y
x:/b:c = :^>b:c
: = :";

#[test]
fn steps_of_paths(rt: HostRuntime) {
    expect_rows(&rt, &mut Told::Steps, STEPS);
}

/// The prefix of a path that names a place: its steps lead to the directory.
#[test]
fn steps_to_a_place(rt: HostRuntime) {
    let path = PathText::new(b"x:a//b/c").expect(&rt, "a path");
    let (front, _) = path.split_last();
    holds(&rt, are_steps(PathSteps::of(front), ">a^>b"), "x:a//b/c");
}
