//! Rows of text: a turn, and after ` = ` its result.

use std::process::Abort;

/// Ends the test at a row that is not as it says.
pub(crate) fn holds(rt: &impl Abort, is_right: bool, row: &str) {
    assert!(rt; is_right, "{row}");
}

/// What the turns of a table work on.
pub(crate) trait Table {
    /// Whether a turn comes to the result that its row says.
    fn is_right<R: Abort>(&mut self, rt: &R, turn: &str, wanted: &str) -> bool;
}

/// The rows of a table in order; each has the result that it says.
pub(crate) fn expect_rows<T: Table, R: Abort>(rt: &R, table: &mut T, rows: &str) {
    for row in rows.lines() {
        let (turn, wanted) = parts(row);
        holds(rt, table.is_right(rt, turn, wanted), row);
    }
}

/// The text up to a space, and the text after it.
pub(crate) fn cut(text: &str) -> (&str, &str) {
    text.split_once(' ').unwrap_or((text, ""))
}

/// The turn of a row, and its result.
pub(crate) fn parts(row: &str) -> (&str, &str) {
    row.split_once(" = ").unwrap_or((row, ""))
}

/// A count in decimal digits; 0 for any other text. Clients are numbered from 1.
pub(crate) fn count_of(text: &str) -> usize {
    text.parse().unwrap_or(0)
}

/// A number in decimal digits, or in hexadecimal digits after an `x`.
pub(crate) fn long_of(text: &str) -> u32 {
    match text.as_bytes() {
        [b'x', digits @ ..] => hexadecimal(digits),
        _ => text.parse().unwrap_or(u32::MAX),
    }
}

pub(crate) fn hexadecimal(digits: &[u8]) -> u32 {
    let mut value = 0_u32;
    for digit in digits {
        value = value.wrapping_mul(16).wrapping_add(digit_of(*digit));
    }
    value
}

fn digit_of(byte: u8) -> u32 {
    match byte {
        b'0'..=b'9' => (byte - b'0') as u32,
        b'a'..=b'f' => (byte - b'a') as u32 + 10,
        _ => 0,
    }
}

/// The result of a turn: a word with a number and two more numbers, such as the results of a reply.
pub(crate) type Went<'a> = (&'a str, u64, i32, i32);

/// The result of a turn, as a text names it. A text that begins with a number is a reply.
pub(crate) fn went_of(text: &str) -> Went<'_> {
    let (word, rest) = cut(text);
    let (word, rest) = match word.parse::<u64>() {
        Ok(_) => ("reply", text),
        Err(_) => (word, rest),
    };
    let (number, rest) = cut(rest);
    let (first, second) = cut(rest);
    (
        word,
        number.parse().unwrap_or(0),
        first.parse().unwrap_or(0),
        second.parse().unwrap_or(0),
    )
}

/// The result with this word and the number of an action.
pub(crate) fn with_action(word: &str, action: i32) -> Went<'_> {
    (word, u32::try_from(action).unwrap_or(u32::MAX) as u64, 0, 0)
}

/// How a port is opened.
#[derive(Clone, Copy)]
pub(crate) struct Opening {
    pub(crate) clients: usize,
    /// The number of places in the ring of each client.
    pub(crate) ring: usize,
    /// Whether a call is repeated once if memory was refused.
    pub(crate) again: bool,
}

/// The opening that a row `open CLIENTS RING` names; `again` may follow. Any other row names an opening without
/// clients, which no port has.
pub(crate) fn opening_of(row: &str) -> Opening {
    let (_, rest) = cut(row);
    let (clients, rest) = cut(rest);
    let (ring, last) = cut(rest);
    Opening {
        clients: count_of(clients),
        ring: count_of(ring),
        again: last == "again",
    }
}

/// The first row of a case, and the text after it.
pub(crate) fn first_row(case: &str) -> (&str, &str) {
    case.split_once('\n').unwrap_or((case, ""))
}

/// The rows before the last one, and what the last one says is left.
pub(crate) fn last_row(rows: &str) -> (&str, &str) {
    rows.split_once("gather = ").unwrap_or((rows, ""))
}
