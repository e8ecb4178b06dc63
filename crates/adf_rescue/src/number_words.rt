//! Numbers in a sentence.

use crate::missing::Run;
use std::alloc::{AllocError, Global};

/// Appends the numbers of a run: two of them by themselves, and more as a range.
pub(crate) fn push_numbers(
    alloc: Global,
    numbers: &mut Vec<String>,
    run: Run,
) -> Result<(), AllocError> {
    let (first, last) = (u64::from(run.first), u64::from(run.last));
    if last == first + 1 {
        numbers.push(range_words(alloc, first, first)?)?;
        numbers.push(range_words(alloc, last, last)?)?;
    } else {
        numbers.push(range_words(alloc, first, last)?)?;
    }
    Ok(())
}

/// A range of numbers.
pub(crate) fn range_words(alloc: Global, first: u64, last: u64) -> Result<String, AllocError> {
    if first == last {
        return format!(in alloc; "{first}");
    }
    format!(in alloc; "{first} to {last}")
}

/// These words as a list: `a`, `a and b`, or `a, b and c`.
pub(crate) fn listed(alloc: Global, words: &[String]) -> Result<String, AllocError> {
    let mut text = String::new(alloc);
    for at in 0..words.len() {
        if at > 0 {
            let between = if at + 1 == words.len() { " and " } else { ", " };
            text.push_str(between)?;
        }
        text.push_str(words[at].as_str())?;
    }
    Ok(text)
}
