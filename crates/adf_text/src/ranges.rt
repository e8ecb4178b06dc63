//! Numbers as ranges, each on a line of its own.
ghost use Rattle.std.specs.Prelude.{◌≡◌, ◌+◌, ◌==◌, ◌++◌, IfOk, OnOk};
ghost use Rattle.adf_text.specs.Ranges.{range_line, ranges, ranges_from};

use std::alloc::{AllocError, Global};

/// Numbers in order, as ranges.
pub fn ranges_text(alloc: Global, numbers: &[usize]) -> Result<Vec<u8>, AllocError>
    ensures { IfOk result (λ text. text.items ≡ ranges numbers.now) }
{
    let mut text = Vec::new(alloc);
    let Some((first, rest)) = numbers.split_first() else {
        return Ok(text);
    };
    push_ranges(alloc, &mut text, *first, rest)?;
    Ok(text)
}

/// Appends numbers as ranges: this one and those behind it.
fn push_ranges(
    alloc: Global,
    text: &mut Vec<u8>,
    number: usize,
    rest: &[usize],
) -> Result<(), AllocError>
    ensures { OnOk result (text.new.items ≡ text.old.items ++ ranges_from number number rest.now) }
{
    let (mut first, mut last) = (number, number);
    for next in rest {
        if !follows(*next, last) {
            push_range(alloc, text, first, last)?;
            first = *next;
        }
        last = *next;
    }
    push_range(alloc, text, first, last)
}

/// Whether a number is the next one.
fn follows(next: usize, last: usize) -> bool
    ensures { result ≡ next == last + 1 }
{
    next > last && next - last == 1
}

/// Appends a range.
fn push_range(
    alloc: Global,
    text: &mut Vec<u8>,
    first: usize,
    last: usize,
) -> Result<(), AllocError>
    ensures { OnOk result (text.new.items ≡ text.old.items ++ range_line first last) }
{
    let line = if first == last {
        format!(in alloc; "{first}\n")?
    } else {
        format!(in alloc; "{first} to {last}\n")?
    };
    text.extend_from_slice(line.as_bytes())
}
