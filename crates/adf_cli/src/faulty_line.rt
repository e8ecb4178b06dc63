//! What is wrong with a faulty line of a script.
use adf_script::{Expected, LineFault, NumberKind, read_line};
use adf_text::print_line;
use std::alloc::Global;
use std::fmt;
use std::io::Write;

/// The most characters that are shown of what was found.
const MOST_SHOWN: usize = 60;

/// Prints what is wrong with a line of a script. Line 0 stands for a script that is too long. `whose` begins the text.
pub fn tell_faulty_line<F: Write>(
    alloc: Global,
    script: &[u8],
    number: u64,
    whose: &str,
    faults: &mut F,
) {
    if number == 0 {
        print_line(
            faults,
            format_args!("adf_serve: {whose}the script has more than 1,048,576 bytes"),
        );
        return;
    }
    // The values of replies are not known here: a `$k` is wrong if nothing else is.
    let Some(Err(fault)) = line_at(script, number).map(|line| read_line(&[], line)) else {
        return;
    };
    let Ok(found) = String::from_utf8_lossy(alloc, fault.stop.found) else {
        return;
    };
    let fault = FaultText {
        fault,
        found: found.as_str(),
    };
    print_line(
        faults,
        format_args!("adf_serve: {whose}line {number}: {fault}"),
    );
}

/// The number at the end of the last line that a script printed, which is that of its faulty line.
pub fn last_number(alloc: Global, printed: &[u8]) -> Option<u64> {
    let from = printed.len().saturating_sub(MOST_SHOWN);
    let end = String::from_utf8_lossy(alloc, printed.get(from..)?).ok()?;
    let (_, number) = end.as_str().trim_end().rsplit_once(' ')?;
    number.parse().ok()
}

/// The line with this number, from 1.
fn line_at(script: &[u8], number: u64) -> Option<&[u8]> {
    let mut left = number;
    for line in script.split(|byte| *byte == b'\n') {
        left = left.saturating_sub(1);
        if left == 0 {
            return Some(line);
        }
    }
    None
}

/// What is wrong with a line, and the text that is there in place of what was expected.
#[derive(Clone, Copy)]
struct FaultText<'a> {
    fault: LineFault<'a>,
    found: &'a str,
}

impl fmt::Display for FaultText<'_> {
    fn fmt<W: fmt::Write>(&self, f: &mut fmt::Formatter<W>) -> fmt::Result {
        if let Some(shown) = self.fault.shown {
            write!(f, "{shown}: ")?;
        }
        let found = self.found;
        let expected = expected_text(self.fault.stop.expected, found);
        if found.is_empty() {
            return write!(f, "expected {expected}, found the end of the line");
        }
        if found.starts_with(' ') {
            return write!(f, "expected {expected}, found a space");
        }
        write!(f, "expected {expected}, found ")?;
        for letter in found.chars().take(MOST_SHOWN) {
            write!(f, "{letter}")?;
        }
        Ok(())
    }
}

fn expected_text(expected: Expected, found: &str) -> &'static str {
    match expected {
        Expected::Keyword => "a keyword, such as locate or write",
        Expected::Number(kind) => expected_number(kind, found),
        Expected::Text => "a text in quotes",
        Expected::ShortText => "a text of at most 255 bytes",
        Expected::Separator => "a space or the end of the line",
        Expected::End => "the end of the line",
        Expected::Reply => "each $k to be a reply with a value",
    }
}

/// What is expected in place of a text that is no number of this kind.
fn expected_number(kind: NumberKind, found: &str) -> &'static str {
    let digits = found.strip_prefix('-').unwrap_or(found);
    let is_number = !digits.is_empty() && digits.bytes().all(|byte| byte.is_ascii_digit());
    match kind {
        _ if !is_number => "a number",
        NumberKind::Value | NumberKind::Unsigned => "a number from 0 to 4,294,967,295",
        NumberKind::Signed => "a number from -2,147,483,648 to 2,147,483,647",
        NumberKind::Count => "a number from 0 to 1,048,576",
    }
}
