//! Text in lines that fit a screen.
use std::alloc::{AllocError, Global};

/// The fewest columns that a text is broken for.
const FEWEST: usize = 40;

/// A text whose lines have at most so many letters, but for single words that are longer. A longer line is broken at
/// spaces; what follows stands below its last column, or else below its first letter.
pub(crate) fn wrapped(alloc: Global, text: &str, columns: usize) -> Result<String, AllocError> {
    let most = columns.max(FEWEST);
    let mut lines = String::new(alloc);
    for line in text.lines() {
        if width(line) <= most {
            lines.push_str(line)?;
        } else {
            push_broken(&mut lines, line, most)?;
        }
        lines.push_str("\n")?;
    }
    Ok(lines)
}

/// Appends a line, broken at spaces.
fn push_broken(lines: &mut String, line: &str, most: usize) -> Result<(), AllocError> {
    let text = last_column(line);
    lines.push_str(line.strip_suffix(text).unwrap_or(""))?;
    let indent = width(line).saturating_sub(width(text));
    let mut at = indent;
    for word in text.split_whitespace() {
        let end = at.saturating_add(1).saturating_add(width(word));
        if at == indent {
            at = end.saturating_sub(1);
        } else if end <= most {
            lines.push_str(" ")?;
            at = end;
        } else {
            push_new_line(lines, indent)?;
            at = indent.saturating_add(width(word));
        }
        lines.push_str(word)?;
    }
    Ok(())
}

/// Appends the end of a line, and the spaces before the text of the next one.
fn push_new_line(lines: &mut String, indent: usize) -> Result<(), AllocError> {
    lines.push_str("\n")?;
    for _ in 0..indent {
        lines.push_str(" ")?;
    }
    Ok(())
}

/// The last column of a line, from its first letter on. Two spaces part it from the column before, or the title of the usage.
fn last_column(line: &str) -> &str {
    let text = line.trim_start();
    if let Some(forms) = text.strip_prefix("Usage: ") {
        return forms;
    }
    match text.split_once("  ") {
        Some((_, column)) => column.trim_start(),
        None => text,
    }
}

fn width(text: &str) -> usize {
    text.chars().count()
}
