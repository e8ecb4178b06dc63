//! Paths as words of a shell's command line.
use std::fmt;
use std::fmt::{Display, Formatter, Write as _};

/// A path as one word of a command line that a person can copy to a shell: in single quotes if a letter of it means something
/// there. `./` is before a path that begins as an option does, but for `-`, standard input.
#[derive(Clone, Copy)]
pub(crate) struct ShellWord<'a>(pub(crate) &'a str);

impl Display for ShellWord<'_> {
    fn fmt<W: fmt::Write>(&self, f: &mut Formatter<W>) -> fmt::Result {
        let path = self.0;
        if path.starts_with('-') && path != "-" {
            f.write_str("./")?;
        }
        if !path.is_empty() && path.chars().all(is_plain) {
            return f.write_str(path);
        }
        f.write_str("'")?;
        for letter in path.chars() {
            match letter {
                '\'' => f.write_str("'\\''")?,
                _ => f.write_char(letter)?,
            }
        }
        f.write_str("'")
    }
}

/// Whether a letter means nothing to a shell.
fn is_plain(letter: char) -> bool {
    !letter.is_ascii()
        || letter.is_ascii_alphanumeric()
        || matches!(
            letter,
            '.' | '_' | '-' | '/' | '+' | ',' | ':' | '@' | '%' | '='
        )
}
