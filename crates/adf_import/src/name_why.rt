//! Why a text is no name of a file or directory.

use std::fmt;

/// The most characters of a name.
const LONGEST: usize = 30;

/// Why a text is no name of a file or directory, as the end of a sentence: `'NAME' WHY`.
#[derive(Clone, Copy)]
pub enum NameWhy {
    Empty,
    /// It has this many characters.
    Long { characters: usize },
    /// No name has this character.
    Has { letter: char },
    /// This letter is not in ISO 8859-1, the characters of an Amiga.
    Foreign { letter: char },
}

impl NameWhy {
    /// Why a text is no name; `None` if it is one.
    pub fn of_text(text: &str) -> Option<NameWhy> {
        for letter in ['/', ':'] {
            if text.contains(letter) {
                return Some(NameWhy::Has { letter });
            }
        }
        let characters = text.chars().count();
        if characters == 0 {
            return Some(NameWhy::Empty);
        }
        if characters > LONGEST {
            return Some(NameWhy::Long { characters });
        }
        None
    }
}

impl fmt::Display for NameWhy {
    fn fmt<W: fmt::Write>(&self, f: &mut fmt::Formatter<W>) -> fmt::Result {
        match self {
            NameWhy::Empty => write!(
                f,
                "has no name at its end; AmigaDOS wants 1 to 30 characters"
            ),
            NameWhy::Long { characters } => {
                write!(f, "has {characters} characters; AmigaDOS allows 30")
            }
            NameWhy::Has { letter } => write!(
                f,
                "has a '{letter}', which AmigaDOS allows in no name"
            ),
            NameWhy::Foreign { letter } => {
                write!(f, "has a '{letter}', which is not in ISO 8859-1")
            }
        }
    }
}

/// The first name in a path that is none, and why. The path may be refused for its last name only.
pub fn wrong_name(path: &str) -> (&str, NameWhy) {
    let behind = match path.split_once(':') {
        Some((_, behind)) => behind,
        None => path,
    };
    for name in behind.split('/') {
        match NameWhy::of_text(name) {
            None | Some(NameWhy::Empty) => {}
            Some(why) => return (name, why),
        }
    }
    (path, NameWhy::Empty)
}
