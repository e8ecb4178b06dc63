//! The forms of a script's lines: one table, of which lines are read and of which faults in lines are told.
ghost use Rattle.std.specs.Prelude.{◌≡◌, ◌≢◌, MatchOption};
ghost use Rattle.adf_script.specs.steps.Words.{shape_of};

/// What a line asks for, by its keyword. It selects the packet.
#[derive(Clone, Copy)]
#[rattlefmt::skip]
pub(crate) enum Word {
    Die, DiskInfo, Locate, Free, Copy, Parent, Examine, Info, Next, Same, Delete, MakeDir, Rename, RenameDisk, Protect,
    Comment, Date, Update, Input, Output, Read, Write, End, Seek, Size, Other,
}

/// The kind of a number in a line.
#[derive(Clone, Copy)]
pub enum NumberKind {
    /// The number of a lock, a handle or a key: an unsigned number of 32 bits, or `$k`.
    Value,
    /// An unsigned number of 32 bits.
    Unsigned,
    /// A number of 32 bits that may begin with `-`.
    Signed,
    /// An unsigned number up to 1,048,576.
    Count,
}

/// The kind of a text in quotes.
#[derive(Clone, Copy)]
pub(crate) enum TextKind {
    /// At most 255 bytes.
    Short,
    /// Of any length.
    Long,
}

/// The kind of a field of a line.
#[derive(Clone, Copy)]
pub(crate) enum FieldKind {
    Number(NumberKind),
    Text(TextKind),
}

/// The form of the lines with a keyword.
#[derive(Clone, Copy)]
pub(crate) struct LineForm {
    pub(crate) keyword: &'static str,
    /// The line as people write it.
    pub(crate) shown: &'static str,
    pub(crate) fields: &'static [FieldKind],
}

const VALUE: FieldKind = FieldKind::Number(NumberKind::Value);

const NUMBER: FieldKind = FieldKind::Number(NumberKind::Unsigned);

const SIGNED: FieldKind = FieldKind::Number(NumberKind::Signed);

const COUNT: FieldKind = FieldKind::Number(NumberKind::Count);

const TEXT: FieldKind = FieldKind::Text(TextKind::Short);

const LONG_TEXT: FieldKind = FieldKind::Text(TextKind::Long);

impl Word {
    #[rattlefmt::skip]
    const ALL: [Word; 26] = [
        Word::Die, Word::DiskInfo, Word::Locate, Word::Free, Word::Copy, Word::Parent, Word::Examine, Word::Info,
        Word::Next, Word::Same, Word::Delete, Word::MakeDir, Word::Rename, Word::RenameDisk, Word::Protect,
        Word::Comment, Word::Date, Word::Update, Word::Input, Word::Output, Word::Read, Word::Write, Word::End,
        Word::Seek, Word::Size, Word::Other,
    ];

    /// The table of all lines.
    #[rattlefmt::skip]
    pub(crate) fn form(self) -> LineForm
        ensures keyword { result.keyword.now ≡ (shape_of self).0 }
        ensures fields { result.fields.now ≡ (shape_of self).1 }
    {
        match self {
            Word::Die => LineForm { keyword: "die", shown: "die", fields: &[] },
            Word::DiskInfo => LineForm { keyword: "diskinfo", shown: "diskinfo", fields: &[] },
            Word::Locate => LineForm { keyword: "locate", shown: "locate LOCK MODE \"NAME\"", fields: &[VALUE, SIGNED, TEXT] },
            Word::Free => LineForm { keyword: "free", shown: "free LOCK", fields: &[VALUE] },
            Word::Copy => LineForm { keyword: "copy", shown: "copy LOCK", fields: &[VALUE] },
            Word::Parent => LineForm { keyword: "parent", shown: "parent LOCK", fields: &[VALUE] },
            Word::Examine => LineForm { keyword: "examine", shown: "examine LOCK", fields: &[VALUE] },
            Word::Info => LineForm { keyword: "info", shown: "info LOCK", fields: &[VALUE] },
            Word::Next => LineForm { keyword: "next", shown: "next LOCK KEY", fields: &[VALUE, VALUE] },
            Word::Same => LineForm { keyword: "same", shown: "same LOCK LOCK", fields: &[VALUE, VALUE] },
            Word::Delete => LineForm { keyword: "delete", shown: "delete LOCK \"NAME\"", fields: &[VALUE, TEXT] },
            Word::MakeDir => LineForm { keyword: "mkdir", shown: "mkdir LOCK \"NAME\"", fields: &[VALUE, TEXT] },
            Word::Rename => LineForm { keyword: "rename", shown: "rename LOCK \"NAME\" LOCK \"NAME\"", fields: &[VALUE, TEXT, VALUE, TEXT] },
            Word::RenameDisk => LineForm { keyword: "rename-disk", shown: "rename-disk \"NAME\"", fields: &[TEXT] },
            Word::Protect => LineForm { keyword: "protect", shown: "protect LOCK \"NAME\" BITS", fields: &[VALUE, TEXT, NUMBER] },
            Word::Comment => LineForm { keyword: "comment", shown: "comment LOCK \"NAME\" \"COMMENT\"", fields: &[VALUE, TEXT, TEXT] },
            Word::Date => LineForm { keyword: "date", shown: "date LOCK \"NAME\" DAYS MINUTES TICKS", fields: &[VALUE, TEXT, NUMBER, NUMBER, NUMBER] },
            Word::Update => LineForm { keyword: "update", shown: "update LOCK \"NAME\"", fields: &[VALUE, TEXT] },
            Word::Input => LineForm { keyword: "input", shown: "input LOCK \"NAME\"", fields: &[VALUE, TEXT] },
            Word::Output => LineForm { keyword: "output", shown: "output LOCK \"NAME\"", fields: &[VALUE, TEXT] },
            Word::Read => LineForm { keyword: "read", shown: "read HANDLE COUNT", fields: &[VALUE, COUNT] },
            Word::Write => LineForm { keyword: "write", shown: "write HANDLE \"TEXT\"", fields: &[VALUE, LONG_TEXT] },
            Word::End => LineForm { keyword: "end", shown: "end HANDLE", fields: &[VALUE] },
            Word::Seek => LineForm { keyword: "seek", shown: "seek HANDLE OFFSET MODE", fields: &[VALUE, SIGNED, SIGNED] },
            Word::Size => LineForm { keyword: "size", shown: "size HANDLE OFFSET MODE", fields: &[VALUE, SIGNED, SIGNED] },
            Word::Other => LineForm { keyword: "other", shown: "other ACTION", fields: &[SIGNED] },
        }
    }

    /// The word with this keyword.
    pub(crate) fn of_keyword(keyword: &[u8]) -> Option<Word>
        ensures { MatchOption result
            ((word : Word) → keyword.now ≢ (shape_of word).0)
            (λ word. keyword.now ≡ (shape_of word).0) }
    {
        for word in &Word::ALL {
            if word.form().keyword.as_bytes() == keyword {
                return Some(*word);
            }
        }
        None
    }
}
