//! The groups of commands, and what commands do to an image.

/// A group of commands in the help.
#[derive(Clone, Copy, PartialEq, Eq)]
pub(crate) enum Group {
    Look,
    TakeOut,
    PutIn,
    Mend,
    Serve,
}

/// The groups, in the order of the help.
pub(crate) const GROUPS: [Group; 5] = [
    Group::Look,
    Group::TakeOut,
    Group::PutIn,
    Group::Mend,
    Group::Serve,
];

impl Group {
    /// The line above its commands.
    pub(crate) fn heading(self) -> &'static str {
        match self {
            Group::Look => "Look",
            Group::TakeOut => "Take out",
            Group::PutIn => "Put in",
            Group::Mend => "Mend",
            Group::Serve => "Serve",
        }
    }
}

/// What a command may do to an image that is there.
#[derive(Clone, Copy, PartialEq, Eq)]
pub(crate) enum Effect {
    /// It stays as it is.
    Reads,
    /// It changes, and keeps what nobody asked to replace.
    Changes,
    /// Something of it may be gone.
    Removes,
}
