//! Comments of files and directories.
ghost use Rattle.std.specs.Prelude.{◌≡◌, ◌↔◌, IsOk, IfOk};
ghost use Rattle.ados_name.specs.Name.{IsComment};

use crate::short_text::ShortText;
use std::marker::Model;

/// A comment of at most 79 bytes.
#[derive(Clone, Copy, PartialEq, Eq)]
pub struct Comment {
    text: ShortText<79>,
}

impl Model for Comment {
    ghost use Rattle.std.specs.Prelude.{ℕ, List};

    ghost Value = { List ℕ };

    ghost view = { λ s. s.text };

    ghost inverse = { λ bytes. record { text = bytes } };
}

/// The text is longer than 79 bytes.
#[derive(Clone, Copy, PartialEq, Eq)]
pub struct CommentTooLong;

impl Comment {
    /// The most bytes of a comment.
    pub const MAX_LEN: usize = 79;

    /// Checks the length of a text. Each byte may have any value.
    pub fn new(text: &[u8]) -> Result<Comment, CommentTooLong>
        ensures ok { IfOk result (λ comment. comment ≡ text.now) }
        ensures valid { IsOk result ↔ IsComment text.now }
    {
        if text.len() > Comment::MAX_LEN {
            return Err(CommentTooLong);
        }
        Ok(Comment {
            text: ShortText::new(text),
        })
    }

    /// The 0 to 79 bytes of the comment, without a length byte.
    pub fn bytes(&self) -> &[u8]
        ensures value { result.now ≡ self.now }
        ensures valid { IsComment self.now }
    {
        self.text.bytes()
    }
}
