//! The place that named a block first.
ghost use Rattle.std.specs.Prelude.{◌≡◌};
ghost use Rattle.ados_check.specs.Marks.{mark_at};

use ados_check::Mark;
use ados_model::Role;

/// The place that named a block first.
pub(crate) fn mark_at(marks: &[Option<Mark>], block: u32) -> Option<Mark>
    ensures { result ≡ mark_at marks.now block }
{
    if (block as usize) < marks.len() {
        marks[block as usize]
    } else {
        None
    }
}

/// The role of a block by the place that named it first.
pub(crate) fn role_at(marks: &[Option<Mark>], block: u32) -> Option<Role> {
    let mark = mark_at(marks, block)?;
    Some(mark.role)
}
