//! The values of replies.
ghost use Rattle.std.specs.Prelude.{◌≡◌, ◌++◌, ◌∷◌, [], OnOk};
ghost use Rattle.adf_script.specs.Values.{answer_value, result_value};

use ados_model::{Answer, Body};
use std::alloc::AllocError;

/// The value of `$k` for an answer: its handle, else the key of its entry, else its first result.
pub fn answer_value(answer: &Answer) -> Option<u32>
    ensures { result ≡ answer_value answer.now }
{
    match &answer.body {
        Body::Handle(handle) => Some(*handle),
        Body::Entry(info) => Some(info.key),
        Body::Empty | Body::Buffer(_) | Body::Disk(_) => result_value(answer.res1),
    }
}

/// None if the result is negative.
fn result_value(res1: i32) -> Option<u32>
    ensures { result ≡ result_value res1 }
{
    u32::try_from(res1).ok()
}

/// Appends the value of one more reply.
pub fn keep_value(values: &mut Vec<Option<u32>>, answer: &Answer) -> Result<(), AllocError>
    ensures { OnOk result (values.new.items ≡ values.old.items ++ answer_value answer.now ∷ []) }
{
    values.push(answer_value(answer))?;
    Ok(())
}
