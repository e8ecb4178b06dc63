//! The target of a SEEK or a SET_FILE_SIZE.

ghost use Rattle.std.specs.Prelude.{◌≡◌, MatchOption, true, false};
ghost use Rattle.ados_model.specs.Objects.{is_bad_target, target_number};
ghost use Rattle.ados_model.specs.Reads.{seek_target};

/// The target in bytes from the start of a file with this size, for a handle at this position. Mode -1 counts from the
/// start, 0 from the position, 1 from the end. Any other mode has no target.
pub(crate) fn target_of(position: u32, size: u32, offset: i32, mode: i32) -> Option<i64>
    ensures { result ≡ seek_target position size offset mode }
{
    let base = match mode {
        -1 => 0,
        0 => position,
        1 => size,
        _ => return None,
    };
    Some(base as i64 + offset as i64)
}

/// The target as a number, if it is between 0 and the limit.
pub(crate) fn number_within(target: Option<i64>, limit: u32) -> Option<u32>
    ensures { MatchOption result (is_bad_target limit target ≡ true) (λ number. (is_bad_target limit target ≡ false) × (number ≡ target_number target)) }
{
    match target {
        Some(target) if target >= 0 && target <= limit as i64 => Some(target as u32),
        _ => None,
    }
}
