//! Laws about the definitions. Each is the contract of a function that does nothing.
ghost use Rattle.adf_archive.specs.Laws.{JobsTellAlike};

/// If a function has one report for each position, the report on all images is the same text, however many are checked
/// in parallel.
pub fn jobs_tell_alike()
    ensures { JobsTellAlike }
{}
