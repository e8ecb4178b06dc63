//! All faults of an image for C.

ghost use Rattle.std.specs.Prelude.{◌≡◌};
ghost use Rattle.adf_c.specs.Findings.{CheckEnds, FindingsEnd, yes_number};

use crate::values::{JipFault, JipFinding, Refusal, copy_to, faults_in, findings_of};
use std::alloc::Global;

/// Lists the faults of an image, by block and then by kind: the first 1,000 of them. They are written to `faults`, as
/// many as it has room for, and `count` is how many there are. `more` is 1 if the image shows more. The status is 0,
/// also for bytes that are no image.
///
/// Status 2: out of memory. Nothing is written then.
#[unsafe(no_mangle)]
pub extern "C" fn jip_lib_check(
    alloc: Global,
    bytes: &[u8],
    faults: &mut [JipFault],
    count: &mut usize,
    more: &mut i32,
) -> i32
    ensures { CheckEnds bytes.now faults.old faults.new count.old count.new more.old more.new result }
{
    let Ok(told) = findings_of(alloc, bytes) else {
        return Refusal::NoMemory.number();
    };
    let Ok(alone) = faults_in(alloc, &told.findings) else {
        return Refusal::NoMemory.number();
    };
    *count = copy_to(&alone, faults);
    *more = yes_number(told.more);
    0
}

/// Lists the faults of an image as `jip_lib_check` does, each with the long of its block that shows it.
///
/// Status 2: out of memory. Nothing is written then.
#[unsafe(no_mangle)]
pub extern "C" fn jip_lib_check_values(
    alloc: Global,
    bytes: &[u8],
    findings: &mut [JipFinding],
    count: &mut usize,
    more: &mut i32,
) -> i32
    ensures { FindingsEnd bytes.now findings.old findings.new count.old count.new more.old more.new result }
{
    match findings_of(alloc, bytes) {
        Ok(told) => {
            *count = copy_to(&told.findings, findings);
            *more = yes_number(told.more);
            0
        }
        Err(_) => Refusal::NoMemory.number(),
    }
}

/// 1 for yes, 0 for no.
fn yes_number(more: bool) -> i32
    ensures { result ≡ yes_number more }
{
    if more { 1 } else { 0 }
}
