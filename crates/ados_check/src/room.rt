//! Memory in whole pages of the operating system.

ghost use Rattle.std.specs.Prelude.{◌≤◌};

/// Bytes in a huge page of the operating system.
const HUGE_PAGE: usize = 2_097_152;

/// The most bytes that the allocator adds for itself to a request.
const ALLOCATOR_BYTES: usize = 32;

/// At least `room` bytes. From `least` bytes on, the size and the allocator's own bytes make whole huge pages.
///
/// The system uses huge pages only for memory that is a whole number of them. One huge page is one page fault in place
/// of 512, but all of it is cleared.
pub fn whole_pages(room: usize, least: usize) -> usize
    ensures { room ≤ result }
{
    if room < least {
        return room;
    }
    (room / HUGE_PAGE * HUGE_PAGE + (HUGE_PAGE - ALLOCATOR_BYTES)).max(room)
}
