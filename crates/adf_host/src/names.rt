//! The names in a directory, as bytes.
use adf_io::read_some;
use std::alloc::Global;
use std::io::Error;
use std::rt::Files;

/// The bytes of names that are read at once: more than the longest name has.
const PART: usize = 4_096;

/// Appends the names in a directory, unsorted, each followed by a zero byte. Those that are not UTF-8 are among them, and
/// so may be `.` and `..`. After a fault the names that were read before it are there.
pub fn read_names<R: Files>(
    rt: &R,
    alloc: Global,
    path: &str,
    names: &mut Vec<u8>,
) -> Result<(), Error> {
    // With a slash at its end a link leads to its directory.
    let directory = format!(in alloc; "{path}/")?;
    let mut reader = rt.open_dir(directory.as_str())?;
    let mut part = [0; PART];
    for _ in 0..u64::MAX {
        let count = read_some(&mut reader, &mut part)?;
        if count == 0 {
            return Ok(());
        }
        names.extend_from_slice(&part[..count])?;
    }
    Ok(())
}
