//! Which bytes of a file are missing, in words.

use crate::missing::Run;
use crate::number_words::{listed, push_numbers, range_words};
use crate::spans::{first_byte, last_byte};
use adf_block::Image;
use std::alloc::{AllocError, Global};

/// Which bytes and data blocks of a file with this header are missing: `bytes 976 to 1951 are missing (data 2 and 3)`.
pub(crate) fn missing_text(
    alloc: Global,
    image: &Image,
    header: u32,
    runs: &[Run],
) -> Result<String, AllocError> {
    let mut bytes = Vec::new(alloc);
    let mut numbers = Vec::new(alloc);
    for run in runs {
        let (first, last) = (first_byte(image, *run), last_byte(image, header, *run));
        bytes.push(range_words(alloc, first, last)?)?;
        push_numbers(alloc, &mut numbers, *run)?;
    }
    let bytes = listed(alloc, &bytes)?;
    let numbers = listed(alloc, &numbers)?;
    if is_one_byte(image, header, runs) {
        return format!(in alloc; "byte {bytes} is missing (data {numbers})");
    }
    format!(in alloc; "bytes {bytes} are missing (data {numbers})")
}

/// Whether one byte is missing.
fn is_one_byte(image: &Image, header: u32, runs: &[Run]) -> bool {
    runs.len() == 1 && first_byte(image, runs[0]) == last_byte(image, header, runs[0])
}
