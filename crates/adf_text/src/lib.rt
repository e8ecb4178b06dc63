//! Readable text for an Amiga's bytes: letters, names of host files, dates and protection bits as a
//! person writes them, and the notes that emulators keep beside a file.
#![tactic(auto)]

mod escapes;
mod grouped;
mod host;
mod leading_date;
mod letters;
mod plain;
mod protect_words;
mod protection;
mod ranges;
mod uaem;
mod uaem_reader;
mod written;

pub use grouped::Grouped;
pub use host::{host_name, host_name_bytes, host_names_come_back};
pub use leading_date::date_of_text;
pub use letters::{LettersFault, letter_bytes, letter_text, letters_come_back};
pub use plain::{print_line, print_lines, push_plain};
pub use protect_words::{Form, ProtectWord, protect_word};
pub use protection::{protection_letters, protection_letters_come_back, protection_of_letters};
pub use ranges::ranges_text;
pub use uaem::{Uaem, line_tells_one, uaem_line};
pub use uaem_reader::{UaemFault, read_uaem, uaem_comes_back, uaem_reads_one};
pub use written::written_date;
