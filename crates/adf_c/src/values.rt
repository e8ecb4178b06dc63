//! Values as programs in C see them: statuses, dates, texts in a buffer, lists in an array, and structs of numbers.
//!
//! The exports of `adf_c` write these values through references. No handle is needed here, and no raw pointer.

mod answer;
mod blocks;
mod boots;
mod buffers;
mod date;
mod dates;
mod faults;
mod findings;
mod images;
mod lists;
mod names;
mod notes;
mod owners;
mod refusal;
mod salvaged;

pub use answer::{JipAnswer, JipDisk, JipEntry};
pub use blocks::{JipTold, told_of};
pub use boots::JipBoot;
pub use buffers::put;
pub use date::JipDate;
pub use dates::{date_of_text, date_of_time, text_of_date, time_of_date};
pub use faults::JipFault;
pub use findings::{JipFinding, MOST_FAULTS, ToldFindings, faults_in, findings_of};
pub use images::{image_of, label_of};
pub use lists::copy_to;
pub use names::{bytes_of_letters, host_of_name, letters_of_bytes, name_of_host};
pub use notes::{read_uaem, uaem_line};
pub use owners::{JipOwner, owners_of};
pub use refusal::{Refusal, status};
pub use salvaged::JipSalvaged;
