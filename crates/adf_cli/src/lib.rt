//! What people type: the command line, as the program's jobs, and what is wrong with an argument or with a line of a script.
#![tactic(auto)]

mod arguments;
mod bad_list;
mod block_word;
mod boot;
mod change;
mod changing;
mod commands;
mod dates;
mod fault;
mod faulty_line;
mod floppy;
mod given;
mod group;
mod help;
mod image_file;
mod job;
mod letters;
mod map_form;
mod name_list;
mod numbers;
mod other_words;
mod query;
mod reading;
mod refused;
mod table;
mod taking;
mod tips;
mod tracks;
mod version;
mod wrapping;

pub use bad_list::{BadFault, bad_blocks, marked};
pub use block_word::{BlockWord, named_block};
pub use boot::BootBlock;
pub use change::{Change, ChangeJob, Rewrite, Source};
pub use fault::WordsFault;
pub use faulty_line::{last_number, tell_faulty_line};
pub use floppy::{CYLINDERS, DOUBLE_DENSITY, DOUBLE_TRACK, HEADS, HIGH_DENSITY, HIGH_TRACK};
pub use given::{given_words, word_of};
pub use image_file::{ImageFile, STANDARD_STREAM};
pub use job::{ImageJob, Job, ServeJob};
pub use map_form::MapForm;
pub use name_list::NameList;
pub use query::{
    CheckJob, ExtractJob, ListForm, ListJob, ListOrder, MapJob, SalvageJob, UndeleteJob, WhereJob,
};
pub use reading::read_words;
pub use refused::{Refused, error_words};
pub use tracks::{track, volume_block};
