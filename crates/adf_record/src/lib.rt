//! A volume as a record: its facts as a value, as text for people and as a JSON object; a bundle, from which it can be made again;
//! and members of JSON objects.
#![tactic(auto)]

mod boot_json;
mod bundle;
mod bundle_contents;
mod bundle_fault;
mod bundle_lines;
mod bundle_reader;
mod bundle_tree;
mod bundle_values;
mod bundling;
mod contents;
mod counts;
mod entry_reader;
mod facts;
mod facts_form;
mod grouped;
mod lost;
mod lost_line;
mod members;
mod object;
mod same;
mod second;
mod shown;
mod words;

pub use adf_text::Grouped;
pub use boot_json::boot_object;
pub use bundle::{Bundle, BundleEntry, BundleHead};
pub use bundle_contents::{contents_of, same_contents};
pub use bundle_fault::{BundleFault, BundleWhy};
pub use bundle_lines::{MOST_BUNDLE_BYTES, bundle_text};
pub use bundle_reader::read_bundle;
pub use bundling::bundle_of;
pub use contents::size_words;
pub use counts::{Counts, counts_of};
pub use facts::{Facts, facts_of};
pub use facts_form::{FactsForm, volume_text};
pub use grouped::grouped_text;
pub use lost::{LostBlocks, lost_blocks};
pub use members::{put_flag, put_number, put_text};
pub use same::same_bundle;
pub use second::push_second;
pub use words::format_word;
