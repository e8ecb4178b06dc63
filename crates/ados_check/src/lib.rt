//! The check of an image: accepted as it is, accepted with a rebuilt bitmap, or returned with a fault.
//!
//! The check reads a [`Source`]: the image itself, or a [`Sketch`] with only the bytes that the check needs. It walks
//! from the root and marks each reached block with its role ([`reach`]). Then it checks files and names by the marks,
//! and last the bitmap ([`check_image`], [`accepted_kind`]). An image with sound marks represents a tree.
#![tactic(auto)]

// What is read.
mod room;
mod sketch;
mod source;

// The marks.
mod mark;

// The rules of a block by itself, of a data block at its place, and of a file's size, and what shows that one is broken.
mod data_rules;
mod evidence;
mod naming;
mod rules;
mod sizes;

// The walk from the root.
mod file_system;
mod looks;
mod places;
mod reaching;

// The check of files and names, by the marks.
mod chain;
mod counts;
mod entries;
mod file;
mod names;

// The decision.
mod accept;
mod bitmap;
mod check;
mod sketched;

pub use accept::Rejected;
pub use bitmap::{has_valid_bitmap, is_free, mend};
pub use check::{check_image, faultless_marks};
pub use data_rules::{DATA_RULES, DataRule, Place, data_evidence};
pub use evidence::Evidence;
pub use mark::Mark;
pub use naming::{UPPER_BYTES, has_short_name, upper_name};
pub use places::{has_places, place_role};
pub use reaching::reach;
pub use room::whole_pages;
pub use rules::{
    FIELD_RULES, FieldRule, POINTER_RULES, field_evidence, has_bad_sum, sum_evidence, type_evidence,
};
pub use sizes::{has_other_size, needs_other_count};
pub use sketch::Sketch;
pub use sketched::accepted_kind;
pub use source::Source;
