//! What the blocks of a damaged image are by themselves: its sound headers, the files that are sound and whole, and the doubtful
//! headers. And whether its bitmap can be trusted, which entries this says are deleted, and how much of each can be recovered.

// Headers.
mod header;
mod headers;
mod laws;

// Files.
mod claims;
mod data;
mod entries;
mod holders;
mod holes;
mod intact;
mod numbered;
mod unreached;
mod whole;

// Deleted entries.
mod deleted;
mod left_out;
mod lost;
mod named;
mod recovery;
mod trust;

// All that is known of an image.
mod image_known;

pub(crate) use claims::Claim;
pub use data::is_own_data;
pub use deleted::{Deleted, DeletedEntries, Recovery, deleted_entries};
pub use entries::reached_entries;
pub use header::{dir_of_place, is_file, is_sound_header, name_of};
pub use holders::{data_needed, looks_like_extension};
pub use holes::is_hole;
pub use image_known::Known;
pub use laws::headers_by_census;
pub use left_out::{LeftOut, faultless_deleted};
pub(crate) use numbered::{Part, is_loose_data};
pub use trust::{is_faultless, is_used};
pub use whole::is_whole;
