//! What can be told of an image that the check refuses: each sound header that is not deleted, the bytes of each file whose
//! blocks no other such file names, the doubtful headers, the entries that are lost, and what is left of files whose header is gone:
//! in OFS data blocks, and in what FFS extension blocks name. What an accepted image has beside its tree. And the deleted entries of an image, accepted or refused.
#![tactic(auto)]

mod account;
mod beside;
mod chains;
mod extensions;
mod gathered;
mod giving;
mod header_entry;
mod holes;
mod kind;
mod known;
mod laws;
mod links;
mod listing;
mod loose;
mod lost;
mod mended;
mod names;
mod numbered;
mod pieces;
mod pointer_blocks;
mod salvaged;
mod salvaging;
mod saved;
mod state;
mod undeleted;
mod unnamed;
mod unreached;
mod votes;

pub use account::{Part, Told, told_blocks, unaccounted_blocks};
pub use giving::Piece;
pub use known::{
    Deleted, DeletedEntries, Known, LeftOut, Recovery, data_needed, deleted_entries, dir_of_place,
    faultless_deleted, headers_by_census, is_faultless, is_file, is_hole, is_own_data,
    is_sound_header, is_used, is_whole, looks_like_extension, name_of, reached_entries,
};
pub use laws::lost_blocks_by_owner;
pub use salvaged::{HeaderState, Salvaged, State};
pub use salvaging::{salvage, salvage_beside};
pub use saved::Salvage;
pub use undeleted::{Undeleted, UndeletedEntries, undelete};
