//! The bitmap of an image, written anew: where nothing else is faulty, and without force only where nothing may be lost
//! with the old one.
#![tactic(auto)]

// The answers.
mod answer;
mod caution;

// What the image shows, and the image that the check mends.
mod laws;
mod mendable;
mod old_bitmap;
mod rebuilt;
mod settled;

// What changes, and what may be lost.
mod cautions;
mod counting;
mod looks;
mod said;
mod validating;

pub use answer::{NotValidated, Validated};
pub use caution::{Caution, Look};
pub use validating::validate;
