//! What is saved of a damaged image, and deleted entries, as files and directories of the host.
#![tactic(auto)]

mod asked;
mod block_runs;
mod chosen;
mod damaged;
mod deleted_lines;
mod deleted_objects;
mod doubt;
mod evidence;
mod hints;
mod idle;
mod missing;
mod missing_text;
mod number_words;
mod placing;
mod plan;
mod reasons;
mod rescue_object;
mod saving;
mod sharing;
mod sourced;
mod spans;
mod unaccounted;
mod undelete_fault;
mod undeleting;
mod untrusted;

pub use damaged::{Rescue, RescueFault, extract_damaged};
pub use doubt::Doubt;
pub use undelete_fault::UndeleteFault;
pub use undeleting::{Undeletion, undelete_entries};
