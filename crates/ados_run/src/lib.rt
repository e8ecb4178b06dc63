//! The whole handler in one call. It checks an image and runs port steps at a handler over its volume, or runs
//! clients' scripts over a volume, each on its own thread.
#![tactic(auto)]

// A client with its own thread for each script, at any port of packets.
mod asking;
mod client_job;
mod ends;
mod gate;
mod scripts;
mod speaking;

// A handler over a volume.
mod laws;
mod run;
mod serve;

pub use adf_script::ClientEnding;
pub use ends::{assign, part_done};
pub use gate::{Gate, OpenGate};
pub use laws::{
    dead_handlers_rest, each_side_is_a_history, each_side_is_lawful, histories_follow_trees,
    lines_over_trees_are_one_run, lists_follow_trees, same_answer_same_handler,
    same_answers_same_handlers, same_outcomes_same_bytes, same_steps_same_bytes, trees_read_back,
};
pub use run::{RunFault, run_volume};
pub use scripts::{ClientDone, ScriptsDone, ScriptsFault, serve_scripts};
pub use serve::{VolumeServed, serve_volume};
