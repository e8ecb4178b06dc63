//! An AmigaDOS file system handler for floppy images, as a program.
#![tactic(auto)]

// The command line, or a script over a blank floppy.
mod held;
mod script;
mod words;

// A job on image files: which command does it, what it prints, and how it ends.
mod explaining;
mod fault;
mod images;
mod jobs;
mod json_jobs;
mod outlet;
mod output;
mod refusal;
mod screen;

// Commands that print something of an image, or take something out of it.
mod bad;
mod blocks;
mod checks;
mod deleted;
mod info;
mod kind_line;
mod look;
mod map;
mod moving;
mod name_list;
mod query;
mod rescue;
mod rescue_out;

// Commands that make an image, or change one.
mod blank;
mod boot;
mod bundle;
mod changing;
mod validate;

// Scripts over an image.
mod serving;

use adf_cli::given_words;
use adf_host::{LimitedInput, LimitedOutput, Stream};
pub use adf_import::StandardInput;
pub use adf_io::{LoadFault, StoreFault, load_image, store_image};
use adf_script::LONGEST_SCRIPT;
pub use adf_script::TryFault;
pub use ados_run::{
    ClientDone, Gate, RunFault, ScriptsDone, ScriptsFault, run_volume, serve_scripts,
};
pub use fault::CommandFault;
pub use jobs::run_job;
pub use outlet::{Outlet, SeesReader};
pub use output::end_job;
pub use refusal::{Detail, DosRefusal, Refusal, Room};
pub use screen::Screen;
pub use script::try_script;
use std::process::ExitCode;
pub use words::{run_words, tell_wrong_words};

fn main(rt: HostRuntime) -> ExitCode {
    let alloc = rt.alloc();
    let mut reader = LimitedInput::new(&rt, rt.stdin(), LONGEST_SCRIPT + 1);
    let mut writer = Outlet::new(LimitedOutput::new(&rt, Stream::Output, rt.stdout()));
    let mut faults = LimitedOutput::new(&rt, Stream::Error, rt.stderr());
    let status = match given_words(&rt, alloc) {
        Ok(words) => run_words(
            &rt,
            alloc,
            words.as_slice(),
            &mut reader,
            &mut writer,
            &mut faults,
        ),
        Err(fault) => tell_wrong_words(fault, &mut faults),
    };
    ExitCode::from(status)
}
