//! The program's arguments.
ghost use Rattle.std.specs.Prelude.{◌≡◌, ◌≢◌, ◌⊎◌, [], true, false};
ghost use Rattle.adf_serve.specs.Commands.{RunsCommand};
ghost use Rattle.adf_serve.specs.Script.{RunsScript};

use crate::held::tell_job;
use crate::jobs::run_job;
use crate::outlet::SeesReader;
use crate::output::end_job;
use crate::screen::{Screen, columns, takes_bold};
use crate::script::{faulty_number, try_script};
use adf_archive::ReadImages;
use adf_cli::{Job, WordsFault, read_words, tell_faulty_line};
use adf_host::PromptFiles;
use adf_import::StandardInput;
use adf_script::{TryFault, read_script};
use adf_text::{print_line, print_lines};
use std::alloc::Global;
use std::fs::File;
use std::io::{IsTerminal, Read, Write};
use std::rt::{Clock, Env, Files};
use std::sync::Wait;
use std::thread::Threads;

/// Runs the program on the arguments after its own name, and returns its exit status: 0 success; 1 a wrong command
/// line; 2 a file or stream that cannot be read or written, no memory, no thread, or a client that ran out of tries; 3
/// a refused image, name, script or change. Faults of arguments, files and streams are printed on `faults`. So are
/// help, in lines of as many letters as the environment variable `COLUMNS` says, and which image is read while another
/// command has it locked. If that is a terminal, the progress of a check is printed there too. If the writer is a
/// terminal, text for people may have bold letters.
pub fn run_words<T, R, W, F>(
    rt: &T,
    alloc: Global,
    words: &[String],
    reader: &mut R,
    writer: &mut W,
    faults: &mut F,
) -> u8
where
    T: Files<File = File>
        + PromptFiles
        + Clock
        + Env
        + Threads
        + Wait
        + ReadImages
        + StandardInput
        + Copy
        + Send
        + Sync
        + Drop
        + 'static,
    R: Read + IsTerminal,
    W: Write + SeesReader,
    F: Write + IsTerminal,
    ensures whole { words.now ≡ [] → result ≡ 0 →
        RunsScript (R.remaining reader.old) (R.remaining reader.new) (W.contents writer.old)
        (W.contents writer.new) true }
    ensures faulty { words.now ≡ [] → result ≡ 3 →
        RunsScript (R.remaining reader.old) (R.remaining reader.new) (W.contents writer.old)
        (W.contents writer.new) false }
    ensures command { words.now ≢ [] →
        RunsCommand (W.is_screen writer.old) result (W.contents writer.old) (W.contents writer.new) }
{
    match read_words(alloc, words, columns(rt)) {
        Ok(Job::Script) => {
            if reader.is_terminal() {
                tell_waiting(faults);
            }
            run_script(alloc, reader, writer, faults)
        }
        Ok(Job::OnImage(job)) => {
            tell_job(rt, &job, faults);
            let screen = Screen {
                progress: faults.is_terminal(),
                styled: writer.is_screen() && takes_bold(rt),
            };
            let done = run_job(rt, alloc, &job, screen, writer, faults);
            end_job(rt, alloc, &job, done, writer, faults)
        }
        Err(fault) => tell_wrong_words(fault, faults),
    }
}

/// Prints why a command line has no job, and returns the exit status: 1, or 2 if memory ran out.
pub fn tell_wrong_words<F: Write>(fault: WordsFault, faults: &mut F) -> u8
    ensures { (result ≡ 1) ⊎ (result ≡ 2) }
{
    match fault {
        WordsFault::Usage(text) => {
            print_lines(faults, text.as_str());
            1
        }
        WordsFault::Memory => {
            tell_fault(TryFault::Memory, faults);
            2
        }
    }
}

/// Prints what the program waits for at a terminal.
fn tell_waiting<F: Write>(faults: &mut F) {
    print_line(faults, format_args!("adf_serve: {WAITING}"));
}

/// What the program waits for.
const WAITING: &str =
    "waiting for the lines of a script, up to Ctrl-D; 'adf_serve --help' shows the commands";

/// Runs the script of standard input, and prints on `faults` what is wrong with a faulty line.
fn run_script<R: Read, W: Write + SeesReader, F: Write>(
    alloc: Global,
    reader: &mut R,
    writer: &mut W,
    faults: &mut F,
) -> u8
    ensures whole { result ≡ 0
        → RunsScript (R.remaining reader.old) (R.remaining reader.new) (W.contents writer.old)
        (W.contents writer.new) true }
    ensures faulty { result ≡ 3
        → RunsScript (R.remaining reader.old) (R.remaining reader.new) (W.contents writer.old)
        (W.contents writer.new) false }
{
    let script = match read_script(alloc, reader) {
        Ok(script) => script,
        Err(fault) => {
            tell_fault(TryFault::from(fault), faults);
            return 2;
        }
    };
    let mut lines: &[u8] = &script;
    match try_script(alloc, &mut lines, writer) {
        Ok(()) => 0,
        Err(TryFault::Script) => {
            if let Some(number) = faulty_number(alloc, &script) {
                tell_faulty_line(alloc, &script, number, "", faults);
            }
            3
        }
        Err(fault) => {
            let is_cut = fault == TryFault::Write && writer.has_lost_reader();
            if !is_cut {
                tell_fault(fault, faults);
            }
            2
        }
    }
}

/// Prints why a script was not run. What is wrong with a faulty one is printed by itself.
fn tell_fault<F: Write>(fault: TryFault, faults: &mut F) {
    let text = match fault {
        TryFault::Script => return,
        TryFault::Read => "standard input cannot be read",
        TryFault::Write => "standard output cannot be written",
        TryFault::Memory => "there is not enough memory",
        TryFault::TurnLimit => "standard input does not end",
    };
    let _ = write!(faults, "adf_serve: {text}\n");
}
