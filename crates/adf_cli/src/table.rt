//! The commands and their arguments, with the texts of the help.
use crate::group::{Effect, Group};
use adf_block::layout::{FEWEST_BLOCKS, MOST_BLOCKS};
use clap::ArgAction;

/// A command.
#[derive(Clone, Copy)]
pub(crate) struct CommandRow {
    pub(crate) name: &'static str,
    pub(crate) about: &'static str,
    pub(crate) examples: &'static str,
    /// Its allowed forms, a line each. CHANGE and TIME stand for the options below these headings.
    pub(crate) usage: &'static str,
    pub(crate) group: Group,
    pub(crate) effect: Effect,
    /// Whether it changes an image. If so, it has the arguments `CHANGING` before its own.
    pub(crate) changes: bool,
    /// Its own arguments, in the order of the help.
    pub(crate) arguments: &'static [ArgumentRow],
}

/// An argument of a command.
#[derive(Clone, Copy)]
pub(crate) struct ArgumentRow {
    /// Its name. On the command line an option is two dashes and this name.
    pub(crate) name: &'static str,
    pub(crate) kind: Kind,
    pub(crate) help: &'static str,
}

/// The kind of an argument.
#[derive(Clone, Copy)]
pub(crate) enum Kind {
    /// An option without a value; and the arguments that it excludes.
    Flag {
        excludes: &'static [&'static str],
    },
    /// An option without a value that needs another option; that option, and the arguments that it excludes.
    With {
        option: &'static str,
        excludes: &'static [&'static str],
    },
    /// An option with a value; the value's name in the help, and its default.
    Option {
        value: &'static str,
        default: Option<&'static str>,
    },
    /// An option with a value that needs another option; the value's name in the help, that option, and the arguments that it excludes.
    Beside {
        value: &'static str,
        option: &'static str,
        excludes: &'static [&'static str],
    },
    /// An option with a value, in place of the arguments that it excludes; the value's name in the help.
    Instead {
        value: &'static str,
        excludes: &'static [&'static str],
    },
    /// A required value.
    One,
    /// A required value that may start with a dash.
    Dashed,
    /// An optional value.
    Optional,
    /// One or more values.
    OneOrMore,
    /// One or more values; any number of them with another option, which is this.
    Unless {
        option: &'static str,
    },
    /// Any number of values.
    Any,
}

impl Kind {
    /// Whether it stands behind two dashes, in any place.
    pub(crate) fn is_option(self) -> bool {
        matches!(
            self,
            Kind::Flag { .. }
                | Kind::With { .. }
                | Kind::Option { .. }
                | Kind::Beside { .. }
                | Kind::Instead { .. }
        )
    }

    /// What a use of the argument does.
    pub(crate) fn action(self) -> ArgAction {
        match self {
            Kind::Flag { .. } | Kind::With { .. } => ArgAction::SetTrue,
            Kind::OneOrMore | Kind::Unless { .. } | Kind::Any => ArgAction::Append,
            _ => ArgAction::Set,
        }
    }

    /// Whether a command line without the argument is wrong.
    pub(crate) fn is_required(self) -> bool {
        matches!(self, Kind::One | Kind::Dashed | Kind::OneOrMore)
    }
}

/// The range of numbers for an option, both ends included.
#[derive(Clone, Copy)]
pub(crate) struct NumberRange {
    pub(crate) least: u32,
    pub(crate) most: u32,
}

/// The range of `blocks`.
pub(crate) const BLOCKS: NumberRange = NumberRange {
    least: FEWEST_BLOCKS,
    most: MOST_BLOCKS,
};

/// The range of `jobs`.
pub(crate) const JOBS: NumberRange = NumberRange {
    least: 1,
    most: 4_294_967_295,
};

/// The range of `days`, `minutes` and `ticks`.
pub(crate) const TIME_STAMP: NumberRange = NumberRange {
    least: 0,
    most: 4_294_967_295,
};

const FLAG: Kind = Kind::Flag { excludes: &[] };

/// An option with a number, and without a default.
#[rattlefmt::skip]
const NUMBER: Kind = Kind::Option { value: "N", default: None };

/// An option with a number; the default is 0.
#[rattlefmt::skip]
const NUMBER_OR_ZERO: Kind = Kind::Option { value: "N", default: Some("0") };

/// An option with a date, in place of the three numbers of a time stamp.
#[rattlefmt::skip]
const WHEN: Kind = Kind::Instead { value: "WHEN", excludes: &["days", "minutes", "ticks"] };

#[rattlefmt::skip]
const DATE: ArgumentRow = ArgumentRow { name: "date", kind: WHEN, help: "The time stamp, as `YYYY-MM-DD` or `YYYY-MM-DD HH:MM[:SS[.CC]]`, in place of the numbers. `now` is the clock (UTC)" };

#[rattlefmt::skip]
const DAYS_OR_ZERO: ArgumentRow = ArgumentRow { name: "days", kind: NUMBER_OR_ZERO, help: "The time stamp: days since 1 January 1978" };

#[rattlefmt::skip]
const MINUTES_OR_ZERO: ArgumentRow = ArgumentRow { name: "minutes", kind: NUMBER_OR_ZERO, help: "The time stamp: minutes past midnight" };

#[rattlefmt::skip]
const TICKS_OR_ZERO: ArgumentRow = ArgumentRow { name: "ticks", kind: NUMBER_OR_ZERO, help: "The time stamp: fiftieths of a second past the minute" };

#[rattlefmt::skip]
const IMAGE: ArgumentRow = ArgumentRow { name: "IMAGE", kind: Kind::One, help: "The image" };

#[rattlefmt::skip]
const OBJECT: ArgumentRow = ArgumentRow { name: "json", kind: FLAG, help: "Prints a JSON object" };

/// The first blocks of a file that are its image.
#[rattlefmt::skip]
const FRONT: ArgumentRow = ArgumentRow { name: "blocks", kind: NUMBER, help: "Takes the first N blocks of the file as the image, from 16 to 101,602. The rest of the file is unchanged" };

#[rattlefmt::skip]
const FORCE: ArgumentRow = ArgumentRow { name: "force", kind: FLAG, help: "Replaces files that already exist" };

#[rattlefmt::skip]
const ENTRY: ArgumentRow = ArgumentRow { name: "PATH", kind: Kind::One, help: "Its path, from the root" };

/// The forms of protection bits.
#[rattlefmt::skip]
const LETTERS: &str = "Letters of `hsparwed`, in lower or upper case. `rwed` and `=rwed` set these and no others, and so do the eight places `----rwed`. The seven places of `list`, as `---rwed`, leave `h`. `+s` adds letters, and `-w` removes them. `-h` shows this help, and `-H` removes `h`";

#[rattlefmt::skip]
const PROTECT_EXAMPLES: &str = "Examples:\n  adf_serve protect work.adf c/dir rwed\n  adf_serve protect work.adf c/dir --p-rwed\n  adf_serve protect work.adf s/startup-sequence -s--rw-d\n  adf_serve protect work.adf s/startup-sequence +s\n  adf_serve protect work.adf s/startup-sequence -w\n  adf_serve protect work.adf c/dir =rwed";

/// The arguments of each command that changes an image.
#[rattlefmt::skip]
pub(crate) const CHANGING: &[ArgumentRow] = &[
    ArgumentRow { name: "out", kind: Kind::Option { value: "FILE", default: None }, help: "Writes the changed image to this file, and leaves IMAGE as it is. `-` is standard output, but not for a command that prints something there" },
    ArgumentRow { name: "over", kind: FLAG, help: "Lets `--out` write over a file that is not an image" },
    ArgumentRow { name: "date", kind: WHEN, help: "The time stamp of the change, as `YYYY-MM-DD` or `YYYY-MM-DD HH:MM[:SS[.CC]]`, in place of the numbers. `now` is the clock (UTC)" },
    ArgumentRow { name: "days", kind: NUMBER, help: "The time stamp of the change: days since 1 January 1978. The clock (UTC) is used if no part of the time stamp is given" },
    ArgumentRow { name: "minutes", kind: NUMBER, help: "The time stamp of the change: minutes past midnight" },
    ArgumentRow { name: "ticks", kind: NUMBER, help: "The time stamp of the change: fiftieths of a second past the minute" },
    FRONT,
    IMAGE,
];

/// All commands, in the order of the help.
#[rattlefmt::skip]
pub(crate) const COMMANDS: [CommandRow; 21] = [
    CommandRow {
        name: "blank",
        about: "Writes a blank image. Without options it has the Old File System and the size of a double-density floppy",
        examples: "Examples:\n  adf_serve blank --ffs Work work.adf\n  adf_serve blank --date '1990-01-01 12:00' Work work.adf",
        usage: "adf_serve blank [--ffs] [--hd | --blocks N] [--letters] [TIME] NAME FILE",
        group: Group::PutIn,
        effect: Effect::Removes,
        changes: false,
        arguments: &[
            ArgumentRow { name: "ffs", kind: FLAG, help: "Makes the Fast File System" },
            ArgumentRow { name: "hd", kind: Kind::Flag { excludes: &["blocks"] }, help: "Makes a high-density floppy of 3,520 blocks" },
            ArgumentRow { name: "blocks", kind: NUMBER, help: "Makes this number of blocks, from 16 to 101,602" },
            ArgumentRow { name: "letters", kind: FLAG, help: "Writes NAME in ISO 8859-1, the letters of an Amiga. Without it the bytes of NAME are written as they are" },
            DATE,
            DAYS_OR_ZERO,
            MINUTES_OR_ZERO,
            TICKS_OR_ZERO,
            ArgumentRow { name: "NAME", kind: Kind::One, help: "The volume's name: 1 to 30 bytes without `/` and `:`" },
            ArgumentRow { name: "FILE", kind: Kind::One, help: "The file to write. `-` is standard output" },
        ],
    },
    CommandRow {
        name: "info",
        about: "Prints the answer of DISK_INFO for an image, and whether the image is bootable",
        examples: "Example:\n  adf_serve info work.adf",
        usage: "adf_serve info [--json] [--blocks N] FILE",
        group: Group::Look,
        effect: Effect::Reads,
        changes: false,
        arguments: &[OBJECT, FRONT, ArgumentRow { name: "FILE", kind: Kind::One, help: "The image" }],
    },
    CommandRow {
        name: "show",
        about: "Describes a disk: its name, format and size, what is on it, its dates and its boot block",
        examples: "Examples:\n  adf_serve show work.adf\n  adf_serve show --json work.adf",
        usage: "adf_serve show [--json] [--blocks N] IMAGE",
        group: Group::Look,
        effect: Effect::Reads,
        changes: false,
        arguments: &[
            OBJECT,
            FRONT,
            IMAGE,
        ],
    },
    CommandRow {
        name: "map",
        about: "Prints a letter for each block of a disk, and what the letters mean",
        examples: "Examples:\n  adf_serve map work.adf\n  adf_serve map --tracks work.adf\n  adf_serve map --json work.adf\n  adf_serve map --bad bad.txt work.adf",
        usage: "adf_serve map [--tracks | --json] [--bad FILE] [--blocks N] IMAGE",
        group: Group::Look,
        effect: Effect::Reads,
        changes: false,
        arguments: &[
            ArgumentRow { name: "tracks", kind: Kind::Flag { excludes: &["json"] }, help: "Prints a line for each track. Without it, a floppy has a column for each cylinder" },
            OBJECT,
            ArgumentRow { name: "bad", kind: Kind::Option { value: "FILE", default: None }, help: "Prints `U` for the blocks that this list names: they could not be read. The list is that of `extract --damaged`" },
            FRONT,
            IMAGE,
        ],
    },
    CommandRow {
        name: "where",
        about: "Says who owns a block of a disk, or prints the blocks of a file or a directory",
        examples: "Examples:\n  adf_serve where work.adf 912\n  adf_serve where work.adf c40.h0.s10 880\n  adf_serve where --json work.adf 912\n  adf_serve where --path c/dir work.adf\n  adf_serve where --bad bad.txt work.adf 912",
        usage: "adf_serve where [--json] [--bad FILE] [--blocks N] IMAGE BLOCK..\n       adf_serve where --path PATH [--json] [--blocks N] IMAGE",
        group: Group::Look,
        effect: Effect::Reads,
        changes: false,
        arguments: &[
            ArgumentRow { name: "json", kind: FLAG, help: "Prints a JSON array with an object for each block, or with `--path` a JSON object" },
            ArgumentRow { name: "path", kind: Kind::Instead { value: "PATH", excludes: &["BLOCK"] }, help: "Prints all blocks of this file or directory, as ranges" },
            ArgumentRow { name: "bad", kind: Kind::Instead { value: "FILE", excludes: &["path"] }, help: "Also says which of the blocks this list names: they could not be read. The list is that of `extract --damaged`" },
            FRONT,
            IMAGE,
            ArgumentRow { name: "BLOCK", kind: Kind::Any, help: "The number of a block, or its cylinder, head and sector as `c40.h0.s10`, each from 0. A track has 11 sectors, and 22 on a disk of 3,520 blocks" },
        ],
    },
    CommandRow {
        name: "check",
        about: "Prints `ok`, or why an image is refused. Several images, and those of a directory, get a line each",
        examples: "Examples:\n  adf_serve check work.adf\n  adf_serve check --jobs 4 --all floppies more/work.adf\n  adf_serve check --filler floppies\n  adf_serve check --bad bad.txt work.adf\n  find . -name '*.adf' -print0 | adf_serve check --from - --null",
        usage: "adf_serve check [--jobs N] [--all] [--json] [--filler] [--blocks N]\n           FILE..\n       adf_serve check --from LIST [--null] [--jobs N] [--all] [--json]\n           [--filler] [--blocks N] [FILE..]\n       adf_serve check --bad FILE [--all] [--json] [--filler] [--blocks N]\n           IMAGE",
        group: Group::Look,
        effect: Effect::Reads,
        changes: false,
        arguments: &[
            ArgumentRow { name: "jobs", kind: NUMBER, help: "Checks this number of images at a time. The default is the number of processors" },
            ArgumentRow { name: "all", kind: FLAG, help: "Prints every fault of an image, and not only one" },
            ArgumentRow { name: "json", kind: FLAG, help: "Prints a JSON object for each image" },
            ArgumentRow { name: "filler", kind: FLAG, help: "Also prints each data block of a file that holds nothing but the filler of a program, as that of Greaseweazle for a sector that it could not read" },
            ArgumentRow { name: "bad", kind: Kind::Option { value: "FILE", default: None }, help: "Also prints each block that this list names and that is not free: it could not be read. The list is that of `extract --damaged`, for a single image" },
            ArgumentRow { name: "blocks", kind: NUMBER, help: "Takes the first N blocks of each file as its image, from 16 to 101,602" },
            ArgumentRow { name: "from", kind: Kind::Option { value: "LIST", default: None }, help: "Also checks the files and directories that LIST names, one on each line, after those of the command line. If LIST is `-`, standard input is the list" },
            ArgumentRow { name: "null", kind: Kind::With { option: "from", excludes: &[] }, help: "The names in LIST end with a zero byte, as `find -print0` writes them" },
            ArgumentRow { name: "FILE", kind: Kind::Unless { option: "from" }, help: "An image; or a directory, whose files that end in `.adf` or `.hdf` are checked, and those in all directories below it" },
        ],
    },
    CommandRow {
        name: "list",
        about: "Prints the directories and files of an image",
        examples: "Examples:\n  adf_serve list work.adf\n  adf_serve list --letters work.adf s\n  adf_serve list --long work.adf s/startup-sequence\n  adf_serve list --long --sort size work.adf\n  adf_serve list --json work.adf",
        usage: "adf_serve list [--letters | --long | --json] [--sort KEY] [--blocks N]\n           IMAGE [PATH]",
        group: Group::Look,
        effect: Effect::Reads,
        changes: false,
        arguments: &[
            ArgumentRow { name: "letters", kind: Kind::Flag { excludes: &["long", "json"] }, help: "Prints names as UTF-8. Without an option they are printed as raw bytes" },
            ArgumentRow { name: "long", kind: Kind::Flag { excludes: &["json"] }, help: "Prints names as UTF-8, all eight protection bits as `hsparwed`, and comments" },
            ArgumentRow { name: "json", kind: FLAG, help: "Prints a JSON object for each file and directory" },
            ArgumentRow { name: "sort", kind: Kind::Option { value: "KEY", default: None }, help: "Sorts each directory by `name`, by `size` with the largest first, by `date` with the latest first, or as on the `disk`. Without it `--long` sorts by name, and all else is as on the disk" },
            FRONT,
            IMAGE,
            ArgumentRow { name: "PATH", kind: Kind::Optional, help: "A directory, of which all entries are listed, or a file" },
        ],
    },
    CommandRow {
        name: "print",
        about: "Writes the bytes of a file to standard output",
        examples: "Example:\n  adf_serve print work.adf s/startup-sequence",
        usage: "adf_serve print [--blocks N] IMAGE PATH",
        group: Group::TakeOut,
        effect: Effect::Reads,
        changes: false,
        arguments: &[
            FRONT,
            IMAGE,
            ArgumentRow { name: "PATH", kind: Kind::One, help: "The file, from the root" },
        ],
    },
    CommandRow {
        name: "extract",
        about: "Writes files and directories of an image as those of the host",
        examples: "Examples:\n  adf_serve extract --to here work.adf\n  adf_serve extract --meta --to here work.adf s c/dir\n  adf_serve extract --damaged --to here work.adf\n  adf_serve extract --damaged --list work.adf\n  adf_serve extract --damaged --out new.adf work.adf\n  adf_serve extract --bundle work work.adf",
        usage: "adf_serve extract [--to DIR] [--meta] [--force] [--blocks N]\n           IMAGE [PATH..]\n       adf_serve extract --bundle DIR [--blocks N] IMAGE\n       adf_serve extract --damaged [--json] [--to DIR] [--meta] [--unaccounted]\n           [--bad FILE] [--blocks N] IMAGE\n       adf_serve extract --damaged --list [--json] [--bad FILE] [--blocks N]\n           IMAGE\n       adf_serve extract --damaged --out FILE [--over] [--json] [--bad FILE]\n           [--blocks N] IMAGE",
        group: Group::TakeOut,
        effect: Effect::Reads,
        changes: false,
        arguments: &[
            ArgumentRow { name: "to", kind: Kind::Option { value: "DIR", default: Some(".") }, help: "The directory to write to. It is made if it does not exist" },
            ArgumentRow { name: "meta", kind: FLAG, help: "Writes the protection bits, the date and the comment of each entry `x` to a file `x.uaem`" },
            FORCE,
            ArgumentRow { name: "bundle", kind: Kind::Instead { value: "DIR", excludes: &["to", "meta", "force", "damaged", "PATH"] }, help: "Writes everything to this new directory: the files below `DIR/files`, and in `DIR/volume.json` all else that `add --bundle` needs to make the volume again" },
            ArgumentRow { name: "damaged", kind: Kind::Flag { excludes: &["force", "PATH"] }, help: "Writes all that can be trusted of an image that may be refused, and prints a line for each file and directory" },
            ArgumentRow { name: "list", kind: Kind::With { option: "damaged", excludes: &["to", "meta", "unaccounted", "force", "bundle", "PATH"] }, help: "With `--damaged`: only prints the lines, and writes nothing" },
            ArgumentRow { name: "json", kind: Kind::With { option: "damaged", excludes: &["bundle"] }, help: "With `--damaged`: prints a JSON object in place of the lines" },
            ArgumentRow { name: "unaccounted", kind: Kind::With { option: "damaged", excludes: &["bundle"] }, help: "With `--damaged`: also writes the blocks in use that belong to no reported entry, to `lost+found/unaccounted/FIRST-LAST`" },
            ArgumentRow { name: "bad", kind: Kind::Beside { value: "FILE", option: "damaged", excludes: &[] }, help: "With `--damaged`: the blocks that this list names could not be read, whatever stands there. Each line has the number of a block or its place, as `where` takes them; `#` begins a comment" },
            ArgumentRow { name: "out", kind: Kind::Beside { value: "FILE", option: "damaged", excludes: &["to", "meta", "unaccounted", "list", "bundle"] }, help: "With `--damaged`: writes what can be saved to this new image, and nothing else" },
            ArgumentRow { name: "over", kind: Kind::With { option: "out", excludes: &[] }, help: "Lets `--out` write over a file that is not an image" },
            FRONT,
            IMAGE,
            ArgumentRow { name: "PATH", kind: Kind::Any, help: "A file, or a directory with everything in it. Without PATH everything in the image is written" },
        ],
    },
    CommandRow {
        name: "undelete",
        about: "Lists the deleted files and directories of an image, and writes those whose blocks are all free to the host",
        examples: "Examples:\n  adf_serve undelete --list work.adf\n  adf_serve undelete --to here work.adf\n  adf_serve undelete --meta --to here work.adf s c/dir",
        usage: "adf_serve undelete [--list] [--json] [--to DIR] [--meta] [--force]\n           [--blocks N] IMAGE [PATH..]",
        group: Group::TakeOut,
        effect: Effect::Reads,
        changes: false,
        arguments: &[
            ArgumentRow { name: "list", kind: FLAG, help: "Only prints a line for each deleted file and directory, and writes nothing" },
            ArgumentRow { name: "json", kind: FLAG, help: "Prints a JSON object for each deleted file and directory" },
            ArgumentRow { name: "to", kind: Kind::Option { value: "DIR", default: Some(".") }, help: "The directory to write to. It is made if it does not exist" },
            ArgumentRow { name: "meta", kind: FLAG, help: "Writes the protection bits, the date and the comment of each entry `x` to a file `x.uaem`" },
            ArgumentRow { name: "force", kind: FLAG, help: "Also writes files of which blocks are used again or damaged, and replaces files that already exist" },
            FRONT,
            IMAGE,
            ArgumentRow { name: "PATH", kind: Kind::Any, help: "A deleted file or directory, or a directory in which something was deleted, from the root. Without PATH everything that was deleted is taken" },
        ],
    },
    CommandRow {
        name: "add",
        about: "Adds files, and directories with everything in them, to an image",
        examples: "Examples:\n  adf_serve add --to s work.adf startup-sequence\n  adf_serve add --to s --as startup-sequence work.adf startup.txt\n  date | adf_serve add --as today work.adf -\n  adf_serve add --bundle work new.adf",
        usage: "adf_serve add [--to PATH] [--force] [CHANGE] IMAGE FILE..\n       adf_serve add --as NAME [--to PATH] [--force] [CHANGE] IMAGE FILE\n       adf_serve add --bundle DIR [CHANGE] IMAGE",
        group: Group::PutIn,
        effect: Effect::Changes,
        changes: true,
        arguments: &[
            ArgumentRow { name: "to", kind: Kind::Option { value: "PATH", default: None }, help: "The directory of the image to add them to. The default is the root" },
            ArgumentRow { name: "as", kind: Kind::Option { value: "NAME", default: None }, help: "Adds one file under this name, of 1 to 30 letters without `/` and `:`. FILE is then no directory, and may be `-`, which is standard input" },
            ArgumentRow { name: "bundle", kind: Kind::Instead { value: "DIR", excludes: &["to", "as", "force", "FILE"] }, help: "Makes the volume that `extract --bundle` wrote to this directory. IMAGE is an empty volume of the same kind and size" },
            FORCE,
            ArgumentRow { name: "FILE", kind: Kind::Any, help: "A file or directory of the host. A file `x.uaem` beside `x` gives its protection bits, its date and its comment" },
        ],
    },
    CommandRow {
        name: "mkdir",
        about: "Makes directories",
        examples: "Examples:\n  adf_serve mkdir work.adf s c devs devs/keymaps\n  adf_serve mkdir --parents work.adf devs/printers\n  adf_serve mkdir --date 1990-01-01 work.adf libs",
        usage: "adf_serve mkdir [--parents] [CHANGE] IMAGE PATH..",
        group: Group::PutIn,
        effect: Effect::Changes,
        changes: true,
        arguments: &[
            ArgumentRow { name: "parents", kind: FLAG, help: "Makes each missing directory on the way too, and leaves existing directories as they are" },
            ArgumentRow { name: "PATH", kind: Kind::OneOrMore, help: "A directory to make, from the root" },
        ],
    },
    CommandRow {
        name: "delete",
        about: "Deletes files and empty directories",
        examples: "Example:\n  adf_serve delete --all work.adf devs",
        usage: "adf_serve delete [--all] [--force] [CHANGE] IMAGE PATH..",
        group: Group::PutIn,
        effect: Effect::Removes,
        changes: true,
        arguments: &[
            ArgumentRow { name: "all", kind: FLAG, help: "Deletes a directory with everything in it" },
            ArgumentRow { name: "force", kind: FLAG, help: "Also deletes what is protected from deletion" },
            ArgumentRow { name: "PATH", kind: Kind::OneOrMore, help: "The path of what to delete, from the root" },
        ],
    },
    CommandRow {
        name: "rename",
        about: "Moves a file or a directory to another place",
        examples: "Example:\n  adf_serve rename work.adf s/old c/new",
        usage: "adf_serve rename [CHANGE] IMAGE OLD NEW",
        group: Group::PutIn,
        effect: Effect::Changes,
        changes: true,
        arguments: &[
            ArgumentRow { name: "OLD", kind: Kind::One, help: "Its path, from the root" },
            ArgumentRow { name: "NEW", kind: Kind::One, help: "Its new path, from the root" },
        ],
    },
    CommandRow {
        name: "protect",
        about: "Sets the protection of a file or a directory",
        examples: PROTECT_EXAMPLES,
        usage: "adf_serve protect [CHANGE] IMAGE PATH LETTERS",
        group: Group::PutIn,
        effect: Effect::Changes,
        changes: true,
        arguments: &[
            ENTRY,
            ArgumentRow { name: "LETTERS", kind: Kind::Dashed, help: LETTERS },
        ],
    },
    CommandRow {
        name: "date",
        about: "Sets the date of a file or a directory",
        examples: "Examples:\n  adf_serve date work.adf c/dir 1990-01-01\n  adf_serve date work.adf c/dir '1990-01-01 12:30'\n  adf_serve date work.adf c/dir '1990-01-01 12:30:15.50'\n  adf_serve date work.adf c/dir now",
        usage: "adf_serve date [CHANGE] IMAGE PATH WHEN",
        group: Group::PutIn,
        effect: Effect::Changes,
        changes: true,
        arguments: &[
            ENTRY,
            ArgumentRow { name: "WHEN", kind: Kind::One, help: "`YYYY-MM-DD`, `YYYY-MM-DD HH:MM[:SS[.CC]]`, or `now`, which is the time stamp of the change" },
        ],
    },
    CommandRow {
        name: "comment",
        about: "Sets the comment of a file or a directory",
        examples: "Example:\n  adf_serve comment work.adf c/dir 'lists directories'",
        usage: "adf_serve comment [CHANGE] IMAGE PATH TEXT",
        group: Group::PutIn,
        effect: Effect::Changes,
        changes: true,
        arguments: &[
            ENTRY,
            ArgumentRow { name: "TEXT", kind: Kind::One, help: "The comment, of at most 79 letters" },
        ],
    },
    CommandRow {
        name: "relabel",
        about: "Renames the volume",
        examples: "Example:\n  adf_serve relabel work.adf Games",
        usage: "adf_serve relabel [CHANGE] IMAGE NAME",
        group: Group::PutIn,
        effect: Effect::Changes,
        changes: true,
        arguments: &[ArgumentRow { name: "NAME", kind: Kind::One, help: "The name: 1 to 30 letters without `/` and `:`" }],
    },
    CommandRow {
        name: "validate",
        about: "Writes the bitmap of a disk anew, if nothing else is wrong with the disk",
        examples: "Examples:\n  adf_serve validate work.adf\n  adf_serve validate --out mended.adf work.adf",
        usage: "adf_serve validate [--force] [--json] [CHANGE] IMAGE",
        group: Group::Mend,
        effect: Effect::Changes,
        changes: true,
        arguments: &[
            ArgumentRow { name: "force", kind: FLAG, help: "Also where the old bitmap blocks, or lost blocks, may hold something that can still be saved" },
            OBJECT,
        ],
    },
    CommandRow {
        name: "boot",
        about: "Installs a boot block with the right checksum, removes it, saves it or shows it",
        examples: "Examples:\n  adf_serve boot --install work.adf\n  adf_serve boot work.adf boot.bin\n  adf_serve boot --clear work.adf\n  adf_serve boot --save boot.bin work.adf\n  adf_serve boot --show work.adf",
        usage: "adf_serve boot [--clear] [CHANGE] IMAGE\n       adf_serve boot --install [CHANGE] IMAGE\n       adf_serve boot [CHANGE] IMAGE FILE\n       adf_serve boot --save FILE [--blocks N] IMAGE\n       adf_serve boot --show [--json] [--blocks N] IMAGE",
        group: Group::PutIn,
        effect: Effect::Removes,
        changes: true,
        arguments: &[
            ArgumentRow { name: "clear", kind: Kind::Flag { excludes: &["install", "save", "show", "FILE"] }, help: "Removes the boot block, as does `boot` without FILE" },
            ArgumentRow { name: "install", kind: Kind::Flag { excludes: &["save", "show", "FILE"] }, help: "Installs the standard boot block, which starts AmigaDOS" },
            ArgumentRow { name: "save", kind: Kind::Instead { value: "FILE", excludes: &["show", "out", "FILE"] }, help: "Writes the 1,024 bytes of the boot block to a new file, and leaves the image as it is" },
            ArgumentRow { name: "show", kind: Kind::Flag { excludes: &["out", "FILE"] }, help: "Prints what the boot block is, and its bytes" },
            ArgumentRow { name: "json", kind: Kind::With { option: "show", excludes: &[] }, help: "Prints a JSON object" },
            ArgumentRow { name: "FILE", kind: Kind::Optional, help: "A file with the boot block, of at most 1,024 bytes. Its first four bytes become those of the image" },
        ],
    },
    CommandRow {
        name: "serve",
        about: "Runs scripts over an image, each as a client on its own thread, and prints the replies of each client",
        examples: "Examples:\n  adf_serve serve --out after.adf work.adf one.txt two.txt\n  adf_serve serve --date '1990-01-01 12:00' --out after.adf work.adf one.txt",
        usage: "adf_serve serve [--out FILE] [--turns N] [TIME] [--blocks N]\n           IMAGE SCRIPT..",
        group: Group::Serve,
        effect: Effect::Reads,
        changes: false,
        arguments: &[
            ArgumentRow { name: "out", kind: Kind::Option { value: "FILE", default: None }, help: "Writes the image to this file at the end" },
            ArgumentRow { name: "turns", kind: Kind::Option { value: "N", default: Some("100000000") }, help: "How often a client tries to send a packet, and to take its reply" },
            DATE,
            DAYS_OR_ZERO,
            MINUTES_OR_ZERO,
            TICKS_OR_ZERO,
            FRONT,
            IMAGE,
            ArgumentRow { name: "SCRIPT", kind: Kind::OneOrMore, help: "A script. Each script is one client" },
        ],
    },
];
