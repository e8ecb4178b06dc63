//! The words of other tools, and what stands for them here.

/// Words of AmigaDOS, Unix, xdftool, unadf, mtools and archivers for one thing.
pub(crate) struct OtherWords {
    pub(crate) words: &'static [&'static str],
    /// What does it here.
    pub(crate) tip: &'static str,
}

/// What stands for each of these words. No word that only looks leads to a command that changes an image.
#[rattlefmt::skip]
pub(crate) const OTHER_WORDS: [OtherWords; 28] = [
    OtherWords { words: &["dir", "ls", "ll", "l", "v", "mdir", "vdir", "tree", "find", "contents"], tip: "`list` prints the directories and files of an image" },
    OtherWords { words: &["stat", "attr", "mshowfat"], tip: "`list --long` prints the protection bits, the dates and the comments too" },
    OtherWords { words: &["type", "cat", "mtype", "more", "less", "head", "tail", "view", "hexdump", "xxd", "od"], tip: "`print` writes a file to standard output" },
    OtherWords { words: &["read", "get", "x", "e", "unadf", "export", "unzip", "untar", "save"], tip: "`extract` writes files of an image to the host" },
    OtherWords { words: &["unpack"], tip: "`extract --bundle` writes everything in an image to a new directory" },
    OtherWords { words: &["copy", "cp", "mcopy", "tar", "zip", "lha", "rsync"], tip: "`extract` takes files out of an image, and `add` puts files in" },
    OtherWords { words: &["write", "put", "a", "import", "insert"], tip: "`add` puts files of the host into an image" },
    OtherWords { words: &["pack", "repack"], tip: "`add --bundle` makes the volume that `extract --bundle` wrote to a directory" },
    OtherWords { words: &["makedir", "md", "mmd"], tip: "`mkdir` makes directories" },
    OtherWords { words: &["rm", "del", "remove", "erase", "unlink", "rmdir", "mdel", "mrd", "mdeltree", "deltree"], tip: "`delete` deletes files and empty directories" },
    OtherWords { words: &["mv", "move", "ren", "mren", "mmove"], tip: "`rename` moves a file or a directory to another place" },
    OtherWords { words: &["chmod", "attrib", "mattrib"], tip: "`protect` sets the protection of a file or a directory" },
    OtherWords { words: &["touch", "setdate"], tip: "`date` sets the date of a file or a directory" },
    OtherWords { words: &["filenote", "note"], tip: "`comment` sets the comment of a file or a directory" },
    OtherWords { words: &["label", "mlabel", "setlabel"], tip: "`relabel` renames the volume" },
    OtherWords { words: &["format", "mformat", "mkfs", "newfs", "create", "new"], tip: "`blank` writes a blank image" },
    OtherWords { words: &["install", "bootable"], tip: "`boot --install` installs the standard boot block" },
    OtherWords { words: &["bootblock"], tip: "`boot --show` says what the boot block is" },
    OtherWords { words: &["df", "du", "mdu", "minfo", "file", "root", "disk", "volume", "status"], tip: "`show` describes a disk: its name, format and size, and what is on it" },
    OtherWords { words: &["bitmap"], tip: "`map` prints a letter for each block of a disk" },
    OtherWords { words: &["block", "blocks", "owner"], tip: "`where` says who owns a block of a disk" },
    OtherWords { words: &["fsck", "chkdsk", "scan", "test", "verify", "t", "mbadblocks"], tip: "`check` says whether an image is accepted, and why not" },
    OtherWords { words: &["salvage", "rescue", "recover", "repair", "fix", "mend", "diskdoctor", "disksalv"], tip: "`extract --damaged` saves the files of a damaged image" },
    OtherWords { words: &["undel", "unrm", "unerase", "restore"], tip: "`undelete` lists deleted files, and writes them to the host" },
    OtherWords { words: &["diskcopy", "dd"], tip: "an image is a file, which the host's own commands copy" },
    OtherWords { words: &["mount", "umount"], tip: "the program `adf_mount` mounts an image as a directory" },
    OtherWords { words: &["execute", "run", "script"], tip: "`serve` runs scripts over an image" },
    OtherWords { words: &["version", "ver"], tip: "`--version` prints the version, and whether the program is proved" },
];
