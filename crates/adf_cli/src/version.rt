//! The version of the program.

/// The version, which is that of the library for C.
pub(crate) const VERSION: &str = "1.3.0";

/// How the program was made: the kit builds a program only if it is proved. tools/checked_build, which compiles one without
/// proof, has another text here.
pub(crate) const PROOF: &str = "proved";
