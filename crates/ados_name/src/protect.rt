//! Protection bits.
ghost use Rattle.std.specs.Prelude.{◌≡◌, ⊤, [], ◌∷◌, codes, if◌then◌else◌};
ghost use Rattle.ados_name.specs.Name.{denies_delete, denies_write, denies_read, without_archive};
ghost use Rattle.ados_name.specs.Protection.{is_archived, letters};

use bitflags::{Flag, Flags, bitflag_items};

/// The protection long of a header (ROM Kernel Manual). Bits without a name here keep their values.
#[derive(Clone, Copy, PartialEq, Eq)]
pub struct Protect(pub u32);

bitflag_items! {
    impl Protect: u32 {
        /// The file or directory cannot be deleted.
        const DELETE = 1;
        /// The file cannot be executed.
        const EXECUTE = 2;
        /// The file cannot be written.
        const WRITE = 4;
        /// The file cannot be read.
        const READ = 8;
        /// The file has not changed since it was archived.
        const ARCHIVE = 16;
        /// The program may be shared in memory.
        const PURE = 32;
        /// The file is a script.
        const SCRIPT = 64;
    }
}

impl Flags for Protect {
    type Bits = u32;

    ghost exact = { ⊤ };

    ghost table = { (codes "DELETE", 1) ∷ (codes "EXECUTE", 2) ∷ (codes "WRITE", 4) ∷ (codes "READ", 8)
        ∷ (codes "ARCHIVE", 16) ∷ (codes "PURE", 32) ∷ (codes "SCRIPT", 64) ∷ [] };

    ghost set_of = { λ p. p.0 };

    fn flags<'a>() -> &'a [Flag<Protect>] {
        Protect::FLAGS
    }

    fn bits(&self) -> u32 {
        self.0
    }

    fn from_bits_retain(bits: u32) -> Protect {
        Protect(bits)
    }
}

impl Protect {
    /// The 32 bits as the protection long of a header stores them.
    pub fn bits(self) -> u32
        ensures { result ≡ self.0 }
    {
        self.0
    }

    /// Whether bit 0 is set.
    pub fn denies_delete(self) -> bool
        ensures { result ≡ denies_delete self.0 }
    {
        self.contains(Protect::DELETE)
    }

    /// Whether bit 2 is set.
    pub fn denies_write(self) -> bool
        ensures { result ≡ denies_write self.0 }
    {
        self.contains(Protect::WRITE)
    }

    /// Whether bit 3 is set.
    pub fn denies_read(self) -> bool
        ensures { result ≡ denies_read self.0 }
    {
        self.contains(Protect::READ)
    }

    /// Whether bit 4 is set. A change of the file's bytes clears it.
    pub fn archive(self) -> bool
        ensures { result ≡ is_archived self.0 }
    {
        self.contains(Protect::ARCHIVE)
    }

    /// These bits with bit 4 clear.
    pub fn without_archive(self) -> Protect
        ensures { result.0 ≡ without_archive self.0 }
    {
        self.difference(Protect::ARCHIVE)
    }

    /// The letters `sparwed` in the form of the command `List`. `s`, `p` and `a` are shown for a set bit, `r`, `w`,
    /// `e` and `d` for a clear bit, and a dash otherwise.
    pub fn letters(self) -> [u8; 7]
        ensures { result ≡ letters self.0 }
    {
        [
            letter_or_dash(self.contains(Protect::SCRIPT), b's'),
            letter_or_dash(self.contains(Protect::PURE), b'p'),
            letter_or_dash(self.contains(Protect::ARCHIVE), b'a'),
            letter_or_dash(!self.contains(Protect::READ), b'r'),
            letter_or_dash(!self.contains(Protect::WRITE), b'w'),
            letter_or_dash(!self.contains(Protect::EXECUTE), b'e'),
            letter_or_dash(!self.contains(Protect::DELETE), b'd'),
        ]
    }
}

fn letter_or_dash(shown: bool, letter: u8) -> u8
    ensures { result ≡ (if shown then letter else 45) }
{
    if shown { letter } else { b'-' }
}
