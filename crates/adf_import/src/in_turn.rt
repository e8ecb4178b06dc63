//! What a sequence of changes leaves untouched.

ghost use Rattle.adf_import.specs.InTurn.{OutsideStays};

/// Any sequence of changes leaves the size, the boot blocks and the bitmap's bits past the volume's end untouched.
pub fn outside_stays()
    ensures { OutsideStays }
{}
