//! Laws about the definitions. Each is the contract of a function that does nothing.
ghost use Rattle.ados_volume.specs.Checked.{CheckDecides};

/// Unless memory runs out, `check` returns Ok exactly if the image shows no fault. The volume's image then represents
/// exactly one tree.
pub fn check_decides()
    ensures { CheckDecides }
{}
