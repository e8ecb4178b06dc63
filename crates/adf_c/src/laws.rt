//! A law about the exports. It is the contract of a function that does nothing.
ghost use Rattle.adf_c.specs.History.{CallsAreOneRun};

/// Any list of calls of `jip_lib_serve` on a handle is one history of the tree that its image represents, and
/// `jip_lib_copy_image` then gives the image of the last tree. Calls on a read-only handle leave its image.
pub fn calls_are_one_run()
    ensures { CallsAreOneRun }
{}
