//! Free space on the volume.

ghost use Rattle.std.specs.Prelude.{◌≡◌, not};
ghost use Rattle.ados_model.specs.Tree.{Tree};
ghost use Rattle.ados_model.specs.Stands.{Stands};
ghost use Rattle.ados_model.specs.Reads.{lacks};

use crate::handler::Handler;

impl Handler {
    /// Whether a block is free. A new entry needs one.
    pub(crate) fn has_room(&self) -> bool
        ensures { (t : Tree) → Stands self.now.image t → result ≡ not (lacks t 1) }
    {
        let info = self.volume.info();
        info.used < info.blocks
    }
}
