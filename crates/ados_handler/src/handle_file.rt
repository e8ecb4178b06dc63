//! The file of a handle.

ghost use Rattle.std.specs.Prelude.{◌≡◌, ◌≤◌, IfSome};
ghost use Rattle.std.specs.FinMap as numbered;
ghost use Rattle.ados_model.specs.Keys.{HasFileKey};
ghost use Rattle.ados_model.specs.Tree.{Tree, size_of};
ghost use Rattle.ados_model.specs.Stands.{Stands};
ghost use Rattle.ados_model.specs.Objects.{protection_of};

use crate::handler::Handler;
use ados_model::HandleHold;
use ados_name::Protect;

impl Handler {
    /// The hold of a handle. It is on a file, and its position is at most the file's size.
    pub(crate) fn hold_of(&self, handle: u32) -> Option<HandleHold>
        ensures hold { result ≡ numbered.get self.now.session.handles handle }
        ensures file { IfSome result (λ hold. HasFileKey self.now.image hold.key) }
        ensures within { IfSome result (λ hold. (t : Tree) → Stands self.now.image t → hold.position ≤ size_of t hold.key) }
    {
        self.handles.get(handle).copied()
    }

    /// The size of a file in bytes. The largest volume has room for 52,020,224 of them.
    pub(crate) fn file_size(&self, key: u32) -> u32
        requires { HasFileKey self.now.image key }
        ensures size { (t : Tree) → Stands self.now.image t → result ≡ size_of t key }
        ensures small { result ≤ 52020224 }
    {
        self.volume.size(key)
    }

    /// The protection bits of a file.
    pub(crate) fn file_protection(&self, key: u32) -> Protect
        requires { HasFileKey self.now.image key }
        ensures { (t : Tree) → Stands self.now.image t → result.0 ≡ protection_of t key }
    {
        self.volume.protection(key)
    }
}
