//! Reads of a volume for a listing.
ghost use Rattle.std.specs.Prelude.{◌≡◌, ◌≢◌, ◌↔◌, ℕ, IfSome, IfNone, IsTrue, Some, pos, negsuc};
ghost use Rattle.std.specs.Ordering.{int_eq};
ghost use Rattle.ados_chain.specs.Look.{first_left};
ghost use Rattle.ados_chain.specs.declared.read.Next.TheVariants.{Entry};
ghost use Rattle.ados_model.specs.Change.{entries_after};
ghost use Rattle.ados_model.specs.Keys.{HasDirectory, HasKey};
ghost use Rattle.ados_model.specs.Stands.{Stands};
ghost use Rattle.ados_model.specs.Tree.{Tree, Node, name_of};
ghost use Rattle.ados_model.specs.Objects.{file_info};
ghost use Rattle.ados_volume.specs.Order.{IsPlaceIn};

use ados_model::FileInfo;
use ados_name::Name;
use ados_volume::{Next, Volume};

/// The entry type of a directory other than the root.
const DIRECTORY: i32 = 2;

/// The entry type of a file.
const FILE: i32 = -3;

/// The entry of a directory after this key; the directory's own key is before all.
pub(crate) fn entry_behind(volume: &Volume, dir: u32, last: u32) -> Option<u32>
    requires dir { HasDirectory volume.now.image dir }
    requires place { IsPlaceIn volume.now.image dir last }
    ensures key { IfSome result (HasKey volume.now.image) }
    ensures place { IfSome result (IsPlaceIn volume.now.image dir) }
    ensures next { IfSome result (λ key. (t : Tree) → Stands volume.now.image t → first_left (entries_after t dir last) ≡ Entry key) }
    ensures none { IfNone result ((t : Tree) → Stands volume.now.image t → (key : ℕ) → first_left (entries_after t dir last) ≢ Entry key) }
{
    match volume.next_from(dir, last) {
        Next::Entry(key) => Some(key),
        Next::End | Next::NotAnEntry => None,
    }
}

/// The description of an object. Type 2 means a directory.
pub(crate) fn describe(volume: &Volume, key: u32) -> FileInfo
    requires { HasKey volume.now.image key }
    ensures directory { result.entry_type ≡ pos 2 → HasDirectory volume.now.image key }
    ensures info { (t : Tree) (node : Node) → Stands volume.now.image t → t.nodes key ≡ Some node → result ≡ file_info t.format key node }
{
    volume.examine(key)
}

/// The name of an object.
pub(crate) fn name_of(volume: &Volume, key: u32) -> Name
    requires { HasKey volume.now.image key }
    ensures { (t : Tree) → Stands volume.now.image t → result ≡ name_of t key }
{
    volume.examine(key).name
}

/// Whether the object is a directory other than the root.
pub(crate) fn is_directory(info: &FileInfo) -> bool
    ensures { IsTrue result ↔ info.now.entry_type ≡ pos 2 }
{
    info.entry_type == DIRECTORY
}

/// Whether the object is a file.
pub(crate) fn is_file(info: &FileInfo) -> bool
    ensures { result ≡ int_eq info.now.entry_type (negsuc 2) }
{
    info.entry_type == FILE
}
