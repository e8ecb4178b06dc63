//! Walks along paths.

ghost use Rattle.std.specs.Prelude.{◌≡◌, IfErr, IfOk, IfSome};
ghost use Rattle.ados_name.specs.Name.{steps};
ghost use Rattle.ados_name.specs.StepView.{step_of};
ghost use Rattle.ados_model.specs.Tree.{Tree, parent_of};
ghost use Rattle.ados_model.specs.Stands.{Stands};
ghost use Rattle.ados_model.specs.Change.{child_of, fault_of_walk, missing_before, place, start_of, step_from, walk, walk_steps};
ghost use Rattle.ados_model.specs.declared.dos_error.WalkFault.{WalkFault};
ghost use Rattle.ados_model.specs.Keys.{HasDirectory, HasKey, HasTree};
ghost use Rattle.ados_volume.specs.Paths.{FailsAt};
ghost use Rattle.ados_volume.specs.steps.PathStep.{end_of, or_missing};

use crate::look::is_file_in;
use crate::volume::Volume;
use adf_block::Image;
use adf_block::layout::PARENT;
use ados_model::{PlaceFault, WalkFault};
use ados_name::{Name, PathSteps, PathText, Step, from_root, split_last};

impl Volume {
    /// The object at the end of a path. The path starts at the object `start`, or at the root if it has a `:`.
    ///
    /// Errors have the DOS numbers 204, 205 and 212.
    pub fn walk(&mut self, start: u32, path: &PathText) -> Result<u32, WalkFault>
        requires { HasKey self.old.image start }
        ensures walk { (t : Tree) → Stands self.old.image t → result ≡ walk t start path.now }
        ensures key { IfOk result (λ key. HasKey self.old.image key) }
        ensures same { self.new ≡ self.old }
    {
        let start = self.start_of(start, path.bytes());
        match self.walk_steps(start, path.bytes(), WalkFault::ObjectNotFound) {
            Ok(key) => Ok(key),
            Err((_, fault)) => Err(fault),
        }
    }

    /// The place that a path names: the directory at the end of its prefix, and its last name.
    ///
    /// Errors have the DOS numbers 204, 205, 210 and 212.
    pub fn place(&mut self, start: u32, path: &PathText) -> Result<(u32, Name), PlaceFault>
        requires { HasKey self.old.image start }
        ensures place { (t : Tree) → Stands self.old.image t → result ≡ place t start path.now }
        ensures directory { IfOk result (λ found. HasDirectory self.old.image found.0) }
        ensures same { self.new ≡ self.old }
    {
        self.place_from(start, path.bytes())
    }

    /// The directory of an object; `None` for the root.
    pub fn parent(&self, key: u32) -> Option<u32>
        requires { HasKey self.now.image key }
        ensures parent { (t : Tree) → Stands self.now.image t → result ≡ parent_of t key }
        ensures key { IfSome result (λ dir. HasKey self.now.image dir) }
    {
        parent_in(self.image(), key)
    }

    /// The start of a path.
    fn start_of(&self, start: u32, path: &[u8]) -> u32
        requires { HasKey self.now.image start }
        ensures start { (t : Tree) → Stands self.now.image t → result ≡ start_of t start path.now }
        ensures key { HasKey self.now.image result }
    {
        if from_root(path) {
            self.image().root()
        } else {
            start
        }
    }

    /// `place` for a path of any length.
    pub(crate) fn place_from(&mut self, start: u32, path: &[u8]) -> Result<(u32, Name), PlaceFault>
        requires { HasKey self.old.image start }
        ensures place { (t : Tree) → Stands self.old.image t → result ≡ place t start path.now }
        ensures directory { IfOk result (λ found. HasDirectory self.old.image found.0) }
        ensures same { self.new ≡ self.old }
    {
        let start = self.start_of(start, path);
        let (front, last) = split_last(path);
        let dir = match self.walk_steps(start, front, WalkFault::DirectoryNotFound) {
            Ok(dir) => dir,
            Err((_, fault)) => return Err(place_fault(fault)),
        };
        if is_file_in(self.image(), dir) {
            return Err(PlaceFault::WrongType);
        }
        match Name::new(last) {
            Ok(name) => Ok((dir, name)),
            Err(_) => Err(PlaceFault::InvalidName),
        }
    }

    /// Walks the steps of a path from an object. An error has the object where the next step fails, and the fault of
    /// that step. At the last step, a missing child is the fault `last`.
    pub(crate) fn walk_steps(
        &mut self,
        start: u32,
        path: &[u8],
        last: WalkFault,
    ) -> Result<u32, (u32, WalkFault)>
        requires { HasKey self.old.image start }
        ensures walk { (t : Tree) → Stands self.old.image t → end_of result ≡ walk_steps t start (steps path.now) last }
        ensures stops { (t : Tree) → Stands self.old.image t → IfErr result (λ stop. FailsAt t start (steps path.now) last stop.0 stop.1) }
        ensures key { IfOk result (λ key. HasKey self.old.image key) }
        ensures same { self.new ≡ self.old }
    {
        let mut key = start;
        let mut steps = PathSteps::of(path);
        while let Some(step) = steps.next() {
            match self.step_from(key, step) {
                Ok(next) => key = next,
                Err(fault) => return Err((key, fault.unwrap_or(missing_before(steps, last)))),
            }
        }
        Ok(key)
    }

    /// Makes one step. An error without a fault means that there is no such child.
    fn step_from(&mut self, key: u32, step: Step<'_>) -> Result<u32, Option<WalkFault>>
        requires { HasKey self.old.image key }
        ensures step { (t : Tree) (missing : WalkFault) → Stands self.old.image t → or_missing result missing ≡ step_from t key (step_of step.entry) missing }
        ensures same { self.new ≡ self.old }
    {
        match step {
            Step::Parent => parent_in(self.image(), key).ok_or(Some(WalkFault::ObjectNotFound)),
            Step::Child(name) => {
                if is_file_in(self.image(), key) {
                    return Err(Some(WalkFault::WrongType));
                }
                self.child_named(key, name).ok_or(None)
            }
        }
    }

    /// The child with this name, which need not be a valid name.
    fn child_named(&mut self, dir: u32, name: &[u8]) -> Option<u32>
        requires { HasDirectory self.old.image dir }
        ensures child { (t : Tree) → Stands self.old.image t → result ≡ child_of t dir name.now }
        ensures same { self.new ≡ self.old }
    {
        match Name::new(name) {
            Ok(name) => self.child(dir, &name),
            Err(_) => None,
        }
    }
}

/// The directory of an object; `None` for the root.
pub fn parent_in(image: &Image, key: u32) -> Option<u32>
    requires tree { HasTree image.now }
    requires key { HasKey image.now key }
    ensures parent { (t : Tree) → Stands image.now t → result ≡ parent_of t key }
    ensures key { IfSome result (λ dir. HasKey image.now dir) }
{
    if key == image.root() {
        None
    } else {
        Some(image.long(key, PARENT))
    }
}

/// The fault of a missing child, by the steps after it.
fn missing_before(mut steps: PathSteps<'_>, last: WalkFault) -> WalkFault
    ensures { result ≡ missing_before steps.entry last }
{
    match steps.next() {
        Some(_) => WalkFault::DirectoryNotFound,
        None => last,
    }
}

/// A fault of a walk, as a fault of a place.
fn place_fault(fault: WalkFault) -> PlaceFault
    ensures { result ≡ fault_of_walk fault }
{
    match fault {
        WalkFault::DirectoryNotFound => PlaceFault::DirectoryNotFound,
        WalkFault::ObjectNotFound => PlaceFault::ObjectNotFound,
        WalkFault::WrongType => PlaceFault::WrongType,
    }
}
