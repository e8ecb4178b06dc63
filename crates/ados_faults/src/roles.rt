//! The roles in which a walk takes each block: of each number that a role may have, at most two.
ghost use Rattle.std.specs.Prelude.{◌≡◌, ◌<◌, ◌*◌, IfOk, List, MatchOption, false, length, replicate, true};
ghost use Rattle.adf_block.specs.Image.{block_count};
ghost use Rattle.ados_faults.specs.declared.roles.Taken.TheVariants.{Nothing};
ghost use Rattle.ados_faults.specs.declared.walk.Step.{Step};
ghost use Rattle.ados_faults.specs.steps.Roles.{AreBacked, AreCoveredBy, HasNumber, IsCovered, IsListed, lacks, part_rank, step_of, with_number};

use adf_block::Image;
use ados_model::Role;
use std::alloc::{AllocError, Global};

/// The number of parts.
const PARTS: usize = 5;

/// A number in a role.
#[derive(Clone, Copy)]
enum Part {
    /// 0 of a bitmap block.
    Bitmap,
    /// The directory of an entry.
    Directory,
    /// The slot of an entry.
    Slot,
    /// The file of a data block.
    DataFile,
    /// The file of an extension block.
    ExtensionFile,
}

/// The numbers that the roles of a block have in one part, as far as a walk takes them.
#[derive(Clone, Copy)]
enum Taken {
    Nothing,
    One(u32),
    /// Two numbers. So whatever number a field has, one of them differs from it.
    Two,
}

/// For each block and each part the numbers that were taken.
#[derive(Drop)]
pub(crate) struct Roles {
    cells: Vec<Taken>,
}

impl Roles {
    /// No role of any block.
    pub(crate) fn none(alloc: Global, image: &Image) -> Result<Roles, AllocError>
        ensures { IfOk result (λ roles. roles.cells.items ≡ replicate (5 * block_count image.now) Nothing) }
    {
        let cells = Vec::from_elem(alloc, Taken::Nothing, PARTS * image.blocks() as usize)?;
        Ok(Roles { cells })
    }

    /// Takes a role of a block. The result is false if the roles that were taken cover it.
    pub(crate) fn take(&mut self, image: &Image, block: u32, role: Role) -> bool
        requires inside { block < block_count image.now }
        requires size { length self.old.cells.items ≡ 5 * block_count image.now }
        ensures size { length self.new.cells.items ≡ length self.old.cells.items }
        ensures same { result ≡ false → self.new.cells.items ≡ self.old.cells.items }
        ensures covered { result ≡ false → (steps : List Step) → AreBacked self.old.cells.items steps → AreCoveredBy steps block role }
        ensures backed { (steps : List Step) → AreBacked self.old.cells.items steps → IsListed steps (step_of block role) → AreBacked self.new.cells.items steps }
    {
        match role {
            Role::Root => false,
            Role::Page => self.take_number(image, block, Part::Bitmap, 0),
            Role::Entry(dir, slot) => {
                let in_dir = self.take_number(image, block, Part::Directory, dir);
                let in_slot = self.take_number(image, block, Part::Slot, slot);
                if in_dir {
                    return true;
                }
                in_slot
            }
            Role::Data(file) => self.take_number(image, block, Part::DataFile, file),
            Role::Extension(file) => self.take_number(image, block, Part::ExtensionFile, file),
        }
    }

    /// Takes a number in a part.
    fn take_number(&mut self, image: &Image, block: u32, part: Part, number: u32) -> bool
        requires inside { block < block_count image.now }
        requires size { length self.old.cells.items ≡ 5 * block_count image.now }
        ensures size { length self.new.cells.items ≡ length self.old.cells.items }
        ensures same { result ≡ false → self.new.cells.items ≡ self.old.cells.items }
        ensures covered { result ≡ false → (steps : List Step) → AreBacked self.old.cells.items steps → IsCovered steps block part number }
        ensures backed { (steps : List Step) → AreBacked self.old.cells.items steps → HasNumber steps block part number → AreBacked self.new.cells.items steps }
    {
        let _image = image;
        let cell = PARTS * block as usize + rank_of(part);
        let Some(more) = with_number(self.cells[cell], number) else {
            return false;
        };
        self.cells[cell] = more;
        true
    }
}

/// One number more, if it is new.
fn with_number(taken: Taken, number: u32) -> Option<Taken>
    ensures { MatchOption result (lacks number taken ≡ false) (λ more. (lacks number taken ≡ true) × (more ≡ with_number number taken)) }
{
    match taken {
        Taken::Nothing => Some(Taken::One(number)),
        Taken::One(other) if other != number => Some(Taken::Two),
        Taken::One(_) | Taken::Two => None,
    }
}

/// The number of a part.
fn rank_of(part: Part) -> usize
    ensures rank { result ≡ part_rank part }
    ensures small { result < PARTS }
{
    match part {
        Part::Bitmap => 0,
        Part::Directory => 1,
        Part::Slot => 2,
        Part::DataFile => 3,
        Part::ExtensionFile => 4,
    }
}
