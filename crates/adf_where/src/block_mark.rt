//! What a block is in a map.
ghost use Rattle.std.specs.Prelude.{◌≡◌};
ghost use Rattle.adf_where.specs.BlockMap.{kinds, letter, listed_kinds, mark_of, meaning};

use ados_volume::Owner;

/// What a block is in a map.
#[derive(Clone, Copy)]
pub(crate) enum BlockMark {
    Boot,
    Root,
    Bitmap,
    Directory,
    File,
    Extension,
    Data,
    Lost,
    Free,
    /// In a refused image: the block shows a fault.
    Faulty,
    /// In a refused image: two places name the block.
    Twice,
    /// With a list of blocks that could not be read: the list has the block.
    Unread,
}

/// What blocks are in the map of an accepted image, in the order in which their letters are explained.
const SOUND_KINDS: [BlockMark; 9] = [
    BlockMark::Boot,
    BlockMark::Root,
    BlockMark::Bitmap,
    BlockMark::Directory,
    BlockMark::File,
    BlockMark::Extension,
    BlockMark::Data,
    BlockMark::Lost,
    BlockMark::Free,
];

/// The same for a refused image.
const KINDS: [BlockMark; 11] = [
    BlockMark::Boot,
    BlockMark::Root,
    BlockMark::Bitmap,
    BlockMark::Directory,
    BlockMark::File,
    BlockMark::Extension,
    BlockMark::Data,
    BlockMark::Lost,
    BlockMark::Free,
    BlockMark::Faulty,
    BlockMark::Twice,
];

/// What more they are if there is a list of blocks that could not be read.
const LISTED_KINDS: [BlockMark; 1] = [BlockMark::Unread];

impl BlockMark {
    /// What blocks are in the map of an accepted or a refused image.
    pub(crate) fn kinds(refused: bool) -> &'static [BlockMark]
        ensures { result.now ≡ kinds refused }
    {
        if refused { &KINDS } else { &SOUND_KINDS }
    }

    /// What blocks are in the map too, if there are marks of blocks that could not be read.
    pub(crate) fn listed_kinds(unread: &[bool]) -> &'static [BlockMark]
        ensures { result.now ≡ listed_kinds unread.now }
    {
        if unread.is_empty() {
            &[]
        } else {
            &LISTED_KINDS
        }
    }

    /// What a block with this owner is.
    pub(crate) fn of_owner(owner: Owner) -> BlockMark
        ensures { result ≡ mark_of owner }
    {
        match owner {
            Owner::Boot => BlockMark::Boot,
            Owner::Root => BlockMark::Root,
            Owner::Page(_) => BlockMark::Bitmap,
            Owner::Directory => BlockMark::Directory,
            Owner::File => BlockMark::File,
            Owner::Extension(_, _) => BlockMark::Extension,
            Owner::Data(_, _) => BlockMark::Data,
            Owner::Lost => BlockMark::Lost,
            Owner::Free => BlockMark::Free,
        }
    }

    /// Its letter.
    pub(crate) fn letter(self) -> u8
        ensures { result ≡ letter self }
    {
        match self {
            BlockMark::Boot => b'B',
            BlockMark::Root => b'R',
            BlockMark::Bitmap => b'M',
            BlockMark::Directory => b'D',
            BlockMark::File => b'F',
            BlockMark::Extension => b'X',
            BlockMark::Data => b'#',
            BlockMark::Lost => b'L',
            BlockMark::Free => b'.',
            BlockMark::Faulty => b'!',
            BlockMark::Twice => b'?',
            BlockMark::Unread => b'U',
        }
    }

    /// Its letter and what that means.
    pub(crate) fn meaning(self) -> &'static str
        ensures { result.now ≡ meaning self }
    {
        match self {
            BlockMark::Boot => "B boot",
            BlockMark::Root => "R root",
            BlockMark::Bitmap => "M bitmap",
            BlockMark::Directory => "D directories",
            BlockMark::File => "F file headers",
            BlockMark::Extension => "X extensions",
            BlockMark::Data => "# data",
            BlockMark::Lost => "L lost",
            BlockMark::Free => ". free",
            BlockMark::Faulty => "! faulty",
            BlockMark::Twice => "? shared",
            BlockMark::Unread => "U unread",
        }
    }
}
