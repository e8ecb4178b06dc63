//! The marks of the walk from the root for each reached block: the purpose of the block, and the long that names it.

use crate::drawn::drawn;
use crate::rows::{cut, holds, long_of};
use ados_check::{Mark, Source, reach};
use ados_model::Role;
use std::process::Abort;

/// An OFS volume of 16 blocks. Its root is block 8, its bitmap block is 9. Slot 6 of the root holds the directory `A`
/// in block 10 and after it the file `DP` in block 11. The file has the data block 13, and by its extension block 12
/// the data block 14. `A` holds a directory `f` in block 15.
const SMALL_VOLUME: &str = "\
put 0 0 x444f5300
put 8 12 10
settle 8 5
directory 10 8 x01410000
put 10 124 11
put 10 17 15
settle 10 5
directory 15 10 x01660000
directory 11 8 x02445000
put 11 2 1
put 11 77 13
put 11 126 12
put 11 127 xfffffffd
settle 11 5
put 12 0 16
put 12 1 12
put 12 2 1
put 12 77 14
put 12 125 11
put 12 127 xfffffffd
settle 12 5
put 13 0 8
put 13 1 11
settle 13 5
put 14 0 8
put 14 1 11
settle 14 5";

/// The marks in order: each block, its purpose, and the block and long that name it.
const MARKS: &str = "\
8 root 0 0 0 0
9 page 0 0 8 79
10 entry 8 6 8 12
11 entry 8 6 10 124
12 extension 11 0 11 126
13 data 11 0 11 77
14 data 11 0 12 77
15 entry 10 11 10 17";

/// The word of a block's purpose, and the numbers beside it.
fn told(role: Role) -> (&'static str, u32, u32) {
    match role {
        Role::Root => ("root", 0, 0),
        Role::Page => ("page", 0, 0),
        Role::Entry(dir, slot) => ("entry", dir, slot),
        Role::Data(file) => ("data", file, 0),
        Role::Extension(file) => ("extension", file, 0),
    }
}

/// Whether a row says this mark of this block.
fn is_mark(row: &str, block: usize, mark: Mark) -> bool {
    let (own, rest) = cut(row);
    let (word, rest) = cut(rest);
    let (first, rest) = cut(rest);
    let (second, rest) = cut(rest);
    let (holder, long) = cut(rest);
    own.parse().ok() == Some(block)
        && (word, long_of(first), long_of(second)) == told(mark.role)
        && long_of(holder) == mark.holder
        && long_of(long) == mark.long
}

/// The rows say the marks of all blocks that have one.
fn expect_marks(rt: &impl Abort, marks: &[Option<Mark>], rows: &str) {
    let mut rest = rows.lines();
    for (block, mark) in marks.iter().enumerate() {
        if let Some(mark) = mark {
            let row = rest.next().unwrap_or("no more");
            holds(rt, is_mark(row, block, *mark), row);
        }
    }
    holds(rt, rest.next().is_none(), "all rows");
}

#[test]
fn marks(rt: HostRuntime) {
    let image = drawn(&rt, rt.alloc(), 16, SMALL_VOLUME);
    let marks = reach(rt.alloc(), &Source::whole(&image)).expect(&rt, "a fault");
    expect_marks(&rt, &marks, MARKS);
}
