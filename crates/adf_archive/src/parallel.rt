//! Reports on many images by several threads.
ghost use Rattle.std.specs.Prelude.{◌+◌, ◌<◌, ◌≤◌, ◌^◌, ℕ, IfOk};
ghost use Rattle.std.specs.Thread.{IsSync};
ghost use Rattle.adf_archive.specs.Each.{GivesFrom};

use crate::report::ImageReport;
use std::alloc::{AllocError, Global};
use std::thread;
use std::thread::Threads;

/// The reports on `count` images from position `start` on, in their order, each as `report` makes it. At most `jobs` threads make them,
/// each for images in a row; where no thread can be made, this one makes its part too.
#[cycle(shares)]
pub(crate) fn reports_by<R, C>(
    rt: &R,
    alloc: Global,
    start: usize,
    count: usize,
    jobs: usize,
    report: &C,
) -> Result<Vec<ImageReport>, AllocError>
where
    R: Threads + Sync,
    C: Fn(usize) -> ImageReport + Sync,
    requires room { start + count < 2 ^ 64 }
    requires accepts { (i : ℕ) → start ≤ i → i < start + count → C.pre report.now i }
    ensures { IfOk result (λ reports. GivesFrom C.Fn report.now start count reports.items) }
{
    let shares = jobs.min(count);
    if shares < 2 {
        return reports_in_turn(alloc, start, count, report);
    }
    let few = shares / 2;
    let many = shares - few;
    let low = images_of(few, shares, count);
    let high = count - low;
    let middle = start + low;
    let front = move || -> Result<Vec<ImageReport>, AllocError>
        requires { IsSync R.row × IsSync C.row × (start + low < 2 ^ 64) × ((i : ℕ) → start ≤ i → i < start + low → C.pre report.now i) }
        ensures { IfOk result (λ reports. GivesFrom C.Fn report.entry.now start low reports.items) }
    { reports_by(rt, alloc, start, low, few, report) };
    let back = move || -> Result<Vec<ImageReport>, AllocError>
        requires { IsSync R.row × IsSync C.row × (middle + high < 2 ^ 64) × ((i : ℕ) → middle ≤ i → i < middle + high → C.pre report.now i) }
        ensures { IfOk result (λ reports. GivesFrom C.Fn report.entry.now middle high reports.items) }
    { reports_by(rt, alloc, middle, high, many, report) };
    let (first, second) = thread::join(rt, front, back);
    let mut reports = first?;
    reports.append(&mut second?)?;
    Ok(reports)
}

/// The part of `count` images that falls to `few` of so many shares.
fn images_of(few: usize, shares: usize, count: usize) -> usize
    requires some { 0 < shares }
    requires fewer { few ≤ shares }
    ensures { result ≤ count }
{
    few * (count / shares)
}

/// The reports on `count` images from position `start` on, in their order, each as `report` makes it.
fn reports_in_turn<C: Fn(usize) -> ImageReport>(
    alloc: Global,
    start: usize,
    count: usize,
    report: &C,
) -> Result<Vec<ImageReport>, AllocError>
    requires room { start + count < 2 ^ 64 }
    requires accepts { (i : ℕ) → start ≤ i → i < start + count → C.pre report.now i }
    ensures { IfOk result (λ reports. GivesFrom C.Fn report.now start count reports.items) }
{
    let mut reports = Vec::with_capacity(alloc, count)?;
    for i in 0..count {
        reports.push(report(start + i))?;
    }
    Ok(reports)
}
