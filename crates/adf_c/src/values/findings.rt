//! All faults of an image for C, alone and with the numbers that show them.

ghost use Rattle.std.specs.Prelude.{◌≡◌, IfOk, map};
ghost use Rattle.adf_c.specs.Findings.{AreFindings, AreFindingsOf, IsFindingOf, TellsFindings, bare_finding, fault_in, told_finding};

use crate::values::faults::JipFault;
use adf_block::Image;
use ados_faults::{Evidence, Mark, all_faults, values_of};
use ados_model::VolumeFault;
use std::alloc::{AllocError, Global};

/// The most faults that are listed.
pub const MOST_FAULTS: usize = 1_000;

/// A fault with the long of its block that shows it.
#[repr(C)]
#[derive(Clone, Copy)]
pub struct JipFinding {
    /// As in a `JipFault`.
    pub kind: i32,
    pub block: u32,
    /// 0 if no long of the block shows the fault alone, 1 if `at` and `found` are set, 2 if `wanted` is too.
    pub known: u32,
    /// The index of the long in the block, 0 to 127.
    pub at: u32,
    /// What the long holds.
    pub found: u32,
    /// What it has to hold.
    pub wanted: u32,
}

/// Faults, and whether there are more.
#[derive(Drop)]
pub struct ToldFindings {
    pub findings: Vec<JipFinding>,
    pub more: bool,
}

/// The faults of an image, by block and then by kind: the first 1,000 of them, each with the long of its block that shows it.
/// For bytes that are no image it is the fault of their length.
pub fn findings_of(alloc: Global, bytes: &[u8]) -> Result<ToldFindings, AllocError>
    ensures { IfOk result (λ told. AreFindingsOf bytes.now told.findings.items told.more) }
{
    let copy = Vec::from_slice(alloc, bytes)?;
    match Image::from_bytes(copy) {
        Ok(image) => findings_in(alloc, &image),
        Err(refused) => {
            let mut findings = Vec::new(alloc);
            findings.push(JipFinding::bare(JipFault::of_size(refused.fault)))?;
            Ok(ToldFindings {
                findings,
                more: false,
            })
        }
    }
}

/// These faults alone.
pub fn faults_in(alloc: Global, findings: &[JipFinding]) -> Result<Vec<JipFault>, AllocError>
    ensures { IfOk result (λ faults. faults.items ≡ map fault_in findings.now) }
{
    findings
        .iter()
        .map(|finding| JipFault {
            kind: finding.kind,
            block: finding.block,
        })
        .collect(alloc)
}

/// The faults of an image.
fn findings_in(alloc: Global, image: &Image) -> Result<ToldFindings, AllocError>
    ensures { IfOk result (λ told. TellsFindings image.now told.findings.items told.more) }
{
    prove!(image.blocks() >= 16);
    let found = all_faults(alloc, image, MOST_FAULTS)?;
    let findings = told_findings(alloc, image, &found.marks, &found.faults)?;
    Ok(ToldFindings {
        findings,
        more: found.more,
    })
}

/// These faults for C.
fn told_findings(
    alloc: Global,
    image: &Image,
    marks: &[Option<Mark>],
    faults: &[VolumeFault],
) -> Result<Vec<JipFinding>, AllocError>
    ensures { IfOk result (λ told. AreFindings image.now marks.now faults.now told.items) }
{
    let mut told = Vec::with_capacity(alloc, faults.len())?;
    for place in 0..faults.len() {
        told.push(finding_of(image, marks, faults[place]))?;
    }
    Ok(told)
}

/// A fault for C, with the long that shows it.
fn finding_of(image: &Image, marks: &[Option<Mark>], fault: VolumeFault) -> JipFinding
    ensures { IsFindingOf image.now marks.now fault result }
{
    match values_of(image, marks, &fault) {
        Some(values) => JipFinding::of(fault, values),
        None => JipFinding::bare(JipFault::of_volume(fault)),
    }
}

impl JipFinding {
    /// A fault that no long shows.
    fn bare(fault: JipFault) -> JipFinding
        ensures { result ≡ bare_finding fault.kind fault.block }
    {
        JipFinding {
            kind: fault.kind,
            block: fault.block,
            known: 0,
            at: 0,
            found: 0,
            wanted: 0,
        }
    }

    /// A fault that a long shows.
    fn of(fault: VolumeFault, values: Evidence) -> JipFinding
        ensures { result ≡ told_finding fault values }
    {
        let shown = JipFault::of_volume(fault);
        JipFinding {
            kind: shown.kind,
            block: shown.block,
            known: match values.wanted {
                Some(_) => 2,
                None => 1,
            },
            at: values.long,
            found: values.found,
            wanted: values.wanted.unwrap_or(0),
        }
    }
}
