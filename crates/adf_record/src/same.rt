//! Bundles that are equal.
ghost use Rattle.std.specs.Prelude.{◌≡◌, ◌↔◌, IsTrue};
ghost use Rattle.adf_record.specs.Bundle.{AreSame};

use crate::bundle::{Bundle, BundleEntry, BundleHead};

/// Whether two bundles are equal: in every field, and in the order of the entries.
pub fn same_bundle(one: &Bundle, other: &Bundle) -> bool
    ensures { IsTrue result ↔ AreSame one.now other.now }
{
    same_head(&one.head, &other.head)
        && one.boot.as_slice() == other.boot.as_slice()
        && same_entries(&one.entries, &other.entries)
}

/// Whether the same is told of two volumes themselves.
fn same_head(one: &BundleHead, other: &BundleHead) -> bool
    ensures { IsTrue result ↔ (one.now ≡ other.now) }
{
    one.format == other.format
        && one.blocks == other.blocks
        && one.label.bytes() == other.label.bytes()
        && one.created == other.created
        && one.changed == other.changed
        && one.root_date == other.root_date
}

/// Whether two lists of entries are equal.
fn same_entries(one: &[BundleEntry], other: &[BundleEntry]) -> bool
    ensures { IsTrue result ↔ (one.now ≡ other.now) }
{
    if one.len() != other.len() {
        return false;
    }
    for at in 0..one.len() {
        if !same_entry(&one[at], &other[at]) {
            return false;
        }
    }
    true
}

/// Whether two entries are equal.
fn same_entry(one: &BundleEntry, other: &BundleEntry) -> bool
    ensures { IsTrue result ↔ (one.now ≡ other.now) }
{
    one.above == other.above
        && one.name.bytes() == other.name.bytes()
        && one.size == other.size
        && one.protection.0 == other.protection.0
        && one.date == other.date
        && one.comment.bytes() == other.comment.bytes()
}
