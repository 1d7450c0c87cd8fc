//! Tables of rows. The loop over a table is proved once, and not in each test.

use std::alloc::Global;
use std::cmp::Ordering;
use std::process::Abort;

/// What is asked, and what is to be answered.
pub trait Row {
    /// Whether it is answered so.
    fn holds(&self, alloc: Global) -> bool;
}

/// Asserts that each row of the table holds.
pub fn assert_rows<R: Abort + AllocGlobal, T: Row>(rt: &R, rows: &[T]) {
    for (place, row) in rows.iter().enumerate() {
        if !row.holds(rt.alloc()) {
            panic!(rt; "row {place}");
        }
    }
}

/// What has an order.
pub trait Ordered {
    /// How this one compares with the other.
    fn compared(&self, alloc: Global, other: &Self) -> Option<Ordering>;
}

/// Asserts that any two items compare as their places do.
pub fn assert_ordered<R: Abort + AllocGlobal, T: Ordered>(rt: &R, items: &[T]) {
    for (place, one) in items.iter().enumerate() {
        for (other_place, other) in items.iter().enumerate() {
            if one.compared(rt.alloc(), other) != Some(place.cmp(&other_place)) {
                panic!(rt; "{place} and {other_place}");
            }
        }
    }
}

/// Both, where both are there. That one of them may have to be dropped is proved once, for any type.
pub fn both<A: Drop, B: Drop>(one: Option<A>, other: Option<B>) -> Option<(A, B)> {
    match one {
        Some(one) => match other {
            Some(other) => Some((one, other)),
            None => None,
        },
        None => None,
    }
}
