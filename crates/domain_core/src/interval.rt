//! Intervals: all whole numbers between two ends.

ghost use Rattle.std.specs.Prelude.{◌≡◌, ◌≤ℤ◌, ◌↔◌, IsTrue};
ghost use Rattle.domain_core.specs.Domain.{IsDomain, HaveCommon};
ghost use Rattle.domain_core.specs.Narrowing.{Keeps};

use super::Change;
use super::number::{greater, less};

/// The whole numbers between two ends, both included.
#[derive(Clone, Copy)]
pub struct Interval {
    pub lo: i32,
    pub hi: i32,
}

impl Interval {
    ghost use Rattle.domain_core.specs.Intervals.{range_between};

    /// Whether the intervals have a number in common.
    pub fn overlaps(&self, other: &Interval) -> bool
        requires self_domain { IsDomain (range_between self.now) }
        requires other_domain { IsDomain (range_between other.now) }
        ensures { IsTrue result ↔ HaveCommon (range_between self.now) (range_between other.now) }
    {
        self.lo <= other.hi && other.lo <= self.hi
    }

    /// Keeps the values from `lo` to `hi`.
    pub fn meet(&mut self, lo: i32, hi: i32) -> Change
        requires { IsDomain (range_between self.old) }
        ensures kept { Keeps (λ value. (lo ≤ℤ value) × (value ≤ℤ hi))
            (range_between self.old) result (range_between self.new) }
        ensures domain { IsDomain (range_between self.new) }
    {
        let new_lo = greater(self.lo, lo);
        let new_hi = less(self.hi, hi);
        if new_hi < new_lo {
            return Change::Empty;
        }
        if lo <= self.lo {
            if self.hi <= hi {
                return Change::Same;
            }
        }
        self.lo = new_lo;
        self.hi = new_hi;
        Change::Smaller
    }

    /// Takes the value off an end; from the middle it can't go.
    pub fn drop_value(&mut self, value: i32) -> Change
        requires { IsDomain (range_between self.old) }
        ensures kept { Keeps (λ other. other ≡ value → ⊥) (range_between self.old) result (range_between self.new) }
        ensures domain { IsDomain (range_between self.new) }
    {
        if value == self.lo {
            if self.lo == self.hi {
                return Change::Empty;
            }
            self.lo += 1;
            return Change::Smaller;
        }
        if value == self.hi {
            self.hi -= 1;
            return Change::Smaller;
        }
        Change::Same
    }
}
