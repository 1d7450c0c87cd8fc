//! The domain of a variable: a range of whole numbers without holes, or a set of values.

ghost use Rattle.std.specs.Prelude.{◌≡◌, ◌≤◌, ◌≤ℤ◌, ◌↔◌, All, IsTrue, true, false, IfSome, IfNone, IfOk, MatchBool, ℤ};
ghost use Rattle.std.specs.List.{Any};
ghost use Rattle.domain_core.specs.Domain.{Range, IsDomain, IsRange, IsSingle, HaveCommon, IsNth, IsValue, Has};
ghost use Rattle.domain_core.specs.Domain.{least, greatest, count_of, IsTested};
ghost use Rattle.domain_core.specs.Narrowing.{Keeps, Sieves};
ghost use Rattle.domain_core.specs.Lists.{MakesSet};

use super::distinct::Distinct;
use super::interval::Interval;
use super::number::is_value;
use super::{Change, SetFault, members};
use std::alloc::{AllocError, Global};
use std::marker::Model;

/// The least value of all, which `-inf` names.
pub const LEAST_VALUE: i32 = -1_000_000;

/// The greatest value of all, which `inf` names.
pub const GREATEST_VALUE: i32 = 1_000_000;

/// How many values a set may have.
pub const MOST_MEMBERS: usize = 4096;

/// The values that a variable may still have; never none.
#[derive(Drop)]
pub struct Dom {
    form: Form,
}

// How the values are kept.
#[derive(Drop)]
enum Form {
    Range(Interval),
    Set(Vec<i32>),
}

impl Model for Dom {
    ghost use Rattle.domain_core.specs.Domain.{Domain, IsDomain};

    ghost Value = { Domain };

    ghost use Rattle.domain_core.specs.Forms.{domain_of_form};

    ghost view = { λ inside. domain_of_form inside.form };

    ghost invariant = { λ inside. IsDomain (domain_of_form inside.form) };
}

// Whether the numbers are all values.
fn are_values(numbers: &[i32]) -> bool
    ensures { MatchBool result (All IsValue numbers.now) (Any (λ number. IsValue number → ⊥) numbers.now) }
{
    numbers.iter().all(|number| is_value(*number))
}

impl Dom {
    /// The whole numbers from `lo` to `hi`. None where the ends are in the wrong order or no values.
    pub fn range(lo: i32, hi: i32) -> Option<Dom>
        ensures some { IfSome result (λ domain. (domain ≡ Range lo hi) × IsDomain (Range lo hi)) }
        ensures none { IfNone result (IsDomain (Range lo hi) → ⊥) }
    {
        if LEAST_VALUE <= lo && lo <= hi && hi <= GREATEST_VALUE {
            Some(Dom {
                form: Form::Range(Interval { lo, hi }),
            })
        } else {
            None
        }
    }

    /// The set of the numbers in the list, in whatever order and however often each stands there.
    pub fn set_of(alloc: Global, values: &[i32]) -> Result<Dom, SetFault>
        ensures { MakesSet values.now result }
    {
        if values.is_empty() {
            return Err(SetFault::Empty);
        }
        if !are_values(values) {
            return Err(SetFault::OutOfRange);
        }
        let Some(distinct) = Distinct::of(values) else {
            return Err(SetFault::TooMany);
        };
        let members = Vec::from_slice(alloc, distinct.as_slice())?;
        Ok(Dom {
            form: Form::Set(members),
        })
    }

    pub fn is_range(&self) -> bool
        ensures { IsTrue result ↔ IsRange self.now }
    {
        match &self.form {
            Form::Range(_) => true,
            Form::Set(_) => false,
        }
    }

    /// The least value.
    pub fn lo(&self) -> i32
        ensures least { result ≡ least self.now }
        ensures domain { IsDomain self.now }
    {
        match &self.form {
            Form::Range(interval) => interval.lo,
            Form::Set(members) => members[0],
        }
    }

    /// The greatest value.
    pub fn hi(&self) -> i32
        ensures greatest { result ≡ greatest self.now }
        ensures domain { IsDomain self.now }
    {
        match &self.form {
            Form::Range(interval) => interval.hi,
            Form::Set(members) => members[members.len() - 1],
        }
    }

    /// Whether the value is one of the domain's. Of a set it is found by bisection.
    pub fn has(&self, value: i32) -> bool
        ensures { IsTrue result ↔ Has self.now value }
    {
        match &self.form {
            Form::Range(interval) => interval.lo <= value && value <= interval.hi,
            Form::Set(members) => members::is_member(members.as_slice(), value),
        }
    }

    /// Whether some value is in both domains. Two sets are gone through once.
    pub fn has_common(&self, other: &Dom) -> bool
        ensures { IsTrue result ↔ HaveCommon self.now other.now }
    {
        match &self.form {
            Form::Range(interval) => match &other.form {
                Form::Range(bounds) => interval.overlaps(bounds),
                Form::Set(others) => members::reach(others.as_slice(), interval),
            },
            Form::Set(members) => match &other.form {
                Form::Range(bounds) => members::reach(members.as_slice(), bounds),
                Form::Set(others) => members::have_common(members.as_slice(), others.as_slice()),
            },
        }
    }

    /// Whether `meet_set` with the other domain would change nothing. It writes nothing. Two sets are gone through once.
    pub fn lies_in(&self, other: &Dom) -> bool
        ensures { IsTrue result ↔ ((value : ℤ) → IsTested self.now value → Has other.now value) }
    {
        match &self.form {
            Form::Range(interval) => other.has(interval.lo) && other.has(interval.hi),
            Form::Set(members) => match &other.form {
                Form::Range(_interval) => members.iter().all(|member| other.has(*member)),
                Form::Set(others) => members::are_among(members.as_slice(), others.as_slice()),
            },
        }
    }

    /// How many values there are.
    pub fn count(&self) -> u32
        ensures count { result ≡ count_of self.now }
        ensures domain { IsDomain self.now }
    {
        match &self.form {
            Form::Range(interval) => (interval.hi - interval.lo) as u32 + 1,
            Form::Set(members) => members.len() as u32,
        }
    }

    /// The value, if there is only one.
    pub fn single(&self) -> Option<i32>
        ensures some { IfSome result (λ value. IsSingle self.now value) }
        ensures none { IfNone result ((value : ℤ) → IsSingle self.now value → ⊥) }
    {
        let lo = self.lo();
        if lo == self.hi() { Some(lo) } else { None }
    }

    /// The value at place `k`, counted from 0 in ascending order. None where there are no more than `k` values.
    pub fn nth(&self, k: u32) -> Option<i32>
        ensures some { IfSome result (λ value. IsNth self.now k value) }
        ensures none { IfNone result (count_of self.now ≤ k) }
    {
        if self.count() <= k {
            return None;
        }
        match &self.form {
            Form::Range(interval) => Some(interval.lo + k as i32),
            Form::Set(members) => Some(members[k as usize]),
        }
    }

    /// Keeps the values from `lo` to `hi`.
    pub fn meet_range(&mut self, lo: i32, hi: i32) -> Change
        ensures kept { Keeps (λ value. (lo ≤ℤ value) × (value ≤ℤ hi)) self.old result self.new }
        ensures domain { IsDomain self.new }
    {
        match &mut self.form {
            Form::Range(interval) => interval.meet(lo, hi),
            Form::Set(members) => members::meet_range(members, lo, hi),
        }
    }

    /// Keeps the values that the other domain has too. A range that is met with a set becomes the least range
    /// around the common values.
    pub fn meet_set(&mut self, other: &Dom) -> Change
        ensures kept { Keeps (Has other.now) self.old result self.new }
        ensures domain { IsDomain self.new }
    {
        match &other.form {
            Form::Range(bounds) => self.meet_range(bounds.lo, bounds.hi),
            Form::Set(others) => match &mut self.form {
                Form::Range(interval) => members::meet_around(interval, others.as_slice()),
                Form::Set(members) => members::meet_set(members, others.as_slice()),
            },
        }
    }

    /// Takes the value out of a set, or off an end of a range. From the middle of a range it can't go.
    pub fn drop_value(&mut self, value: i32) -> Change
        ensures kept { Keeps (λ other. other ≡ value → ⊥) self.old result self.new }
        ensures domain { IsDomain self.new }
    {
        match &mut self.form {
            Form::Range(interval) => interval.drop_value(value),
            Form::Set(members) => members::drop_value(members, value),
        }
    }

    /// Keeps the members of a set that pass.
    pub fn keep_members<F: Fn(i32) -> bool>(&mut self, passes: F) -> Change
        requires set { IsRange self.old → ⊥ }
        requires callable { (value : ℤ) → IsValue value → F.pre passes value }
        ensures sieved { Sieves (λ value. F.post passes value true) (λ value. F.post passes value false)
            self.old result self.new }
        ensures domain { IsDomain self.new }
    {
        match &mut self.form {
            Form::Range(_) => unreachable!(),
            Form::Set(members) => members::keep(members, passes),
        }
    }

    /// An equal domain, whose members are in memory of their own. A range takes none.
    pub fn copy(&self) -> Result<Dom, AllocError>
        ensures { IfOk result (λ copied. copied ≡ self.now) }
    {
        let form = match &self.form {
            Form::Range(interval) => Form::Range(*interval),
            Form::Set(members) => {
                Form::Set(Vec::from_slice(*members.allocator(), members.as_slice())?)
            }
        };
        Ok(Dom { form })
    }
}
