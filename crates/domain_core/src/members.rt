//! The members of a set, kept in order.

ghost use Rattle.std.specs.Prelude.{◌≡◌, ◌≤◌, ◌≤ℤ◌, ◌<ℤ◌, ◌↔◌, IsTrue, true, false, Contains, ℤ, length};
ghost use Rattle.std.specs.Prelude.{slice_index_or};
ghost use Rattle.std.specs.List.{AllWithin};
ghost use Rattle.domain_core.specs.Domain.{Set, HaveCommon, IsDomain, IsValue, AreAscending, AreMembers};
ghost use Rattle.domain_core.specs.Narrowing.{Keeps, Sieves};
ghost use Rattle.domain_core.specs.Intervals.{range_between};
ghost use Rattle.domain_core.specs.Lists.{KeepsFront, LeavesFront};

use super::Change;
use super::interval::Interval;

/// Whether the value is a member.
pub fn is_member(members: &[i32], value: i32) -> bool
    requires { AreAscending members.now }
    ensures { IsTrue result ↔ Contains members.now value }
{
    members.binary_search(&value).is_ok()
}

/// The place of the first member that isn't below the value, or the length where each is.
pub fn first_from(members: &[i32], value: i32) -> usize
    requires { AreAscending members.now }
    ensures bound { result ≤ length members.now }
    ensures below { AllWithin (λ member. member <ℤ value) members.now 0 result }
    ensures from { AllWithin (λ member. value ≤ℤ member) members.now result (length members.now) }
{
    members.partition_point(|member| *member < value)
}

/// The place of the first member above the value, or the length where none is.
pub fn first_above(members: &[i32], value: i32) -> usize
    requires { AreAscending members.now }
    ensures bound { result ≤ length members.now }
    ensures upto { AllWithin (λ member. member ≤ℤ value) members.now 0 result }
    ensures above { AllWithin (λ member. value <ℤ member) members.now result (length members.now) }
{
    members.partition_point(|member| *member <= value)
}

/// Keeps the members from `lo` to `hi`.
pub fn meet_range(members: &mut Vec<i32>, lo: i32, hi: i32) -> Change
    requires { AreMembers members.old.items }
    ensures kept { Keeps (λ value. (lo ≤ℤ value) × (value ≤ℤ hi))
        (Set members.old.items) result (Set members.new.items) }
    ensures domain { IsDomain (Set members.new.items) }
{
    let from = first_from(members.as_slice(), lo);
    let end = first_above(members.as_slice(), hi);
    if end <= from {
        return Change::Empty;
    }
    if from == 0 && end == members.len() {
        return Change::Same;
    }
    members.copy_within(from..end, 0);
    members.truncate(end - from);
    Change::Smaller
}

/// Keeps the members that the others have too.
pub fn meet_set(members: &mut Vec<i32>, others: &[i32]) -> Change
    requires are { AreMembers members.old.items }
    requires ascending { AreAscending others.now }
    ensures kept { Keeps (Contains others.now) (Set members.old.items) result (Set members.new.items) }
    ensures domain { IsDomain (Set members.new.items) }
{
    let kept = keep_common(members, others);
    cut(members, kept)
}

// Leaves the first `kept` numbers, unless these are none or all.
fn cut(members: &mut Vec<i32>, kept: usize) -> Change
    ensures { LeavesFront kept members.old.items result members.new.items }
{
    if kept == 0 {
        return Change::Empty;
    }
    if kept == members.len() {
        return Change::Same;
    }
    members.truncate(kept);
    Change::Smaller
}

// Moves what both lists have to the front of the first one, and answers how much that is. Both lists are gone
// through once.
fn keep_common(members: &mut Vec<i32>, others: &[i32]) -> usize
    requires members { AreAscending members.old.items }
    requires others { AreAscending others.now }
    ensures { KeepsFront (Contains others.now) (λ value. Contains others.now value → ⊥)
        members.old.items result members.new.items }
{
    let mut kept = 0;
    let mut next = 0;
    for read in 0..members.len() {
        let member = members[read];
        next = skip_below(others, next, member);
        if next < others.len() && others[next] == member {
            members[kept] = member;
            kept += 1;
        }
    }
    kept
}

// The first place from `start` on whose number isn't below the value, or the length where each is.
fn skip_below(numbers: &[i32], start: usize, value: i32) -> usize
    requires { start ≤ length numbers.now }
    ensures from { start ≤ result }
    ensures bound { result ≤ length numbers.now }
    ensures below { AllWithin (λ number. number <ℤ value) numbers.now start result }
    ensures next { value ≤ℤ slice_index_or numbers.now result value }
{
    let mut place = start;
    while place < numbers.len() && numbers[place] < value {
        place += 1;
    }
    place
}

/// Keeps the members that pass.
pub fn keep<F: Fn(i32) -> bool>(members: &mut Vec<i32>, passes: F) -> Change
    requires are { AreMembers members.old.items }
    requires callable { (value : ℤ) → IsValue value → F.pre passes value }
    ensures sieved { Sieves (λ value. F.post passes value true) (λ value. F.post passes value false)
        (Set members.old.items) result (Set members.new.items) }
    ensures domain { IsDomain (Set members.new.items) }
{
    let kept = keep_passing(members, passes);
    cut(members, kept)
}

// Moves what passes to the front of the list, and answers how much that is.
fn keep_passing<F: Fn(i32) -> bool>(members: &mut Vec<i32>, passes: F) -> usize
    requires are { AreMembers members.old.items }
    requires callable { (value : ℤ) → IsValue value → F.pre passes value }
    ensures { KeepsFront (λ value. F.post passes value true) (λ value. F.post passes value false)
        members.old.items result members.new.items }
{
    let mut kept = 0;
    for read in 0..members.len() {
        let member = members[read];
        if passes(member) {
            members[kept] = member;
            kept += 1;
        }
    }
    kept
}

/// Whether the lists have a number in common. Both are gone through once.
pub fn have_common(members: &[i32], others: &[i32]) -> bool
    requires members { AreAscending members.now }
    requires others { AreAscending others.now }
    ensures { IsTrue result ↔ HaveCommon (Set members.now) (Set others.now) }
{
    let mut next = 0;
    for member in members {
        next = skip_below(others, next, *member);
        if next < others.len() && others[next] == *member {
            return true;
        }
    }
    false
}

/// Whether each member is among the others. Both are gone through once.
pub fn are_among(members: &[i32], others: &[i32]) -> bool
    requires members { AreAscending members.now }
    requires others { AreAscending others.now }
    ensures { IsTrue result ↔ ((value : ℤ) → Contains members.now value → Contains others.now value) }
{
    let mut next = 0;
    for member in members {
        next = skip_below(others, next, *member);
        if next >= others.len() {
            return false;
        }
        if others[next] != *member {
            return false;
        }
    }
    true
}

/// Whether a member lies between the ends of the interval.
pub fn reach(members: &[i32], interval: &Interval) -> bool
    requires domain { IsDomain (range_between interval.now) }
    requires ascending { AreAscending members.now }
    ensures { IsTrue result ↔ HaveCommon (range_between interval.now) (Set members.now) }
{
    first_from(members, interval.lo) < first_above(members, interval.hi)
}

/// Keeps the least range around the values of the interval that are members.
pub fn meet_around(interval: &mut Interval, members: &[i32]) -> Change
    requires domain { IsDomain (range_between interval.old) }
    requires ascending { AreAscending members.now }
    ensures kept { Keeps (Contains members.now) (range_between interval.old) result (range_between interval.new) }
    ensures domain { IsDomain (range_between interval.new) }
{
    let from = first_from(members, interval.lo);
    let end = first_above(members, interval.hi);
    if end <= from {
        return Change::Empty;
    }
    interval.meet(members[from], members[end - 1])
}

/// Takes the value out.
pub fn drop_value(members: &mut Vec<i32>, value: i32) -> Change
    requires { AreMembers members.old.items }
    ensures kept { Keeps (λ other. other ≡ value → ⊥) (Set members.old.items) result (Set members.new.items) }
    ensures domain { IsDomain (Set members.new.items) }
{
    let Ok(place) = members.as_slice().binary_search(&value) else {
        return Change::Same;
    };
    if members.len() == 1 {
        return Change::Empty;
    }
    members.remove(place);
    Change::Smaller
}
