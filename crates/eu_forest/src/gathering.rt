//! Which members things have, found for all of them.

ghost use Rattle.std.specs.Prelude.{◌≡◌, ◌+◌, ◌<◌, ℕ, List, Option, IfOk, IfSome, IsTrue, MatchResult, OnOk, Ok, Err, Some, None, length, if◌then◌else◌};
ghost use Rattle.eu_forest.specs.Ancestors.{parent_in};
ghost use Rattle.eu_forest.specs.Members.{AreGathered, AreHandedUp, AreMembers, IsWithin, PutsOwn, marks_at};

use super::marks::own_marked;
use super::members::Members;
use crate::parent_in;
use std::alloc::{AllocError, Global};

// Gives the thing all of its own members, unless it has the one of this number.
fn put_own(
    alloc: Global,
    owners: &[Option<usize>],
    number: usize,
    thing: usize,
    members: &mut Members,
) -> Result<(), AllocError>
    ensures { OnOk result (PutsOwn owners.now number thing members.old members.new) }
{
    if members.has(thing, number) {
        return Ok(());
    }
    let marks = own_marked(alloc, owners, thing)?;
    members.put(thing, marks)
}

// Gives the owner of this number its own members.
fn put_owner(
    alloc: Global,
    owners: &[Option<usize>],
    number: usize,
    members: &mut Members,
) -> Result<(), AllocError>
    requires { number < length owners.now }
    ensures { OnOk result ((parents : List (Option ℕ)) → AreGathered parents owners.now number members.old
        → AreGathered parents owners.now (number + 1) members.new) }
{
    match owners[number] {
        Some(thing) => put_own(alloc, owners, number, thing, members),
        None => Ok(()),
    }
}

// Gives each thing its own members.
fn put_all_own(
    alloc: Global,
    owners: &[Option<usize>],
    members: &mut Members,
) -> Result<(), AllocError>
    ensures { OnOk result ((parents : List (Option ℕ)) → AreGathered parents owners.now 0 members.old
        → AreGathered parents owners.now (length owners.now) members.new) }
{
    for number in 0..owners.len() {
        put_owner(alloc, owners, number, members)?;
    }
    Ok(())
}

// Hands what the thing has to what it stands under.
fn hand_up(
    alloc: Global,
    parents: &[Option<usize>],
    thing: usize,
    members: &mut Members,
) -> Result<(), AllocError>
    ensures { OnOk result ((owners : List (Option ℕ)) (count : ℕ) → AreGathered parents.now owners count members.old
        → AreGathered parents.now owners count members.new) }
{
    match parent_in(parents, thing) {
        Some(parent) => members.join(alloc, parent, thing),
        None => Ok(()),
    }
}

// Hands up what each thing of the order has, from the last one up.
fn hand_all_up(
    alloc: Global,
    parents: &[Option<usize>],
    order: &[usize],
    members: &mut Members,
) -> Result<(), AllocError>
    ensures { OnOk result ((owners : List (Option ℕ)) (count : ℕ) → AreGathered parents.now owners count members.old
        → AreGathered parents.now owners count members.new) }
{
    let mut place = order.len();
    while place > 0 {
        place -= 1;
        hand_up(alloc, parents, order[place], members)?;
    }
    Ok(())
}

// Whether what the thing stands under has all that the thing has.
fn is_handed_up(parents: &[Option<usize>], thing: usize, members: &Members) -> bool
    ensures { IsTrue result → ((parent : ℕ) → parent_in parents.now thing ≡ Some parent
        → IsWithin (marks_at members.now thing) (marks_at members.now parent)) }
{
    match parent_in(parents, thing) {
        Some(parent) => members.is_within(thing, parent),
        None => true,
    }
}

fn are_handed_up(parents: &[Option<usize>], members: &Members) -> bool
    ensures { IsTrue result → AreHandedUp parents.now members.now }
{
    for thing in 0..parents.len() {
        if !is_handed_up(parents, thing, members) {
            return false;
        }
    }
    true
}

// Finds the members, and whether all have been handed up.
fn fill(
    alloc: Global,
    parents: &[Option<usize>],
    order: &[usize],
    owners: &[Option<usize>],
    members: &mut Members,
) -> Result<bool, AllocError>
    requires { AreGathered parents.now owners.now 0 members.old }
    ensures { IfOk result (λ whole. IsTrue whole → AreMembers parents.now owners.now members.new) }
{
    put_all_own(alloc, owners, members)?;
    hand_all_up(alloc, parents, order, members)?;
    Ok(are_handed_up(parents, &*members))
}

// The members, if it was done and they are all there.
fn if_whole(
    whole: Result<bool, AllocError>,
    members: Members,
) -> Result<Option<Members>, AllocError>
    ensures { MatchResult whole
        (λ all. result ≡ Ok (if all then Some members else None)) (λ fault. result ≡ Err fault) }
{
    match whole {
        Ok(true) => Ok(Some(members)),
        Ok(false) => Ok(None),
        Err(fault) => Err(fault),
    }
}

/// Which members each thing has, where the things stand under these, and these own the members. In the order each thing
/// comes after the one that it stands under; where it lacks one that is on the way from an owner, there is no answer. For which
/// orders there is one isn't promised: whoever asks looks for the members one by one then.
pub fn gather(
    alloc: Global,
    parents: &[Option<usize>],
    order: &[usize],
    owners: &[Option<usize>],
) -> Result<Option<Members>, AllocError>
    ensures { IfOk result (λ found. IfSome found (AreMembers parents.now owners.now)) }
{
    let mut members = Members::none(alloc, parents.len(), owners.len())?;
    let whole = fill(alloc, parents, order, owners, &mut members);
    if_whole(whole, members)
}
