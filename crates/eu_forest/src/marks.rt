//! Lists that mark which of all members are meant.

ghost use Rattle.std.specs.Prelude.{◌≡◌, ◌++◌, ◌∷◌, [], false, map, pos, replicate, IfOk, IsTrue, OnOk, if◌then◌else◌};
ghost use Rattle.eu_forest.specs.Members.{IsWithin, are_marked, is_owner, is_marked, numbers_marked};

use eu_name::sequence::Sequence;
use std::alloc::{AllocError, Global};

// Whether the thing is the owner.
fn is_owner(thing: usize, owner: Option<usize>) -> bool
    ensures { result ≡ is_owner thing owner }
{
    match owner {
        Some(number) => number == thing,
        None => false,
    }
}

/// No member.
pub fn none_marked(alloc: Global, count: usize) -> Result<Sequence<bool>, AllocError>
    ensures { IfOk result (λ marks. marks ≡ replicate count false) }
{
    let mut marks = Sequence::new(alloc);
    for _ in 0..count {
        marks.push(false)?;
    }
    Ok(marks)
}

/// The own members of the thing.
pub fn own_marked(
    alloc: Global,
    owners: &[Option<usize>],
    thing: usize,
) -> Result<Sequence<bool>, AllocError>
    ensures { IfOk result (λ marks. marks ≡ map (is_owner thing) owners.now) }
{
    let mut marks = Sequence::new(alloc);
    for owner in owners {
        marks.push(is_owner(thing, *owner))?;
    }
    Ok(marks)
}

/// Whether the member of this number is marked.
pub fn is_marked(marks: &[bool], number: usize) -> bool
    ensures { result ≡ is_marked marks.now number }
{
    match marks.get(number) {
        Some(mark) => *mark,
        None => false,
    }
}

/// The members that are marked in one of the two.
pub fn either_marked(
    alloc: Global,
    one: &[bool],
    other: &[bool],
) -> Result<Sequence<bool>, AllocError>
    ensures { IfOk result (λ marks. marks ≡ are_marked one.now other.now) }
{
    let mut marks = Sequence::new(alloc);
    for number in 0..one.len() {
        marks.push(one[number] || is_marked(other, number))?;
    }
    Ok(marks)
}

// The number as a value.
fn value_of(number: usize) -> Result<i32, AllocError>
    ensures { IfOk result (λ value. value ≡ pos number) }
{
    if number > 2_147_483_647 {
        return Err(AllocError);
    }
    Ok(number as i32)
}

// Puts the number at the end, if it is meant.
fn push_if(meant: bool, number: usize, numbers: &mut Sequence<i32>) -> Result<(), AllocError>
    ensures { OnOk result (numbers.new ≡ numbers.old ++ (if meant then pos number ∷ [] else [])) }
{
    if meant {
        numbers.push(value_of(number)?)?;
    }
    Ok(())
}

/// The numbers of those that are marked.
pub fn numbers_marked(alloc: Global, marks: &[bool]) -> Result<Sequence<i32>, AllocError>
    ensures { IfOk result (λ numbers. numbers ≡ map pos (numbers_marked 0 marks.now)) }
{
    let mut numbers = Sequence::new(alloc);
    for (number, mark) in marks.iter().enumerate() {
        push_if(*mark, number, &mut numbers)?;
    }
    Ok(numbers)
}

/// Whether what is marked in the one is so in the other. That it is told wherever it is so isn't promised.
pub fn is_within(one: &[bool], other: &[bool]) -> bool
    ensures { IsTrue result → IsWithin one.now other.now }
{
    for number in 0..one.len() {
        if one[number] && !is_marked(other, number) {
            return false;
        }
    }
    true
}
