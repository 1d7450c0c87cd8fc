//! Which slots and locals stand in a rule.

ghost use Rattle.std.specs.Prelude.{◌≡◌, ◌↔◌, ◌++◌, All, IfOk, IsTrue, OnOk, false, true, length};
ghost use Rattle.model_core.specs.Block.{plain_entries, with_entry};
ghost use Rattle.model_core.specs.Entries.{NoEntry, WithLocal, WithSlot};
ghost use Rattle.model_rules.specs.Numbered.{AreOnce, MarksAllNew, MarksNew, numbers_of};

use model_core::rule::Entry;
use std::alloc::{AllocError, Global};

/// What has numbers in a rule.
#[derive(Clone, Copy)]
pub enum Sort {
    Slots,
    Locals,
}

/// The numbers of what is of the sort, in the block and in those in it.
pub fn numbers_in(alloc: Global, sort: Sort, entries: &[Entry]) -> Result<Vec<u32>, AllocError>
    ensures { IfOk result (λ numbers. numbers.items ≡ numbers_of sort (plain_entries entries.now)) }
{
    let mut numbers = Vec::new(alloc);
    add_numbers(sort, entries, &mut numbers)?;
    Ok(numbers)
}

// Puts the numbers of what is of the sort, in the block and in those in it, behind the numbers that are there.
#[cycle(numbers)]
fn add_numbers(sort: Sort, entries: &[Entry], numbers: &mut Vec<u32>) -> Result<(), AllocError>
    ensures { OnOk result (numbers.new.items ≡ numbers.old.items ++ numbers_of sort (plain_entries entries.now)) }
{
    for entry in entries {
        add_numbers_in(sort, entry, numbers)?;
    }
    Ok(())
}

// Puts the numbers of one entry behind the others: of a branch, those in both blocks.
#[cycle(numbers)]
fn add_numbers_in(sort: Sort, entry: &Entry, numbers: &mut Vec<u32>) -> Result<(), AllocError>
    ensures { OnOk result (numbers.new.items ≡ numbers.old.items ++ numbers_of sort (with_entry entry.now NoEntry)) }
{
    match entry {
        Entry::Slot(number) => add_slot(sort, *number, numbers),
        Entry::Local(number) => add_local(sort, *number, numbers),
        Entry::Item(_) => Ok(()),
        Entry::Branch {
            then,
            otherwise,
            ..
        } => {
            add_numbers(sort, then.entries.as_slice(), numbers)?;
            add_numbers(sort, otherwise.entries.as_slice(), numbers)?;
            Ok(())
        }
    }
}

// Puts the number of a slot behind the others, if slots are meant.
fn add_slot(sort: Sort, number: u32, numbers: &mut Vec<u32>) -> Result<(), AllocError>
    ensures { OnOk result (numbers.new.items ≡ numbers.old.items ++ numbers_of sort (WithSlot number NoEntry)) }
{
    match sort {
        Sort::Slots => numbers.push(number)?,
        Sort::Locals => {}
    }
    Ok(())
}

// Puts the number of a local behind the others, if locals are meant.
fn add_local(sort: Sort, number: u32, numbers: &mut Vec<u32>) -> Result<(), AllocError>
    ensures { OnOk result (numbers.new.items ≡ numbers.old.items ++ numbers_of sort (WithLocal number NoEntry)) }
{
    match sort {
        Sort::Slots => {}
        Sort::Locals => numbers.push(number)?,
    }
    Ok(())
}

// Marks the number. Answers whether it is one that wasn't marked.
fn is_new(marks: &mut [bool], number: u32) -> bool
    ensures { MarksNew marks.old number result marks.new }
{
    let place = number as usize;
    if place >= marks.len() || marks[place] {
        return false;
    }
    marks[place] = true;
    true
}

// Marks the numbers, up to one that is marked already or for which there is no mark. Answers whether there was none.
fn are_new(marks: &mut [bool], numbers: &[u32]) -> bool
    requires { All (λ mark. mark ≡ false) marks.old }
    ensures { MarksAllNew (length marks.old) numbers.now result marks.new }
{
    for number in numbers {
        if !is_new(marks, *number) {
            return false;
        }
    }
    true
}

// Whether all are marked.
fn are_marked(marks: &[bool]) -> bool
    ensures { IsTrue result ↔ All (λ mark. mark ≡ true) marks.now }
{
    marks.iter().all(|mark| *mark)
}

// Whether each number for which there is a mark stands in the list once, and no other does.
fn are_once_in(marks: &mut [bool], numbers: &[u32]) -> bool
    requires { All (λ mark. mark ≡ false) marks.old }
    ensures { IsTrue result ↔ AreOnce (length marks.old) numbers.now }
{
    if !are_new(marks, numbers) {
        return false;
    }
    are_marked(marks)
}

/// Whether each number below the count stands in the list once, and no other does.
pub fn are_once(alloc: Global, count: usize, numbers: &[u32]) -> Result<bool, AllocError>
    ensures { IfOk result (λ answer. IsTrue answer ↔ AreOnce count numbers.now) }
{
    let mut marks = vec![in alloc; false; count]?;
    Ok(are_once_in(marks.as_mut_slice(), numbers))
}
