//! The trail of what was written to cells.

ghost use Rattle.std.specs.Prelude.{◌≡◌, ◌+◌, ◌<◌, ◌≤◌, ℕ, [], ◌∷◌, ◌++◌, length, slice_get, Some, MatchOption, MatchBool, SomeIff, IfOk, OnOk, OnErr};
ghost use Rattle.std.specs.List.Sorted.{IsPartitionPoint};
ghost use Rattle.domain_core.specs.Domain.{Domain};
ghost use Rattle.cell_store.specs.Trails.{narrowed, entry_at, AreSteps, IsWritten, TakesEntry, EndsWith, EndsOtherwise};
ghost use Rattle.cell_store.specs.declared.trail.Entry.{Entry};
ghost use Rattle.cell_store.specs.declared.trail.Entry.TheVariants.{Added, Narrowed};

use super::numbers::short;
use super::trail::Entry;
use domain_core::domain::Dom;
use std::alloc::{AllocError, Global};
use std::marker::Model;

/// The steps that led to the cells, the oldest one first. A step that adds a cell takes no memory, since only what cells were
/// before they were written is kept.
#[derive(Drop)]
pub struct Trail {
    // How many steps there are.
    count: u32,
    // What each cell that was written had been, in the order of these steps. Each other step added a cell.
    formers: Vec<Former>,
}

/// What a cell was before a step wrote it: its domain, and the place of the trail that it knew.
#[derive(Drop)]
pub struct Former {
    pub domain: Dom,
    pub saved: usize,
    pub cell: u32,
    pub step: u32,
}

impl Model for Trail {
    ghost use Rattle.std.specs.Prelude.{List};
    ghost use Rattle.cell_store.specs.Trails.{entries_of, AreSteps};
    ghost use Rattle.cell_store.specs.declared.trail.Entry.{Entry};

    ghost Value = { List Entry };

    ghost view = { λ trail. entries_of trail.count trail.formers.items };

    ghost invariant = { λ trail. AreSteps 0 trail.count trail.formers.items };
}

impl Trail {
    /// No steps, which take no memory.
    pub fn new(alloc: Global) -> Trail
        ensures { result ≡ [] }
    {
        Trail {
            count: 0,
            formers: Vec::new(alloc),
        }
    }

    pub fn len(&self) -> usize
        ensures { result ≡ length self.now }
    {
        self.count as usize
    }

    /// Adds the step of a cell that is added.
    pub fn add(&mut self) -> Result<(), AllocError>
        ensures ok { OnOk result (self.new ≡ self.old ++ Added ∷ []) }
        ensures err { OnErr result (self.new ≡ self.old) }
    {
        let count = one_more(self.count)?;
        self.count = count;
        Ok(())
    }

    /// Adds the step of a cell that is narrowed, and was this before.
    pub fn narrow(&mut self, cell: usize, former: &Dom, saved: usize) -> Result<(), AllocError>
        ensures ok { OnOk result (self.new ≡ self.old ++ Narrowed cell former.now saved ∷ []) }
        ensures err { OnErr result (self.new ≡ self.old) }
    {
        let number = short(cell)?;
        let step = self.count;
        let count = one_more(step)?;
        self.formers.reserve(1)?;
        let domain = former.copy()?;
        self.formers.push_reserved(Former {
            domain,
            saved,
            cell: number,
            step,
        });
        self.count = count;
        Ok(())
    }

    /// Takes the last step off. None where there is no step.
    pub fn pop(&mut self) -> Option<Entry>
        ensures { MatchOption result ((self.old ≡ []) × (self.new ≡ self.old)) (λ entry. self.old ≡ self.new ++ entry ∷ []) }
    {
        if self.count == 0 {
            return None;
        }
        let step = self.count - 1;
        let entry = pop_entry(&mut self.formers, step);
        self.count = step;
        Some(entry)
    }

    /// The cell that the step wrote. None where it added a cell.
    pub fn written(&self, step: usize) -> Option<usize>
        requires { step < length self.now }
        ensures { (entry : Entry) × ((slice_get self.now step ≡ Some entry) × IsWritten entry result) }
    {
        cell_written(&self.formers, step)
    }
}

// How many steps there are after one more. More than 32 bits can tell are answered as want of memory.
fn one_more(count: u32) -> Result<u32, AllocError>
    ensures { IfOk result (λ more. more ≡ count + 1) }
{
    if count == u32::MAX {
        return Err(AllocError);
    }
    Ok(count + 1)
}

// Takes the last step off, with what the cell was if the step wrote one.
fn pop_entry(formers: &mut Vec<Former>, step: u32) -> Entry
    requires { AreSteps 0 (step + 1) formers.old.items }
    ensures { TakesEntry step formers.old.items result formers.new.items }
{
    if !ends_with(formers, step) {
        return Entry::Added;
    }
    match formers.pop() {
        None => Entry::Added,
        Some(former) => entry_of(former),
    }
}

// What the step did that wrote the former's cell.
fn entry_of(former: Former) -> Entry
    ensures { result ≡ narrowed former }
{
    Entry::Narrowed {
        cell: former.cell as usize,
        former: former.domain,
        saved: former.saved,
    }
}

// Whether the step wrote the last of the cells that were written.
fn ends_with(formers: &[Former], step: u32) -> bool
    ensures { MatchBool result (EndsWith step formers.now) (EndsOtherwise step formers.now) }
{
    match formers.last() {
        None => false,
        Some(former) => former.step == step,
    }
}

// The cell that the step wrote, by bisection.
fn cell_written(formers: &[Former], step: usize) -> Option<usize>
    requires { (count : ℕ) × AreSteps 0 count formers.now }
    ensures { IsWritten (entry_at formers.now step) result }
{
    match formers.get(first_from(formers, step)) {
        None => None,
        Some(former) => cell_at(former, step),
    }
}

// The place of the first former that isn't of an earlier step, or the length where each is.
fn first_from(formers: &[Former], step: usize) -> usize
    requires { (count : ℕ) × AreSteps 0 count formers.now }
    ensures { IsPartitionPoint (λ former. former.step < step) (λ former. step ≤ former.step) formers.now result }
{
    formers.partition_point(|former| (former.step as usize) < step)
}

// The former's cell, if it was written by this step.
fn cell_at(former: &Former, step: usize) -> Option<usize>
    ensures { SomeIff result (former.now.step ≡ step) former.now.cell }
{
    if former.step as usize == step {
        Some(former.cell as usize)
    } else {
        None
    }
}
