//! Cells with a trail.

ghost use Rattle.std.specs.Prelude.{◌≡◌, ◌+◌, ◌<◌, [], ◌∷◌, length, option_copied, slice_get, IfOk, OnErr};
ghost use Rattle.cell_store.specs.Cells.{present, IsPlace, IsStep, AddsCell, NarrowsCell, GoesBack};

use super::steps::Trail;
use super::trail::{Cell, go_back, meet_and_save, meet_at};
use domain_core::Change;
use domain_core::domain::Dom;
use std::alloc::{AllocError, Global};
use std::marker::Model;

/// Cells, each with a domain, by number. Contracts see the lists of domains that can be gone back to.
#[derive(Drop)]
pub struct Cells {
    cells: Vec<Cell>,
    trail: Trail,
}

/// A point to which the cells can go back, as long as they haven't gone back to one before it.
#[derive(Clone, Copy)]
pub struct Mark {
    place: usize,
}

impl Mark {
    /// How many steps of the trail led to the mark.
    pub fn steps(self) -> usize
        ensures { result ≡ self }
    {
        self.place
    }
}

impl Model for Mark {
    ghost use Rattle.std.specs.Prelude.{ℕ};

    ghost Value = { ℕ };

    ghost view = { λ mark. mark.place };

    ghost inverse = { λ place. record { place = place } };
}

impl Model for Cells {
    ghost use Rattle.std.specs.Prelude.{reverse};
    ghost use Rattle.cell_store.specs.Cells.{Celled};
    ghost use Rattle.cell_store.specs.Kept.{view_of, IsKept};

    ghost Value = { Celled };

    ghost view = { λ store. view_of store.cells.items (reverse store.trail) };

    ghost invariant = { λ store. IsKept store.cells.items (reverse store.trail) };
}

impl Cells {
    /// No cells, which take no memory.
    pub fn new(alloc: Global) -> Cells
        ensures { result ≡ record { past = [] ∷ []; stamps = [] } }
    {
        Cells {
            cells: Vec::new(alloc),
            trail: Trail::new(alloc),
        }
    }

    /// Adds a cell, and answers its number.
    pub fn new_cell(&mut self, domain: Dom) -> Result<usize, AllocError>
        ensures { AddsCell domain self.old result self.new }
    {
        self.cells.reserve(1)?;
        self.trail.add()?;
        let number = self.cells.len();
        self.cells.push_reserved(Cell {
            domain,
            stamp: 0,
            saved: self.trail.len(),
        });
        Ok(number)
    }

    /// The cell's domain. None where there is no such cell.
    pub fn get(&self, cell: usize) -> Option<&Dom>
        ensures { option_copied result ≡ slice_get (present self.now) cell }
    {
        match self.cells.get(cell) {
            Some(found) => Some(&found.domain),
            None => None,
        }
    }

    /// How often the cell was written; the number stays at the greatest. None where there is no such cell.
    pub fn stamp(&self, cell: usize) -> Option<u64>
        ensures { result ≡ slice_get self.now.stamps cell }
    {
        match self.cells.get(cell) {
            Some(found) => Some(found.stamp),
            None => None,
        }
    }

    /// How many cells there are.
    pub fn len(&self) -> usize
        ensures { result ≡ length (present self.now) }
    {
        self.cells.len()
    }

    /// The cell that a step of the trail wrote. None where the step added a cell. Steps count from the first one on,
    /// and those from a mark's number on came after it.
    pub fn written(&self, step: usize) -> Option<usize>
        requires { step + 1 < length self.now.past }
        ensures { IsStep step self.now result }
    {
        self.trail.written(step)
    }

    /// A mark at the cells as they are.
    pub fn mark(&self) -> Mark
        ensures place { IsPlace self.now result (present self.now) }
        ensures newest { length self.now.past ≡ result + 1 }
    {
        Mark {
            place: self.trail.len(),
        }
    }

    /// Keeps of the cell what the other domain has too. What the cell was is kept to go back to, unless that was done since
    /// the mark `since` already: marks behind it are lost.
    pub fn narrow(&mut self, cell: usize, to: &Dom, since: Mark) -> Result<Change, AllocError>
        requires exists { cell < length (present self.old) }
        requires since { since < length self.old.past }
        ensures { NarrowsCell cell to.now since self.old result self.new }
    {
        if self.cells[cell].saved > since.place {
            return Ok(meet_at(&mut self.cells, cell, to));
        }
        meet_and_save(&mut self.cells, &mut self.trail, cell, to)
    }

    /// Brings back the cells and the domains at the mark, without memory.
    pub fn back_to(&mut self, mark: Mark)
        requires { mark < length self.old.past }
        ensures { GoesBack mark self.old self.new }
    {
        go_back(&mut self.cells, &mut self.trail, mark.place);
    }
}
