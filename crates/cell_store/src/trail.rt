//! Cells and the trail of what was written to them.

ghost use Rattle.std.specs.Prelude.{◌≡◌, ◌<◌, ◌≤◌, List, [], ◌∷◌, ◌++◌, length, reverse};
ghost use Rattle.cell_store.specs.Kept.{IsKept};
ghost use Rattle.cell_store.specs.Writing.{MeetsCell, MeetsBehind, MeetsAt, SavesAt, TakesBack, StepsBack, UndoesEntry, ReturnsTo};
ghost use Rattle.cell_store.specs.declared.trail.Entry.{Entry};
ghost use Rattle.cell_store.specs.declared.trail.Entry.TheVariants.{Narrowed};

use super::steps::Trail;
use domain_core::Change;
use domain_core::domain::Dom;
use std::alloc::AllocError;

/// A cell: its domain, how often it was written, and how long the trail was behind the last entry about it.
#[derive(Drop)]
pub struct Cell {
    pub domain: Dom,
    pub stamp: u64,
    pub saved: usize,
}

/// One step of the trail, with what going back over it needs.
#[derive(Drop)]
pub enum Entry {
    /// A cell was added.
    Added,
    /// The cell had this domain before it was narrowed, and knew this place of the trail.
    Narrowed {
        cell: usize,
        former: Dom,
        saved: usize,
    },
}

impl Cell {
    // Keeps what the other domain has too.
    fn meet(&mut self, to: &Dom) -> Change
        ensures { MeetsCell to.now self.old result self.new }
    {
        let change = self.domain.meet_set(to);
        if let Change::Smaller = change {
            self.stamp = self.stamp.saturating_add(1);
        }
        change
    }

    // Keeps what the other domain has too, and notes this length of the trail, if the cell was written.
    fn meet_behind(&mut self, to: &Dom, behind: usize) -> Change
        ensures { MeetsBehind behind to.now self.old result self.new }
    {
        let change = self.meet(to);
        if let Change::Smaller = change {
            self.saved = behind;
        }
        change
    }
}

/// Keeps of the cell what the other domain has too.
pub fn meet_at(cells: &mut Vec<Cell>, cell: usize, to: &Dom) -> Change
    requires { cell < length cells.old.items }
    ensures { MeetsAt cell to.now cells.old.items result cells.new.items }
{
    cells[cell].meet(to)
}

/// Keeps of the cell what the other domain has too, with an entry in the trail if the cell was written.
pub fn meet_and_save(
    cells: &mut Vec<Cell>,
    trail: &mut Trail,
    cell: usize,
    to: &Dom,
) -> Result<Change, AllocError>
    requires { cell < length cells.old.items }
    ensures { SavesAt cell to.now (cells.old.items, trail.old) result (cells.new.items, trail.new) }
{
    let found = &cells[cell];
    if found.domain.lies_in(to) {
        return Ok(Change::Same);
    }
    trail.narrow(cell, &found.domain, found.saved)?;
    let change = cells[cell].meet_behind(to, trail.len());
    take_back(trail, change);
    Ok(change)
}

// Takes the last entry off again, unless the change made the cell smaller.
fn take_back(trail: &mut Trail, change: Change)
    ensures { TakesBack change trail.old trail.new }
{
    match change {
        Change::Smaller => {}
        Change::Same | Change::Empty => take_off(trail),
    }
}

// Takes the last entry off.
fn take_off(trail: &mut Trail)
    ensures { (front : List Entry) (last : Entry) → trail.old ≡ front ++ last ∷ [] → trail.new ≡ front }
{
    let _entry = trail.pop();
}

/// Goes back along the trail until it has this length.
pub fn go_back(cells: &mut Vec<Cell>, trail: &mut Trail, behind: usize)
    requires kept { IsKept cells.old.items (reverse trail.old) }
    requires long { behind ≤ length trail.old }
    ensures { ReturnsTo behind (cells.old.items, trail.old) (cells.new.items, trail.new) }
{
    while trail.len() > behind {
        step_back(cells, trail);
    }
}

// Goes back over the last entry of the trail.
fn step_back(cells: &mut Vec<Cell>, trail: &mut Trail)
    requires kept { IsKept cells.old.items (reverse trail.old) }
    requires some { 0 < length trail.old }
    ensures { StepsBack (cells.old.items, trail.old) (cells.new.items, trail.new) }
{
    match trail.pop() {
        None => unreachable!(),
        Some(Entry::Added) => {
            let _added = cells.pop();
        }
        Some(
            Entry::Narrowed {
                cell,
                former,
                saved,
            },
        ) => restore(cells, cell, former, saved),
    }
}

// Gives the cell a former domain again.
fn restore(cells: &mut Vec<Cell>, cell: usize, former: Dom, saved: usize)
    requires { cell < length cells.old.items }
    ensures { UndoesEntry (Narrowed cell former saved) cells.old.items cells.new.items }
{
    let found = &mut cells[cell];
    found.domain = former;
    found.stamp = found.stamp.saturating_add(1);
    found.saved = saved;
}
