//! Walks from things to what they stand under.

ghost use Rattle.std.specs.Prelude.{◌≡◌, ◌<◌, ◌≤◌, ◌++◌, ℕ, [], IfOk, OnOk, All, length, drop, reverse};
ghost use Rattle.eu_forest.specs.Lines.{AreParents};
ghost use Rattle.eu_forest.specs.Walks.{AreBegun, AreWalkable, Climbs, Finishes, IsEndAlong, IsKnownFrom, IsMarked, MarksAll, below_of, ordered_more};
ghost use Rattle.eu_forest.specs.declared.lineage.Rootedness.TheVariants as how;
ghost use Rattle.eu_forest.specs.declared.walk.Mark.TheVariants as mark;

use super::lineage::Rootedness;
use std::alloc::{AllocError, Global};

/// What is known of a thing.
#[derive(Clone, Copy)]
pub enum Mark {
    Unseen,
    /// It stands on the present walk, at this place.
    Walked(usize),
    Known(Rootedness),
}

// Where a walk ends.
#[derive(Clone, Copy)]
enum End {
    // At a thing of this rootedness.
    Known(Rootedness),
    // At the walk's thing of this place.
    Back(usize),
}

/// The marks and the order in which only those things are known that stand under none.
pub fn begin(
    parents: &[Option<usize>],
    marks: &mut Vec<Mark>,
    order: &mut Vec<usize>,
) -> Result<(), AllocError>
    requires marks { marks.old.items ≡ [] }
    requires order { order.old.items ≡ [] }
    ensures { OnOk result (AreBegun parents.now marks.new.items order.new.items) }
{
    for (number, parent) in parents.iter().enumerate() {
        match parent {
            None => {
                order.push(number)?;
                marks.push(Mark::Known(Rootedness::Rooted))?;
            }
            Some(_) => marks.push(Mark::Unseen)?,
        }
    }
    Ok(())
}

/// Walks up from the thing of this number, so that its rootedness is known.
pub fn walk(
    alloc: Global,
    parents: &[Option<usize>],
    number: usize,
    marks: &mut [Mark],
    order: &mut Vec<usize>,
) -> Result<(), AllocError>
    requires parents { AreParents parents.now }
    requires there { number < length parents.now }
    requires told { AreWalkable parents.now marks.old order.old.items }
    ensures told { OnOk result (AreWalkable parents.now marks.new order.new.items) }
    ensures known { OnOk result (IsKnownFrom marks.old marks.new number) }
{
    let mut path: Vec<usize> = Vec::new(alloc);
    let end = climb(parents, number, marks, &mut path)?;
    finish(path.as_slice(), end, marks, order)
}

// Says how the things of the path stand, by how the walk along it ended.
fn finish(
    path: &[usize],
    end: End,
    marks: &mut [Mark],
    order: &mut Vec<usize>,
) -> Result<(), AllocError>
    requires there { All (λ number. number < length marks.old) path.now }
    requires end { IsEndAlong path.now end }
    ensures { OnOk result (Finishes path.now end marks.old order.old.items marks.new order.new.items) }
{
    match end {
        End::Known(rootedness) => mark_line(path, rootedness, marks, order),
        End::Back(place) => {
            mark_circle(&path[place..], marks);
            mark_line(&path[..place], Rootedness::OnCircle, marks, order)
        }
    }
}

// Puts the things from this one up onto the path, until one is known or stands on the path.
fn climb(
    parents: &[Option<usize>],
    number: usize,
    marks: &mut [Mark],
    path: &mut Vec<usize>,
) -> Result<End, AllocError>
    requires parents { AreParents parents.now }
    requires there { number < length parents.now }
    requires walkable { IsMarked parents.now marks.old [] }
    requires empty { path.old.items ≡ [] }
    ensures { IfOk result (Climbs parents.now number marks.old marks.new path.new.items) }
{
    let mut next = number;
    loop {
        match marks[next] {
            Mark::Known(rootedness) => return Ok(End::Known(rootedness)),
            Mark::Walked(place) => return Ok(End::Back(place)),
            Mark::Unseen => {}
        }
        match parents[next] {
            None => unreachable!(),
            Some(parent) => {
                path.push(next)?;
                marks[next] = Mark::Walked(path.len() - 1);
                next = parent;
            }
        }
    }
}

// Marks the things as standing on a circle.
fn mark_circle(circle: &[usize], marks: &mut [Mark])
    requires { All (λ number. number < length marks.old) circle.now }
    ensures { MarksAll circle.now (mark.Known how.OnCircle) marks.old marks.new }
{
    for number in circle {
        marks[*number] = Mark::Known(Rootedness::OnCircle);
    }
}

// Says how the things of the path stand, from its last one down, which stands under one of this rootedness.
fn mark_line(
    path: &[usize],
    rootedness: Rootedness,
    marks: &mut [Mark],
    order: &mut Vec<usize>,
) -> Result<(), AllocError>
    requires { All (λ number. number < length marks.old) path.now }
    ensures marks { OnOk result (MarksAll path.now (mark.Known (below_of rootedness)) marks.old marks.new) }
    ensures order { OnOk result (order.new.items ≡ ordered_more (below_of rootedness) order.old.items path.now) }
{
    let below = below(rootedness);
    put_in_order(path, below, order)?;
    for number in path {
        marks[*number] = Mark::Known(below);
    }
    Ok(())
}

// Puts the things of the path at the end of the order from its last one down, if they are rooted.
fn put_in_order(
    path: &[usize],
    rootedness: Rootedness,
    order: &mut Vec<usize>,
) -> Result<(), AllocError>
    ensures { OnOk result (order.new.items ≡ ordered_more rootedness order.old.items path.now) }
{
    if let Rootedness::Rooted = rootedness {
        for number in path.iter().rev().copied() {
            order.push(number)?;
        }
    }
    Ok(())
}

// The rootedness of a thing, off the circle, that stands under one of this rootedness.
fn below(rootedness: Rootedness) -> Rootedness
    ensures { result ≡ below_of rootedness }
{
    match rootedness {
        Rootedness::Rooted => Rootedness::Rooted,
        Rootedness::OnCircle => Rootedness::Leading,
        Rootedness::Leading => Rootedness::Leading,
    }
}
