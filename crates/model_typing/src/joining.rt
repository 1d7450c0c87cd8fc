//! The classes that are over two.

ghost use Rattle.std.specs.Prelude.{◌≡◌, ◌↔◌, ◌<◌, ℕ, MatchOption};
ghost use Rattle.model_core.specs.Kinds.{IsObjectOf, IsUnder};
ghost use Rattle.model_typing.specs.Ground.{AreClassParents};
ghost use Rattle.model_typing.specs.Lines.{IsOnLine};

use super::classes::{is_under, object_at, parent_of};
use super::line::Line;
use eu_forest::Parents;
use model_core::model::Model;

// The class so many steps further up, or the last one of the line.
fn class_above(model: &Model, class: u32, steps: usize) -> u32
    ensures { IsUnder model.now class result }
{
    let mut here = class;
    for _ in 0..steps {
        match parent_of(model, here) {
            Some(parent) => here = parent,
            None => return here,
        }
    }
    here
}

// A number of steps that lead from the first class to one over the other one, if any do: it is doubled until they do, so that no
// more classes are passed than a few times those that have to be. What it is only spares steps.
fn stride_over(model: &Model, parents: &Parents, first: u32, other: u32) -> usize
    requires { AreClassParents model.now parents.now }
{
    let mut stride: usize = 1;
    for _ in 0..32 {
        if is_under(model, parents, other, class_above(model, first, stride)) {
            return stride;
        }
        stride = stride.saturating_mul(2);
    }
    stride
}

// A class of the line of the first one, below which none is over the other one as well. It goes up by halves of the
// stride, since a class that isn't over the other one shows that none below it is.
fn lowest_near(model: &Model, parents: &Parents, first: u32, other: u32, most: usize) -> u32
    requires { AreClassParents model.now parents.now }
    ensures above { IsUnder model.now first result }
    ensures near { (class : ℕ) → IsUnder model.now first class → IsUnder model.now other class → IsUnder model.now result class }
{
    let mut class = first;
    let mut stride = most;
    while stride > 1 {
        stride /= 2;
        let next = class_above(model, class, stride);
        if !is_under(model, parents, other, next) {
            class = next;
        }
    }
    class
}

// The lowest class that is over both.
fn lowest_over(model: &Model, parents: &Parents, first: u32, other: u32) -> Option<u32>
    requires { AreClassParents model.now parents.now }
    ensures { MatchOption result
        ((class : ℕ) → IsUnder model.now first class → IsUnder model.now other class → ⊥)
        (λ both. (class : ℕ) → (IsUnder model.now first class × IsUnder model.now other class) ↔ IsUnder model.now both class) }
{
    if is_under(model, parents, other, first) {
        return Some(first);
    }
    let stride = stride_over(model, parents, first, other);
    let near = lowest_near(model, parents, first, other, stride);
    first_over(model, parents, first, near, other)
}

// The first class, from the near one up, that is over the other one too.
fn first_over(model: &Model, parents: &Parents, first: u32, near: u32, other: u32) -> Option<u32>
    requires parents { AreClassParents model.now parents.now }
    requires above { IsUnder model.now first near }
    requires near { (class : ℕ) → IsUnder model.now first class → IsUnder model.now other class → IsUnder model.now near class }
    ensures { MatchOption result
        ((class : ℕ) → IsUnder model.now first class → IsUnder model.now other class → ⊥)
        (λ both. (class : ℕ) → (IsUnder model.now first class × IsUnder model.now other class) ↔ IsUnder model.now both class) }
{
    let mut class = near;
    while !is_under(model, parents, other, class) {
        match parent_of(model, class) {
            Some(parent) => class = parent,
            None => return None,
        }
    }
    Some(class)
}

// The classes of the line of the first one that are over the other one too.
fn line_over(model: &Model, parents: &Parents, first: u32, other: u32) -> Line
    requires { AreClassParents model.now parents.now }
    ensures { (class : ℕ) → (IsUnder model.now first class × IsUnder model.now other class) ↔ IsOnLine model.now result class }
{
    match lowest_over(model, parents, first, other) {
        Some(both) => Line::From(both),
        None => Line::Nothing,
    }
}

// The classes of the line that are over the class of this number too.
fn line_with(model: &Model, parents: &Parents, line: Line, other: u32) -> Line
    requires { AreClassParents model.now parents.now }
    ensures { (class : ℕ) → (IsOnLine model.now line class × IsUnder model.now other class) ↔ IsOnLine model.now result class }
{
    match line {
        Line::From(first) => line_over(model, parents, first, other),
        Line::Every => Line::From(other),
        Line::Nothing => Line::Nothing,
    }
}

/// The classes of the line of which the value is an object.
pub fn joined(model: &Model, parents: &Parents, line: Line, value: i32) -> Line
    requires { AreClassParents model.now parents.now }
    ensures { (class : ℕ) → (IsOnLine model.now line class × IsObjectOf model.now class value) ↔ IsOnLine model.now result class }
{
    match object_at(model, value) {
        Some(object) => line_with(model, parents, line, object.class),
        None => Line::Nothing,
    }
}
