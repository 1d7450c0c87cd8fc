//! The lines of a plan by the objects that their tokens are on.

ghost use Rattle.std.specs.Prelude.{◌≡◌, ℕ, ◌+◌, ◌<◌, ◌≤◌, pos, List, Some, IfOk, MatchOption, length, slice_get};
ghost use Rattle.eu_name.specs.declared.name.Part.TheVariants as parts;
ghost use Rattle.plan_defs.specs.declared.plan.Line.{Line};
ghost use Rattle.plan_defs.specs.Plans.{IsPlanOf};
ghost use Rattle.plan_defs.specs.Valid.{IsPartOf};
ghost use Rattle.plan_check.specs.ByObject.{IsOnObject, IsLineOn, FindsOn, AreLinked};

use eu_name::name::Part;
use model_core::model::Model;
use plan_defs::plan::{Line, Plan};
use plan_values::lines::value_in;
use std::alloc::{AllocError, Global};

/// The lines whose tokens are on one object, one after the other, for each object.
///
/// So what is on one object is found without looking at the other lines.
#[derive(Drop)]
pub struct LinesByObject {
    /// For each object the first line.
    first: Vec<Option<u32>>,
    /// For each line the next one on the same object.
    next: Vec<Option<u32>>,
}

// The object that a token with these values is on.
fn object_in(values: &[i32]) -> Option<u32>
    ensures { MatchOption result
        ((object : ℕ) → IsPartOf values.now parts.Object (pos object) → ⊥)
        (λ object. IsPartOf values.now parts.Object (pos object)) }
{
    match value_in(values, Part::Object) {
        Some(object) => u32::try_from(object).ok(),
        None => None,
    }
}

// The object that the line's token is on.
fn object_of(line: &Line) -> Option<u32>
    ensures { MatchOption result
        ((object : ℕ) → IsOnObject line.now object → ⊥)
        (IsOnObject line.now) }
{
    match line {
        Line::Token { values, .. } => object_in(values.as_slice()),
        Line::Merged { .. } | Line::Rejected { .. } | Line::Local { .. } => None,
    }
}

impl LinesByObject {
    // So many objects and lines, none of which is linked yet.
    fn new(alloc: Global, objects: usize, lines: usize) -> Result<LinesByObject, AllocError>
        ensures { IfOk result (λ by_object.
            (listed : List Line) → length listed ≡ lines → AreLinked listed objects lines by_object) }
    {
        let first = vec![in alloc; None; objects]?;
        let next = vec![in alloc; None; lines]?;
        Ok(LinesByObject { first, next })
    }

    // Puts the line at this place, whose token is on the object, before those that are linked.
    fn put(&mut self, object: u32, place: u32)
        requires { place < length self.old.next.items }
        ensures { (listed : List Line) (count : ℕ) → IsLineOn listed object place
            → AreLinked listed count (place + 1) self.old → AreLinked listed count place self.new }
    {
        let object = object as usize;
        if object < self.first.len() {
            self.next[place as usize] = self.first[object];
            self.first[object] = Some(place);
        }
    }

    // Puts the line at this place before those that are linked.
    fn link(&mut self, line: &Line, place: u32)
        requires { place < length self.old.next.items }
        ensures { (listed : List Line) (count : ℕ) → slice_get listed place ≡ Some line.now
            → AreLinked listed count (place + 1) self.old → AreLinked listed count place self.new }
    {
        if let Some(object) = object_of(line) {
            self.put(object, place);
        }
    }

    /// The lines of the plan by the objects of the model.
    pub fn of(alloc: Global, model: &Model, plan: &Plan) -> Result<LinesByObject, AllocError>
        requires { IsPlanOf model.now plan.now }
        ensures { IfOk result (AreLinked plan.now.lines (length model.now.objects) 0) }
    {
        let lines = plan.lines.as_slice();
        let mut by_object = LinesByObject::new(alloc, model.objects.len(), lines.len())?;
        let mut place = lines.len();
        while place > 0 {
            place -= 1;
            by_object.link(&lines[place], place as u32);
        }
        Ok(by_object)
    }

    /// The first line on the object.
    pub fn first_on(&self, object: u32) -> Option<u32>
        ensures { (listed : List Line) (count : ℕ) → AreLinked listed count 0 self.now → object < count
            → FindsOn listed object 0 result }
    {
        match self.first.get(object as usize) {
            Some(first) => *first,
            None => None,
        }
    }

    /// The next line on the object of the line at this place.
    pub fn after(&self, place: u32) -> Option<u32>
        ensures { (listed : List Line) (count object : ℕ) → AreLinked listed count 0 self.now → object < count
            → IsLineOn listed object place → FindsOn listed object (place + 1) result }
    {
        match self.next.get(place as usize) {
            Some(next) => *next,
            None => None,
        }
    }
}
