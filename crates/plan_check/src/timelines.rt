//! Clause V8: no two tokens of one timeline overlap.

ghost use Rattle.std.specs.Prelude.{◌≡◌, ◌<◌, ℕ, ℤ, MatchBool, length};
ghost use Rattle.plan_defs.specs.declared.plan.Clause.TheVariants.{V8};
ghost use Rattle.plan_defs.specs.Plans.{IsPlanOf};
ghost use Rattle.plan_defs.specs.Timelines.{IsTimeline};
ghost use Rattle.plan_values.specs.Keys.{IsOrderly};
ghost use Rattle.plan_inventory.specs.Breaks.{FindsBreak, FindsNumber};
ghost use Rattle.plan_check.specs.ByObject.{IsLineOn, AreLinked};
ghost use Rattle.plan_check.specs.Turns.{IsOnTimelineBy, IsLineOnTimeline, ShareTimelineBy, EndsByValues, TakeTurnsBy, LinesTakeTurns, IsPairKept};

use super::by_object::LinesByObject;
use eu_name::name::Part;
use model_core::class::ObjectKind;
use model_core::model::Model;
use plan_defs::plan::{Line, Place, Plan};
use plan_values::lines::value_in;

// Whether the object of this number is a timeline.
fn is_timeline(model: &Model, object: i32) -> bool
    ensures { MatchBool result (IsTimeline model.now object) (IsTimeline model.now object → ⊥) }
{
    if object < 0 {
        return false;
    }
    match model.objects.as_slice().get(object as usize) {
        Some(object) => matches!(object.kind, ObjectKind::Timeline),
        None => false,
    }
}

// Whether tokens with these values are on one timeline.
fn share_timeline(model: &Model, one: &[i32], other: &[i32]) -> bool
    ensures { MatchBool result
        (ShareTimelineBy model.now one.now other.now)
        (ShareTimelineBy model.now one.now other.now → ⊥) }
{
    match value_in(one, Part::Object) {
        Some(object) => match value_in(other, Part::Object) {
            Some(found) => object == found && is_timeline(model, object),
            None => false,
        },
        None => false,
    }
}

// Whether a token with the one values ends before one with the others starts, or just then.
fn ends_by(one: &[i32], other: &[i32]) -> bool
    ensures { MatchBool result
        (EndsByValues one.now other.now)
        (EndsByValues one.now other.now → ⊥) }
{
    match value_in(one, Part::End) {
        Some(end) => match value_in(other, Part::Start) {
            Some(start) => end <= start,
            None => false,
        },
        None => false,
    }
}

// Whether tokens with these values don't overlap if they are on one timeline.
fn take_turns(model: &Model, one: &[i32], other: &[i32]) -> bool
    ensures { MatchBool result
        (TakeTurnsBy model.now one.now other.now)
        (TakeTurnsBy model.now one.now other.now → ⊥) }
{
    if !share_timeline(model, one, other) {
        return true;
    }
    if ends_by(one, other) {
        return true;
    }
    ends_by(other, one)
}

// Whether the tokens that take place by the two lines don't overlap if they are on one timeline.
fn lines_take_turns(model: &Model, one: &Line, other: &Line) -> bool
    ensures { MatchBool result
        (LinesTakeTurns model.now one.now other.now)
        (LinesTakeTurns model.now one.now other.now → ⊥) }
{
    match one {
        Line::Token { values, .. } => match other {
            Line::Token { values: others, .. } => {
                take_turns(model, values.as_slice(), others.as_slice())
            }
            Line::Merged { .. } | Line::Rejected { .. } | Line::Local { .. } => true,
        },
        Line::Merged { .. } | Line::Rejected { .. } | Line::Local { .. } => true,
    }
}

// Whether a token with these values is on a timeline.
fn has_timeline(model: &Model, values: &[i32]) -> bool
    ensures { MatchBool result
        (IsOnTimelineBy model.now values.now)
        (IsOnTimelineBy model.now values.now → ⊥) }
{
    match value_in(values, Part::Object) {
        Some(object) => is_timeline(model, object),
        None => false,
    }
}

// Whether the token that takes place by the line is on a timeline.
fn is_on_timeline(model: &Model, line: &Line) -> bool
    ensures { MatchBool result
        (IsLineOnTimeline model.now line.now)
        (IsLineOnTimeline model.now line.now → ⊥) }
{
    match line {
        Line::Token { values, .. } => has_timeline(model, values.as_slice()),
        Line::Merged { .. } | Line::Rejected { .. } | Line::Local { .. } => false,
    }
}

// The place of the first later line whose token overlaps that of the line at this place, which is on an object.
fn overlapping_on(model: &Model, plan: &Plan, by_object: &LinesByObject, first: u32) -> Option<u32>
    requires orderly { IsOrderly plan.now }
    requires linked { AreLinked plan.now.lines (length model.now.objects) 0 by_object.now }
    requires on { (object : ℕ) × (object < length model.now.objects) × IsLineOn plan.now.lines object first }
    ensures { FindsNumber (IsPairKept model.now plan.now first) result }
{
    let lines = plan.lines.as_slice();
    let mut next = by_object.after(first);
    while let Some(second) = next {
        if !lines_take_turns(model, &lines[first as usize], &lines[second as usize]) {
            return Some(second);
        }
        next = by_object.after(second);
    }
    None
}

// The place of the first later line whose token overlaps that of the line at this place.
fn overlapping(model: &Model, plan: &Plan, by_object: &LinesByObject, first: u32) -> Option<u32>
    requires orderly { IsOrderly plan.now }
    requires linked { AreLinked plan.now.lines (length model.now.objects) 0 by_object.now }
    requires within { first < length plan.now.lines }
    ensures { FindsNumber (IsPairKept model.now plan.now first) result }
{
    let lines = plan.lines.as_slice();
    if !is_on_timeline(model, &lines[first as usize]) {
        return None;
    }
    overlapping_on(model, plan, by_object, first)
}

/// The first two tokens on one timeline that overlap.
pub fn broken_pair(model: &Model, plan: &Plan, by_object: &LinesByObject) -> Option<Place>
    requires is_plan { IsPlanOf model.now plan.now }
    requires orderly { IsOrderly plan.now }
    requires linked { AreLinked plan.now.lines (length model.now.objects) 0 by_object.now }
    ensures { FindsBreak model.now plan.now V8 result }
{
    for first in 0..plan.lines.len() as u32 {
        if let Some(second) = overlapping(model, plan, by_object, first) {
            return Some(Place::Pair(first, second));
        }
    }
    None
}
