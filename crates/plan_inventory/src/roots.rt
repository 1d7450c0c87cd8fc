//! Clause V2: each root has a line of its sort, and no other token one that only roots may have.

ghost use Rattle.std.specs.Prelude.{◌≡◌, MatchBool};
ghost use Rattle.model_core.specs.Lawful.{IsLawful};
ghost use Rattle.model_core.specs.Tokens.{root_token};
ghost use Rattle.plan_defs.specs.declared.plan.Clause.TheVariants.{V2};
ghost use Rattle.plan_defs.specs.Plans.{IsPlanOf};
ghost use Rattle.plan_defs.specs.Valid.{Becomes, IsLineOfSort};
ghost use Rattle.plan_values.specs.Keys.{IsOrderly};
ghost use Rattle.plan_inventory.specs.Breaks.{FindsBreak, FindsLine, FindsNumber, SuitsKind, RootBecomes};

use model_core::model::{Model, RootKind};
use plan_defs::plan::{Line, Place, Plan};
use plan_values::key::{Key, TokenKey};
use plan_values::lines::line_for;

// Whether the line is one that a root of the kind may have.
fn suits_kind(kind: RootKind, line: &Line) -> bool
    ensures { MatchBool result (SuitsKind kind line.now) (SuitsKind kind line.now → ⊥) }
{
    match line {
        Line::Token { fact, .. } => match kind {
            RootKind::Fact => *fact,
            RootKind::Goal | RootKind::Rejectable => !*fact,
        },
        Line::Merged { .. } => match kind {
            RootKind::Fact => false,
            RootKind::Goal | RootKind::Rejectable => true,
        },
        Line::Rejected { .. } => match kind {
            RootKind::Fact | RootKind::Goal => false,
            RootKind::Rejectable => true,
        },
        Line::Local { .. } => false,
    }
}

// Whether the plan says of the root of this number what becomes of one of the kind.
fn root_becomes(plan: &Plan, kind: RootKind, number: u32) -> bool
    requires { IsOrderly plan.now }
    ensures { MatchBool result
        (Becomes plan.now kind (root_token number))
        (Becomes plan.now kind (root_token number) → ⊥) }
{
    match line_for(plan, Key::Token(TokenKey::of_root(number))) {
        Some(line) => suits_kind(kind, line),
        None => false,
    }
}

// The number of the first root that has no line of its sort.
fn unsuited_root(model: &Model, plan: &Plan) -> Option<u32>
    requires lawful { IsLawful model.now }
    requires orderly { IsOrderly plan.now }
    ensures { FindsNumber (RootBecomes model.now plan.now) result }
{
    for (number, root) in model.problem.roots.as_slice().iter().enumerate() {
        if !root_becomes(plan, root.kind, number as u32) {
            return Some(number as u32);
        }
    }
    None
}

// Whether the line isn't one that only roots may have, or is that of a root.
fn is_of_sort(line: &Line) -> bool
    ensures { MatchBool result (IsLineOfSort line.now) (IsLineOfSort line.now → ⊥) }
{
    match line {
        Line::Token { name, fact, .. } => !*fact || name.steps.is_empty(),
        Line::Rejected { name } => name.steps.is_empty(),
        Line::Merged { .. } | Line::Local { .. } => true,
    }
}

// The place of the first line that only a root may have, of another token.
fn unsorted_line(model: &Model, plan: &Plan) -> Option<u32>
    requires { IsPlanOf model.now plan.now }
    ensures { FindsLine plan.now IsLineOfSort result }
{
    for (place, line) in plan.lines.as_slice().iter().enumerate() {
        if !is_of_sort(line) {
            return Some(place as u32);
        }
    }
    None
}

/// The first root that has no line of its sort, or else the first other token with a line that only roots may have.
pub fn broken_root(model: &Model, plan: &Plan) -> Option<Place>
    requires lawful { IsLawful model.now }
    requires is_plan { IsPlanOf model.now plan.now }
    requires orderly { IsOrderly plan.now }
    ensures { FindsBreak model.now plan.now V2 result }
{
    match unsuited_root(model, plan) {
        Some(number) => Some(Place::Root(number)),
        None => match unsorted_line(model, plan) {
            Some(place) => Some(Place::Line(place)),
            None => None,
        },
    }
}
