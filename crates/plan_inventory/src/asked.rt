//! Clause V6: nothing is there that no open block asks for.

ghost use Rattle.std.specs.Prelude.{◌≡◌, ◌<◌, length, MatchBool, MatchOption};
ghost use Rattle.eu_name.specs.declared.name.TokenName.{TokenName};
ghost use Rattle.model_core.specs.Lawful.{IsLawful};
ghost use Rattle.model_core.specs.Names.{token_at};
ghost use Rattle.plan_defs.specs.declared.plan.Clause.TheVariants.{V6};
ghost use Rattle.plan_defs.specs.Plans.{IsPlanOf, IsActivatedIn, plan_situation};
ghost use Rattle.plan_defs.specs.Support.{AsksFor};
ghost use Rattle.plan_defs.specs.Valid.{IsLineAt, IsActivatedAt, AsksForLocal, IsAskedToken, IsAskedLocal, IsAsked};
ghost use Rattle.plan_values.specs.Keys.{key_token, IsLocal, HasProperName, IsOrderly};
ghost use Rattle.plan_inventory.specs.Breaks.{FindsBreak, FindsLine, IsActivatedBy};
ghost use Rattle.plan_inventory.specs.Recalling.{Recalls};

use super::recalled::{Found, Recalled};
use eu_name::name::{Step, TokenName, VarName};
use model_core::model::Model;
use plan_defs::plan::{Line, Place, Plan};
use plan_values::key::{Key, TokenKey};
use plan_values::lines::place_of;

/// The token of a line by which it takes place, and not as a fact.
pub fn activated_by(line: &Line) -> Option<&TokenName>
    ensures { MatchOption result
        ((token : TokenName) → IsActivatedBy line.now token → ⊥)
        (λ token. IsActivatedBy line.now token.now) }
{
    match line {
        Line::Token { name, fact, .. } => { if *fact { None } else { Some(name) } }
        Line::Merged { .. } | Line::Rejected { .. } | Line::Local { .. } => None,
    }
}

// The line at this place.
fn line_at(plan: &Plan, place: usize) -> &Line
    requires { place < length plan.now.lines }
    ensures { IsLineAt plan.now place result.now }
{
    &plan.lines.as_slice()[place]
}

// The token of this name with its line, where it takes place and not as a fact.
fn activated<'a>(plan: &'a Plan, token: TokenKey) -> Option<Found<'a>>
    requires { IsOrderly plan.now }
    ensures { MatchOption result
        (IsActivatedIn plan.now (key_token token.entry) → ⊥)
        (λ found. (found.token.now ≡ key_token token.entry)
        × IsActivatedAt plan.now found.place found.token.now) }
{
    match place_of(plan, Key::Token(token)) {
        Some(place) => match activated_by(line_at(plan, place)) {
            Some(found) => Some(Found {
                place,
                token: found,
            }),
            None => None,
        },
        None => None,
    }
}

// Whether the token that these steps from the root lead to asks for the one to which the last step leads on.
fn is_slot_asked(
    model: &Model,
    plan: &Plan,
    asking: &mut Recalled,
    root: u32,
    front: &[Step],
    last: Step,
) -> bool
    requires lawful { IsLawful model.now }
    requires orderly { IsOrderly plan.now }
    requires recalls { Recalls model.now plan.now asking.old }
    ensures recalls { Recalls model.now plan.now asking.new }
    ensures asked { MatchBool result
        (AsksFor model.now (plan_situation plan.now) (token_at root front.now) last)
        (AsksFor model.now (plan_situation plan.now) (token_at root front.now) last → ⊥) }
{
    let key = TokenKey {
        root,
        steps: front,
        last: None,
    };
    match activated(plan, key) {
        Some(parent) => {
            asking.ask(model, plan, parent, last.rule);
            asking.marks.has_slot(last.slot)
        }
        None => false,
    }
}

// Whether the token is a root, or an open block asks for it.
fn is_token_asked(model: &Model, plan: &Plan, asking: &mut Recalled, token: &TokenName) -> bool
    requires lawful { IsLawful model.now }
    requires orderly { IsOrderly plan.now }
    requires recalls { Recalls model.now plan.now asking.old }
    ensures recalls { Recalls model.now plan.now asking.new }
    ensures asked { MatchBool result
        (IsAskedToken model.now plan.now token.now)
        (IsAskedToken model.now plan.now token.now → ⊥) }
{
    match token.steps.as_slice().split_last() {
        Some((last, front)) => is_slot_asked(model, plan, asking, token.root, front, *last),
        None => true,
    }
}

// Whether the local of this number stands in an open block of the token's rule.
fn is_local_open(
    model: &Model,
    plan: &Plan,
    own: &mut Recalled,
    token: &TokenName,
    rule: u16,
    number: u16,
) -> bool
    requires lawful { IsLawful model.now }
    requires orderly { IsOrderly plan.now }
    requires recalls { Recalls model.now plan.now own.old }
    ensures recalls { Recalls model.now plan.now own.new }
    ensures asked { MatchBool result
        (AsksForLocal model.now plan.now token.now rule number)
        (AsksForLocal model.now plan.now token.now rule number → ⊥) }
{
    match activated(plan, TokenKey::of(token)) {
        Some(found) => {
            own.ask(model, plan, found, rule);
            own.marks.has_local(number)
        }
        None => false,
    }
}

// Whether the local stands in an open block.
fn is_local_asked(model: &Model, plan: &Plan, own: &mut Recalled, name: &VarName) -> bool
    requires lawful { IsLawful model.now }
    requires orderly { IsOrderly plan.now }
    requires local { IsLocal name.now }
    requires recalls { Recalls model.now plan.now own.old }
    ensures recalls { Recalls model.now plan.now own.new }
    ensures asked { MatchBool result
        (IsAskedLocal model.now plan.now name.now)
        (IsAskedLocal model.now plan.now name.now → ⊥) }
{
    match name {
        VarName::Local {
            token,
            rule,
            number,
        } => is_local_open(model, plan, own, token, *rule, *number),
        VarName::Token(_, _) | VarName::Global(_) => unreachable!(),
    }
}

// Whether an open block asks for what the line names, or it is a root.
fn is_asked(
    model: &Model,
    plan: &Plan,
    asking: &mut Recalled,
    own: &mut Recalled,
    line: &Line,
) -> bool
    requires lawful { IsLawful model.now }
    requires orderly { IsOrderly plan.now }
    requires named { HasProperName line.now }
    requires asking { Recalls model.now plan.now asking.old }
    requires own { Recalls model.now plan.now own.old }
    ensures asking { Recalls model.now plan.now asking.new }
    ensures own { Recalls model.now plan.now own.new }
    ensures asked { MatchBool result
        (IsAsked model.now plan.now line.now)
        (IsAsked model.now plan.now line.now → ⊥) }
{
    match line {
        Line::Token { name, .. } => is_token_asked(model, plan, asking, name),
        Line::Merged { name, .. } => is_token_asked(model, plan, asking, name),
        Line::Rejected { name } => is_token_asked(model, plan, asking, name),
        Line::Local { name, .. } => is_local_asked(model, plan, own, name),
    }
}

// The place of the first line that no open block asks for.
fn unasked_line(model: &Model, plan: &Plan) -> Option<u32>
    requires lawful { IsLawful model.now }
    requires is_plan { IsPlanOf model.now plan.now }
    requires orderly { IsOrderly plan.now }
    ensures { FindsLine plan.now (IsAsked model.now plan.now) result }
{
    let mut asking = Recalled::new();
    let mut own = Recalled::new();
    for (place, line) in plan.lines.as_slice().iter().enumerate() {
        if !is_asked(model, plan, &mut asking, &mut own, line) {
            return Some(place as u32);
        }
    }
    None
}

/// The first token or local that no open block asks for, and that is no root.
pub fn broken_asking(model: &Model, plan: &Plan) -> Option<Place>
    requires lawful { IsLawful model.now }
    requires is_plan { IsPlanOf model.now plan.now }
    requires orderly { IsOrderly plan.now }
    ensures { FindsBreak model.now plan.now V6 result }
{
    match unasked_line(model, plan) {
        Some(place) => Some(Place::Line(place)),
        None => None,
    }
}
