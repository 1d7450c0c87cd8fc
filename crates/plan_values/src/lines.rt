//! Lines of plans by name, and the values that they give.

ghost use Rattle.std.specs.Prelude.{◌≡◌, ℤ, Bool, false, List, Contains, MatchBool, MatchOption, slice_get};
ghost use Rattle.eu_name.specs.declared.name.TokenName.{TokenName};
ghost use Rattle.eu_name.specs.declared.name.VarName.{VarName};
ghost use Rattle.eu_name.specs.declared.name.VarName.TheVariants as variables;
ghost use Rattle.plan_defs.specs.declared.plan.Line.{Line};
ghost use Rattle.plan_defs.specs.declared.plan.Line.TheVariants as lines;
ghost use Rattle.plan_defs.specs.Plans.{order_name, TakesPlaceWith, IsTakenIn, IsActivatedIn, GivesValue, place_in_values};
ghost use Rattle.plan_defs.specs.Valid.{IsLineAt};
ghost use Rattle.plan_values.specs.Keys.{key_token, key_name, IsOrderly};
ghost use Rattle.plan_values.specs.Values.{IsLineFor, HasValues};

use super::key::{Key, TokenKey};
use eu_name::name::{Part, TokenName};
use plan_defs::plan::{Line, Plan};
use std::cmp::Ordering;

/// The place of the line of this name.
pub fn place_of(plan: &Plan, key: Key) -> Option<usize>
    requires { IsOrderly plan.now }
    ensures { MatchOption result
        ((line : Line) → IsLineFor plan.now (key_name key.entry) line → ⊥)
        (λ place. (line : Line) × IsLineAt plan.now place line × (order_name line ≡ key_name key.entry)) }
{
    let lines = plan.lines.as_slice();
    let mut low = 0;
    let mut high = lines.len();
    while low < high {
        let middle = low + (high - low) / 2;
        match key.order(&lines[middle]) {
            Ordering::Less => high = middle,
            Ordering::Equal => return Some(middle),
            Ordering::Greater => low = middle + 1,
        }
    }
    None
}

/// The line of this name.
pub fn line_for<'a>(plan: &'a Plan, key: Key) -> Option<&'a Line>
    requires { IsOrderly plan.now }
    ensures { MatchOption result
        ((line : Line) → IsLineFor plan.now (key_name key.entry) line → ⊥)
        (λ line. IsLineFor plan.now (key_name key.entry) line.now) }
{
    match place_of(plan, key) {
        Some(place) => Some(&plan.lines.as_slice()[place]),
        None => None,
    }
}

// The values in a line of a token that takes place.
fn values_in(line: &Line) -> Option<&[i32]>
    ensures { MatchOption result
        ((name : TokenName) (fact : Bool) (values : List ℤ) → line.now ≡ lines.Token name fact values → ⊥)
        (λ values. (name : TokenName) × ((fact : Bool) × (line.now ≡ lines.Token name fact values.now))) }
{
    match line {
        Line::Token { values, .. } => Some(values.as_slice()),
        Line::Merged { .. } | Line::Rejected { .. } | Line::Local { .. } => None,
    }
}

/// The values of the token, where it takes place itself.
pub fn own_values<'a>(plan: &'a Plan, token: TokenKey) -> Option<&'a [i32]>
    requires { IsOrderly plan.now }
    ensures { MatchOption result
        ((values : List ℤ) → TakesPlaceWith plan.now (key_token token.entry) values → ⊥)
        (λ values. TakesPlaceWith plan.now (key_token token.entry) values.now) }
{
    match line_for(plan, Key::Token(token)) {
        Some(line) => values_in(line),
        None => None,
    }
}

// The target in a line of a merged token.
fn target_in(line: &Line) -> Option<&TokenName>
    ensures { MatchOption result
        ((name target : TokenName) → line.now ≡ lines.Merged name target → ⊥)
        (λ target. (name : TokenName) × (line.now ≡ lines.Merged name target.now)) }
{
    match line {
        Line::Merged { target, .. } => Some(target),
        Line::Token { .. } | Line::Rejected { .. } | Line::Local { .. } => None,
    }
}

/// The target of the token, where it is merged.
pub fn target_of<'a>(plan: &'a Plan, token: TokenKey) -> Option<&'a TokenName>
    requires { IsOrderly plan.now }
    ensures { MatchOption result
        ((target : TokenName) → Contains plan.now.lines (lines.Merged (key_token token.entry) target) → ⊥)
        (λ target. Contains plan.now.lines (lines.Merged (key_token token.entry) target.now)) }
{
    match line_for(plan, Key::Token(token)) {
        Some(line) => target_in(line),
        None => None,
    }
}

/// The values of the token, which are those of its target where it is merged.
pub fn values_of<'a>(plan: &'a Plan, token: TokenKey) -> Option<&'a [i32]>
    requires { IsOrderly plan.now }
    ensures { MatchOption result
        ((values : List ℤ) → HasValues plan.now (key_token token.entry) values → ⊥)
        (λ values. HasValues plan.now (key_token token.entry) values.now) }
{
    match target_of(plan, token) {
        Some(target) => own_values(plan, TokenKey::of(target)),
        None => own_values(plan, token),
    }
}

// Where the value of the part stands among those of a token.
fn place_in_values(part: Part) -> usize
    ensures { result ≡ place_in_values part }
{
    match part {
        Part::Start => 0,
        Part::End => 1,
        Part::Duration => 2,
        Part::Object => 3,
        Part::Param(number) => 4 + usize::from(number),
    }
}

/// The value of this part among those of a token.
pub fn value_in(values: &[i32], part: Part) -> Option<i32>
    ensures { result ≡ slice_get values.now (place_in_values part) }
{
    values.get(place_in_values(part)).copied()
}

/// The value of this part of the token.
pub fn part_value(plan: &Plan, token: TokenKey, part: Part) -> Option<i32>
    requires { IsOrderly plan.now }
    ensures { MatchOption result
        ((value : ℤ) → GivesValue plan.now (variables.Token (key_token token.entry) part) value → ⊥)
        (λ value. GivesValue plan.now (variables.Token (key_token token.entry) part) value) }
{
    match values_of(plan, token) {
        Some(values) => value_in(values, part),
        None => None,
    }
}

// The value in a line of a local.
fn local_in(line: &Line) -> Option<i32>
    ensures { MatchOption result
        ((name : VarName) (value : ℤ) → line.now ≡ lines.Local name value → ⊥)
        (λ value. (name : VarName) × (line.now ≡ lines.Local name value)) }
{
    match line {
        Line::Local { value, .. } => Some(*value),
        Line::Token { .. } | Line::Merged { .. } | Line::Rejected { .. } => None,
    }
}

/// The value of the local of this number of the rule of this number of the token.
pub fn local_value(plan: &Plan, token: TokenKey, rule: u16, number: u32) -> Option<i32>
    requires { IsOrderly plan.now }
    ensures { MatchOption result
        ((value : ℤ) → GivesValue plan.now (variables.Local (key_token token.entry) rule number) value → ⊥)
        (λ value. GivesValue plan.now (variables.Local (key_token token.entry) rule number) value) }
{
    match line_for(
        plan,
        Key::Local {
            token,
            rule,
            number,
        },
    ) {
        Some(line) => local_in(line),
        None => None,
    }
}

/// The value of the global of this number.
pub fn global_value(plan: &Plan, number: u32) -> Option<i32>
    ensures { MatchOption result
        ((value : ℤ) → GivesValue plan.now (variables.Global number) value → ⊥)
        (λ value. GivesValue plan.now (variables.Global number) value) }
{
    plan.globals.as_slice().get(number as usize).copied()
}

// Whether it is a line of a token that takes place, and not as a fact.
fn activates(line: &Line) -> bool
    ensures { MatchBool result
        ((name : TokenName) × ((values : List ℤ) × (line.now ≡ lines.Token name false values)))
        ((name : TokenName) (values : List ℤ) → line.now ≡ lines.Token name false values → ⊥) }
{
    match line {
        Line::Token { fact, .. } => !*fact,
        Line::Merged { .. } | Line::Rejected { .. } | Line::Local { .. } => false,
    }
}

/// Whether the token takes place, and not as a fact.
pub fn is_activated(plan: &Plan, token: TokenKey) -> bool
    requires { IsOrderly plan.now }
    ensures { MatchBool result
        (IsActivatedIn plan.now (key_token token.entry))
        (IsActivatedIn plan.now (key_token token.entry) → ⊥) }
{
    match line_for(plan, Key::Token(token)) {
        Some(line) => activates(line),
        None => false,
    }
}

/// Whether the token is taken: it takes place, and not as a fact, or is merged.
pub fn is_taken(plan: &Plan, token: TokenKey) -> bool
    requires { IsOrderly plan.now }
    ensures { MatchBool result
        (IsTakenIn plan.now (key_token token.entry))
        (IsTakenIn plan.now (key_token token.entry) → ⊥) }
{
    if is_activated(plan, token) {
        return true;
    }
    match target_of(plan, token) {
        Some(_) => true,
        None => false,
    }
}
