//! Whether constraints and relations are true by the values of a plan.

ghost use Rattle.std.specs.Prelude.{◌≡◌, ℕ, List, [], ◌∷◌, ◌++◌, map, All, Some, MatchBool, option_to_list};
ghost use Rattle.eu_name.specs.declared.name.TokenName.{TokenName};
ghost use Rattle.model_core.specs.declared.item.Item.TheVariants as items;
ghost use Rattle.domain_core.specs.declared.kind.Kind.TheVariants as kinds;
ghost use Rattle.domain_core.specs.Constraints.{Holds, HoldsOf};
ghost use Rattle.model_core.specs.Tokens.{slot_token};
ghost use Rattle.plan_defs.specs.Claims.{relates};
ghost use Rattle.plan_defs.specs.Consistency.{HasField};
ghost use Rattle.plan_defs.specs.Terms.{InRule, Means};
ghost use Rattle.plan_values.specs.Keys.{IsOrderly};
ghost use Rattle.plan_values.specs.Meanings.{context_of, CountsAt};
ghost use Rattle.plan_values.specs.Truths.{AreTrueOf, IsTrueWhere, IsStatedTrue, edge_argument, statement_claim};

use super::terms::{Standpoint, term_counts, term_value};
use domain_core::kind::Kind;
use eu_name::name::{Part, TokenName};
use model_core::item::{Item, Rel, Term};
use model_core::model::Model;
use plan_defs::plan::Plan;

// Whether the object of this number has this value in the field.
fn has_field(model: &Model, field: u32, object: i32, content: i32) -> bool
    ensures { MatchBool result (HasField model.now field object content) (HasField model.now field object content → ⊥) }
{
    if object < 0 {
        return false;
    }
    match model.objects.as_slice().get(object as usize) {
        Some(object) => match object.fields.as_slice().get(field as usize) {
            Some(found) => *found == content,
            None => false,
        },
        None => false,
    }
}

// Whether the constraint holds of two values.
fn holds_of_two(model: &Model, kind: Kind, x: i32, y: i32) -> bool
    ensures { MatchBool result
        (Holds (HasField model.now) kind (x ∷ y ∷ []))
        (Holds (HasField model.now) kind (x ∷ y ∷ []) → ⊥) }
{
    match kind {
        Kind::Eq => x == y,
        Kind::Neq => x != y,
        Kind::Lt => x < y,
        Kind::Leq => x <= y,
        Kind::Field(field) => has_field(model, field, x, y),
        Kind::AddEq | Kind::MulEq | Kind::TestEq | Kind::TestLeq | Kind::AllDiff => false,
    }
}

// Whether the first two values have the third as their sum.
fn has_sum(x: i32, y: i32, z: i32) -> bool
    ensures { MatchBool result (HoldsOf kinds.AddEq (x ∷ y ∷ z ∷ [])) (HoldsOf kinds.AddEq (x ∷ y ∷ z ∷ []) → ⊥) }
{
    match x.checked_add(y) {
        Some(sum) => sum == z,
        None => false,
    }
}

// Whether the first two values have the third as their product.
fn has_product(x: i32, y: i32, z: i32) -> bool
    ensures { MatchBool result (HoldsOf kinds.MulEq (x ∷ y ∷ z ∷ [])) (HoldsOf kinds.MulEq (x ∷ y ∷ z ∷ []) → ⊥) }
{
    match x.checked_mul(y) {
        Some(product) => product == z,
        None => false,
    }
}

// Whether the first value is 1 if and only if the others are equal.
fn tells_equal(x: i32, y: i32, z: i32) -> bool
    ensures { MatchBool result (HoldsOf kinds.TestEq (x ∷ y ∷ z ∷ [])) (HoldsOf kinds.TestEq (x ∷ y ∷ z ∷ []) → ⊥) }
{
    (x == 1) == (y == z)
}

// Whether the first value is 1 if and only if the second is at most the third.
fn tells_at_most(x: i32, y: i32, z: i32) -> bool
    ensures { MatchBool result (HoldsOf kinds.TestLeq (x ∷ y ∷ z ∷ [])) (HoldsOf kinds.TestLeq (x ∷ y ∷ z ∷ []) → ⊥) }
{
    (x == 1) == (y <= z)
}

// Whether the constraint holds of three values.
fn holds_of_three(model: &Model, kind: Kind, x: i32, y: i32, z: i32) -> bool
    ensures { MatchBool result
        (Holds (HasField model.now) kind (x ∷ y ∷ z ∷ []))
        (Holds (HasField model.now) kind (x ∷ y ∷ z ∷ []) → ⊥) }
{
    match kind {
        Kind::AddEq => has_sum(x, y, z),
        Kind::MulEq => has_product(x, y, z),
        Kind::TestEq => tells_equal(x, y, z),
        Kind::TestLeq => tells_at_most(x, y, z),
        Kind::Eq | Kind::Neq | Kind::Lt | Kind::Leq | Kind::AllDiff | Kind::Field(_) => false,
    }
}

// Whether the two terms have values of which the constraint holds.
fn are_true_of_two(model: &Model, plan: &Plan, at: Standpoint, kind: Kind, x: Term, y: Term) -> bool
    requires { IsOrderly plan.now }
    ensures { MatchBool result
        (AreTrueOf model.now plan.now (context_of at.entry) kind (x ∷ y ∷ []))
        (AreTrueOf model.now plan.now (context_of at.entry) kind (x ∷ y ∷ []) → ⊥) }
{
    match term_value(plan, at, x) {
        Some(one) => match term_value(plan, at, y) {
            Some(other) => holds_of_two(model, kind, one, other),
            None => false,
        },
        None => false,
    }
}

// A constraint of three terms.
#[derive(Clone, Copy)]
struct Ternary {
    kind: Kind,
    x: Term,
    y: Term,
    z: Term,
}

// Whether the three terms have values of which the constraint holds.
fn are_true_of_three(model: &Model, plan: &Plan, at: Standpoint, ternary: Ternary) -> bool
    requires { IsOrderly plan.now }
    ensures { MatchBool result
        (AreTrueOf model.now plan.now (context_of at.entry) ternary.kind (ternary.x ∷ ternary.y ∷ ternary.z ∷ []))
        (AreTrueOf model.now plan.now (context_of at.entry) ternary.kind (ternary.x ∷ ternary.y ∷ ternary.z ∷ []) → ⊥) }
{
    match term_value(plan, at, ternary.x) {
        Some(first) => match term_value(plan, at, ternary.y) {
            Some(second) => match term_value(plan, at, ternary.z) {
                Some(third) => holds_of_three(model, ternary.kind, first, second, third),
                None => false,
            },
            None => false,
        },
        None => false,
    }
}

/// Whether the terms have values of which the constraint holds.
pub fn are_true(model: &Model, plan: &Plan, at: Standpoint, kind: Kind, terms: &[Term]) -> bool
    requires { IsOrderly plan.now }
    ensures { MatchBool result
        (AreTrueOf model.now plan.now (context_of at.entry) kind terms.now)
        (AreTrueOf model.now plan.now (context_of at.entry) kind terms.now → ⊥) }
{
    match terms {
        [x, y] => are_true_of_two(model, plan, at, kind, *x, *y),
        [x, y, z] => {
            let ternary = Ternary {
                kind,
                x: *x,
                y: *y,
                z: *z,
            };
            are_true_of_three(model, plan, at, ternary)
        }
        _ => false,
    }
}

// Whether what is said of the terms counts.
fn all_count(model: &Model, plan: &Plan, at: Standpoint, terms: &[Term]) -> bool
    requires { IsOrderly plan.now }
    ensures { MatchBool result
        (All (CountsAt model.now plan.now (context_of at.entry)) terms.now)
        (All (CountsAt model.now plan.now (context_of at.entry)) terms.now → ⊥) }
{
    for term in terms {
        if !term_counts(model, plan, at, *term) {
            return false;
        }
    }
    true
}

/// The start or the end of a token, or of one that it asks for.
#[derive(Clone, Copy)]
enum Edge {
    OwnStart,
    OwnEnd,
    AskedStart,
    AskedEnd,
}

// What a relation says of two edges: that they are equal, or the one is at most the other.
#[derive(Clone, Copy)]
struct Statement {
    kind: Kind,
    one: Edge,
    other: Edge,
}

// What a relation says: nothing, one thing or two.
#[derive(Clone, Copy)]
struct Statements {
    first: Option<Statement>,
    second: Option<Statement>,
}

// The one edge is at most the other.
fn at_most(one: Edge, other: Edge) -> Option<Statement>
    ensures { result ≡ Some (record { kind = kinds.Leq; one = one; other = other }) }
{
    let kind = Kind::Leq;
    Some(Statement { kind, one, other })
}

// The edges are equal.
fn equal(one: Edge, other: Edge) -> Option<Statement>
    ensures { result ≡ Some (record { kind = kinds.Eq; one = one; other = other }) }
{
    let kind = Kind::Eq;
    Some(Statement { kind, one, other })
}

// What the relation says of a token and one that it asks for.
fn stated_by(rel: Rel) -> Statements
    ensures { (token asked : TokenName)
        → map (statement_claim token asked) (option_to_list result.first ++ option_to_list result.second)
        ≡ relates rel token asked }
{
    use Edge::{AskedEnd, AskedStart, OwnEnd, OwnStart};
    let (first, second) = match rel {
        Rel::Any => (None, None),
        Rel::Before => (at_most(OwnEnd, AskedStart), None),
        Rel::After => (at_most(AskedEnd, OwnStart), None),
        Rel::Meets => (equal(OwnEnd, AskedStart), None),
        Rel::MetBy => (equal(AskedEnd, OwnStart), None),
        Rel::Equals => (equal(OwnStart, AskedStart), equal(OwnEnd, AskedEnd)),
        Rel::Contains => (at_most(OwnStart, AskedStart), at_most(AskedEnd, OwnEnd)),
        Rel::ContainedBy => (at_most(AskedStart, OwnStart), at_most(OwnEnd, AskedEnd)),
        Rel::Starts => (equal(OwnStart, AskedStart), None),
        Rel::Ends => (equal(OwnEnd, AskedEnd), None),
        Rel::Parallels => (at_most(OwnStart, AskedStart), at_most(OwnEnd, AskedEnd)),
        Rel::ParalleledBy => (at_most(AskedStart, OwnStart), at_most(AskedEnd, OwnEnd)),
        Rel::StartsDuring => (at_most(AskedStart, OwnStart), at_most(OwnStart, AskedEnd)),
        Rel::ContainsStart => (at_most(OwnStart, AskedStart), at_most(AskedStart, OwnEnd)),
        Rel::EndsDuring => (at_most(AskedStart, OwnEnd), at_most(OwnEnd, AskedEnd)),
        Rel::ContainsEnd => (at_most(OwnStart, AskedEnd), at_most(AskedEnd, OwnEnd)),
    };
    Statements { first, second }
}

// The edge as a term, where the asked token is that of this slot.
fn term_for(edge: Edge, slot: u32) -> Term
    ensures { (token : TokenName) (rule : ℕ)
        → Means (InRule token rule) result (edge_argument token (slot_token token rule slot) edge) }
{
    match edge {
        Edge::OwnStart => Term::Here(Part::Start),
        Edge::OwnEnd => Term::Here(Part::End),
        Edge::AskedStart => Term::Slot(slot, Part::Start),
        Edge::AskedEnd => Term::Slot(slot, Part::End),
    }
}

// Whether what is stated, if anything is, is true of the token and the one that its rule asks for by this slot.
fn is_stated_true(
    model: &Model,
    plan: &Plan,
    token: &TokenName,
    rule: u16,
    slot: u32,
    stated: Option<Statement>,
) -> bool
    requires { IsOrderly plan.now }
    ensures { MatchBool result
        (IsStatedTrue model.now plan.now token.now (slot_token token.now rule slot) stated)
        (IsStatedTrue model.now plan.now token.now (slot_token token.now rule slot) stated → ⊥) }
{
    match stated {
        None => true,
        Some(statement) => {
            let one = term_for(statement.one, slot);
            let other = term_for(statement.other, slot);
            let at = Standpoint::Rule { token, rule };
            are_true_of_two(model, plan, at, statement.kind, one, other)
        }
    }
}

// Whether the relation holds between the token and the one that its rule asks for by this slot.
fn is_relation_true(
    model: &Model,
    plan: &Plan,
    token: &TokenName,
    rule: u16,
    rel: Rel,
    slot: u32,
) -> bool
    requires { IsOrderly plan.now }
    ensures { MatchBool result
        (IsTrueWhere model.now plan.now (InRule token.now rule) (items.Relation rel slot))
        (IsTrueWhere model.now plan.now (InRule token.now rule) (items.Relation rel slot) → ⊥) }
{
    let stated = stated_by(rel);
    if !is_stated_true(model, plan, token, rule, slot, stated.first) {
        return false;
    }
    is_stated_true(model, plan, token, rule, slot, stated.second)
}

// Whether the constraint is true where it counts.
fn is_constraint_true(
    model: &Model,
    plan: &Plan,
    at: Standpoint,
    kind: Kind,
    terms: &[Term],
) -> bool
    requires { IsOrderly plan.now }
    ensures { MatchBool result
        (IsTrueWhere model.now plan.now (context_of at.entry) (items.Constraint kind terms.now))
        (IsTrueWhere model.now plan.now (context_of at.entry) (items.Constraint kind terms.now) → ⊥) }
{
    if all_count(model, plan, at, terms) {
        are_true(model, plan, at, kind, terms)
    } else {
        true
    }
}

/// Whether what the item says there, where it counts, is true.
pub fn is_item_true(model: &Model, plan: &Plan, at: Standpoint, item: &Item) -> bool
    requires { IsOrderly plan.now }
    ensures { MatchBool result
        (IsTrueWhere model.now plan.now (context_of at.entry) item.now)
        (IsTrueWhere model.now plan.now (context_of at.entry) item.now → ⊥) }
{
    match item {
        Item::Constraint(kind, terms) => {
            is_constraint_true(model, plan, at, *kind, terms.as_slice())
        }
        Item::Relation(rel, slot) => match at {
            Standpoint::Problem => true,
            Standpoint::Rule { token, rule } => {
                is_relation_true(model, plan, token, rule, *rel, *slot)
            }
        },
    }
}
