//! What the terms of items and guards mean, whether what is said of them counts, and their values in a plan.

ghost use Rattle.std.specs.Prelude.{◌≡◌, ◌↔◌, ℤ, MatchBool, MatchOption};
ghost use Rattle.model_core.specs.declared.model.RootKind.TheVariants as root_kinds;
ghost use Rattle.model_core.specs.Tokens.{IsRejectable};
ghost use Rattle.model_core.specs.Kinds.{IsInner};
ghost use Rattle.plan_defs.specs.Plans.{IsTakenIn};
ghost use Rattle.plan_defs.specs.Terms.{Argument, InRule, Means, ArgumentCounts};
ghost use Rattle.plan_defs.specs.Valid.{HasArgumentValue};
ghost use Rattle.plan_values.specs.Keys.{key_token, IsOrderly};
ghost use Rattle.plan_values.specs.Meanings.{context_of, argument_of, CountsAt, HasTermValue};

use super::key::TokenKey;
use super::lines::{global_value, is_taken, local_value, part_value};
use super::tokens::root_at;
use eu_name::name::{Part, TokenName};
use model_core::item::Term;
use model_core::model::{Model, RootKind};
use plan_defs::plan::Plan;

/// Where a term stands.
#[derive(Clone, Copy)]
pub enum Standpoint<'a> {
    /// Among the items of the problem.
    Problem,
    /// In the rule of this number of the token.
    Rule { token: &'a TokenName, rule: u16 },
}

/// What a term means there.
#[derive(Clone, Copy)]
pub enum Meaning<'a> {
    Value(i32),
    Global(u32),
    Part(TokenKey<'a>, Part),
    Local {
        token: TokenKey<'a>,
        rule: u16,
        number: u32,
    },
}

impl<'a> Standpoint<'a> {
    /// What the term means.
    pub fn meaning(self, term: Term) -> Option<Meaning<'a>>
        ensures { MatchOption result
            ((argument : Argument) → Means (context_of self.entry) term argument → ⊥)
            (λ meaning. (argument : Argument)
            → Means (context_of self.entry) term argument ↔ (argument ≡ argument_of meaning)) }
    {
        match term {
            Term::Lit(value) => Some(Meaning::Value(value)),
            Term::Global(number) => Some(Meaning::Global(number)),
            Term::Root(number, part) => Some(Meaning::Part(TokenKey::of_root(number), part)),
            Term::Here(_) | Term::Slot(_, _) | Term::Local(_) => self.meaning_in_rule(term),
        }
    }

    // What the term means, where it names what only rules have.
    fn meaning_in_rule(self, term: Term) -> Option<Meaning<'a>>
        requires { IsInner term }
        ensures { MatchOption result
            ((argument : Argument) → Means (context_of self.entry) term argument → ⊥)
            (λ meaning. (argument : Argument)
            → Means (context_of self.entry) term argument ↔ (argument ≡ argument_of meaning)) }
    {
        match self {
            Standpoint::Problem => None,
            Standpoint::Rule { token, rule } => Some(meaning_for(token, rule, term)),
        }
    }
}

// What a term that names what only rules have means in the rule of this number of the token.
fn meaning_for(token: &TokenName, rule: u16, term: Term) -> Meaning
    requires { IsInner term }
    ensures { (argument : Argument) → Means (InRule token.now rule) term argument ↔ (argument ≡ argument_of result) }
{
    match term {
        Term::Here(part) => Meaning::Part(TokenKey::of(token), part),
        Term::Slot(slot, part) => Meaning::Part(TokenKey::of_slot(token, rule, slot), part),
        Term::Local(number) => Meaning::Local {
            token: TokenKey::of(token),
            rule,
            number,
        },
        Term::Lit(_) | Term::Global(_) | Term::Root(_, _) => unreachable!(),
    }
}

// Whether the token is a root that may be rejected.
fn is_rejectable(model: &Model, token: TokenKey) -> bool
    ensures { MatchBool result
        (IsRejectable model.now (key_token token.entry))
        (IsRejectable model.now (key_token token.entry) → ⊥) }
{
    if !token.is_root() {
        return false;
    }
    match root_at(model, token.root) {
        Some(root) => may_be_rejected(root.kind),
        None => false,
    }
}

// Whether a root of this kind may be rejected.
fn may_be_rejected(kind: RootKind) -> bool
    ensures { MatchBool result (kind ≡ root_kinds.Rejectable) (kind ≡ root_kinds.Rejectable → ⊥) }
{
    match kind {
        RootKind::Rejectable => true,
        RootKind::Goal | RootKind::Fact => false,
    }
}

// Whether what is said of the token counts.
fn token_counts(model: &Model, plan: &Plan, token: TokenKey) -> bool
    requires { IsOrderly plan.now }
    ensures { MatchBool result
        (IsRejectable model.now (key_token token.entry) → IsTakenIn plan.now (key_token token.entry))
        ((IsRejectable model.now (key_token token.entry) → IsTakenIn plan.now (key_token token.entry)) → ⊥) }
{
    if is_rejectable(model, token) {
        is_taken(plan, token)
    } else {
        true
    }
}

impl<'a> Meaning<'a> {
    // Whether what is said of it counts.
    fn counts(self, model: &Model, plan: &Plan) -> bool
        requires { IsOrderly plan.now }
        ensures { MatchBool result
            (ArgumentCounts model.now (IsTakenIn plan.now) (argument_of self.entry))
            (ArgumentCounts model.now (IsTakenIn plan.now) (argument_of self.entry) → ⊥) }
    {
        match self {
            Meaning::Value(_) | Meaning::Global(_) => true,
            Meaning::Part(token, _) => token_counts(model, plan, token),
            Meaning::Local { token, .. } => token_counts(model, plan, token),
        }
    }

    // Its value.
    fn value(self, plan: &Plan) -> Option<i32>
        requires { IsOrderly plan.now }
        ensures { MatchOption result
            ((value : ℤ) → HasArgumentValue plan.now (argument_of self.entry) value → ⊥)
            (λ value. HasArgumentValue plan.now (argument_of self.entry) value) }
    {
        match self {
            Meaning::Value(value) => Some(value),
            Meaning::Global(number) => global_value(plan, number),
            Meaning::Part(token, part) => part_value(plan, token, part),
            Meaning::Local {
                token,
                rule,
                number,
            } => local_value(plan, token, rule, number),
        }
    }
}

/// Whether the term means something of which what is said counts.
pub fn term_counts(model: &Model, plan: &Plan, at: Standpoint, term: Term) -> bool
    requires { IsOrderly plan.now }
    ensures { MatchBool result
        (CountsAt model.now plan.now (context_of at.entry) term)
        (CountsAt model.now plan.now (context_of at.entry) term → ⊥) }
{
    match at.meaning(term) {
        Some(meaning) => meaning.counts(model, plan),
        None => false,
    }
}

/// The value of what the term means.
pub fn term_value(plan: &Plan, at: Standpoint, term: Term) -> Option<i32>
    requires { IsOrderly plan.now }
    ensures { MatchOption result
        ((value : ℤ) → HasTermValue plan.now (context_of at.entry) term value → ⊥)
        (λ value. HasTermValue plan.now (context_of at.entry) term value) }
{
    match at.meaning(term) {
        Some(meaning) => meaning.value(plan),
        None => None,
    }
}
