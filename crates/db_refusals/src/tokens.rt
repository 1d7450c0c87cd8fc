//! What the tokens of a store tell of decisions.

ghost use Rattle.std.specs.Prelude.{◌≡◌, ◌≢◌, ◌↔◌, ◌≤◌, List, All, AllPairs, Contains, Some, map, slice_get, IsTrue};
ghost use Rattle.model_core.specs.declared.decision.Decision.{Decision};
ghost use Rattle.model_core.specs.declared.model.Model.{Model as Problem};
ghost use Rattle.model_core.specs.declared.view.TokenState.{TokenState as Kept};
ghost use Rattle.model_core.specs.Decided.{IsTaken};
ghost use Rattle.plan_defs.specs.Refusals.{AreActive};
ghost use Rattle.plan_defs.specs.Claims.{argument_of};
ghost use Rattle.plan_defs.specs.Terms.{ArgumentCounts, Counts, TokenCounts};
ghost use Rattle.db_posting.specs.Counting.{IsTakenState};
ghost use Rattle.db_store.specs.Stores.{Snapshot};
ghost use Rattle.token_store.specs.Tokens.{tokens_now, token_names, token_states};
ghost use Rattle.db_refusals.specs.Judging.{FindsState, AreTold, FindsUndecided, one_if_active, active_count};

use db_posting::is_rejectable;
use eu_name::name::{TokenName, VarName};
use model_core::decision::ConArg;
use model_core::model::Model;
use model_core::refusal::Refusal;
use model_core::view::TokenState;
use token_store::Tokens;

// How many tokens may be active.
const MOST_ACTIVE: u32 = 512;

/// The state of the token, where it is there.
pub fn state_of(tokens: &Tokens, token: &TokenName) -> Option<TokenState>
    ensures { FindsState (tokens_now tokens.now) token.now result }
{
    match tokens.find(token) {
        Some(place) => tokens.state(place),
        None => None,
    }
}

// Whether the token is there.
fn has_token(tokens: &Tokens, token: &TokenName) -> bool
    ensures { IsTrue result ↔ Contains (token_names (tokens_now tokens.now)) token.now }
{
    match tokens.find(token) {
        Some(_place) => true,
        None => false,
    }
}

/// Whether both tokens are there.
pub fn has_tokens(tokens: &Tokens, one: &TokenName, other: &TokenName) -> bool
    ensures { IsTrue result ↔ (Contains (token_names (tokens_now tokens.now)) one.now
        × Contains (token_names (tokens_now tokens.now)) other.now) }
{
    has_token(tokens, one) && has_token(tokens, other)
}

// Whether a token in this state takes place, by itself or as another one, since it was decided so.
fn is_taken(state: TokenState) -> bool
    ensures { IsTrue result ↔ IsTakenState state }
{
    match state {
        TokenState::Active | TokenState::Merged(_) => true,
        TokenState::Inactive | TokenState::Fact | TokenState::Rejected => false,
    }
}

/// What speaks against deciding the token, of whatever kind the decision is.
pub fn undecided(tokens: &Tokens, token: &TokenName) -> Option<Refusal>
    ensures { (model : Problem) (decisions : List Decision) (snapshot : Snapshot)
        → snapshot.tokens ≡ tokens_now tokens.now → AreTold model decisions snapshot
        → FindsUndecided model decisions (tokens_now tokens.now) token.now result }
{
    match state_of(tokens, token) {
        None => Some(Refusal::Unknown),
        Some(state) => match state {
            TokenState::Inactive => None,
            _ => Some(Refusal::Decided),
        },
    }
}

// One, where the token at the place takes place.
fn active_at(tokens: &Tokens, place: u32) -> u32
    ensures counted { (state : Kept) → slice_get (token_states (tokens_now tokens.now)) place ≡ Some state → result ≡ one_if_active state }
    ensures small { result ≤ 1 }
{
    match tokens.state(place) {
        Some(TokenState::Active) => 1,
        Some(TokenState::Fact) => 1,
        _ => 0,
    }
}

// How many tokens take place.
fn count_active(tokens: &Tokens) -> u32
    ensures { result ≡ active_count (tokens_now tokens.now) }
{
    let mut active = 0;
    let count = tokens.count();
    for place in 0..count {
        active += active_at(tokens, place);
    }
    active
}

/// Whether as many tokens are active as there may be. It goes over all tokens where there are so many.
pub fn is_full(tokens: &Tokens) -> bool
    requires { AllPairs ◌≢◌ (token_names (tokens_now tokens.now)) }
    ensures { (model : Problem) (decisions : List Decision) (snapshot : Snapshot)
        → snapshot.tokens ≡ tokens_now tokens.now → AreTold model decisions snapshot
        → (IsTrue result ↔ AreActive model decisions 512) }
{
    if tokens.count() < MOST_ACTIVE {
        return false;
    }
    count_active(tokens) >= MOST_ACTIVE
}

// Whether what is said of the token counts: if it may be rejected, it is taken.
fn token_counts(model: &Model, tokens: &Tokens, token: &TokenName) -> bool
    ensures { (decisions : List Decision) (snapshot : Snapshot)
        → snapshot.tokens ≡ tokens_now tokens.now → AreTold model.now decisions snapshot
        → (IsTrue result ↔ TokenCounts model.now (IsTaken decisions) token.now) }
{
    if !is_rejectable(model, token) {
        return true;
    }
    match state_of(tokens, token) {
        Some(state) => is_taken(state),
        None => false,
    }
}

/// Whether what is said of both tokens counts.
pub fn tokens_count(model: &Model, tokens: &Tokens, one: &TokenName, other: &TokenName) -> bool
    ensures { (decisions : List Decision) (snapshot : Snapshot)
        → snapshot.tokens ≡ tokens_now tokens.now → AreTold model.now decisions snapshot
        → (IsTrue result ↔ (TokenCounts model.now (IsTaken decisions) one.now × TokenCounts model.now (IsTaken decisions) other.now)) }
{
    token_counts(model, tokens, one) && token_counts(model, tokens, other)
}

/// Whether what is said of the variable counts.
pub fn variable_counts(model: &Model, tokens: &Tokens, name: &VarName) -> bool
    ensures { (decisions : List Decision) (snapshot : Snapshot)
        → snapshot.tokens ≡ tokens_now tokens.now → AreTold model.now decisions snapshot
        → (IsTrue result ↔ Counts model.now (IsTaken decisions) name.now) }
{
    match name {
        VarName::Global(_) => true,
        VarName::Token(token, _) => token_counts(model, tokens, token),
        VarName::Local { token, .. } => token_counts(model, tokens, token),
    }
}

// Whether what is said of the argument counts.
fn argument_counts(model: &Model, tokens: &Tokens, argument: &ConArg) -> bool
    ensures { (decisions : List Decision) (snapshot : Snapshot)
        → snapshot.tokens ≡ tokens_now tokens.now → AreTold model.now decisions snapshot
        → (IsTrue result ↔ ArgumentCounts model.now (IsTaken decisions) (argument_of argument.now)) }
{
    match argument {
        ConArg::Var(name) => variable_counts(model, tokens, name),
        ConArg::Value(_) => true,
    }
}

/// Whether what is said of each of the arguments counts.
pub fn arguments_count(model: &Model, tokens: &Tokens, arguments: &[ConArg]) -> bool
    ensures { (decisions : List Decision) (snapshot : Snapshot)
        → snapshot.tokens ≡ tokens_now tokens.now → AreTold model.now decisions snapshot
        → (IsTrue result ↔ All (ArgumentCounts model.now (IsTaken decisions)) (map argument_of arguments.now)) }
{
    for argument in arguments {
        if !argument_counts(model, tokens, argument) {
            return false;
        }
    }
    true
}
