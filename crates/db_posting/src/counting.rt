//! Whether what an item says counts.

ghost use Rattle.std.specs.Prelude.{◌≡◌, ◌↔◌, ◌<◌, List, length, All, IsTrue};
ghost use Rattle.model_core.specs.declared.decision.Decision.{Decision};
ghost use Rattle.model_core.specs.declared.model.Model.{Model as Problem};
ghost use Rattle.model_core.specs.Decided.{IsTaken};
ghost use Rattle.model_core.specs.Tokens.{IsRejectable, root_token};
ghost use Rattle.token_store.specs.Orders.{name_at};
ghost use Rattle.token_store.specs.Tokens.{tokens_now, token_names};
ghost use Rattle.db_store.specs.Stores.{Snapshot, snapshot_of};
ghost use Rattle.db_posting.specs.Origins.{content_now, origin_context, IsOriginBelow};
ghost use Rattle.db_posting.specs.Counting.{OwnerCounts, ContextCounts, TermCounts, ItemCounts};
ghost use Rattle.db_posting.specs.Counting.{IsTakenState, AreTokenStates, AreRootsThere};

use super::arguments::root_place;
use super::origin::Origin;
use db_store::Store;
use eu_name::name::TokenName;
use model_core::item::{Item, Term};
use model_core::model::{Model, RootKind};
use model_core::view::TokenState;
use std::alloc::Global;
use token_store::Tokens;

// Whether the root of this number may be rejected.
fn is_rejectable_root(model: &Model, root: u32) -> bool
    ensures { IsTrue result ↔ IsRejectable model.now (root_token root) }
{
    match model.problem.roots.as_slice().get(root as usize) {
        Some(found) => match found.kind {
            RootKind::Rejectable => true,
            RootKind::Goal | RootKind::Fact => false,
        },
        None => false,
    }
}

/// Whether the token is a root that may be rejected.
pub fn is_rejectable(model: &Model, token: &TokenName) -> bool
    ensures { IsTrue result ↔ IsRejectable model.now token.now }
{
    token.steps.is_empty() && is_rejectable_root(model, token.root)
}

// Whether a token in this state takes place, by itself or as another one.
fn is_taken_state(state: TokenState) -> bool
    ensures { IsTrue result ↔ IsTakenState state }
{
    match state {
        TokenState::Active => true,
        TokenState::Merged(_) => true,
        TokenState::Inactive | TokenState::Fact | TokenState::Rejected => false,
    }
}

// Whether the rejectable at the place is taken.
fn is_taken(tokens: &Tokens, place: u32) -> bool
    requires { place < length (tokens_now tokens.now) }
    ensures { (model : Problem) (decisions : List Decision) (snapshot : Snapshot)
        → snapshot.tokens ≡ tokens_now tokens.now → AreTokenStates model decisions snapshot
        → IsRejectable model (name_at (token_names (tokens_now tokens.now)) place)
        → (IsTrue result ↔ IsTaken decisions (name_at (token_names (tokens_now tokens.now)) place)) }
{
    match tokens.state(place) {
        Some(state) => is_taken_state(state),
        None => unreachable!(),
    }
}

// Whether what is said of the token at the place counts.
fn token_counts(model: &Model, store: &Store, place: u32) -> bool
    requires { place < length (tokens_now store.now.past) }
    ensures { (decisions : List Decision) → AreTokenStates model.now decisions (snapshot_of store.now)
        → (IsTrue result ↔ OwnerCounts model.now (IsTaken decisions) (name_at (content_now store.now).tokens place)) }
{
    match store.tokens().name(place) {
        Some(name) => {
            if !name.steps.is_empty() {
                return true;
            }
            !is_rejectable_root(model, name.root) || is_taken(store.tokens(), place)
        }
        None => unreachable!(),
    }
}

// Whether what is said of the root of this number counts.
fn root_counts(alloc: Global, model: &Model, store: &Store, number: u32) -> bool
    requires { AreRootsThere model.now (content_now store.now) }
    ensures { (decisions : List Decision) → AreTokenStates model.now decisions (snapshot_of store.now)
        → (IsTrue result ↔ OwnerCounts model.now (IsTaken decisions) (root_token number)) }
{
    if !is_rejectable_root(model, number) {
        return true;
    }
    let place = root_place(alloc, store.tokens(), number);
    is_taken(store.tokens(), place)
}

// Whether what is said of the token counts in whose rule something stands.
fn origin_counts(model: &Model, store: &Store, origin: Origin) -> bool
    requires { IsOriginBelow (length (tokens_now store.now.past)) origin }
    ensures { (decisions : List Decision) → AreTokenStates model.now decisions (snapshot_of store.now)
        → (IsTrue result
        ↔ ContextCounts model.now (IsTaken decisions) (origin_context (content_now store.now).tokens origin)) }
{
    match origin {
        Origin::Problem => true,
        Origin::Rule { token, .. } => token_counts(model, store, token),
    }
}

/// Whether what is said of the term counts, by the states of the tokens. It takes no memory.
pub fn term_counts(alloc: Global, model: &Model, store: &Store, origin: Origin, term: Term) -> bool
    requires origin { IsOriginBelow (length (tokens_now store.now.past)) origin }
    requires roots { AreRootsThere model.now (content_now store.now) }
    ensures { (decisions : List Decision) → AreTokenStates model.now decisions (snapshot_of store.now)
        → (IsTrue result ↔ (let context = origin_context (content_now store.now).tokens origin in
        TermCounts model.now (IsTaken decisions) context term)) }
{
    match term {
        Term::Lit(_) | Term::Slot(_, _) | Term::Global(_) => true,
        Term::Here(_) => origin_counts(model, store, origin),
        Term::Local(_) => origin_counts(model, store, origin),
        Term::Root(number, _) => root_counts(alloc, model, store, number),
    }
}

// Whether what is said of all of the terms counts.
fn terms_count(alloc: Global, model: &Model, store: &Store, origin: Origin, terms: &[Term]) -> bool
    requires origin { IsOriginBelow (length (tokens_now store.now.past)) origin }
    requires roots { AreRootsThere model.now (content_now store.now) }
    ensures { (decisions : List Decision) → AreTokenStates model.now decisions (snapshot_of store.now)
        → (IsTrue result ↔ (let context = origin_context (content_now store.now).tokens origin in
        All (TermCounts model.now (IsTaken decisions) context) terms.now)) }
{
    for term in terms {
        if !term_counts(alloc, model, store, origin, *term) {
            return false;
        }
    }
    true
}

/// Whether all that the item is about counts, by the states of the tokens. It takes no memory.
pub fn counts(alloc: Global, model: &Model, store: &Store, origin: Origin, item: &Item) -> bool
    requires origin { IsOriginBelow (length (tokens_now store.now.past)) origin }
    requires roots { AreRootsThere model.now (content_now store.now) }
    ensures { (decisions : List Decision) → AreTokenStates model.now decisions (snapshot_of store.now)
        → (IsTrue result ↔ (let context = origin_context (content_now store.now).tokens origin in
        ItemCounts model.now (IsTaken decisions) context item.now)) }
{
    match item {
        Item::Constraint(_, terms) => terms_count(alloc, model, store, origin, terms.as_slice()),
        Item::Relation(_, _) => true,
    }
}
