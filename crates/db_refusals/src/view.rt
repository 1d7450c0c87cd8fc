//! The view.

ghost use Rattle.std.specs.Prelude.{◌≡◌, ◌↔◌, ◌<◌, length, slice_get, option_copied, Contains, IsTrue, MatchOption};
ghost use Rattle.eu_name.specs.declared.name.VarName.TheVariants.{Token, Local};
ghost use Rattle.model_core.specs.declared.decision.Decision.TheVariants.{Order};
ghost use Rattle.model_core.specs.Views.{IsDomainIn, IsDomainAt};
ghost use Rattle.token_store.specs.Orders.{HasRank};
ghost use Rattle.token_store.specs.Tokens.{tokens_now, token_names};
ghost use Rattle.db_store.specs.Stores.{snapshot_of};
ghost use Rattle.db_posting.specs.Counting.{AreTokenStates};
ghost use Rattle.db_refusals.specs.Seeing.{seen_state, FindsRank, GivesKey, IsStateBelow, IsRankedState};

use db_store::laws::names_are_once;
use db_store::{Store, VarKey};
use domain_core::domain::Dom;
use eu_name::laws::{names_are_in_order, names_are_told_apart};
use eu_name::name::{Part, TokenName, VarName};
use model_core::decision::Decision;
use model_core::model::Model;
use model_core::view::{TokenState, View};
use std::marker;
use token_store::Tokens;
use token_store::laws::ranks_are_inverse;

/// What is in a store of a model, by the decisions that it comes of.
#[derive(Drop)]
pub struct StoreView<'a> {
    model: &'a Model,
    store: &'a Store,
    decisions: &'a [Decision],
}

impl<'a> marker::Model for StoreView<'a> {
    ghost use Rattle.db_refusals.specs.Seeing.{Seen};

    ghost Value = { Seen };

    ghost use Rattle.std.specs.Coded.{codes};
    ghost use Rattle.model_core.specs.contracts.model.Model as a_model;
    ghost use Rattle.db_store.specs.Stores.{snapshot_of};
    ghost use Rattle.db_posting.specs.Counting.{AreTokenStates};

    ghost coded = { Prim.hlevel (codes, a_model.the_row.coded) };

    ghost view = { λ seen. record { model = seen.model.now; stored = seen.store.now; decisions = seen.decisions.now } };

    ghost invariant = { λ seen. AreTokenStates seen.model.now seen.decisions.now (snapshot_of seen.store.now) };
}

impl<'a> StoreView<'a> {
    /// The view of what is in the store.
    pub fn new(model: &'a Model, store: &'a Store, decisions: &'a [Decision]) -> StoreView<'a>
        requires { AreTokenStates model.now decisions.now (snapshot_of store.now) }
        ensures { result ≡ record { model = model.now; stored = store.now; decisions = decisions.now } }
    {
        StoreView {
            model,
            store,
            decisions,
        }
    }
}

impl<'a> View for StoreView<'a> {
    ghost model = { λ seen. seen.model };

    ghost state = { λ seen. seen_state seen.stored };

    ghost decisions = { λ seen. seen.decisions };

    fn count(&self) -> u32 {
        count(self.store)
    }

    fn token_at(&self, place: u32) -> Option<&TokenName> {
        token_at(self.store, place)
    }

    fn state_at(&self, place: u32) -> Option<TokenState> {
        self.store.is_sound();
        names_are_once();
        let tokens = self.store.tokens();
        let Some(found) = find_rank(tokens, place) else {
            return None;
        };
        let Some(state) = tokens.state(found) else {
            return None;
        };
        Some(ranked_state(tokens, state))
    }

    fn domain(&self, variable: &VarName) -> Option<&Dom> {
        domain(self.store, variable)
    }

    fn domain_at(&self, place: u32, part: Part) -> Option<&Dom> {
        part_at(self.store, place, part)
    }

    fn local_at(&self, place: u32, rule: u16, number: u16) -> Option<&Dom> {
        local_at(self.store, place, rule, number)
    }

    fn ordered(&self, first: u32, second: u32) -> bool {
        let Some(one) = token_at(self.store, first) else {
            return false;
        };
        let Some(other) = token_at(self.store, second) else {
            return false;
        };
        are_ordered(self.decisions, one, other)
    }
}

// How many tokens there are.
fn count(store: &Store) -> u32
    ensures { result ≡ length (seen_state store.now).tokens }
{
    store.is_sound();
    names_are_once();
    store.tokens().count()
}

// The token of this rank in the order of names.
fn token_at(store: &Store, rank: u32) -> Option<&TokenName>
    ensures { option_copied result ≡ slice_get (seen_state store.now).tokens rank }
{
    store.is_sound();
    names_are_once();
    let tokens = store.tokens();
    match find_rank(tokens, rank) {
        Some(place) => tokens.name(place),
        None => None,
    }
}

// The domain of the variable of this key.
fn domain_of(store: &Store, key: VarKey) -> Option<&Dom>
    ensures { GivesKey store.now.keys store.now.net.domains key (option_copied result) }
{
    store.is_sound();
    match store.find_variable(key) {
        Some(number) => store.net().get(number),
        None => None,
    }
}

/// The domain of the variable of this name, if it is in the store.
pub fn domain<'a>(store: &'a Store, variable: &VarName) -> Option<&'a Dom>
    ensures { IsDomainIn (seen_state store.now) variable.now (option_copied result) }
{
    store.is_sound();
    names_are_once();
    match store.find_named(variable) {
        Some(number) => store.net().get(number),
        None => None,
    }
}

// The domain of this part of the token of this rank.
fn part_at(store: &Store, rank: u32, part: Part) -> Option<&Dom>
    ensures { IsDomainAt (seen_state store.now) rank (λ token. Token token part) (option_copied result) }
{
    store.is_sound();
    names_are_once();
    match find_rank(store.tokens(), rank) {
        Some(token) => domain_of(store, VarKey::Part(token, part)),
        None => None,
    }
}

// The domain of this local of the token of this rank.
fn local_at(store: &Store, rank: u32, rule: u16, number: u16) -> Option<&Dom>
    ensures { IsDomainAt (seen_state store.now) rank (λ token. Local token rule number) (option_copied result) }
{
    store.is_sound();
    names_are_once();
    match find_rank(store.tokens(), rank) {
        Some(token) => domain_of(
            store,
            VarKey::Local {
                token,
                rule,
                number,
            },
        ),
        None => None,
    }
}

// The place of the token of this rank in the order of names.
fn find_rank(tokens: &Tokens, rank: u32) -> Option<u32>
    ensures { FindsRank (token_names (tokens_now tokens.now)) rank result }
{
    names_are_in_order();
    tokens.at_rank(rank)
}

// The state of a token, with ranks in place of places.
fn ranked_state(tokens: &Tokens, state: TokenState) -> TokenState
    requires { IsStateBelow (length (tokens_now tokens.now)) state }
    ensures { IsRankedState (token_names (tokens_now tokens.now)) state result }
{
    match state {
        TokenState::Merged(place) => TokenState::Merged(rank_of(tokens, place)),
        other => other,
    }
}

// The rank of the token at the place in the order of names.
fn rank_of(tokens: &Tokens, place: u32) -> u32
    requires { place < length (tokens_now tokens.now) }
    ensures { HasRank (token_names (tokens_now tokens.now)) place result }
{
    match tokens.rank(place) {
        Some(rank) => rank,
        None => unreachable!(),
    }
}

/// Whether the decisions put the one token before the other.
pub fn are_ordered(decisions: &[Decision], one: &TokenName, other: &TokenName) -> bool
    ensures { IsTrue result ↔ Contains decisions.now (Order one.now other.now) }
{
    decisions
        .iter()
        .any(|decision| is_order(decision, one, other))
}

// Whether the decision puts the one token before the other.
fn is_order(decision: &Decision, one: &TokenName, other: &TokenName) -> bool
    ensures { IsTrue result ↔ (decision.now ≡ Order one.now other.now) }
{
    names_are_told_apart();
    match decision {
        Decision::Order(first, second) => first == one && second == other,
        _ => false,
    }
}
