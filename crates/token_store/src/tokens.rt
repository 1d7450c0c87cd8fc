//! Tokens with a trail.

ghost use Rattle.std.specs.Prelude.{◌≡◌, ◌+◌, ◌^◌, ◌<◌, ◌≤◌, [], ◌∷◌, length, option_copied, slice_get, MatchOption, IfOk, OnOk, OnErr, vec_len, vec_capacity};
ghost use Rattle.indexmap.specs.IndexMap.{spare};
ghost use Rattle.token_store.specs.Tokens.{tokens_now, token_names, token_preds, token_states, IsNewName, FindsToken, AddsToken, LeavesPast, NamesStay, with_state, with_token};
ghost use Rattle.token_store.specs.Orders.{HasRank, AreChildren};
ghost use Rattle.token_store.specs.Listed.{lists_of, with_child};

use super::AddFault;
use super::lists::Lists;
use super::orders::{add_child, insert_in_room, rank_of, with_parent};
use super::returning::go_back;
use super::trail::{Edit, Token, find_place, put_state, put_token};
use eu_name::laws::names_are_in_order;
use eu_name::name::TokenName;
use indexmap::IndexMap;
use model_core::view::TokenState;
use std::alloc::{AllocError, Global};
use std::marker::Model;

/// Tokens, each with a name of its own, by place. Contracts see the lists of tokens that can be gone back to.
#[derive(Drop)]
pub struct Tokens {
    tokens: IndexMap<TokenName, Token>,
    trail: Vec<Edit>,
    // The places in the order of names.
    by_rank: Vec<u32>,
    // The places of each token's subgoals, under its own.
    children: Lists,
}

/// A point to which the tokens can go back, as long as they haven't gone back to one before it.
#[derive(Clone, Copy)]
pub struct Mark {
    place: usize,
}

impl Model for Mark {
    ghost use Rattle.std.specs.Prelude.{ℕ};

    ghost Value = { ℕ };

    ghost view = { λ mark. mark.place };

    ghost inverse = { λ place. record { place = place } };
}

impl Model for Tokens {
    ghost use Rattle.std.specs.Prelude.{reverse};
    ghost use Rattle.token_store.specs.Tokens.{TokenPast};
    ghost use Rattle.token_store.specs.Kept.{token_past, AreKeptTokens};
    ghost use Rattle.token_store.specs.Listed.{lists_of};

    ghost Value = { TokenPast };

    ghost view = { λ store. token_past store.tokens.entries (reverse store.trail.items) };

    ghost invariant = { λ store.
        AreKeptTokens store.tokens.entries (reverse store.trail.items) store.by_rank.items (lists_of store.children) };
}

impl Tokens {
    /// No tokens, which take no memory.
    pub fn new(alloc: Global) -> Tokens
        ensures { result ≡ [] ∷ [] }
    {
        Tokens {
            tokens: IndexMap::new(alloc),
            trail: Vec::new(alloc),
            by_rank: Vec::new(alloc),
            children: Lists::new(alloc),
        }
    }

    /// Adds a token, of which nothing is decided yet, and answers its place.
    pub fn add(&mut self, name: TokenName, pred: u32) -> Result<u32, AddFault>
        ensures { AddsToken name pred self.old result self.new }
    {
        if self.find(&name).is_some() {
            return Err(AddFault::Twice);
        }
        match self.add_new(name, pred) {
            Ok(place) => Ok(place),
            Err(_none) => Err(AddFault::Memory),
        }
    }

    // Adds a token of a new name.
    fn add_new(&mut self, name: TokenName, pred: u32) -> Result<u32, AllocError>
        requires { IsNewName (tokens_now self.old) name }
        ensures place { IfOk result (λ place. place ≡ length (tokens_now self.old)) }
        ensures ok { OnOk result (self.new ≡ with_token (tokens_now self.old) name pred ∷ self.old) }
        ensures err { OnErr result (self.new ≡ self.old) }
    {
        let (name, parent) = with_parent(&self.tokens, name)?;
        let place = make_place(
            &mut self.tokens,
            &mut self.trail,
            &mut self.by_rank,
            &mut self.children,
            parent,
        )?;
        names_are_in_order();
        let rank = rank_of(&self.tokens, &self.by_rank, &name);
        insert_in_room(&mut self.by_rank, rank, place);
        self.trail.push_reserved(Edit::Added);
        let token = Token {
            pred,
            state: TokenState::Inactive,
        };
        put_token(&mut self.tokens, name, token);
        Ok(place)
    }

    /// A law of all tokens: a token keeps its place for as long as it is there.
    pub fn names_stay(&self)
        ensures { NamesStay self.now }
    {
        let _ = &self.trail;
    }

    /// How many tokens there are.
    pub fn count(&self) -> u32
        ensures { result ≡ length (tokens_now self.now) }
    {
        self.tokens.len() as u32
    }

    /// The name of the token at the place. None where there is no such token.
    pub fn name(&self, place: u32) -> Option<&TokenName>
        ensures { option_copied result ≡ slice_get (token_names (tokens_now self.now)) place }
    {
        match self.tokens.get_index(place as usize) {
            Some((name, _token)) => Some(name),
            None => None,
        }
    }

    /// The predicate of the token at the place. None where there is no such token.
    pub fn pred(&self, place: u32) -> Option<u32>
        ensures { result ≡ slice_get (token_preds (tokens_now self.now)) place }
    {
        match self.tokens.get_index(place as usize) {
            Some((_name, token)) => Some(token.pred),
            None => None,
        }
    }

    /// The state of the token at the place. None where there is no such token.
    pub fn state(&self, place: u32) -> Option<TokenState>
        ensures { result ≡ slice_get (token_states (tokens_now self.now)) place }
    {
        match self.tokens.get_index(place as usize) {
            Some((_name, token)) => Some(token.state),
            None => None,
        }
    }

    /// The place of the token of this name. None where there is no such token.
    pub fn find(&self, name: &TokenName) -> Option<u32>
        ensures { FindsToken (tokens_now self.now) name.now result }
    {
        match find_place(&self.tokens, name) {
            Some(place) => Some(place as u32),
            None => None,
        }
    }

    /// Gives the token at the place a state.
    pub fn set_state(&mut self, place: u32, state: TokenState) -> Result<(), AllocError>
        requires { place < length (tokens_now self.old) }
        ensures ok { OnOk result (self.new ≡ with_state (tokens_now self.old) place state ∷ self.old) }
        ensures err { OnErr result (self.new ≡ self.old) }
    {
        let former = self.tokens[place as usize].state;
        self.trail.push(Edit::Was {
            place,
            state: former,
        })?;
        put_state(&mut self.tokens, place as usize, state);
        Ok(())
    }

    /// The places of the tokens that were added after this one and are subgoals of it, in order of adding.
    pub fn children(&self, place: u32) -> &[u32]
        requires { place < length (tokens_now self.now) }
        ensures { AreChildren (token_names (tokens_now self.now)) place result.now }
    {
        self.children.of(place as usize)
    }

    /// The place of the token of this rank in the order of names. None where there is no such rank.
    pub fn at_rank(&self, rank: u32) -> Option<u32>
        ensures { MatchOption result
            (length (tokens_now self.now) ≤ rank)
            (λ place. HasRank (token_names (tokens_now self.now)) place rank) }
    {
        names_are_in_order();
        match self.by_rank.get(rank as usize) {
            Some(place) => Some(*place),
            None => None,
        }
    }

    /// The rank of the token at the place in the order of names. None where there is no such token.
    pub fn rank(&self, place: u32) -> Option<u32>
        ensures { MatchOption result
            (length (tokens_now self.now) ≤ place)
            (λ rank. HasRank (token_names (tokens_now self.now)) place rank) }
    {
        names_are_in_order();
        match self.tokens.get_index(place as usize) {
            Some((name, _token)) => Some(rank_of(&self.tokens, &self.by_rank, name) as u32),
            None => None,
        }
    }

    /// A mark at the tokens as they are.
    pub fn mark(&self) -> Mark
        ensures { result + 1 ≡ length self.now }
    {
        Mark {
            place: self.trail.len(),
        }
    }

    /// Brings back the tokens and the states at the mark, without memory.
    pub fn back_to(&mut self, mark: Mark)
        requires { mark < length self.old }
        ensures { LeavesPast mark self.old self.new }
    {
        go_back(
            &mut self.tokens,
            &mut self.trail,
            &mut self.by_rank,
            &mut self.children,
            mark.place,
        );
    }
}

// The place of the next token, or that there is none.
fn next_place(tokens: &IndexMap<TokenName, Token>) -> Result<u32, AllocError>
    ensures place { IfOk result (λ place. place ≡ length tokens.now.entries) }
    ensures few { IfOk result (λ place. place + 1 < 2 ^ 32) }
{
    let count = tokens.len();
    if count >= u32::MAX as usize {
        return Err(AllocError);
    }
    Ok(count as u32)
}

// Makes room for one more token at the next place, and notes it with its parent.
fn make_place(
    tokens: &mut IndexMap<TokenName, Token>,
    trail: &mut Vec<Edit>,
    by_rank: &mut Vec<u32>,
    children: &mut Lists,
    parent: Option<usize>,
) -> Result<u32, AllocError>
    ensures tokens { tokens.new.entries ≡ tokens.old.entries }
    ensures trail { trail.new.items ≡ trail.old.items }
    ensures by_rank { by_rank.new.items ≡ by_rank.old.items }
    ensures room { OnOk result (0 < spare tokens.new) }
    ensures trail_room { OnOk result (vec_len trail.new < vec_capacity trail.new) }
    ensures rank_room { OnOk result (vec_len by_rank.new < vec_capacity by_rank.new) }
    ensures place { IfOk result (λ place. place ≡ length tokens.old.entries) }
    ensures few { IfOk result (λ place. place + 1 < 2 ^ 32) }
    ensures noted { IfOk result (λ place. lists_of children.new ≡ with_child (lists_of children.old) parent place) }
    ensures err { OnErr result (lists_of children.new ≡ lists_of children.old) }
{
    let place = next_place(tokens)?;
    make_room(tokens, trail, by_rank)?;
    add_child(children, parent, place)?;
    Ok(place)
}

// Makes room for one more token, one more edit and one more rank.
fn make_room(
    tokens: &mut IndexMap<TokenName, Token>,
    trail: &mut Vec<Edit>,
    by_rank: &mut Vec<u32>,
) -> Result<(), AllocError>
    ensures tokens { tokens.new.entries ≡ tokens.old.entries }
    ensures trail { trail.new.items ≡ trail.old.items }
    ensures by_rank { by_rank.new.items ≡ by_rank.old.items }
    ensures room { OnOk result (0 < spare tokens.new) }
    ensures trail_room { OnOk result (vec_len trail.new < vec_capacity trail.new) }
    ensures rank_room { OnOk result (vec_len by_rank.new < vec_capacity by_rank.new) }
{
    by_rank.reserve(1)?;
    trail.reserve(1)?;
    tokens.reserve(1)?;
    Ok(())
}
