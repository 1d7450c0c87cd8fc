//! Going back along the trail, which costs what goes.

ghost use Rattle.std.specs.Prelude.{◌≡◌, ◌-◌, ◌<◌, ◌≤◌, ◌++◌, ◌∷◌, [], length, reverse, take, vec_len};
ghost use Rattle.token_store.specs.Tokens.{token_names, LeavesPast};
ghost use Rattle.token_store.specs.Orders.{IsRanking};
ghost use Rattle.token_store.specs.Kept.{token_past, AreKeptTokens, HaveChildren};
ghost use Rattle.token_store.specs.Listed.{lists_of};
ghost use Rattle.token_store.specs.Pieces.{FindsParent, TokensStepBack};

use super::lists::Lists;
use super::orders::rank_of;
use super::trail::{Edit, Token, find_place, put_state};
use eu_name::laws::names_are_in_order;
use eu_name::name::TokenName;
use eu_name::sequence::Sequence;
use indexmap::IndexMap;

/// Goes back along the trail until it has this length.
pub fn go_back(
    tokens: &mut IndexMap<TokenName, Token>,
    trail: &mut Vec<Edit>,
    by_rank: &mut Vec<u32>,
    children: &mut Lists,
    behind: usize,
)
    requires kept { AreKeptTokens tokens.old.entries (reverse trail.old.items) by_rank.old.items (lists_of children.old) }
    requires long { behind ≤ vec_len trail.old }
    ensures back { LeavesPast behind (token_past tokens.old.entries (reverse trail.old.items))
        (token_past tokens.new.entries (reverse trail.new.items)) }
    ensures kept { AreKeptTokens tokens.new.entries (reverse trail.new.items) by_rank.new.items (lists_of children.new) }
{
    while trail.len() > behind {
        step_back(tokens, trail, by_rank, children);
    }
}

// Goes back over the last edit of the trail.
fn step_back(
    tokens: &mut IndexMap<TokenName, Token>,
    trail: &mut Vec<Edit>,
    by_rank: &mut Vec<u32>,
    children: &mut Lists,
)
    requires kept { AreKeptTokens tokens.old.entries (reverse trail.old.items) by_rank.old.items (lists_of children.old) }
    requires some { 0 < length trail.old.items }
    ensures back { TokensStepBack (tokens.old.entries, trail.old.items) (tokens.new.entries, trail.new.items) }
    ensures kept { AreKeptTokens tokens.new.entries (reverse trail.new.items) by_rank.new.items (lists_of children.new) }
{
    match trail.pop() {
        None => unreachable!(),
        Some(Edit::Added) => take_last(tokens, by_rank, children),
        Some(Edit::Was { place, state }) => put_state(tokens, place as usize, state),
    }
}

// Takes the last token off, with its rank and its place among the subgoals of its parent.
fn take_last(tokens: &mut IndexMap<TokenName, Token>, by_rank: &mut Vec<u32>, children: &mut Lists)
    requires some { 0 < length tokens.old.entries }
    requires ranked { IsRanking (token_names tokens.old.entries) by_rank.old.items }
    requires listed { HaveChildren (token_names tokens.old.entries) (lists_of children.old) }
    ensures tokens { tokens.new.entries ≡ take (length tokens.old.entries - 1) tokens.old.entries }
    ensures ranked { IsRanking (token_names tokens.new.entries) by_rank.new.items }
    ensures listed { HaveChildren (token_names tokens.new.entries) (lists_of children.new) }
{
    take_rank(tokens, by_rank);
    match tokens.pop() {
        None => unreachable!(),
        Some((name, _token)) => take_child(tokens, children, name),
    }
}

// Takes the last token off the ranking.
fn take_rank(tokens: &IndexMap<TokenName, Token>, by_rank: &mut Vec<u32>)
    requires some { 0 < length tokens.now.entries }
    requires ranked { IsRanking (token_names tokens.now.entries) by_rank.old.items }
    ensures { IsRanking (take (length tokens.now.entries - 1) (token_names tokens.now.entries)) by_rank.new.items }
{
    names_are_in_order();
    match tokens.get_index(tokens.len() - 1) {
        None => unreachable!(),
        Some((name, _token)) => {
            let rank = rank_of(tokens, by_rank, name);
            let _place = by_rank.remove(rank);
        }
    }
}

// Takes a token that has gone off the subgoals of its parent.
fn take_child(tokens: &IndexMap<TokenName, Token>, children: &mut Lists, name: TokenName)
    requires { HaveChildren (token_names tokens.now.entries ++ name ∷ []) (lists_of children.old) }
    ensures { HaveChildren (token_names tokens.now.entries) (lists_of children.new) }
{
    if let Some(parent) = parent_of(tokens, name) {
        children.pop(parent);
    }
}

// The place of the token whose subgoal the name is.
fn parent_of(tokens: &IndexMap<TokenName, Token>, name: TokenName) -> Option<usize>
    ensures { FindsParent (token_names tokens.now.entries) name result }
{
    let TokenName { root, steps } = name;
    let mut steps = steps.into_vec();
    match steps.pop() {
        None => None,
        Some(_last) => {
            let steps = Sequence::from_vec(steps);
            find_place(tokens, &TokenName { root, steps })
        }
    }
}
