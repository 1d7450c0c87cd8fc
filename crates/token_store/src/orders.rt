//! The order of names among the tokens, and their parents.

ghost use Rattle.std.specs.Prelude.{◌≡◌, ◌<◌, ◌≤◌, ◌↔◌, IsTrue, length, insert, vec_len, vec_capacity, IfOk, OnOk, OnErr};
ghost use Rattle.eu_name.specs.NameOrder.{IsTokenBefore};
ghost use Rattle.token_store.specs.Tokens.{token_names};
ghost use Rattle.token_store.specs.Orders.{IsRanking, name_at};
ghost use Rattle.token_store.specs.Listed.{lists_of, with_child};
ghost use Rattle.token_store.specs.Pieces.{Parts, FindsParent};

use super::lists::Lists;
use super::trail::{Token, find_place};
use eu_name::laws::names_are_in_order;
use eu_name::name::TokenName;
use eu_name::name_order::order;
use eu_name::sequence::Sequence;
use indexmap::IndexMap;
use std::alloc::AllocError;
use std::cmp::Ordering;

/// How many tokens come before this name, in the order of names.
pub fn rank_of(tokens: &IndexMap<TokenName, Token>, by_rank: &[u32], name: &TokenName) -> usize
    requires { IsRanking (token_names tokens.now.entries) by_rank.now }
    ensures { Parts (token_names tokens.now.entries) by_rank.now name.now result }
{
    names_are_in_order();
    let mut low = 0;
    let mut high = by_rank.len();
    while low < high {
        let middle = low + (high - low) / 2;
        if is_before(tokens, by_rank[middle], name) {
            low = middle + 1;
        } else {
            high = middle;
        }
    }
    low
}

// Whether the name at the place comes before this one.
fn is_before(tokens: &IndexMap<TokenName, Token>, place: u32, name: &TokenName) -> bool
    requires { place < length tokens.now.entries }
    ensures { IsTrue result ↔ IsTokenBefore (name_at (token_names tokens.now.entries) place) name.now }
{
    match tokens.get_index(place as usize) {
        None => unreachable!(),
        Some((other, _token)) => matches!(order(other, name), Ordering::Less),
    }
}

/// Puts the place at this rank, for which there is room.
pub fn insert_in_room(by_rank: &mut Vec<u32>, rank: usize, place: u32)
    requires rank { rank ≤ length by_rank.old.items }
    requires room { vec_len by_rank.old < vec_capacity by_rank.old }
    ensures { by_rank.new.items ≡ insert by_rank.old.items rank place }
{
    match by_rank.insert(rank, place) {
        Ok(()) => {}
        Err(_full) => unreachable!(),
    }
}

/// The name as it was, and the place of the token whose subgoal it is.
pub fn with_parent(
    tokens: &IndexMap<TokenName, Token>,
    name: TokenName,
) -> Result<(TokenName, Option<usize>), AllocError>
    ensures same { IfOk result (λ found. found.0 ≡ name) }
    ensures parent { IfOk result (λ found. FindsParent (token_names tokens.now.entries) name found.1) }
{
    let TokenName { root, steps } = name;
    let mut steps = steps.into_vec();
    match steps.pop() {
        None => {
            let steps = Sequence::from_vec(steps);
            return Ok((TokenName { root, steps }, None));
        }
        Some(last) => {
            let steps = Sequence::from_vec(steps);
            let parent = TokenName { root, steps };
            let place = find_place(tokens, &parent);
            let TokenName { root, steps } = parent;
            let mut steps = steps;
            steps.push(last)?;
            return Ok((TokenName { root, steps }, place));
        }
    }
}

/// Notes the token at the place as a subgoal of its parent, if it has one.
pub fn add_child(children: &mut Lists, parent: Option<usize>, place: u32) -> Result<(), AllocError>
    ensures ok { OnOk result (lists_of children.new ≡ with_child (lists_of children.old) parent place) }
    ensures err { OnErr result (lists_of children.new ≡ lists_of children.old) }
{
    match parent {
        Some(found) => children.add(found, place),
        None => Ok(()),
    }
}
