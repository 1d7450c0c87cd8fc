//! Whether further tokens can come.

ghost use Rattle.std.specs.Prelude.{◌≡◌, ◌↔◌, ◌<◌, ◌≤◌, ◌^◌, Some, length, slice_get, Contains, IfOk, IsTrue, MatchBool};
ghost use Rattle.model_core.specs.declared.rule.Entry.{Entry as Standing};
ghost use Rattle.model_core.specs.declared.view.TokenState.TheVariants.{Inactive, Rejected};
ghost use Rattle.model_core.specs.Block.{plain_entries};
ghost use Rattle.model_core.specs.Entries.{Entries};
ghost use Rattle.model_core.specs.Lawful.{IsLawful};
ghost use Rattle.model_core.specs.Tokens.{IsRejectable};
ghost use Rattle.token_store.specs.Tokens.{tokens_now, token_states};
ghost use Rattle.db_refusals.specs.Judging.{IsKeptAs};
ghost use Rattle.db_resources.specs.Completeness.{AreAllDecided, IsRootOut, NamesOneOut, block_behind, IsOneOpen, IsCertainBranch, IsCertainEntry};
ghost use Rattle.db_resources.specs.Completeness.{AreCertainIn, HasOpenEntries, AreCertainAt, AreAllCertain, AreBlocksOf};

use db_posting::is_rejectable;
use db_refusals::state_of;
use db_store::{OpenBlock, Store};
use eu_name::name::TokenName;
use eu_name::sequence::Sequence;
use model_core::item::Term;
use model_core::model::Model;
use model_core::rule::{Entry, Guard, Side, Turn};
use model_core::view::TokenState;
use rule_engine::block_of;
use std::alloc::{AllocError, Global};
use token_store::Tokens;

// Whether nothing is decided of the token at the place.
fn is_inactive(tokens: &Tokens, place: u32) -> bool
    ensures { IsTrue result ↔ (slice_get (token_states (tokens_now tokens.now)) place ≡ Some Inactive) }
{
    match tokens.state(place) {
        Some(TokenState::Inactive) => true,
        _ => false,
    }
}

/// Whether something is decided of each token.
pub fn are_all_decided(tokens: &Tokens) -> bool
    ensures { MatchBool result (AreAllDecided (tokens_now tokens.now)) (AreAllDecided (tokens_now tokens.now) → ⊥) }
{
    let count = tokens.count();
    for place in 0..count {
        if is_inactive(tokens, place) {
            return false;
        }
    }
    true
}

// Whether the token is kept as rejected.
fn is_kept_rejected(store: &Store, token: &TokenName) -> bool
    ensures { MatchBool result
        (IsKeptAs (tokens_now store.now.past) token.now Rejected)
        (IsKeptAs (tokens_now store.now.past) token.now Rejected → ⊥) }
{
    store.is_sound();
    match state_of(store.tokens(), token) {
        Some(state) => matches!(state, TokenState::Rejected),
        None => false,
    }
}

// Whether the token is a rejectable that is kept as rejected.
fn is_root_out(model: &Model, store: &Store, token: &TokenName) -> bool
    ensures { MatchBool result
        (IsRejectable model.now token.now × IsKeptAs (tokens_now store.now.past) token.now Rejected)
        (IsRejectable model.now token.now × IsKeptAs (tokens_now store.now.past) token.now Rejected → ⊥) }
{
    if is_rejectable(model, token) {
        is_kept_rejected(store, token)
    } else {
        false
    }
}

// Whether the term is a part of a rejectable root that is rejected. It takes no memory.
fn is_out(alloc: Global, model: &Model, store: &Store, term: Term) -> bool
    ensures { MatchBool result
        (IsRootOut model.now (tokens_now store.now.past) term)
        (IsRootOut model.now (tokens_now store.now.past) term → ⊥) }
{
    match term {
        Term::Root(number, _) => {
            let token = TokenName {
                root: number,
                steps: Sequence::new(alloc),
            };
            is_root_out(model, store, &token)
        }
        Term::Lit(_) | Term::Here(_) | Term::Slot(_, _) | Term::Local(_) | Term::Global(_) => false,
    }
}

// Whether the guard names a rejectable root that is rejected.
fn names_one_out(alloc: Global, model: &Model, store: &Store, guard: Guard) -> bool
    ensures { MatchBool result (NamesOneOut model.now (tokens_now store.now.past) guard)
        (NamesOneOut model.now (tokens_now store.now.past) guard → ⊥) }
{
    let (one, other) = match guard {
        Guard::Equal(one, other) => (one, other),
        Guard::Differ(one, other) => (one, other),
    };
    is_out(alloc, model, store, one) || is_out(alloc, model, store, other)
}

// Whether the block to which the turn leads is open.
fn is_open(alloc: Global, store: &Store, block: &OpenBlock, turn: Turn) -> Result<bool, AllocError>
    ensures { IfOk result (λ found. MatchBool found
        (Contains store.now.blocks (block_behind block.now turn.entry turn.side))
        (Contains store.now.blocks (block_behind block.now turn.entry turn.side) → ⊥)) }
{
    let found = block.behind(alloc, turn)?;
    Ok(store.find_block(&found).is_some())
}

// Whether a block of the branch is open.
fn is_one_open(
    alloc: Global,
    store: &Store,
    block: &OpenBlock,
    place: u16,
) -> Result<bool, AllocError>
    ensures { IfOk result (λ found. MatchBool found
        (IsOneOpen store.now block.now place) (IsOneOpen store.now block.now place → ⊥)) }
{
    let side = Side::Then;
    if is_open(alloc, store, block, Turn { entry: place, side })? {
        return Ok(true);
    }
    let side = Side::Otherwise;
    is_open(alloc, store, block, Turn { entry: place, side })
}

// Whether a block of the branch is open, or its guard names a root that is rejected.
fn is_certain(
    alloc: Global,
    model: &Model,
    store: &Store,
    block: &OpenBlock,
    place: u16,
    guard: Guard,
) -> Result<bool, AllocError>
    ensures { IfOk result (λ certain. MatchBool certain
        (IsCertainBranch model.now store.now block.now place guard)
        (IsCertainBranch model.now store.now block.now place guard → ⊥)) }
{
    if names_one_out(alloc, model, store, guard) {
        return Ok(true);
    }
    is_one_open(alloc, store, block, place)
}

// Whether the entry is no branch, or such a one.
fn is_certain_entry(
    alloc: Global,
    model: &Model,
    store: &Store,
    block: &OpenBlock,
    place: u16,
    entry: &Entry,
) -> Result<bool, AllocError>
    ensures { IfOk result (λ certain. MatchBool certain
        (IsCertainEntry model.now store.now block.now place entry.now)
        (IsCertainEntry model.now store.now block.now place entry.now → ⊥)) }
{
    match entry {
        Entry::Branch { guard, .. } => is_certain(alloc, model, store, block, place, *guard),
        Entry::Slot(_) | Entry::Local(_) | Entry::Item(_) => Ok(true),
    }
}

// Whether each branch among the entries is such.
fn are_certain_entries(
    alloc: Global,
    model: &Model,
    store: &Store,
    block: &OpenBlock,
    entries: &[Entry],
) -> Result<bool, AllocError>
    requires { length entries.now ≤ 2 ^ 16 }
    ensures { IfOk result (λ certain. MatchBool certain
        (AreCertainIn model.now store.now block.now (plain_entries entries.now))
        (AreCertainIn model.now store.now block.now (plain_entries entries.now) → ⊥)) }
{
    for (place, entry) in entries.iter().enumerate() {
        if !is_certain_entry(alloc, model, store, block, place as u16, entry)? {
            return Ok(false);
        }
    }
    Ok(true)
}

// Whether each branch in the open block is such.
fn are_certain_in(
    alloc: Global,
    model: &Model,
    store: &Store,
    block: &OpenBlock,
) -> Result<bool, AllocError>
    requires lawful { IsLawful model.now }
    requires token { block.now.token < length (tokens_now store.now.past) }
    requires there { (entries : Entries) × HasOpenEntries model.now store.now block.now entries }
    ensures { IfOk result (λ certain. (entries : Entries) → HasOpenEntries model.now store.now block.now entries
        → MatchBool certain
        (AreCertainIn model.now store.now block.now entries)
        (AreCertainIn model.now store.now block.now entries → ⊥)) }
{
    match store.tokens().name(block.token) {
        Some(token) => {
            let found = block_of(model, token, block.rule, block.path.as_slice());
            are_certain_entries(alloc, model, store, block, found.entries.as_slice())
        }
        None => unreachable!(),
    }
}

// Whether each branch in the open block of this number is such.
fn is_certain_block(
    alloc: Global,
    model: &Model,
    store: &Store,
    number: usize,
) -> Result<bool, AllocError>
    requires lawful { IsLawful model.now }
    requires there { AreBlocksOf model.now store.now }
    requires within { number < length store.now.blocks }
    ensures { IfOk result (λ certain. MatchBool certain
        (AreCertainAt model.now store.now number)
        (AreCertainAt model.now store.now number → ⊥)) }
{
    store.is_sound();
    match store.block_at(number) {
        Some(block) => are_certain_in(alloc, model, store, block),
        None => unreachable!(),
    }
}

/// Whether of each branch in an open block a block is open, or its guard names a root that is rejected.
pub fn are_all_certain(alloc: Global, model: &Model, store: &Store) -> Result<bool, AllocError>
    requires lawful { IsLawful model.now }
    requires there { AreBlocksOf model.now store.now }
    ensures { IfOk result (λ certain. MatchBool certain
        (AreAllCertain model.now store.now)
        (AreAllCertain model.now store.now → ⊥)) }
{
    let count = store.block_count();
    for number in 0..count {
        if !is_certain_block(alloc, model, store, number)? {
            return Ok(false);
        }
    }
    Ok(true)
}
