//! Which variables a block watches.

ghost use Rattle.std.specs.Prelude.{◌≡◌, ◌<◌, length, OnOk};
ghost use Rattle.model_core.specs.Block.{plain_entries};
ghost use Rattle.token_store.specs.Tokens.{tokens_now};
ghost use Rattle.db_refine.specs.Coming.{IsTermThere};
ghost use Rattle.db_store.specs.StoreMarks.{KeepStoreMarks};
ghost use Rattle.db_posting.specs.Origins.{content_now, origin_context, IsOriginBelow};
ghost use Rattle.db_posting.specs.Terms.{CanStand};
ghost use Rattle.db_fixpoint.specs.Reading.{block_named, IsGuardNamed, AreGuardsNamed};
ghost use Rattle.db_fixpoint.specs.Unfolding.{OnlyWatches, IsTermWatched, IsGuardWatched, AreGuardsWatched};

use super::guards::{Compared, parts_of};
use constraint_net::NetArg;
use db_posting::{Origin, argument_of};
use db_store::{OpenBlock, Store};
use model_core::item::Term;
use model_core::rule::{Entry, Guard};
use std::alloc::{AllocError, Global};

// Lets the block of this number watch the variable that the term means, if it means one.
fn watch_term(
    alloc: Global,
    store: &mut Store,
    origin: Origin,
    number: usize,
    term: Term,
) -> Result<(), AllocError>
    requires number { number < length store.old.blocks }
    requires origin { IsOriginBelow (length (tokens_now store.old.past)) origin }
    requires stands { CanStand (origin_context (content_now store.old).tokens origin) term }
    requires there { let content = content_now store.old in
        IsTermThere content (origin_context content.tokens origin) term }
    ensures watched { OnOk result
        (IsTermWatched store.new number (origin_context (content_now store.old).tokens origin) term) }
    ensures only { OnlyWatches store.old store.new }
    ensures marks { KeepStoreMarks store.old store.new }
{
    store.is_sound();
    match argument_of(alloc, store, origin, term)? {
        NetArg::Var(variable) => store.watch(variable, number),
        NetArg::Lit(_) => Ok(()),
    }
}

// Lets the block of this number watch the variables that the guard names.
fn watch_guard(
    alloc: Global,
    store: &mut Store,
    origin: Origin,
    number: usize,
    guard: Guard,
) -> Result<(), AllocError>
    requires number { number < length store.old.blocks }
    requires origin { IsOriginBelow (length (tokens_now store.old.past)) origin }
    requires named { let content = content_now store.old in
        IsGuardNamed content (origin_context content.tokens origin) guard }
    ensures watched { OnOk result
        (IsGuardWatched store.new number (origin_context (content_now store.old).tokens origin) guard) }
    ensures only { OnlyWatches store.old store.new }
    ensures marks { KeepStoreMarks store.old store.new }
{
    let Compared { one, other, .. } = parts_of(guard);
    watch_term(alloc, store, origin, number, one)?;
    watch_term(alloc, store, origin, number, other)
}

/// Lets the open block, which has this number, watch the variables that the guards among its entries name.
pub fn watch_guards(
    alloc: Global,
    store: &mut Store,
    number: usize,
    block: &OpenBlock,
    entries: &[Entry],
) -> Result<(), AllocError>
    requires number { number < length store.old.blocks }
    requires token { block.now.token < length (tokens_now store.old.past) }
    requires named { AreGuardsNamed (content_now store.old) (block_named store.old block.now) (plain_entries entries.now) }
    ensures watched { OnOk result
        (AreGuardsWatched store.new number (block_named store.old block.now) (plain_entries entries.now)) }
    ensures only { OnlyWatches store.old store.new }
    ensures marks { KeepStoreMarks store.old store.new }
{
    let origin = Origin::Rule {
        token: block.token,
        rule: block.rule,
    };
    for entry in entries {
        if let Entry::Branch { guard, .. } = entry {
            watch_guard(alloc, store, origin, number, *guard)?;
        }
    }
    Ok(())
}
