//! Items that begin to count with a rejectable root that is taken.

ghost use Rattle.std.specs.Prelude.{◌≡◌, ◌+◌, ◌<◌, ◌≤◌, length, Some, slice_get, All, OnOk};
ghost use Rattle.model_core.specs.Blocks.{TokenBlock, IsBlock};
ghost use Rattle.model_core.specs.Entries.{Entries};
ghost use Rattle.model_core.specs.Lawful.{IsLawful};
ghost use Rattle.token_store.specs.Tokens.{tokens_now};
ghost use Rattle.plan_defs.specs.Terms.{InProblem, InRule};
ghost use Rattle.model_core.specs.Content.{IsContent};
ghost use Rattle.db_store.specs.StoreMarks.{KeepStoreMarks};
ghost use Rattle.db_posting.specs.Counting.{AreRootsThere};
ghost use Rattle.db_posting.specs.declared.origin.Origin.TheVariants.{Rule};
ghost use Rattle.db_posting.specs.Origins.{content_now, origin_context, IsOriginBelow};
ghost use Rattle.db_posting.specs.Postable.{CanPostItem, IsItemNamed};
ghost use Rattle.db_posting.specs.Posted.{OnlyPosts};
ghost use Rattle.db_posting.specs.Tables.{HaveTables};
ghost use Rattle.db_decide.specs.RootItems.{SaysOfRoot, SaysAmong, EntrySays, EntriesSay, SaysInBlockAt, SaysInBlocks, SaysAnywhere, SaysOfRejectable};
ghost use Rattle.db_decide.specs.RootItems.{PostsSaid, CanPostEntry, CanPostItems};

use super::about::is_about_root;
use db_opening::post_what_counts;
use db_posting::{Origin, is_rejectable};
use db_store::{OpenBlock, Store};
use eu_name::name::TokenName;
use model_core::item::Item;
use model_core::model::Model;
use model_core::rule::{Block, Entry};
use rule_engine::block_of;
use std::alloc::{AllocError, Global};

// Asks from now on for what the item says, if it is about the root and all that it is about counts.
fn post_of_root(
    alloc: Global,
    store: &mut Store,
    model: &Model,
    origin: Origin,
    item: &Item,
    root: u32,
) -> Result<(), AllocError>
    requires origin { IsOriginBelow (length (tokens_now store.old.past)) origin }
    requires roots { AreRootsThere model.now (content_now store.old) }
    requires postable { CanPostItem store.old.net.tables (origin_context (content_now store.old).tokens origin) item.now }
    requires there { let content = content_now store.old in
        IsItemNamed content (origin_context content.tokens origin) item.now }
    ensures posted { OnOk result (let context = origin_context (content_now store.old).tokens origin in
        PostsSaid model.now (λ decisions. SaysOfRoot model.now decisions root context item.now) store.old store.new) }
    ensures only { OnlyPosts store.old store.new }
    ensures marks { KeepStoreMarks store.old store.new }
{
    if is_about_root(item, root) {
        post_what_counts(alloc, store, model, origin, item)
    } else {
        Ok(())
    }
}

// Asks for what the items of the problem say about the root.
fn post_in_problem(
    alloc: Global,
    store: &mut Store,
    model: &Model,
    root: u32,
) -> Result<(), AllocError>
    requires lawful { IsLawful model.now }
    requires tables { HaveTables model.now store.old.net.tables }
    requires content { IsContent model.now (content_now store.old) }
    requires roots { AreRootsThere model.now (content_now store.old) }
    ensures posted { OnOk result (PostsSaid model.now
        (λ decisions. SaysAmong model.now decisions root InProblem model.now.problem.items) store.old store.new) }
    ensures only { OnlyPosts store.old store.new }
    ensures marks { KeepStoreMarks store.old store.new }
{
    let items = model.problem.items.as_slice();
    for item in items {
        post_of_root(alloc, store, model, Origin::Problem, item, root)?;
    }
    Ok(())
}

// Asks for what an entry of a block says about the root, if it is an item.
fn post_entry(
    alloc: Global,
    store: &mut Store,
    model: &Model,
    origin: Origin,
    entry: &Entry,
    root: u32,
) -> Result<(), AllocError>
    requires origin { IsOriginBelow (length (tokens_now store.old.past)) origin }
    requires roots { AreRootsThere model.now (content_now store.old) }
    requires can { CanPostEntry store.old.net.tables (content_now store.old) (origin_context (content_now store.old).tokens origin) entry.now }
    ensures posted { OnOk result (let context = origin_context (content_now store.old).tokens origin in
        PostsSaid model.now (λ decisions. EntrySays model.now decisions root context entry.now) store.old store.new) }
    ensures only { OnlyPosts store.old store.new }
    ensures marks { KeepStoreMarks store.old store.new }
{
    match entry {
        Entry::Item(item) => post_of_root(alloc, store, model, origin, item, root),
        _ => Ok(()),
    }
}

// Asks for what the entries of a block say about the root.
fn post_entries(
    alloc: Global,
    store: &mut Store,
    model: &Model,
    origin: Origin,
    entries: &[Entry],
    root: u32,
) -> Result<(), AllocError>
    requires origin { IsOriginBelow (length (tokens_now store.old.past)) origin }
    requires roots { AreRootsThere model.now (content_now store.old) }
    requires can { All (CanPostEntry store.old.net.tables (content_now store.old) (origin_context (content_now store.old).tokens origin)) entries.now }
    ensures posted { OnOk result (let context = origin_context (content_now store.old).tokens origin in
        PostsSaid model.now (λ decisions. EntriesSay model.now decisions root context entries.now) store.old store.new) }
    ensures only { OnlyPosts store.old store.new }
    ensures marks { KeepStoreMarks store.old store.new }
{
    for entry in entries {
        post_entry(alloc, store, model, origin, entry, root)?;
    }
    Ok(())
}

// An open block, and where what stands in it is.
#[derive(Clone, Copy)]
struct BlockSeen<'a> {
    origin: Origin,
    block: &'a Block,
}

// A block of the token of this name, which is open.
fn seen<'a>(model: &'a Model, token: &TokenName, found: &OpenBlock) -> BlockSeen<'a>
    requires lawful { IsLawful model.now }
    requires there { (entries : Entries)
        × IsBlock model.now (record { token = token.now; rule = found.now.rule; path = found.now.path }) entries }
    ensures origin { result.origin ≡ Rule found.now.token found.now.rule }
    ensures block { (entries : Entries)
        → IsBlock model.now (record { token = token.now; rule = found.now.rule; path = found.now.path }) entries
        → result.block.now ≡ entries }
{
    let origin = Origin::Rule {
        token: found.token,
        rule: found.rule,
    };
    let block = block_of(model, token, found.rule, found.path.as_slice());
    BlockSeen { origin, block }
}

// The open block of this number.
fn block_seen<'a>(store: &Store, model: &'a Model, number: usize) -> BlockSeen<'a>
    requires lawful { IsLawful model.now }
    requires number { number < length store.now.blocks }
    requires content { IsContent model.now (content_now store.now) }
    ensures below { IsOriginBelow (length (tokens_now store.now.past)) result.origin }
    ensures context { (block : TokenBlock) → slice_get (content_now store.now).blocks number ≡ Some block
        → origin_context (content_now store.now).tokens result.origin ≡ InRule block.token block.rule }
    ensures entries { (block : TokenBlock) (entries : Entries) → slice_get (content_now store.now).blocks number ≡ Some block
        → IsBlock model.now block entries → result.block.now ≡ entries }
{
    store.is_sound();
    let Some(found) = store.block_at(number) else {
        unreachable!()
    };
    let Some(token) = store.tokens().name(found.token) else {
        unreachable!()
    };
    seen(model, token, found)
}

// Asks for what is said about the root in the open block of this number.
fn post_in_block(
    alloc: Global,
    store: &mut Store,
    model: &Model,
    number: usize,
    root: u32,
) -> Result<(), AllocError>
    requires lawful { IsLawful model.now }
    requires number { number < length store.old.blocks }
    requires can { CanPostItems model.now store.old.net.tables (content_now store.old) (number + 1) }
    ensures posted { OnOk result (PostsSaid model.now
        (λ decisions. SaysInBlockAt model.now decisions root (content_now store.old) number) store.old store.new) }
    ensures only { OnlyPosts store.old store.new }
    ensures marks { KeepStoreMarks store.old store.new }
{
    let BlockSeen { origin, block } = block_seen(store, model, number);
    post_entries(alloc, store, model, origin, block.entries.as_slice(), root)
}

// Asks for what is said about the root in the first so many open blocks.
fn post_in_blocks(
    alloc: Global,
    store: &mut Store,
    model: &Model,
    unfolded: usize,
    root: u32,
) -> Result<(), AllocError>
    requires lawful { IsLawful model.now }
    requires within { unfolded ≤ length store.old.blocks }
    requires can { CanPostItems model.now store.old.net.tables (content_now store.old) unfolded }
    ensures posted { OnOk result (PostsSaid model.now
        (λ decisions. SaysInBlocks model.now decisions root (content_now store.old) unfolded) store.old store.new) }
    ensures only { OnlyPosts store.old store.new }
    ensures marks { KeepStoreMarks store.old store.new }
{
    for number in 0..unfolded {
        post_in_block(alloc, store, model, number, root)?;
    }
    Ok(())
}

// Asks for what is said about the root in the problem and in the first so many open blocks.
fn post_anywhere(
    alloc: Global,
    store: &mut Store,
    model: &Model,
    unfolded: usize,
    root: u32,
) -> Result<(), AllocError>
    requires lawful { IsLawful model.now }
    requires within { unfolded ≤ length store.old.blocks }
    requires can { CanPostItems model.now store.old.net.tables (content_now store.old) unfolded }
    ensures posted { OnOk result (PostsSaid model.now
        (λ decisions. SaysAnywhere model.now decisions root (content_now store.old) unfolded) store.old store.new) }
    ensures only { OnlyPosts store.old store.new }
    ensures marks { KeepStoreMarks store.old store.new }
{
    post_in_problem(alloc, store, model, root)?;
    post_in_blocks(alloc, store, model, unfolded, root)
}

/// Asks from now on for what the items say that are about the token, if it is a rejectable root: those of the problem and of
/// the first so many open blocks of which all that they are about counts.
pub fn post_begun(
    alloc: Global,
    store: &mut Store,
    model: &Model,
    token: &TokenName,
    unfolded: usize,
) -> Result<(), AllocError>
    requires lawful { IsLawful model.now }
    requires within { unfolded ≤ length store.old.blocks }
    requires can { CanPostItems model.now store.old.net.tables (content_now store.old) unfolded }
    ensures posted { OnOk result (PostsSaid model.now
        (SaysOfRejectable model.now token.now (content_now store.old) unfolded) store.old store.new) }
    ensures only { OnlyPosts store.old store.new }
    ensures marks { KeepStoreMarks store.old store.new }
{
    if is_rejectable(model, token) {
        post_anywhere(alloc, store, model, unfolded, token.root)
    } else {
        Ok(())
    }
}
