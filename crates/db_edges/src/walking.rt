//! The edges of the items in open blocks of a token.

ghost use Rattle.std.specs.Prelude.{◌≡◌, ◌≤◌, ◌^◌, [], length, Contains, IfOk, MatchBool, OnOk, Some, slice_get};
ghost use Rattle.model_core.specs.declared.rule.Entry.TheVariants as standing;
ghost use Rattle.model_core.specs.declared.rule.Slot.{Slot};
ghost use Rattle.model_core.specs.Block.{plain_entries};
ghost use Rattle.model_core.specs.Lawful.{IsLawful};
ghost use Rattle.model_core.specs.Numbers.{items_from, turned, rule_items};
ghost use Rattle.model_core.specs.Tokens.{HasToken};
ghost use Rattle.token_store.specs.Tokens.{tokens_now, token_names};
ghost use Rattle.plan_values.specs.Walks.{HasRuleOf, items_of};
ghost use Rattle.db_refusals.specs.Seeing.{seen_state};
ghost use Rattle.db_edges.specs.Adding.{AddsEdges};
ghost use Rattle.db_edges.specs.Edges.{AppendsEach};
ghost use Rattle.db_edges.specs.Sites.{HasShortSlots};
ghost use Rattle.db_edges.specs.Walking.{block_at_way, IsBlockOfRule, IsEntryOfRule, of_rule};
ghost use Rattle.db_edges.specs.Whole.{HasSortEdges, HasOpenEdges, HasTokenEdges};

use super::comparing::{Listed, Site, constrained, related};
use super::edge::NamedEdge;
use db_store::{OpenBlock, Store};
use eu_name::name::TokenName;
use eu_name::sequence::Sequence;
use model_core::decision::Decision;
use model_core::item::Item;
use model_core::model::Model;
use model_core::rule::{Block, Entry, Rule, Side, Turn};
use plan_values::rules::rule_of;
use std::alloc::{AllocError, Global};

/// Which items are gone through.
#[derive(Clone, Copy)]
pub enum Sort {
    Relations,
    Constraints,
}

/// Whose items are gone through, and where it is known which blocks are open.
#[derive(Clone, Copy)]
pub struct Walk<'a> {
    pub model: &'a Model,
    pub store: &'a Store,
    pub decisions: &'a [Decision],
    pub token: &'a TokenName,
    pub sort: Sort,
}

// The edges of an item of the token's rule of this number, if it is of the sort.
fn edges_of_item(
    alloc: Global,
    walk: Walk<'_>,
    rule: u16,
    item: &Item,
    edges: &mut Vec<NamedEdge>,
) -> Result<(), AllocError>
    requires { HasShortSlots item.now }
    ensures { OnOk result (AddsEdges
        (HasSortEdges walk.entry.sort walk.entry.model.now walk.entry.decisions.now walk.entry.token.now rule item.now)
        edges.old.items edges.new.items) }
{
    let listed = Listed {
        model: walk.model,
        decisions: walk.decisions,
    };
    let token = walk.token;
    match walk.sort {
        Sort::Relations => related(listed, token, rule, item, edges),
        Sort::Constraints => constrained(alloc, listed, Site::Rule { token, rule }, item, edges),
    }
}

// Whether the block, which is one of the token's rule of this number, is open.
fn is_open(walk: Walk<'_>, rule: u16, block: &OpenBlock) -> bool
    requires named { slice_get (token_names (tokens_now walk.store.now.past)) block.now.token ≡ Some walk.token.now }
    requires of_rule { block.now.rule ≡ rule }
    ensures { MatchBool result
        (Contains (seen_state walk.entry.store.now).blocks (block_at_way walk.entry.token.now rule block.now))
        (Contains (seen_state walk.entry.store.now).blocks (block_at_way walk.entry.token.now rule block.now) → ⊥) }
{
    walk.store.is_sound();
    match walk.store.find_block(block) {
        Some(_number) => true,
        None => false,
    }
}

// The block on this side of the branch at this place of the block.
fn behind(alloc: Global, block: &OpenBlock, place: u16, side: Side) -> Result<OpenBlock, AllocError>
    ensures { IfOk result (λ behind. behind ≡ record block.now { path = turned block.now.path place side }) }
{
    block.behind(alloc, Turn { entry: place, side })
}

// The edges of the item that stands at this place of the block.
fn edges_if_open(
    alloc: Global,
    walk: Walk<'_>,
    rule: u16,
    block: &OpenBlock,
    place: u16,
    item: &Item,
    edges: &mut Vec<NamedEdge>,
) -> Result<(), AllocError>
    requires lawful { IsLawful walk.model.now }
    requires stands { IsEntryOfRule walk.model.now walk.store.now walk.token.now rule block.now place
        (standing.Item item.now) }
    ensures { OnOk result (AddsEdges
        (HasOpenEdges walk.entry.sort walk.entry.model.now walk.entry.decisions.now (seen_state walk.entry.store.now) walk.entry.token.now
        (record { rule = rule; placed = record { path = block.now.path; place = place; item = item.now } }))
        edges.old.items edges.new.items) }
{
    if is_open(walk, rule, block) {
        edges_of_item(alloc, walk, rule, item, edges)
    } else {
        Ok(())
    }
}

// What stands in the block.
fn contents(block: &Block) -> &[Entry]
    ensures { plain_entries result.now ≡ block.now }
{
    block.entries.as_slice()
}

// The edges of the items among the entries of the block, those of the blocks in them too.
#[cycle(walk)]
fn edges_among(
    alloc: Global,
    walk: Walk<'_>,
    rule: u16,
    block: &OpenBlock,
    entries: &[Entry],
    edges: &mut Vec<NamedEdge>,
) -> Result<(), AllocError>
    requires lawful { IsLawful walk.model.now }
    requires stand { IsBlockOfRule walk.model.now walk.store.now walk.token.now rule block.now (plain_entries entries.now) }
    requires few { length entries.now ≤ 2 ^ 16 }
    ensures { OnOk result (AddsEdges (AppendsEach
        (HasOpenEdges walk.entry.sort walk.entry.model.now walk.entry.decisions.now (seen_state walk.entry.store.now) walk.entry.token.now)
        (of_rule rule (items_from block.now.path 0 (plain_entries entries.now))))
        edges.old.items edges.new.items) }
{
    for (place, entry) in entries.iter().enumerate() {
        edges_inside(alloc, walk, rule, block, place as u16, entry, edges)?;
    }
    Ok(())
}

// The edges of the entry at this place of the block: of an item, or of the items in both blocks of a branch.
#[cycle(walk)]
fn edges_inside(
    alloc: Global,
    walk: Walk<'_>,
    rule: u16,
    block: &OpenBlock,
    place: u16,
    entry: &Entry,
    edges: &mut Vec<NamedEdge>,
) -> Result<(), AllocError>
    requires lawful { IsLawful walk.model.now }
    requires stands { IsEntryOfRule walk.model.now walk.store.now walk.token.now rule block.now place entry.now }
    ensures { OnOk result (AddsEdges (AppendsEach
        (HasOpenEdges walk.entry.sort walk.entry.model.now walk.entry.decisions.now (seen_state walk.entry.store.now) walk.entry.token.now)
        (of_rule rule (items_of block.now.path place entry.now)))
        edges.old.items edges.new.items) }
{
    match entry {
        Entry::Slot(_) => Ok(()),
        Entry::Local(_) => Ok(()),
        Entry::Item(item) => edges_if_open(alloc, walk, rule, block, place, item, edges),
        Entry::Branch {
            then,
            otherwise,
            ..
        } => {
            let left = behind(alloc, block, place, Side::Then)?;
            let inside = then.entries.as_slice();
            edges_among(alloc, walk, rule, &left, inside, edges)?;
            let right = behind(alloc, block, place, Side::Otherwise)?;
            let others = otherwise.entries.as_slice();
            edges_among(alloc, walk, rule, &right, others, edges)
        }
    }
}

// The top block of the rule of this number of the token at the place.
fn top_of(alloc: Global, place: u32, number: u16) -> OpenBlock
    ensures { result ≡ record { token = place; rule = number; path = [] } }
{
    OpenBlock {
        token: place,
        rule: number,
        path: Sequence::new(alloc),
    }
}

// The edges of the items of the token's rule of this number.
fn edges_of_rule(
    alloc: Global,
    walk: Walk<'_>,
    place: u32,
    number: u16,
    rule: &Rule,
    edges: &mut Vec<NamedEdge>,
) -> Result<(), AllocError>
    requires lawful { IsLawful walk.model.now }
    requires named { slice_get (token_names (tokens_now walk.store.now.past)) place ≡ Some walk.token.now }
    requires has { HasRuleOf walk.model.now walk.token.now number rule.now }
    ensures { OnOk result (AddsEdges (AppendsEach
        (HasOpenEdges walk.entry.sort walk.entry.model.now walk.entry.decisions.now (seen_state walk.entry.store.now) walk.entry.token.now)
        (of_rule number (rule_items rule.now)))
        edges.old.items edges.new.items) }
{
    let top = top_of(alloc, place, number);
    edges_among(alloc, walk, number, &top, contents(&rule.top), edges)
}

/// The edges of the items of this sort in open blocks of the token, which stands at this place of the store.
pub fn edges_of_token(
    alloc: Global,
    walk: Walk<'_>,
    place: u32,
    edges: &mut Vec<NamedEdge>,
) -> Result<(), AllocError>
    requires lawful { IsLawful walk.model.now }
    requires named { slice_get (token_names (tokens_now walk.store.now.past)) place ≡ Some walk.token.now }
    requires there { (slot : Slot) × HasToken walk.model.now walk.token.now slot }
    ensures { OnOk result (AddsEdges
        (HasTokenEdges walk.entry.sort walk.entry.model.now walk.entry.decisions.now (seen_state walk.entry.store.now) walk.entry.token.now)
        edges.old.items edges.new.items) }
{
    for number in 0..1024 {
        let Some(rule) = rule_of(walk.model, walk.token, number) else {
            return Ok(());
        };
        edges_of_rule(alloc, walk, place, number, rule, edges)?;
    }
    Ok(())
}
