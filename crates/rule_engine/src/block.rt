//! What stands directly in one block of a rule.

ghost use Rattle.std.specs.Prelude.{◌≡◌, ◌+◌, ◌<◌, ◌≤◌, ◌^◌, List, [], Some, length, All, IfOk, slice_get};
ghost use Rattle.model_core.specs.declared.rule.Entry.TheVariants.{Branch};
ghost use Rattle.model_core.specs.declared.rule.Guard.{Guard};
ghost use Rattle.model_core.specs.declared.rule.Rule.{Rule};
ghost use Rattle.model_core.specs.declared.rule.Slot.{Slot};
ghost use Rattle.model_core.specs.declared.rule.Turn.{Turn};
ghost use Rattle.model_core.specs.Block.{plain_entries};
ghost use Rattle.model_core.specs.Blocks.{OfBranch, IsBlock, direct, chosen};
ghost use Rattle.model_core.specs.Entries.{Entries};
ghost use Rattle.model_core.specs.Lawful.{IsLawful, item_count};
ghost use Rattle.model_core.specs.Numbers.{PlacedItem, items_from, turned};
ghost use Rattle.model_core.specs.Standing.{LeadsToBlock};
ghost use Rattle.model_core.specs.Tokens.{HasToken, HasRule};
ghost use Rattle.rule_engine.specs.Contents.{AreAdditions, IsIn};
ghost use Rattle.rule_engine.specs.Lists.{slots_in, locals_in, branch_places};
ghost use Rattle.rule_engine.specs.Places.{StandFrom};

use super::items::{ItemAt, count_items, items_at};
use super::names::{local_names, slot_names};
use eu_name::name::{TokenName, VarName};
use model_core::model::Model;
use model_core::rule::{Block, Entry, Rule, Side, Turn};
use std::alloc::{AllocError, Global};

/// What a block adds where it is open.
#[derive(Drop)]
pub struct Additions {
    /// The tokens that its slots ask for, in order of text.
    pub slots: Vec<TokenName>,
    /// Its locals, in order of text.
    pub locals: Vec<VarName>,
    /// Its items, in order of text.
    pub items: Vec<ItemAt>,
    /// The places of its branches among its entries, in order.
    pub branches: Vec<u16>,
}

// A block, and how many items of its rule come before the first in it.
#[derive(Clone, Copy)]
struct BlockAt<'a> {
    block: &'a Block,
    first: u32,
}

// The rule of this number of a token that the model has.
fn rule_of<'a>(model: &'a Model, token: &TokenName, number: u16) -> &'a Rule
    requires { (slot : Slot) × HasToken model.now token.now slot
        × ((rule : Rule) × HasRule model.now slot.pred number rule) }
    ensures { (slot : Slot) (rule : Rule)
        → HasToken model.now token.now slot → HasRule model.now slot.pred number rule → result.now ≡ rule }
{
    let root = &model.problem.roots.as_slice()[token.root as usize];
    let Some(pred) = model.pred_after(root.pred, token.steps.as_slice()) else {
        unreachable!()
    };
    let Some(rule) = model.rule_of(pred, number) else {
        unreachable!()
    };
    rule
}

// The two blocks of a branch.
#[derive(Clone, Copy)]
struct Sides<'a> {
    then: &'a Block,
    otherwise: &'a Block,
}

// The blocks of the branch that stands at the place among the entries.
fn sides_at(entries: &[Entry], place: usize) -> Sides
    requires { (guard : Guard) × ((then otherwise : Entries)
        × (slice_get entries.now place ≡ Some (Branch guard then otherwise))) }
    ensures { (guard : Guard)
        × (slice_get entries.now place ≡ Some (Branch guard result.then.now result.otherwise.now)) }
{
    match &entries[place] {
        Entry::Branch {
            then,
            otherwise,
            ..
        } => Sides { then, otherwise },
        _ => unreachable!(),
    }
}

// The block to which the turn leads from this one, where this many items come before the first in this one.
fn turn_into(block: &Block, first: u32, turn: Turn) -> BlockAt
    requires few { first + item_count block.now < 2 ^ 32 }
    requires branch { (guard : Guard) × ((then otherwise : Entries)
        × (slice_get (direct block.now) turn.entry ≡ Some (OfBranch guard then otherwise))) }
    ensures block { (guard : Guard) (then otherwise : Entries)
        → slice_get (direct block.now) turn.entry ≡ Some (OfBranch guard then otherwise)
        → result.block.now ≡ chosen turn.side then otherwise }
    ensures first { (items : List PlacedItem) (path : List Turn) → StandFrom items first (items_from path 0 block.now)
        → StandFrom items result.first (items_from (turned path turn.entry turn.side) 0 result.block.now) }
{
    let entries = block.entries.as_slice();
    let entry = usize::from(turn.entry);
    let sides = sides_at(entries, entry);
    let first = first + count_items(&entries[..entry]);
    let then = sides.then;
    match turn.side {
        Side::Then => BlockAt { block: then, first },
        Side::Otherwise => BlockAt {
            block: sides.otherwise,
            first: first + count_items(then.entries.as_slice()),
        },
    }
}

// The block to which the way leads from the top block of a rule.
fn block_at<'a>(top: &'a Block, path: &[Turn]) -> BlockAt<'a>
    requires few { item_count top.now < 2 ^ 32 }
    requires there { (block : Entries) × LeadsToBlock top.now path.now block }
    ensures block { (block : Entries) → LeadsToBlock top.now path.now block → result.block.now ≡ block }
    ensures first { StandFrom (items_from [] 0 top.now) result.first (items_from path.now 0 result.block.now) }
{
    let mut at = BlockAt {
        block: top,
        first: 0,
    };
    for turn in path {
        at = turn_into(at.block, at.first, *turn);
    }
    at
}

/// The block of a rule of the token: of the rule of this number in the list of the token's predicate, that to which the
/// way leads.
pub fn block_of<'a>(model: &'a Model, token: &TokenName, rule: u16, path: &[Turn]) -> &'a Block
    requires lawful { IsLawful model.now }
    requires there { (entries : Entries)
        × IsBlock model.now (record { token = token.now; rule = rule; path = path.now }) entries }
    ensures { (entries : Entries)
        → IsBlock model.now (record { token = token.now; rule = rule; path = path.now }) entries
        → result.now ≡ entries }
{
    let found = rule_of(model, token, rule);
    block_at(&found.top, path).block
}

// The places of the branches among the entries, in order.
fn branches_at(alloc: Global, entries: &[Entry]) -> Result<Vec<u16>, AllocError>
    requires { length entries.now ≤ 2 ^ 16 }
    ensures { IfOk result (λ places. places.items ≡ branch_places 0 (direct (plain_entries entries.now))) }
{
    let mut places = Vec::new(alloc);
    for (place, entry) in entries.iter().enumerate() {
        if let Entry::Branch { .. } = entry {
            places.push(place as u16)?;
        }
    }
    Ok(places)
}

// What stands directly among the entries, where those inside of them are numbered from `first` on.
fn standing_among(
    alloc: Global,
    token: &TokenName,
    rule: u16,
    entries: &[Entry],
    first: u32,
) -> Result<Additions, AllocError>
    requires few { first + item_count (plain_entries entries.now) < 2 ^ 32 }
    requires short { length entries.now ≤ 2 ^ 16 }
    requires slots { All (λ slot. slot < 2 ^ 16) (slots_in (direct (plain_entries entries.now))) }
    requires locals { All (λ local. local < 2 ^ 16) (locals_in (direct (plain_entries entries.now))) }
    ensures { IfOk result (IsIn token.now rule first (plain_entries entries.now)) }
{
    let slots = slot_names(alloc, token, rule, entries)?;
    let locals = local_names(alloc, token, rule, entries)?;
    let items = items_at(alloc, entries, first)?;
    let branches = branches_at(alloc, entries)?;
    Ok(Additions {
        slots,
        locals,
        items,
        branches,
    })
}

/// What stands directly in one block of a rule of the token: of the rule of this number in the list of the token's
/// predicate, the block to which the way leads. The time is that of going over the rule once.
pub fn open_block(
    alloc: Global,
    model: &Model,
    token: &TokenName,
    rule: u16,
    path: &[Turn],
) -> Result<Additions, AllocError>
    requires lawful { IsLawful model.now }
    requires there { (entries : Entries)
        × IsBlock model.now (record { token = token.now; rule = rule; path = path.now }) entries }
    ensures { IfOk result (AreAdditions model.now (record { token = token.now; rule = rule; path = path.now })) }
{
    let found = rule_of(model, token, rule);
    let at = block_at(&found.top, path);
    let block = at.block;
    standing_among(alloc, token, rule, block.entries.as_slice(), at.first)
}
