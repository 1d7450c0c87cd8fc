//! Whether what stands in blocks is lawful.

ghost use Rattle.std.specs.Prelude.{◌≡◌, ◌↔◌, ◌<◌, ◌∷◌, ◌++◌, [], IfOk, IsTrue, length};
ghost use Rattle.model_core.specs.Block.{plain_entries, with_entry};
ghost use Rattle.model_core.specs.Entries.{NoEntry};
ghost use Rattle.model_typing.specs.Ground.{IsGround};
ghost use Rattle.model_typing.specs.Lines.{AreLinesOf};
ghost use Rattle.model_rules.specs.Nested.{AreLawfulEntries, AreSides, IsGuardAmong, IsLawfulAmong, IsLawfulBlock, IsSmall, names_of};

use super::judge::Judge;
use super::names::{Name, add_names, are_terms_among, is_item_among};
use model_core::item::{Item, Term};
use model_core::rule::{Block, Entry, Guard};
use model_typing::items::is_lawful_item;
use model_typing::terms::are_comparable;
use std::alloc::{AllocError, Global};

/// How deep blocks may be nested.
pub const MOST_DEEP: u32 = 16;

/// How many entries a block may have.
pub const MOST_ENTRIES: usize = 65536;

/// What stands in the block.
pub fn contents(block: &Block) -> &[Entry]
    ensures { plain_entries result.now ≡ block.now }
{
    block.entries.as_slice()
}

// Whether the two sides are of one kind, and name no slot or local but these.
fn are_sides(judge: Judge<'_>, seen: &[Name], left: Term, right: Term) -> bool
    requires { IsGround judge.model.now judge.classes.now }
    ensures { IsTrue result ↔ AreSides judge.entry.model.now judge.entry.pred judge.entry.rule.now seen.now (left ∷ right ∷ []) }
{
    let sides = [left, right];
    are_comparable(judge.model, judge.classes, judge.scope(), &sides)
        && are_terms_among(seen, &sides)
}

// Whether the guard has such sides.
fn is_guard_among(judge: Judge<'_>, seen: &[Name], guard: Guard) -> bool
    requires { IsGround judge.model.now judge.classes.now }
    ensures { IsTrue result ↔ IsGuardAmong judge.entry.model.now judge.entry.pred judge.entry.rule.now seen.now guard }
{
    match guard {
        Guard::Equal(left, right) => are_sides(judge, seen, left, right),
        Guard::Differ(left, right) => are_sides(judge, seen, left, right),
    }
}

// Whether a block is less than 16 deep and has at most 65,536 entries.
fn is_small(depth: u32, entries: &[Entry]) -> bool
    ensures { IsTrue result ↔ IsSmall depth (plain_entries entries.now) }
{
    depth < MOST_DEEP && entries.len() <= MOST_ENTRIES
}

// The names that stand in the block, behind those that are seen from outside.
fn seen_in(alloc: Global, outer: &[Name], entries: &[Entry]) -> Result<Vec<Name>, AllocError>
    ensures { IfOk result (λ seen. seen.items ≡ outer.now ++ names_of (plain_entries entries.now)) }
{
    let mut seen = Vec::from_slice(alloc, outer)?;
    add_names(entries, &mut seen)?;
    Ok(seen)
}

// Whether the rule has the slot.
fn has_slot(judge: Judge<'_>, number: u32) -> bool
    ensures { IsTrue result ↔ (number < length judge.entry.rule.now.slots) }
{
    (number as usize) < judge.rule.slots.len()
}

// Whether the rule has the local.
fn has_local(judge: Judge<'_>, number: u32) -> bool
    ensures { IsTrue result ↔ (number < length judge.entry.rule.now.locals) }
{
    (number as usize) < judge.rule.locals.len()
}

// Whether the item is lawful, and names no slot or local but these.
fn is_lawful_among(judge: Judge<'_>, seen: &[Name], item: &Item) -> bool
    requires ground { IsGround judge.model.now judge.classes.now }
    requires lines { AreLinesOf judge.model.now judge.rule.now.locals judge.locals.now }
    ensures { IsTrue result ↔ IsLawfulAmong judge.entry.model.now judge.entry.pred judge.entry.rule.now seen.now item.now }
{
    is_lawful_item(judge.model, judge.classes, judge.scope(), item) && is_item_among(seen, item)
}

// Whether all three are so.
fn all_three(one: bool, other: bool, third: bool) -> bool
    ensures { IsTrue result ↔ (IsTrue one × IsTrue other × IsTrue third) }
{
    one && other && third
}

/// Whether a block is lawful that is so deep and stands in blocks with these names.
#[cycle(blocks)]
pub fn is_lawful_block(
    alloc: Global,
    judge: Judge<'_>,
    depth: u32,
    outer: &[Name],
    entries: &[Entry],
) -> Result<bool, AllocError>
    requires ground { IsGround judge.model.now judge.classes.now }
    requires lines { AreLinesOf judge.model.now judge.rule.now.locals judge.locals.now }
    ensures { IfOk result (λ answer. IsTrue answer ↔ IsLawfulBlock judge.entry.model.now judge.entry.pred judge.entry.rule.now
        depth outer.now (plain_entries entries.now)) }
{
    if !is_small(depth, entries) {
        return Ok(false);
    }
    let seen = seen_in(alloc, outer, entries)?;
    for entry in entries {
        if !is_lawful_entry(alloc, judge, depth, seen.as_slice(), entry)? {
            return Ok(false);
        }
    }
    Ok(true)
}

// Whether one entry is lawful.
#[cycle(blocks)]
fn is_lawful_entry(
    alloc: Global,
    judge: Judge<'_>,
    depth: u32,
    seen: &[Name],
    entry: &Entry,
) -> Result<bool, AllocError>
    requires ground { IsGround judge.model.now judge.classes.now }
    requires lines { AreLinesOf judge.model.now judge.rule.now.locals judge.locals.now }
    requires deep { depth < 16 }
    ensures { IfOk result (λ answer. IsTrue answer ↔ AreLawfulEntries judge.entry.model.now judge.entry.pred judge.entry.rule.now
        depth seen.now (with_entry entry.now NoEntry)) }
{
    match entry {
        Entry::Slot(number) => Ok(has_slot(judge, *number)),
        Entry::Local(number) => Ok(has_local(judge, *number)),
        Entry::Item(item) => Ok(is_lawful_among(judge, seen, item)),
        Entry::Branch {
            guard,
            then,
            otherwise,
        } => {
            let first = is_lawful_block(alloc, judge, depth + 1, seen, then.entries.as_slice())?;
            let others = otherwise.entries.as_slice();
            let second = is_lawful_block(alloc, judge, depth + 1, seen, others)?;
            Ok(all_three(is_guard_among(judge, seen, *guard), first, second))
        }
    }
}
