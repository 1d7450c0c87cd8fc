//! Blocks that open, with their locals.

ghost use Rattle.std.specs.Prelude.{◌≡◌, ◌<◌, ◌∷◌, ◌++◌, [], length, Contains, IfOk, OnOk, Ok, Err};
ghost use Rattle.model_core.specs.Blocks.{IsBlock};
ghost use Rattle.model_core.specs.Entries.{Entries};
ghost use Rattle.model_core.specs.Lawful.{IsLawful};
ghost use Rattle.token_store.specs.Tokens.{tokens_now, token_names};
ghost use Rattle.db_store.specs.Keys.{named_block};
ghost use Rattle.db_store.specs.Stores.{snapshot_of, named_content};
ghost use Rattle.db_store.specs.StoreMarks.{KeepStoreMarks};
ghost use Rattle.db_opening.specs.Bringing.{Brings};
ghost use Rattle.db_opening.specs.Opened.{AreLocalsOf, AskForBlock, OpensBlock, OpensOrFails};
ghost use Rattle.db_posting.specs.Underway.{StaysUnderway, OnlyAdds};
ghost use Rattle.db_posting.specs.Wanted.{ArePreds, WantsOfBlock};

use super::variables::{RuleAt, bring_locals};
use constraint_net::NetFault;
use db_store::{OpenBlock, Store};
use eu_name::name::VarName;
use model_core::model::Model;
use rule_engine::{Additions, open_block};
use std::alloc::{AllocError, Global};
use token_store::Tokens;

// The names of the locals that stand in the block.
fn locals_of(
    alloc: Global,
    tokens: &Tokens,
    model: &Model,
    block: &OpenBlock,
) -> Result<Vec<VarName>, AllocError>
    requires lawful { IsLawful model.now }
    requires token { block.now.token < length (tokens_now tokens.now) }
    requires there { (entries : Entries)
        × IsBlock model.now (named_block (token_names (tokens_now tokens.now)) block.now) entries }
    ensures { IfOk result (λ locals.
        AreLocalsOf model.now (named_block (token_names (tokens_now tokens.now)) block.now) locals.items) }
{
    match tokens.name(block.token) {
        Some(token) => {
            let path = block.path.as_slice();
            let Additions { locals, .. } = open_block(alloc, model, token, block.rule, path)?;
            Ok(locals)
        }
        None => unreachable!(),
    }
}

// Adds the locals that stand in the block.
fn bring_block(
    alloc: Global,
    store: &mut Store,
    model: &Model,
    block: &OpenBlock,
) -> Result<(), NetFault>
    requires lawful { IsLawful model.now }
    requires preds { ArePreds model.now (tokens_now store.old.past) }
    requires token { block.now.token < length (tokens_now store.old.past) }
    requires there { (entries : Entries)
        × IsBlock model.now (named_block (token_names (tokens_now store.old.past)) block.now) entries }
    ensures brings { Brings (WantsOfBlock model.now (token_names (tokens_now store.old.past)) block.now)
        store.old result store.new }
    ensures marks { KeepStoreMarks store.old store.new }
{
    let Some(pred) = store.tokens().pred(block.token) else {
        unreachable!()
    };
    let locals = locals_of(alloc, store.tokens(), model, block)?;
    let at = RuleAt {
        token: block.token,
        rule: block.rule,
    };
    bring_locals(store, model, pred, at, locals.as_slice())
}

// Opens a block that isn't open.
fn open_new(
    alloc: Global,
    store: &mut Store,
    model: &Model,
    block: OpenBlock,
) -> Result<(), NetFault>
    requires lawful { IsLawful model.now }
    requires preds { ArePreds model.now (tokens_now store.old.past) }
    requires token { block.token < length (tokens_now store.old.past) }
    requires fresh { Contains store.old.blocks block → ⊥ }
    requires there { (entries : Entries)
        × IsBlock model.now (named_block (token_names (tokens_now store.old.past)) block) entries }
    ensures opens { OpensOrFails model.now block store.old result store.new }
    ensures marks { KeepStoreMarks store.old store.new }
{
    bring_block(alloc, store, model, &block)?;
    store.add_block(block)?;
    Ok(())
}

/// Opens the block, with a variable for each local that stands in it, unless it is open.
pub fn open(
    alloc: Global,
    store: &mut Store,
    model: &Model,
    block: OpenBlock,
) -> Result<(), NetFault>
    requires lawful { IsLawful model.now }
    requires preds { ArePreds model.now (tokens_now store.old.past) }
    requires token { block.token < length (tokens_now store.old.past) }
    requires there { (entries : Entries)
        × IsBlock model.now (named_block (token_names (tokens_now store.old.past)) block) entries }
    ensures underway { let content = named_content (snapshot_of store.old) in
        StaysUnderway model.now (AskForBlock model.now content (named_block content.tokens block))
        store.old result store.new }
    ensures open { OnOk result (Contains store.new.blocks block) }
    ensures tokens { OnOk result (store.new.past ≡ store.old.past) }
    ensures adds { OnOk result (OnlyAdds store.old store.new) }
    ensures marks { KeepStoreMarks store.old store.new }
{
    store.is_sound();
    if store.find_block(&block).is_some() {
        return Ok(());
    }
    let opened = open_new(alloc, store, model, block);
    store.is_sound();
    opened
}
