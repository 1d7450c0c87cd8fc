//! The tokens that slots ask for.

ghost use Rattle.std.specs.Prelude.{◌≡◌, All, Contains, IfOk, OnOk};
ghost use Rattle.model_core.specs.declared.rule.Slot.{Slot};
ghost use Rattle.model_core.specs.Entries.{Entries};
ghost use Rattle.model_core.specs.Lawful.{IsLawful};
ghost use Rattle.model_core.specs.Tokens.{HasToken};
ghost use Rattle.token_store.specs.Tokens.{tokens_now, token_names};
ghost use Rattle.db_store.specs.StoreMarks.{KeepStoreMarks};
ghost use Rattle.db_posting.specs.Origins.{content_now};
ghost use Rattle.db_posting.specs.Underway.{StaysUnderway, OnlyAdds};
ghost use Rattle.db_posting.specs.Wanted.{ArePreds};
ghost use Rattle.db_fixpoint.specs.Reading.{block_named, AreOpenEntries};
ghost use Rattle.db_fixpoint.specs.Unfolding.{slot_tokens, AskForTokens, AreAllKnown};

use constraint_net::NetFault;
use db_opening::bring_token;
use db_store::{OpenBlock, Store};
use eu_name::name::TokenName;
use model_core::model::Model;
use rule_engine::{Additions, open_block};
use std::alloc::{AllocError, Global};

// The names of the tokens that the slots in the block ask for.
fn asked_by(
    alloc: Global,
    store: &Store,
    model: &Model,
    block: &OpenBlock,
) -> Result<Vec<TokenName>, AllocError>
    requires lawful { IsLawful model.now }
    requires there { (entries : Entries) × AreOpenEntries model.now store.now block.now entries }
    ensures { IfOk result (λ names. (entries : Entries) → AreOpenEntries model.now store.now block.now entries
        → names.items ≡ slot_tokens (block_named store.now block.now) entries) }
{
    store.is_sound();
    match store.tokens().name(block.token) {
        Some(token) => {
            let path = block.path.as_slice();
            let Additions { slots, .. } = open_block(alloc, model, token, block.rule, path)?;
            Ok(slots)
        }
        None => unreachable!(),
    }
}

// Brings the tokens of these names.
fn bring_tokens(
    alloc: Global,
    store: &mut Store,
    model: &Model,
    names: &[TokenName],
) -> Result<(), NetFault>
    requires lawful { IsLawful model.now }
    requires preds { ArePreds model.now (tokens_now store.old.past) }
    requires there { All (λ token. (slot : Slot) × HasToken model.now token slot) names.now }
    ensures underway { StaysUnderway model.now (AskForTokens model.now (content_now store.old) names.now)
        store.old result store.new }
    ensures there { OnOk result (All (Contains (token_names (tokens_now store.new.past))) names.now) }
    ensures adds { OnOk result (OnlyAdds store.old store.new) }
    ensures preds { OnOk result (ArePreds model.now (tokens_now store.new.past)) }
    ensures marks { KeepStoreMarks store.old store.new }
{
    store.is_sound();
    for name in names {
        store.is_sound();
        bring_token(alloc, store, model, name)?;
    }
    Ok(())
}

/// Brings the tokens that the slots in the open block ask for.
pub fn bring_slots(
    alloc: Global,
    store: &mut Store,
    model: &Model,
    block: &OpenBlock,
) -> Result<(), NetFault>
    requires lawful { IsLawful model.now }
    requires there { (entries : Entries) × AreOpenEntries model.now store.old block.now entries }
    ensures underway { StaysUnderway model.now (AreAllKnown (content_now store.old)) store.old result store.new }
    ensures there { OnOk result ((entries : Entries) → AreOpenEntries model.now store.old block.now entries
        → All (Contains (token_names (tokens_now store.new.past))) (slot_tokens (block_named store.old block.now) entries)) }
    ensures adds { OnOk result (OnlyAdds store.old store.new) }
    ensures preds { OnOk result (ArePreds model.now (tokens_now store.new.past)) }
    ensures marks { KeepStoreMarks store.old store.new }
{
    let names = asked_by(alloc, store, model, block)?;
    bring_tokens(alloc, store, model, names.as_slice())
}
