//! Tokens that are activated.

ghost use Rattle.std.specs.Prelude.{◌≡◌, ◌<◌, ◌↔◌, ℕ, List, [], length, Contains, OnOk};
ghost use Rattle.model_core.specs.declared.decision.Decision.{Decision};
ghost use Rattle.model_core.specs.declared.decision.Decision.TheVariants.{Activate};
ghost use Rattle.model_core.specs.declared.rule.Rule.{Rule};
ghost use Rattle.model_core.specs.Blocks.{IsBlock, block_at};
ghost use Rattle.model_core.specs.Decided.{IsActivated};
ghost use Rattle.model_core.specs.Entries.{Entries};
ghost use Rattle.model_core.specs.Lawful.{IsLawful};
ghost use Rattle.model_core.specs.Tokens.{HasRule};
ghost use Rattle.token_store.specs.Orders.{name_at};
ghost use Rattle.token_store.specs.Tokens.{tokens_now};
ghost use Rattle.model_core.specs.Content.{IsContent};
ghost use Rattle.db_store.specs.StoreMarks.{KeepStoreMarks};
ghost use Rattle.db_posting.specs.Origins.{content_now};
ghost use Rattle.db_posting.specs.Tables.{HaveTables};
ghost use Rattle.db_posting.specs.Underway.{StaysUnderway, OnlyAdds};
ghost use Rattle.db_posting.specs.Wanted.{ArePreds};
ghost use Rattle.db_decide.specs.TakingUp.{MayFollow, TakesUp};

use super::begun::post_begun;
use constraint_net::NetFault;
use db_opening::open;
use db_posting::place_of;
use db_store::{OpenBlock, Store};
use eu_name::name::TokenName;
use eu_name::sequence::Sequence;
use model_core::model::Model;
use model_core::view::TokenState;
use std::alloc::Global;

// Opens the first blocks of the first so many rules of the token at the place.
fn open_rules(
    alloc: Global,
    store: &mut Store,
    model: &Model,
    token: u32,
    count: u16,
) -> Result<(), NetFault>
    requires lawful { IsLawful model.now }
    requires preds { ArePreds model.now (tokens_now store.old.past) }
    requires token { token < length (tokens_now store.old.past) }
    requires there { (rule : ℕ) → rule < count
        → (entries : Entries) × IsBlock model.now (block_at (name_at (content_now store.old).tokens token) rule []) entries }
    ensures underway { StaysUnderway model.now (λ decisions. IsActivated decisions (name_at (content_now store.old).tokens token))
        store.old result store.new }
    ensures open { OnOk result ((rule : ℕ) → rule < count
        → Contains (content_now store.new).blocks (block_at (name_at (content_now store.old).tokens token) rule [])) }
    ensures past { OnOk result (store.new.past ≡ store.old.past) }
    ensures adds { OnOk result (OnlyAdds store.old store.new) }
    ensures marks { KeepStoreMarks store.old store.new }
{
    for rule in 0..count {
        let path = Sequence::new(alloc);
        open(alloc, store, model, OpenBlock { token, rule, path })?;
    }
    Ok(())
}

// How many rules the predicate has.
fn rule_count(model: &Model, pred: u32) -> u16
    requires { IsLawful model.now }
    ensures { (rule : ℕ) → (rule < result) ↔ ((found : Rule) × HasRule model.now pred rule found) }
{
    match model.preds.as_slice().get(pred as usize) {
        Some(found) => found.rules.len() as u16,
        None => 0,
    }
}

// Opens the first block of each rule of the token at the place.
fn open_all_rules(
    alloc: Global,
    store: &mut Store,
    model: &Model,
    token: u32,
) -> Result<(), NetFault>
    requires lawful { IsLawful model.now }
    requires preds { ArePreds model.now (tokens_now store.old.past) }
    requires content { IsContent model.now (content_now store.old) }
    requires token { token < length (tokens_now store.old.past) }
    ensures underway { StaysUnderway model.now (λ decisions. IsActivated decisions (name_at (content_now store.old).tokens token))
        store.old result store.new }
    ensures open { OnOk result ((rule : ℕ) (entries : Entries)
        → IsBlock model.now (block_at (name_at (content_now store.old).tokens token) rule []) entries
        → Contains (content_now store.new).blocks (block_at (name_at (content_now store.old).tokens token) rule [])) }
    ensures past { OnOk result (store.new.past ≡ store.old.past) }
    ensures adds { OnOk result (OnlyAdds store.old store.new) }
    ensures marks { KeepStoreMarks store.old store.new }
{
    let Some(pred) = store.tokens().pred(token) else {
        unreachable!()
    };
    open_rules(alloc, store, model, token, rule_count(model, pred))
}

/// Takes up that the token takes place.
pub fn activate(
    alloc: Global,
    store: &mut Store,
    model: &Model,
    token: &TokenName,
) -> Result<(), NetFault>
    requires lawful { IsLawful model.now }
    requires tables { HaveTables model.now store.old.net.tables }
    requires may { (decisions : List Decision) × MayFollow model.now decisions store.old (Activate token.now) }
    ensures takes { TakesUp model.now (Activate token.now) store.old result store.new }
    ensures marks { KeepStoreMarks store.old store.new }
{
    store.is_sound();
    let unfolded = store.block_count();
    let place = place_of(store.tokens(), token);
    store.set_state(place, TokenState::Active)?;
    open_all_rules(alloc, store, model, place)?;
    post_begun(alloc, store, model, token, unfolded)?;
    Ok(())
}
