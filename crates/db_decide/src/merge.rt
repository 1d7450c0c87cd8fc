//! Tokens that are merged.

ghost use Rattle.std.specs.Prelude.{◌<◌, List, length, OnOk};
ghost use Rattle.model_core.specs.declared.decision.Decision.{Decision};
ghost use Rattle.model_core.specs.declared.decision.Decision.TheVariants.{Merge};
ghost use Rattle.model_core.specs.Lawful.{IsLawful};
ghost use Rattle.token_store.specs.Orders.{name_at};
ghost use Rattle.token_store.specs.Tokens.{tokens_now};
ghost use Rattle.plan_defs.specs.Refusals.{HaveSamePredicate};
ghost use Rattle.model_core.specs.Content.{IsContent};
ghost use Rattle.db_store.specs.StoreMarks.{KeepStoreMarks};
ghost use Rattle.db_posting.specs.Origins.{content_now};
ghost use Rattle.db_posting.specs.Posted.{PostsClaims, OnlyPosts};
ghost use Rattle.db_posting.specs.Tables.{HaveTables};
ghost use Rattle.db_posting.specs.Wanted.{ArePreds};
ghost use Rattle.db_decide.specs.Merging.{HasPartsAt, ClaimsSamePart, ClaimsToBeSame};
ghost use Rattle.db_decide.specs.TakingUp.{MayFollow, TakesUp};

use super::begun::post_begun;
use constraint_net::NetFault;
use db_opening::parts_of;
use db_posting::{PartAt, place_of, post_equal};
use db_store::Store;
use eu_name::name::{Part, TokenName};
use model_core::model::Model;
use model_core::view::TokenState;
use std::alloc::{AllocError, Global};

// Asks from now on that these parts of the tokens at the two places are the same.
fn post_same_parts(
    store: &mut Store,
    one: u32,
    other: u32,
    parts: &[Part],
) -> Result<(), AllocError>
    requires one { HasPartsAt store.old one parts.now }
    requires other { HasPartsAt store.old other parts.now }
    ensures posted { OnOk result (let content = content_now store.old in
        PostsClaims content.names (ClaimsSamePart content.tokens one other parts.now)
        store.old.net.constraints store.new.net.constraints) }
    ensures only { OnlyPosts store.old store.new }
    ensures marks { KeepStoreMarks store.old store.new }
{
    for part in parts {
        let here = PartAt {
            token: one,
            part: *part,
        };
        let there = PartAt {
            token: other,
            part: *part,
        };
        post_equal(store, here, there)?;
    }
    Ok(())
}

// Asks from now on that each part of the token at the one place is that of the token at the other, of the same predicate.
fn post_merged(
    alloc: Global,
    store: &mut Store,
    model: &Model,
    one: u32,
    other: u32,
) -> Result<(), AllocError>
    requires lawful { IsLawful model.now }
    requires preds { ArePreds model.now (tokens_now store.old.past) }
    requires content { IsContent model.now (content_now store.old) }
    requires one { one < length (tokens_now store.old.past) }
    requires other { other < length (tokens_now store.old.past) }
    requires alike { let names = (content_now store.old).tokens in
        HaveSamePredicate model.now (name_at names one) (name_at names other) }
    ensures posted { OnOk result (let content = content_now store.old in
        PostsClaims content.names (ClaimsToBeSame model.now (name_at content.tokens one) (name_at content.tokens other))
        store.old.net.constraints store.new.net.constraints) }
    ensures only { OnlyPosts store.old store.new }
    ensures marks { KeepStoreMarks store.old store.new }
{
    let Some(pred) = store.tokens().pred(one) else {
        unreachable!()
    };
    let parts = parts_of(alloc, model, pred)?;
    post_same_parts(store, one, other, parts.as_slice())
}

/// Takes up that the first token is the second.
pub fn merge(
    alloc: Global,
    store: &mut Store,
    model: &Model,
    token: &TokenName,
    target: &TokenName,
) -> Result<(), NetFault>
    requires lawful { IsLawful model.now }
    requires tables { HaveTables model.now store.old.net.tables }
    requires may { (decisions : List Decision) × MayFollow model.now decisions store.old (Merge token.now target.now) }
    ensures takes { TakesUp model.now (Merge token.now target.now) store.old result store.new }
    ensures marks { KeepStoreMarks store.old store.new }
{
    store.is_sound();
    let unfolded = store.block_count();
    let place = place_of(store.tokens(), token);
    let into = place_of(store.tokens(), target);
    store.set_state(place, TokenState::Merged(into))?;
    post_merged(alloc, store, model, place, into)?;
    post_begun(alloc, store, model, token, unfolded)?;
    Ok(())
}
