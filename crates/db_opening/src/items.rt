//! Items that are posted where all that they are about counts.

ghost use Rattle.std.specs.Prelude.{List, length, OnOk};
ghost use Rattle.model_core.specs.declared.decision.Decision.{Decision};
ghost use Rattle.model_core.specs.Decided.{IsTaken};
ghost use Rattle.token_store.specs.Tokens.{tokens_now};
ghost use Rattle.plan_defs.specs.Claims.{ItemSays};
ghost use Rattle.db_store.specs.StoreMarks.{KeepStoreMarks};
ghost use Rattle.db_store.specs.Stores.{snapshot_of};
ghost use Rattle.db_posting.specs.Counting.{AreTokenStates, AreRootsThere};
ghost use Rattle.db_posting.specs.Origins.{content_now, origin_context, IsOriginBelow};
ghost use Rattle.db_posting.specs.Postable.{CanPostItem, IsItemNamed};
ghost use Rattle.db_posting.specs.Posted.{PostsClaims, OnlyPosts};

use db_posting::{Origin, counts, post_item};
use db_store::Store;
use model_core::item::Item;
use model_core::model::Model;
use std::alloc::{AllocError, Global};

/// Asks from now on for what the item says where it stands: that it holds, if all that it is about counts.
pub fn post_what_counts(
    alloc: Global,
    store: &mut Store,
    model: &Model,
    origin: Origin,
    item: &Item,
) -> Result<(), AllocError>
    requires origin { IsOriginBelow (length (tokens_now store.old.past)) origin }
    requires roots { AreRootsThere model.now (content_now store.old) }
    requires postable { CanPostItem store.old.net.tables (origin_context (content_now store.old).tokens origin) item.now }
    requires there { let content = content_now store.old in
        IsItemNamed content (origin_context content.tokens origin) item.now }
    ensures posted { OnOk result ((decisions : List Decision) → AreTokenStates model.now decisions (snapshot_of store.old)
        → let content = content_now store.old in
        PostsClaims content.names (ItemSays model.now (IsTaken decisions) (origin_context content.tokens origin) item.now)
        store.old.net.constraints store.new.net.constraints) }
    ensures only { OnlyPosts store.old store.new }
    ensures marks { KeepStoreMarks store.old store.new }
{
    if counts(alloc, model, store, origin, item) {
        post_item(alloc, store, origin, item)
    } else {
        Ok(())
    }
}
