//! What items say.

ghost use Rattle.std.specs.Prelude.{OnOk};
ghost use Rattle.model_core.specs.Block.{plain_entries};
ghost use Rattle.model_core.specs.Lawful.{IsLawful};
ghost use Rattle.model_core.specs.Content.{IsContent};
ghost use Rattle.db_store.specs.StoreMarks.{KeepStoreMarks};
ghost use Rattle.db_posting.specs.Origins.{content_now};
ghost use Rattle.db_posting.specs.Posted.{OnlyPosts};
ghost use Rattle.db_posting.specs.Tables.{HaveTables};
ghost use Rattle.db_fixpoint.specs.Reading.{block_named, CanRead};
ghost use Rattle.db_fixpoint.specs.Unfolding.{PostsEntries};

use db_opening::post_what_counts;
use db_posting::Origin;
use db_store::{OpenBlock, Store};
use model_core::model::Model;
use model_core::rule::Entry;
use std::alloc::{AllocError, Global};

/// Asks for what the items among the entries of the open block say, where all that they are about counts.
pub fn post_items(
    alloc: Global,
    store: &mut Store,
    model: &Model,
    block: &OpenBlock,
    entries: &[Entry],
) -> Result<(), AllocError>
    requires lawful { IsLawful model.now }
    requires tables { HaveTables model.now store.old.net.tables }
    requires content { IsContent model.now (content_now store.old) }
    requires readable { CanRead model.now store.old block.now (plain_entries entries.now) }
    ensures posted { OnOk result
        (PostsEntries model.now (block_named store.old block.now) (plain_entries entries.now) store.old store.new) }
    ensures only { OnlyPosts store.old store.new }
    ensures marks { KeepStoreMarks store.old store.new }
{
    store.is_sound();
    let origin = Origin::Rule {
        token: block.token,
        rule: block.rule,
    };
    for entry in entries {
        if let Entry::Item(item) = entry {
            post_what_counts(alloc, store, model, origin, item)?;
        }
    }
    Ok(())
}
