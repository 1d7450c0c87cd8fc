//! Open blocks as they stand in the model.

ghost use Rattle.std.specs.Prelude.{◌≡◌, ◌<◌, ◌≤◌, ◌^◌, length, Some, slice_get, IfOk};
ghost use Rattle.model_core.specs.Block.{plain_entries};
ghost use Rattle.model_core.specs.Entries.{Entries};
ghost use Rattle.model_core.specs.Lawful.{IsLawful};
ghost use Rattle.db_fixpoint.specs.Reading.{AreOpenEntries};

use db_store::{OpenBlock, Store};
use eu_name::sequence::Sequence;
use model_core::model::Model;
use model_core::rule::Entry;
use rule_engine::block_of;
use std::alloc::{AllocError, Global};

/// The open block of this number, in memory of its own.
pub fn copy_block(alloc: Global, store: &Store, number: usize) -> Result<OpenBlock, AllocError>
    requires { number < length store.now.blocks }
    ensures { IfOk result (λ block. slice_get store.now.blocks number ≡ Some block) }
{
    match store.block_at(number) {
        Some(block) => {
            let path = Vec::from_slice(alloc, block.path.as_slice())?;
            Ok(OpenBlock {
                token: block.token,
                rule: block.rule,
                path: Sequence::from_vec(path),
            })
        }
        None => unreachable!(),
    }
}

/// What stands in the open block.
pub fn entries_of<'a>(store: &Store, model: &'a Model, block: &OpenBlock) -> &'a [Entry]
    requires lawful { IsLawful model.now }
    requires there { (entries : Entries) × AreOpenEntries model.now store.now block.now entries }
    ensures are { (entries : Entries) → AreOpenEntries model.now store.now block.now entries
        → plain_entries result.now ≡ entries }
    ensures few { length result.now ≤ 2 ^ 16 }
{
    store.is_sound();
    match store.tokens().name(block.token) {
        Some(token) => {
            let path = block.path.as_slice();
            block_of(model, token, block.rule, path).entries.as_slice()
        }
        None => unreachable!(),
    }
}
