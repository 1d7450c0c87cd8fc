//! Items in the order in which they came, each of them once.

ghost use Rattle.eu_name.specs.Laws.{DecidesEquality};
ghost use Rattle.db_store.specs.Puts.{FindsItem, PutsItem};

use indexmap::IndexSet;
use std::alloc::AllocError;
use std::hash::Hash;

/// The number of the item.
pub fn find<T: Eq + Hash>(items: &IndexSet<T>, item: &T) -> Option<usize>
    requires told { DecidesEquality T.eq }
    ensures { FindsItem items.now.keys item.now result }
{
    items.get_index_of(item)
}

/// Puts the item behind the others, unless it is there, and answers its number.
pub fn put_item<T: Eq + Hash + Drop>(
    items: &mut IndexSet<T>,
    item: T,
) -> Result<Option<usize>, AllocError>
    requires told { DecidesEquality T.eq }
    ensures { PutsItem item items.old.keys result items.new.keys }
{
    let (number, added) = items.insert_full(item)?;
    if added { Ok(Some(number)) } else { Ok(None) }
}
