//! Reading items one after another.

ghost use Rattle.std.specs.Prelude.{◌≡◌, ◌++◌};
ghost use Rattle.nddl_grammar.specs.Readers.{Outcome, begins, is, mapped, many, after, following, separated, listed, IsFound};

use crate::cursor::{Cursor, Stop};
use crate::sort::Sort;
use eu_name::sequence::Sequence;

/// What can be read from a list of symbols, one after another. It is named by a type of its own, and not by what it is
/// read as: so the crates that stand on this one can add to it.
pub trait Item {
    /// What one is read as.
    type Tree: Drop;

    ghost use Rattle.std.specs.Prelude.{◌≡◌, List, Bool};
    ghost use Rattle.nddl_grammar.specs.declared.sort.Sort.{Sort};
    ghost use Rattle.nddl_grammar.specs.Symbols.{PlainSymbol};
    ghost use Rattle.nddl_grammar.specs.Readers.{Outcome, IsFound};

    /// With which symbols it can begin.
    ghost first: { Sort → Bool };

    ghost reader: { List PlainSymbol → Outcome Self.Tree };

    /// Whether it can begin with a symbol of the sort.
    fn is_first(sort: Sort) -> bool
        ensures { result ≡ first sort };

    /// Reads one.
    fn read(cursor: &mut Cursor<'_>) -> Result<Self::Tree, Stop>
        ensures { IsFound result cursor.new (reader cursor.old) };
}

// Whether an item can begin with the next symbol.
fn begins_item<T: Item>(cursor: &Cursor<'_>) -> bool
    ensures { result ≡ begins T.first cursor.now }
{
    match cursor.sort() {
        Some(sort) => T::is_first(sort),
        None => false,
    }
}

/// Items, as long as the next symbol can begin one.
pub fn many<T: Item>(cursor: &mut Cursor<'_>) -> Result<Sequence<T::Tree>, Stop>
    ensures { IsFound result cursor.new (many T.first T.reader cursor.old) }
{
    let mut items = Sequence::new(cursor.allocator());
    for turn in 0..cursor.len() {
        if !begins_item::<T>(cursor) {
            return Ok(items);
        }
        let item = T::read(cursor)?;
        items.push(item)?;
    }
    Ok(items)
}

/// A separator and the item behind it.
pub fn after<T: Item>(cursor: &mut Cursor<'_>, separator: Sort) -> Result<T::Tree, Stop>
    ensures { IsFound result cursor.new (after separator T.reader cursor.old) }
{
    cursor.mark(separator)?;
    T::read(cursor)
}

/// The items, and those that follow them, each behind a separator.
pub fn with_following<T: Item>(
    cursor: &mut Cursor<'_>,
    separator: Sort,
    items: Sequence<T::Tree>,
) -> Result<Sequence<T::Tree>, Stop>
    ensures { IsFound result cursor.new (mapped (λ more. items ++ more) (following separator T.reader) cursor.old) }
{
    let mut all = items;
    for turn in 0..cursor.len() {
        if !cursor.is_at(separator) {
            return Ok(all);
        }
        let item = after::<T>(cursor, separator)?;
        all.push(item)?;
    }
    Ok(all)
}

/// Items, each behind a separator; there may be none.
pub fn following<T: Item>(
    cursor: &mut Cursor<'_>,
    separator: Sort,
) -> Result<Sequence<T::Tree>, Stop>
    ensures { IsFound result cursor.new (following separator T.reader cursor.old) }
{
    let none = Sequence::new(cursor.allocator());
    with_following::<T>(cursor, separator, none)
}

/// An item, and any more of them with separators between them.
pub fn separated<T: Item>(
    cursor: &mut Cursor<'_>,
    separator: Sort,
) -> Result<Sequence<T::Tree>, Stop>
    ensures { IsFound result cursor.new (separated separator T.reader cursor.old) }
{
    let first = T::read(cursor)?;
    let mut items = Sequence::new(cursor.allocator());
    items.push(first)?;
    with_following::<T>(cursor, separator, items)
}

/// Items with separators between them, if the next symbol can begin one; else none.
pub fn listed<T: Item>(cursor: &mut Cursor<'_>, separator: Sort) -> Result<Sequence<T::Tree>, Stop>
    ensures { IsFound result cursor.new (listed T.first separator T.reader cursor.old) }
{
    if begins_item::<T>(cursor) {
        separated::<T>(cursor, separator)
    } else {
        Ok(Sequence::new(cursor.allocator()))
    }
}
