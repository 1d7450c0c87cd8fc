//! Lists of which there is one for each thing.

ghost use Rattle.std.specs.Prelude.{◌≡◌, OnOk};
ghost use Rattle.eu_forest.specs.Members.{list_at};
ghost use Rattle.nddl_rules.specs.Lists.{with_item_at};

use eu_name::sequence::Sequence;
use std::alloc::AllocError;

/// The list of the thing of this number.
pub fn list_at<T>(lists: &[Sequence<T>], number: usize) -> &[T]
    ensures { result.now ≡ list_at lists.now number }
{
    match lists.get(number) {
        Some(list) => list.as_slice(),
        None => &[],
    }
}

/// Puts an item at the end of the list of the thing of this number, if it is there.
#[tactic(auto, using(crate::proofs::Putting::put_here, crate::proofs::Putting::put_past))]
pub fn put_at<T: Drop>(
    number: usize,
    item: T,
    lists: &mut Vec<Sequence<T>>,
) -> Result<(), AllocError>
    ensures { OnOk result (lists.new.items ≡ with_item_at lists.old.items number item) }
{
    if number < lists.len() {
        lists[number].push(item)?;
    }
    Ok(())
}
