//! Putting items at the end of lists, and finding them.

ghost use Rattle.std.specs.Prelude.{◌≡◌, ◌++◌, IfOk, option_to_list, option_copied, slice_get};

use std::alloc::AllocError;

// Puts the item at the end of the list, where there is one.
pub fn push_found<T: Drop>(list: &mut Vec<T>, item: Option<T>) -> Result<(), AllocError>
    ensures { IfOk result (λ _. list.new.items ≡ list.old.items ++ option_to_list item) }
{
    if let Some(item) = item {
        list.push(item)?;
    }
    Ok(())
}

// The item at this place.
pub fn item_at<T>(items: &[T], place: usize) -> Option<&T>
    ensures { option_copied result ≡ slice_get items.now place }
{
    items.get(place)
}
