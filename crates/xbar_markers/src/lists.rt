ghost use Rattle.std.specs.Prelude.{◌≡◌, ◌∷◌, ◌++◌, [], OnOk};

use std::alloc::AllocError;

/// Appends an item. Drops it if memory runs out.
pub fn put_behind<T: Drop>(list: &mut Vec<T>, item: T) -> Result<(), AllocError>
    ensures { OnOk result (list.new.items ≡ list.old.items ++ item ∷ []) }
{
    Ok(list.push(item)?)
}

/// Appends items. If the list is empty, they take its place and nothing is moved.
pub fn put_all_behind<T: Drop>(list: &mut Vec<T>, mut items: Vec<T>) -> Result<(), AllocError>
    ensures { OnOk result (list.new.items ≡ list.old.items ++ items.items) }
{
    if list.is_empty() {
        *list = items;
        return Ok(());
    }
    list.append(&mut items)
}
