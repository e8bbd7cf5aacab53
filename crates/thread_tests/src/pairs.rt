ghost use Rattle.std.specs.Prelude.{◌≡◌, [], ◌∷◌, length, IfOk};

use lists::{ItemList, NoMemory};
use std::alloc::Global;

/// The items of a list of two.
pub fn pair_of<T: Drop>(mut list: ItemList<T>) -> (T, T)
    requires { length list ≡ 2 }
    ensures { list ≡ result.0 ∷ result.1 ∷ [] }
{
    let Some(second) = list.pop() else {
        unreachable!()
    };
    let Some(first) = list.pop() else {
        unreachable!()
    };
    (first, second)
}

/// The list of two items.
pub fn list_of<T: Drop>(alloc: Global, first: T, second: T) -> Result<ItemList<T>, NoMemory>
    ensures { IfOk result (λ list. list ≡ first ∷ second ∷ []) }
{
    let mut list = ItemList::new(alloc);
    list.push(first)?;
    list.push(second)?;
    Ok(list)
}
