use lists::{ItemList, NoMemory};
use std::alloc::Global;

fn list_of(alloc: Global, items: &[u32]) -> Result<ItemList<u32>, NoMemory> {
    let mut list = ItemList::new(alloc);
    for item in items {
        list.push(*item)?;
    }
    Ok(list)
}

/// Whether one list's items go to the end of another's.
fn are_joined(list: &mut ItemList<u32>, more: &mut ItemList<u32>) -> Result<bool, NoMemory> {
    list.append(more)?;
    Ok(list.as_slice() == [1, 2, 3, 4, 5].as_slice() && more.is_empty())
}

/// Whether the first item is 1, and the first two are 6 and 2 when 6 stands in its place.
fn is_replaced(mut list: ItemList<u32>) -> bool {
    if list.is_empty() || list.replace(0, 6) != 1 {
        return false;
    }
    list.truncate(2);
    let items = ItemList::from_vec(list.into_vec());
    items.as_slice() == [6, 2].as_slice()
}

#[test]
fn lists_are_moved_whole(rt: HostRuntime) -> Result<(), NoMemory> {
    let mut list = list_of(rt.alloc(), &[1, 2])?;
    let mut more = list_of(list.allocator(), &[3, 4, 5])?;
    let joined = are_joined(&mut list, &mut more);
    assert!(rt; joined == Ok(true) && is_replaced(list));
    Ok(())
}
