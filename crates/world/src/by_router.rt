//! Lists, one for each router.

ghost use Rattle.std.specs.Prelude.{◌≡◌, ◌<◌, ◌++◌, ◌∷◌, [], map, vec_len, IfOk, OnOk};
ghost use Rattle.std.specs.List.{range_with_len};
ghost use Rattle.network_model.specs.Machine.{changed_at};

use network_model::{NoMemory, SmallAllocator};

/// So many lists, in none of which there is an item.
pub fn no_lists<T: Copy, A: SmallAllocator>(
    alloc: A,
    count: usize,
) -> Result<Vec<Vec<T, A>, A>, NoMemory>
    ensures { IfOk result (λ lists. map (λ v. v.items) lists.items
        ≡ map (λ _. []) (range_with_len 0 count)) }
{
    let mut lists = Vec::with_capacity(alloc, count)?;
    for _ in 0..count {
        lists.push_reserved(Vec::new(alloc));
    }
    Ok(lists)
}

/// Puts an item at the back of the list of one router.
pub fn put_at<T: Copy, A: SmallAllocator>(
    lists: &mut Vec<Vec<T, A>, A>,
    router: u16,
    item: T,
) -> Result<(), NoMemory>
    requires { router < vec_len lists.old }
    ensures lists { OnOk result (map (λ v. v.items) lists.new.items
        ≡ changed_at router (λ xs. xs ++ item ∷ []) (map (λ v. v.items) lists.old.items)) }
    ensures len { vec_len lists.new ≡ vec_len lists.old }
{
    lists[usize::from(router)].push(item)?;
    Ok(())
}
