//! Lists that grow and shrink at the end.

ghost use Rattle.std.specs.Prelude.{◌≡◌, [], ◌∷◌, ◌++◌, OnOk, OnErr, take};

use std::alloc::Global;
use std::mem;
use uc_model::{List, NoMemory};

/// Takes the items out of a list, which is then empty.
pub(crate) fn take_items<T>(alloc: Global, list: &mut List<T>) -> Vec<T>
    ensures items { result.items ≡ list.old }
    ensures empty { list.new ≡ [] }
{
    mem::replace(list, List::from_vec(Vec::new(alloc))).into_vec()
}

/// Puts an item at the end of a list.
pub(crate) fn push<T: Drop>(alloc: Global, list: &mut List<T>, item: T) -> Result<(), NoMemory>
    ensures pushed { OnOk result (list.new ≡ list.old ++ item ∷ []) }
    ensures same { OnErr result (list.new ≡ list.old) }
{
    let mut items = take_items(alloc, list);
    let pushed = items.push(item);
    *list = List::from_vec(items);
    pushed?;
    Ok(())
}

/// Puts the items at the end of a list.
pub(crate) fn append<T: Copy + Drop>(
    alloc: Global,
    list: &mut List<T>,
    more: &[T],
) -> Result<(), NoMemory>
    ensures appended { OnOk result (list.new ≡ list.old ++ more.now) }
    ensures same { OnErr result (list.new ≡ list.old) }
{
    let mut items = take_items(alloc, list);
    let appended = items.extend_from_slice(more);
    *list = List::from_vec(items);
    appended?;
    Ok(())
}

/// Keeps the first items of a list alone.
pub(crate) fn shorten<T: Drop>(alloc: Global, list: &mut List<T>, count: usize)
    ensures { list.new ≡ take count list.old }
{
    let mut items = take_items(alloc, list);
    items.truncate(count);
    *list = List::from_vec(items);
}

/// Puts an item at the end of each of two lists, or changes neither.
pub(crate) fn push_both<A: Drop, B: Drop>(
    alloc: Global,
    first: &mut List<A>,
    a: A,
    second: &mut List<B>,
    b: B,
) -> Result<(), NoMemory>
    ensures pushed { OnOk result ((first.new ≡ first.old ++ a ∷ []) × (second.new ≡ second.old ++ b ∷ [])) }
    ensures same { OnErr result ((first.new ≡ first.old) × (second.new ≡ second.old)) }
{
    let count = first.as_slice().len();
    push(alloc, first, a)?;
    if push(alloc, second, b).is_err() {
        shorten(alloc, first, count);
        return Err(NoMemory);
    }
    Ok(())
}
