//! What a state starts with.

ghost use Rattle.std.specs.Prelude.{◌≡◌, ◌<◌, ◌∷◌, ◌-◌, [], IfOk, replicate};
ghost use Rattle.search_machine.specs.Prelude.{no_desk, first_desk};

use crate::lists;
use search_machine::desk::WorkerState;
use std::alloc::Global;
use uc_model::{List, NoMemory};

/// A list of one item.
pub(crate) fn single<T: Drop>(alloc: Global, item: T) -> Result<List<T>, NoMemory>
    ensures { IfOk result (λ list. list ≡ item ∷ []) }
{
    let mut list = List::from_vec(Vec::new(alloc));
    lists::push(alloc, &mut list, item)?;
    Ok(list)
}

// A desk with this hand.
fn desk(alloc: Global, hand: List<u32>) -> WorkerState
    ensures { result ≡ record no_desk { hand = hand } }
{
    WorkerState {
        seen: None,
        hand,
        queue: List::from_vec(Vec::new(alloc)),
    }
}

/// The desks of so many workers, of whom the first has the root's ticket.
pub(crate) fn desks(alloc: Global, workers: u8) -> Result<Vec<WorkerState>, NoMemory>
    requires { 0 < workers }
    ensures { IfOk result (λ desks. desks.items ≡ first_desk ∷ replicate (workers - 1) no_desk) }
{
    let mut desks = Vec::new(alloc);
    desks.push(desk(alloc, single(alloc, 0)?))?;
    for _ in 0..workers - 1 {
        desks.push(desk(alloc, List::from_vec(Vec::new(alloc))))?;
    }
    Ok(desks)
}
