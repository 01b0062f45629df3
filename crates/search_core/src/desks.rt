//! The desks of all workers.

ghost use Rattle.std.specs.Prelude.{◌≡◌, ◌<◌, Some, OnOk, OnErr, length, vec_len};
ghost use Rattle.branch_tree.specs.Prelude.{lesser_bound};
ghost use Rattle.search_machine.specs.Prelude.{desk_in, with_desk, with_tickets, with_queued, without_first};

use crate::{costs, desk};
use search_machine::desk::WorkerState;
use std::alloc::Global;
use uc_model::NoMemory;

/// Says what the worker has seen.
pub(crate) fn see(desks: &mut Vec<WorkerState>, worker: u8, seen: &Option<i64>)
    requires { worker < vec_len desks.old }
    ensures { desks.new.items ≡ with_desk desks.old.items worker (λ desk. record desk { seen = seen.now }) }
{
    desks[worker as usize].seen = *seen;
}

/// Says that the worker has seen this cost too.
pub(crate) fn see_cost(desks: &mut Vec<WorkerState>, worker: u8, cost: i64)
    requires { worker < vec_len desks.old }
    ensures { desks.new.items ≡ with_desk desks.old.items worker (λ desk. record desk { seen = lesser_bound desk.seen (Some cost) }) }
{
    let seen = &mut desks[worker as usize].seen;
    *seen = costs::least(seen, cost);
}

/// Takes tickets into the worker's hand.
pub(crate) fn take_tickets(
    alloc: Global,
    desks: &mut Vec<WorkerState>,
    worker: u8,
    tickets: &[u32],
) -> Result<(), NoMemory>
    requires { worker < vec_len desks.old }
    ensures taken { OnOk result (desks.new.items ≡ with_desk desks.old.items worker (λ desk. with_tickets desk tickets.now)) }
    ensures same { OnErr result (desks.new.items ≡ desks.old.items) }
{
    desk::take(alloc, &mut desks[worker as usize], tickets)
}

/// Moves a ticket from the worker's hand to the back of its queue.
pub(crate) fn enqueue(
    alloc: Global,
    desks: &mut Vec<WorkerState>,
    worker: u8,
    node: u32,
) -> Result<(), NoMemory>
    requires { worker < vec_len desks.old }
    ensures moved { OnOk result (desks.new.items ≡ with_desk desks.old.items worker (λ desk. with_queued desk node)) }
    ensures same { OnErr result (desks.new.items ≡ desks.old.items) }
{
    desk::enqueue(alloc, &mut desks[worker as usize], node)
}

/// Drops the first ticket of the worker's queue.
pub(crate) fn drop_first(alloc: Global, desks: &mut Vec<WorkerState>, worker: u8)
    requires within { worker < vec_len desks.old }
    requires some { 0 < length (desk_in desks.old.items worker).queue }
    ensures { desks.new.items ≡ with_desk desks.old.items worker without_first }
{
    desk::drop_first(alloc, &mut desks[worker as usize]);
}
