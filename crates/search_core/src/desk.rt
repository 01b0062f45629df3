//! What each worker has by itself: what it has seen, and its tickets.

ghost use Rattle.std.specs.Prelude.{◌≡◌, ◌<◌, OnOk, OnErr, length, not, ◌==◌, filter};
ghost use Rattle.search_machine.specs.Prelude.{is_in_hand, with_tickets, with_queued, without_first, first_queued};

use crate::lists;
use search_machine::desk::WorkerState;
use std::alloc::Global;
use uc_model::{List, NoMemory};

/// Whether the node's ticket is in the hand.
pub(crate) fn has_in_hand(desk: &WorkerState, node: u32) -> bool
    ensures { result ≡ is_in_hand desk.now node }
{
    desk.hand.as_slice().iter().any(|ticket| *ticket == node)
}

/// The first ticket of the queue, or 0 where it is empty.
pub(crate) fn first_queued(desk: &WorkerState) -> u32
    ensures { result ≡ first_queued desk.now }
{
    match desk.queue.as_slice().first() {
        Some(node) => *node,
        None => 0,
    }
}

/// Takes tickets into the hand.
pub(crate) fn take(alloc: Global, desk: &mut WorkerState, tickets: &[u32]) -> Result<(), NoMemory>
    ensures taken { OnOk result (desk.new ≡ with_tickets desk.old tickets.now) }
    ensures same { OnErr result (desk.new ≡ desk.old) }
{
    lists::append(alloc, &mut desk.hand, tickets)
}

/// Moves a ticket from the hand to the back of the queue.
pub(crate) fn enqueue(alloc: Global, desk: &mut WorkerState, node: u32) -> Result<(), NoMemory>
    ensures moved { OnOk result (desk.new ≡ with_queued desk.old node) }
    ensures same { OnErr result (desk.new ≡ desk.old) }
{
    lists::push(alloc, &mut desk.queue, node)?;
    without(alloc, &mut desk.hand, node);
    Ok(())
}

/// Drops the first ticket of the queue.
pub(crate) fn drop_first(alloc: Global, desk: &mut WorkerState)
    requires { 0 < length desk.old.queue }
    ensures { desk.new ≡ without_first desk.old }
{
    let mut queue = lists::take_items(alloc, &mut desk.queue);
    queue.remove(0);
    desk.queue = List::from_vec(queue);
}

// Drops a ticket from a list.
fn without(alloc: Global, tickets: &mut List<u32>, node: u32)
    ensures { tickets.new ≡ filter (λ ticket. not (ticket == node)) tickets.old }
{
    let mut items = lists::take_items(alloc, tickets);
    items.retain(|ticket| *ticket != node);
    *tickets = List::from_vec(items);
}
