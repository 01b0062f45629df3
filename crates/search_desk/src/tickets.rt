//! A worker's tickets: those in its hand, and those in its queue, from which the others steal.

ghost use Rattle.std.specs.Prelude.{◌≡◌, ◌≢◌, ◌+◌, ◌<◌, ◌≤◌, length};

use claims::{Hand, Ticket};
use std::alloc::Global;
use std::collections::VecDeque;
use steal_pool::Seat;
use uc_model::NoMemory;

/// A worker's tickets: those in its hand; its seat in the pool; those that it put into its queue, of which the others may have taken the first
/// ones; and how many more it can put there.
#[derive(Drop)]
pub struct Tickets {
    hand: Hand,
    seat: Seat,
    queued: VecDeque<Ticket>,
    left: u32,
    me: u8,
    workers: u8,
    ghost is_mine: { seat.me ≡ me },
    ghost within: { me < workers },
    ghost others: { length seat.others + 1 ≡ workers },
    ghost room: { length seat.put + left ≤ seat.room },
}

impl Tickets {
    /// No tickets, with room for so many in the queue.
    pub fn new(alloc: Global, seat: Seat, me: u8, workers: u8, room: u32) -> Tickets
        requires mine { seat.me ≡ me }
        requires within { me < workers }
        requires others { length seat.others + 1 ≡ workers }
        requires room { length seat.put + room ≤ seat.room }
    {
        Tickets {
            hand: Hand::new(alloc),
            seat,
            queued: VecDeque::new(alloc),
            left: room,
            me,
            workers,
        }
    }

    /// Takes a ticket into the hand. The only error is `NoMemory`.
    pub fn keep(&mut self, ticket: Ticket) -> Result<(), NoMemory> {
        self.hand.add(ticket)
    }

    /// Takes a ticket that is to be used next into the hand. The only error is `NoMemory`.
    pub fn keep_next(&mut self, ticket: Ticket) -> Result<(), NoMemory> {
        self.hand.add_next(ticket)
    }

    /// Puts a ticket into the queue. Where there is no room left the node stays open, and is claimed once the workers have ended. The only error
    /// is `NoMemory`.
    pub fn put_out(&mut self, ticket: Ticket) -> Result<(), NoMemory> {
        if self.left > 0 {
            self.queued.push_back(ticket)?;
            self.queue(ticket.node);
        }
        Ok(())
    }

    // Puts the node at the back of the queue.
    fn queue(&mut self, node: u32)
        requires { 0 < self.old.left }
    {
        self.left -= 1;
        self.seat.push(node);
    }

    /// Puts tickets of the hand, but for the one to be used next, into the queue, one for each worker that waits. Whether it did. The only error is
    /// `NoMemory`.
    pub fn share(&mut self, waiting: u32) -> Result<bool, NoMemory> {
        let mut shared = false;
        for _ in 0..waiting {
            match self.hand.take_second()? {
                Some(ticket) => self.put_out(ticket)?,
                None => return Ok(shared),
            }
            shared = true;
        }
        Ok(shared)
    }

    /// Puts all tickets of the hand into the queue. The only error is `NoMemory`.
    pub fn put_all_out(&mut self) -> Result<(), NoMemory> {
        for _ in 0..self.left {
            match self.hand.take() {
                Some(ticket) => self.put_out(ticket)?,
                None => return Ok(()),
            }
        }
        Ok(())
    }

    /// The node to claim next, of the worker's own tickets: that of least bound. As long as no worker waits, it takes all that it put into the
    /// queue back into its hand. The only error is `NoMemory`.
    pub fn take(&mut self, waiting: u32) -> Result<Option<u32>, NoMemory> {
        if waiting == 0 {
            self.take_back()?;
        }
        match self.hand.take() {
            Some(ticket) => Ok(Some(ticket.node)),
            None => Ok(self.seat.pop()),
        }
    }

    // Takes all tickets of the queue into the hand.
    fn take_back(&mut self) -> Result<(), NoMemory> {
        for _ in 0..self.queued.len() {
            let Some(node) = self.seat.pop() else {
                break;
            };
            let ticket = self.ticket_of(node);
            self.hand.add(ticket)?;
        }
        self.queued.clear();
        Ok(())
    }

    // The ticket of a node that was in front of the queue: others may have taken those before it.
    fn ticket_of(&mut self, node: u32) -> Ticket {
        for _ in 0..self.queued.len() {
            match self.queued.pop_front() {
                Some(ticket) if ticket.node == node => return ticket,
                _ => {}
            }
        }
        Ticket {
            node,
            bound: i128::MAX,
        }
    }

    /// A node from the queue of another worker.
    pub fn steal(&mut self) -> Option<u32> {
        steal(&mut self.seat, self.me, self.workers)
    }
}

// A node from the queue of another worker, the next one first.
fn steal(seat: &mut Seat, me: u8, workers: u8) -> Option<u32>
    requires mine { seat.old.me ≡ me }
    requires within { me < workers }
    requires others { length seat.old.others + 1 ≡ workers }
    ensures mine { seat.new.me ≡ seat.old.me }
    ensures others { length seat.new.others ≡ length seat.old.others }
    ensures put { seat.new.put ≡ seat.old.put }
    ensures room { seat.new.room ≡ seat.old.room }
{
    for step in 1..workers {
        let victim = behind(me, step, workers);
        if let Some(node) = seat.steal(victim) {
            return Some(node);
        }
    }
    None
}

// The worker that comes so many behind another one, the first being behind the last.
fn behind(me: u8, step: u8, workers: u8) -> u8
    requires within { me < workers }
    requires some { 0 < step }
    requires fewer { step < workers }
    ensures within { result < workers }
    ensures another { result ≢ me }
{
    let left = workers - me;
    if step < left { me + step } else { step - left }
}
