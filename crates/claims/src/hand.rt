//! The nodes that a worker has in hand.

use std::alloc::Global;
use std::collections::BinaryHeap;
use uc_model::NoMemory;

/// The right to claim an open node, with the node's bound in micro-dollars.
#[derive(Clone, Copy, Debug)]
pub struct Ticket {
    pub node: u32,
    pub bound: i128,
}

// A ticket in its order: the less its bound, the greater its rank.
#[derive(Clone, Copy, PartialEq, Eq, PartialOrd, Ord)]
struct Ranked {
    rank: i128,
    node: u32,
}

impl Ranked {
    fn of(ticket: Ticket) -> Ranked {
        Ranked {
            rank: ticket.bound.saturating_neg(),
            node: ticket.node,
        }
    }

    fn ticket(self) -> Ticket {
        Ticket {
            node: self.node,
            bound: self.rank.saturating_neg(),
        }
    }
}

/// Tickets: one that is to be used next, if there is such a one, and then those of least bound first.
#[derive(Drop)]
pub struct Hand {
    next: Option<Ticket>,
    others: BinaryHeap<Ranked>,
}

impl Hand {
    /// An empty hand.
    pub fn new(alloc: Global) -> Hand {
        Hand {
            next: None,
            others: BinaryHeap::new(alloc),
        }
    }

    /// Adds a ticket in its order. The only error is `NoMemory`.
    pub fn add(&mut self, ticket: Ticket) -> Result<(), NoMemory> {
        self.others.push(Ranked::of(ticket))?;
        Ok(())
    }

    /// Adds a ticket that is to be used next, before one that was to be used next so far. The only error is `NoMemory`.
    pub fn add_next(&mut self, ticket: Ticket) -> Result<(), NoMemory> {
        match self.next.replace(ticket) {
            Some(former) => self.add(former),
            None => Ok(()),
        }
    }

    /// Takes the ticket to be used next.
    pub fn take(&mut self) -> Option<Ticket> {
        match self.next.take() {
            Some(ticket) => Some(ticket),
            None => Some(self.others.pop()?.ticket()),
        }
    }

    /// Takes the one behind the ticket to be used next, if there is one. The only error is `NoMemory`.
    pub fn take_second(&mut self) -> Result<Option<Ticket>, NoMemory> {
        let Some(first) = self.take() else {
            return Ok(None);
        };
        let second = self.take();
        self.add_next(first)?;
        Ok(second)
    }
}
