//! A worker's seat: its own deque, and its ways to the others'.

ghost use Rattle.std.specs.Prelude.{◌≡◌, ◌≢◌, ◌+◌, ◌<◌, ◌≤◌, [], ◌∷◌, ◌++◌, length, vec_len, IfSome, IfNone};
ghost use Rattle.crossbeam_deque.specs.Handles.{worker_deque};
ghost use Rattle.steal_pool.specs.Ends.{IsNew};
ghost use Rattle.steal_pool.specs.Line.{WasEmpty};
ghost use Rattle.steal_pool.specs.Seats.{own_log, place_among, theft_at, Pops, Takes, TakesNone, ChangesOnly};

use crate::rule::{Own, Put, Taken};
use crate::theft::Theft;
use std::marker::Model;

/// One worker's place in the pool.
#[derive(Drop)]
pub struct Seat {
    me: u8,
    room: u64,
    own: Own,
    others: Vec<Theft>,
}

impl Model for Seat {
    ghost use Rattle.steal_pool.specs.Seats.{SeatOf};

    ghost Value = { SeatOf };

    ghost use Rattle.std.specs.Prelude.{◌≡◌, ◌≤◌, true, length};
    ghost use Rattle.crossbeam_deque.specs.Handles.{worker_deque, worker_flavor, worker_view, worker_capacity, worker_index};
    ghost use Rattle.steal_pool.specs.Line.{log};

    ghost view = { λ seat. record {
      me = seat.me;
      deque = (worker_deque seat.own).0;
      room = seat.room;
      put = (worker_view seat.own).put;
      took = (worker_view seat.own).took;
      others = seat.others.items;
    } };

    ghost invariant = { λ seat. (worker_flavor seat.own ≡ 0)
        × (worker_view seat.own ≡ log true (worker_view seat.own).put (worker_view seat.own).took)
        × (worker_index seat.own ≤ length (worker_view seat.own).put) × (seat.room ≤ worker_capacity seat.own)
        × (seat.me ≤ length seat.others.items) };
}

/// Where the deque of another worker stands among those of all others.
fn place_of(me: u8, victim: u8) -> usize
    requires { victim ≢ me }
    ensures { result ≡ place_among me victim }
{
    if victim < me {
        victim as usize
    } else {
        (victim - 1) as usize
    }
}

impl Seat {
    /// The seat of a worker, whose deque is new.
    pub(crate) fn new(me: u8, room: u64, own: Own, others: Vec<Theft>) -> Seat
        requires deque { IsNew room own }
        requires others { me ≤ vec_len others }
        ensures { result ≡ record { me = me; deque = (worker_deque own).0; room = room; put = []; took = []; others = others.items } }
    {
        Seat {
            me,
            room,
            own,
            others,
        }
    }

    /// Adds a node at the back of the worker's own deque.
    pub fn push(&mut self, node: u32)
        requires { length self.old.put < self.old.room }
        ensures { self.new ≡ record self.old { put = self.old.put ++ node ∷ [] } }
    {
        match self.own.push_as::<Put>(node) {
            Ok(()) => {}
            Err(_) => unreachable!(),
        }
    }

    /// Takes the node in front of the worker's own deque; `None` only where it was empty at one moment of the call.
    pub fn pop(&mut self) -> Option<u32>
        ensures some { IfSome result (λ node. Pops self.old node self.new) }
        ensures none { IfNone result ((self.new ≡ self.old) × WasEmpty (own_log self.old)) }
    {
        self.own.pop_as::<Taken>()
    }

    /// Takes the node in front of another worker's deque. It answers `None`, and takes none, only where that deque was empty
    /// at one moment of the call, or where more of its places are known to be taken than before.
    pub fn steal(&mut self, victim: u8) -> Option<u32>
        requires worker { victim ≤ length self.old.others }
        requires another { victim ≢ self.old.me }
        ensures only { ChangesOnly (place_among self.old.me victim) self.old self.new }
        ensures some { let place = place_among self.old.me victim in IfSome result (λ node. Takes (theft_at self.old place) node (theft_at self.new place)) }
        ensures none { let place = place_among self.old.me victim in IfNone result (TakesNone (theft_at self.old place) (theft_at self.new place)) }
    {
        let place = place_of(self.me, victim);
        let theft = &mut self.others[place];
        theft.steal()
    }
}
