//! One worker's way to another's deque.

ghost use Rattle.std.specs.Prelude.{◌≡◌, [], IfSome, IfNone};
ghost use Rattle.crossbeam_deque.specs.Handles.{stealer_deque, stealer_flavor};
ghost use Rattle.steal_pool.specs.Seats.{Takes, TakesNone};

use crate::rule::{Knowledge, Taken, Victim};
use crossbeam_deque::Steal;
use std::marker::Model;

/// The front of another worker's deque, and what was taken there.
#[derive(Drop)]
pub(crate) struct Theft {
    victim: Victim,
    pass: Knowledge,
}

impl Model for Theft {
    ghost use Rattle.steal_pool.specs.Seats.{TheftOf};

    ghost Value = { TheftOf };

    ghost use Rattle.std.specs.Prelude.{◌≡◌, false, []};
    ghost use Rattle.crossbeam_deque.specs.Handles.{view as known_by, taken, IsPassOf, stealer_deque, stealer_flavor};
    ghost use Rattle.steal_pool.specs.Line.{log};

    ghost view = { λ theft. record { deque = (stealer_deque theft.victim).0; took = (known_by theft.pass).took; known = taken theft.pass } };

    ghost invariant = { λ theft. IsPassOf (stealer_deque theft.victim) theft.pass × (stealer_flavor theft.victim ≡ 0)
        × (known_by theft.pass ≡ log false [] (known_by theft.pass).took) };
}

impl Theft {
    /// A new way to a deque.
    pub(crate) fn new(victim: Victim) -> Theft
        requires { stealer_flavor victim ≡ 0 }
        ensures deque { result.deque ≡ (stealer_deque victim).0 }
        ensures took { result.took ≡ [] }
    {
        let pass = victim.pass();
        Theft { victim, pass }
    }

    /// The node in front, if one was taken.
    pub(crate) fn steal(&mut self) -> Option<u32>
        ensures some { IfSome result (λ node. Takes self.old node self.new) }
        ensures none { IfNone result (TakesNone self.old self.new) }
    {
        match self.victim.steal_as::<Taken>(&mut self.pass) {
            Steal::Success(node) => Some(node),
            Steal::Empty => None,
            Steal::Retry => None,
        }
    }
}
