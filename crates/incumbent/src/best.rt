//! The shared word, and the passes by which threads look at it and publish costs.

ghost use Rattle.std.specs.Prelude.{◌≡◌, ◌+◌, ◌-◌, ◌<◌, ◌↔◌, Some, None, IsTrue, IfOk, IfSome};
ghost use Rattle.incumbent.specs.Costs.{least, AtMost, IsBelow, IsScheduleCost};

use crate::rule::{Cut, Joined, Looked, Lowest, Published, Taken, View};
use crate::word::{NOTHING, cost_of, word_of};
use atomic_table::{Seat, Table};
use std::alloc::Global;
use std::marker::{Brand, Model};
use uc_model::NoMemory;

/// The least cost that was published. Threads share it by reference, each with a pass of its own.
#[derive(Drop)]
pub struct Best {
    table: Table<(), View, u32, Lowest, Global>,
}

impl Model for Best {
    ghost use Rattle.std.specs.Prelude.{◌≡◌};
    ghost use Rattle.incumbent.specs.Passes.{Incumbent};

    ghost Value = { Incumbent };

    ghost view = { λ best. record { object = best.table.shared.table_id; parts = best.table.shared.key } };

    ghost invariant = { λ best. (best.table.shared.table_id.words ≡ 1) × (best.table.shared.table_id.slots ≡ 0) };
}

/// What one thread knows of an incumbent, and its parts of the right to close it. It takes no bytes.
#[derive(Drop)]
pub struct Pass {
    seat: Seat<(), View>,
}

impl Model for Pass {
    ghost use Rattle.incumbent.specs.Passes.{Known};

    ghost Value = { Known };

    ghost use Rattle.incumbent.specs.Rule.{known, IsPass};

    ghost view = { λ pass. known pass.seat.table_id pass.seat.me };

    ghost invariant = { λ pass. IsPass pass.seat.me };
}

impl Best {
    /// An incumbent with no cost yet, and the pass that has all its parts. The only error is `NoMemory`.
    pub fn new(alloc: Global, parts: u32) -> Result<(Best, Pass), NoMemory>
        requires { 0 < parts }
        ensures best { IfOk result (λ made. made.0.parts ≡ parts) }
        ensures pass { IfOk result (λ made. made.1 ≡ record { object = made.0.object; seen = None; mine = None; found = None; parts = parts }) }
    {
        let (table, seat) = Table::of_words(alloc, &[NOTHING], &parts)?;
        Ok((Best { table }, Pass { seat }))
    }

    /// A new pass with that many parts of this one, which has seen the same and published nothing.
    pub fn split(&self, pass: &mut Pass, parts: u32) -> Pass
        requires object { pass.old.object ≡ self.now.object }
        requires some { 0 < parts }
        requires fewer { parts < pass.old.parts }
        ensures left { pass.new ≡ record pass.old { parts = pass.old.parts - parts } }
        ensures right { result ≡ record pass.old { mine = None; parts = parts } }
    {
        self.cut::<Brand>(pass, parts)
    }

    fn cut<N: Taken>(&self, pass: &mut Pass, _parts: u32) -> Pass
        requires taken { N.taken ≡ _parts }
        requires object { pass.old.object ≡ self.now.object }
        requires some { 0 < _parts }
        requires fewer { _parts < pass.old.parts }
        ensures left { pass.new ≡ record pass.old { parts = pass.old.parts - _parts } }
        ensures right { result ≡ record pass.old { mine = None; parts = _parts } }
    {
        let seat = self.table.shared.split_seat::<Cut<N>>(&mut pass.seat);
        Pass { seat }
    }

    /// Two passes become one, which has the least of what both have seen and published, and the parts of both.
    pub fn join(&self, pass: &mut Pass, other: Pass)
        requires object { pass.old.object ≡ self.now.object }
        requires other { other.object ≡ self.now.object }
        ensures { pass.new ≡ record pass.old {
          seen = least pass.old.seen other.seen;
          mine = least pass.old.mine other.mine;
          parts = pass.old.parts + other.parts;
        } }
    {
        let Pass { seat } = other;
        self.table.shared.join_seat::<Joined>(&mut pass.seat, seat);
    }

    /// The least cost so far, in micro-dollars; `None` exactly where the word held nothing at the step.
    pub fn look(&self, pass: &mut Pass) -> Option<i64>
        requires { pass.old.object ≡ self.now.object }
        ensures found { result ≡ pass.new.found }
        ensures seen { AtMost pass.new.found pass.old.seen }
        ensures mine { AtMost pass.new.found pass.old.mine }
        ensures pass { pass.new ≡ record pass.old { seen = pass.new.found; found = pass.new.found } }
        ensures cost { IfSome result IsScheduleCost }
    {
        let found = self.table.shared.load::<Looked>(&mut pass.seat, 0);
        cost_of(found)
    }

    /// Publishes a cost, in micro-dollars; `false` exactly where the word was no greater than the cost at the step.
    pub fn publish(&self, pass: &mut Pass, cost: i64) -> bool
        requires object { pass.old.object ≡ self.now.object }
        requires cost { IsScheduleCost cost }
        ensures lowered { IsTrue result ↔ IsBelow cost pass.new.found }
        ensures seen { AtMost pass.new.found pass.old.seen }
        ensures mine { AtMost pass.new.found pass.old.mine }
        ensures pass { pass.new ≡ record pass.old {
          seen = least pass.new.found (Some cost);
          mine = least pass.old.mine (Some cost);
          found = pass.new.found;
        } }
    {
        let word = word_of(&cost);
        let found = self
            .table
            .shared
            .fetch_min::<Published>(&mut pass.seat, 0, word);
        word < found
    }

    /// The least cost that was published, in micro-dollars, once all passes are joined.
    pub fn close(self, pass: Pass) -> Option<i64>
        requires object { pass.object ≡ self.object }
        requires whole { pass.parts ≡ self.parts }
        ensures mine { result ≡ pass.mine }
        ensures seen { AtMost result pass.seen }
        ensures cost { IfSome result IsScheduleCost }
    {
        let Best { table } = self;
        let Pass { seat } = pass;
        let closed = table.close_with(seat);
        let word = closed.word(0);
        closed.free();
        cost_of(word)
    }
}
