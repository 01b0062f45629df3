//! The values of an instance's nodes, with what their evaluations share.

ghost use Rattle.std.specs.Prelude.{◌≡◌, ◌≤◌, unsigned_abs, IfErr, IfOk, MatchOption};
ghost use Rattle.uc_model.specs.Prelude.{IsLawfulInstance, HasShapeOf, printed_denominator, printed_schedule, Obeys};
ghost use Rattle.dual_model.specs.Prelude.{IsNodeOf, IsValued, MAX_VALUE, IsNodeValue, IsLawfulTable, HasEachPattern, root, IsFirstBlocked, IsValueOf};
ghost use Rattle.dual_value.specs.Rooms.{IsExactRoomOf};
ghost use Rattle.dual_value.specs.NodeAnswer.{HasSizes, IsExactFaultOf, IsExactValued, IsFaultOf, IsFaultOfKind};
ghost use Rattle.opening_tables.specs.Marginal.{IsMarginalTable};
ghost use Rattle.opening.specs.Outcomes.{IsOutcomeAt};
ghost use Rattle.opening.specs.Blocked.{HasNoBlockedUnit};

use crate::kept::{Kept, inherited};
use branch_tree::Outcome;
use dual_model::{Node, Table};
use dual_value::{Room, ValueFault, Valued, child, exact_value, value_in};
use opening_tables::{marginal_in, unpriced};
use std::alloc::Global;
use std::marker::Model;
use uc_model::{Instance, NoMemory, Printed};
use unit_path::Scratch;

/// An instance with what the evaluations of its nodes share: the curves of its units, and memory for paths; the same for exact values, once
/// one was asked for; and the value V that was asked for last, from which a child of its node has the parts of all units but one. Contracts
/// see the instance, which is lawful.
#[derive(Drop)]
pub struct Evaluator<'a> {
    instance: &'a Instance,
    room: Room,
    exact: Option<Room>,
    scratch: Scratch,
    kept: Option<Kept>,
}

impl<'a> Model for Evaluator<'a> {
    ghost use Rattle.opening.specs.inside.Lent.{Instance, IsLentOf};

    ghost Value = { Instance };

    ghost view = { λ evaluator. evaluator.instance.now };

    ghost use Rattle.std.specs.Prelude.{IfSome};
    ghost use Rattle.dual_value.specs.Rooms.{IsExactRoomOf};
    ghost use Rattle.opening.specs.inside.Kept.{IsKeptOf};

    ghost invariant = { λ evaluator. IsLentOf evaluator.instance.now evaluator.room evaluator.scratch
        × IfSome evaluator.exact (IsExactRoomOf evaluator.instance.now) × IfSome evaluator.kept (IsKeptOf evaluator.instance.now) };
}

impl<'a> Evaluator<'a> {
    /// The evaluator of an instance. The only error is `NoMemory`.
    pub fn new(alloc: Global, instance: &'a Instance) -> Result<Evaluator<'a>, NoMemory>
        requires { IsLawfulInstance instance.now }
        ensures { IfOk result (λ evaluator. evaluator ≡ instance.now) }
    {
        Ok(Evaluator {
            instance,
            room: Room::new(alloc, instance)?,
            exact: None,
            scratch: Scratch::new(alloc, instance.periods as usize)?,
            kept: None,
        })
    }

    /// The instance.
    pub fn instance(&self) -> &'a Instance
        ensures is { result.now ≡ self.now }
        ensures lawful { IsLawfulInstance self.now }
    {
        self.instance
    }

    /// The table of a schedule's marginal prices. The only error is `NoMemory`.
    pub fn marginal(&self, alloc: Global, printed: &Printed) -> Result<Table, NoMemory>
        requires shape { HasShapeOf self.now printed.now }
        requires whole { printed.now.denominator ≡ 1 }
        requires obeys { let q = printed_denominator self.now printed.now in Obeys self.now q (printed_schedule self.now printed.now q) }
        ensures table { IfOk result (IsMarginalTable self.now printed.now) }
        ensures lawful { IfOk result (IsLawfulTable self.now) }
    {
        marginal_in(alloc, self.room.curves(), self.instance, printed)
    }

    // The value V of a node at the table.
    fn valued(&mut self, alloc: Global, node: &Node, table: &Table) -> Result<Valued, ValueFault>
        requires node { IsNodeOf self.old node.now }
        requires table { IsLawfulTable self.old table.now }
        ensures kept { self.new ≡ self.old }
        ensures value { IfOk result (IsValued self.old node.now table.now) }
        ensures sizes { IfOk result HasSizes }
        ensures fault { IfErr result (IsFaultOf self.old node.now) }
    {
        let scratch = &mut self.scratch;
        let room = &mut self.room;
        match inherited(&self.kept, node, table) {
            Some(inherited) => child(alloc, scratch, room, self.instance, node, &inherited),
            None => value_in(alloc, scratch, room, self.instance, node, table),
        }
    }

    // The room for exact values, which is made for the first of them. The only error is `NoMemory`.
    fn take_exact_room(&mut self, alloc: Global) -> Result<Room, NoMemory>
        ensures kept { self.new ≡ self.old }
        ensures room { IfOk result (IsExactRoomOf self.old) }
    {
        match self.exact.take() {
            Some(room) => Ok(room),
            None => Room::for_exact_values(alloc, self.instance),
        }
    }

    // The exact value VE of a node at the table.
    fn exactly_valued(
        &mut self,
        alloc: Global,
        node: &Node,
        table: &Table,
    ) -> Result<Valued, ValueFault>
        requires node { IsNodeOf self.old node.now }
        requires table { IsLawfulTable self.old table.now }
        ensures kept { self.new ≡ self.old }
        ensures value { IfOk result (IsExactValued self.old node.now table.now) }
        ensures fault { IfErr result (IsExactFaultOf self.old node.now) }
    {
        let mut room = self.take_exact_room(alloc)?;
        let instance = self.instance;
        let valued = exact_value(alloc, &mut self.scratch, &mut room, instance, node, table);
        self.exact = Some(room);
        valued
    }

    // Keeps the value for a child of its node. The only error is `NoMemory`.
    fn keep(
        &mut self,
        alloc: Global,
        node: &Node,
        table: &Table,
        valued: Valued,
    ) -> Result<(), NoMemory>
        requires value { IsValued self.old node.now table.now valued }
        requires sizes { HasSizes valued }
        ensures { self.new ≡ self.old }
    {
        self.kept = Some(Kept::new(alloc, node, table, valued)?);
        Ok(())
    }

    /// The value of a node at the table, or its first thermal unit without an allowed pattern; or where `exact`, its exact value, or its first
    /// thermal unit without a schedule of its own. The only error is `NoMemory`.
    pub fn outcome(
        &mut self,
        alloc: Global,
        node: &Node,
        table: &Table,
        exact: bool,
    ) -> Result<Outcome, NoMemory>
        requires node { IsNodeOf self.old node.now }
        requires table { IsLawfulTable self.old table.now }
        ensures kept { self.new ≡ self.old }
        ensures outcome { IfOk result (IsOutcomeAt exact self.old node.now table.now) }
    {
        match self.total(alloc, node, table, exact) {
            Ok(total) => Ok(Outcome::Value(total)),
            Err(ValueFault::Empty(g)) => Ok(Outcome::Empty(g)),
            Err(ValueFault::NoMemory) => Err(NoMemory),
        }
    }

    // The value of a node at the table, V or, where `exact`, VE; V is kept for a child of the node.
    fn total(
        &mut self,
        alloc: Global,
        node: &Node,
        table: &Table,
        exact: bool,
    ) -> Result<i128, ValueFault>
        requires node { IsNodeOf self.old node.now }
        requires table { IsLawfulTable self.old table.now }
        ensures kept { self.new ≡ self.old }
        ensures value { IfOk result (IsValueOf exact self.old node.now table.now) }
        ensures size { IfOk result (λ value. unsigned_abs value ≤ MAX_VALUE) }
        ensures fault { IfErr result (IsFaultOfKind exact self.old node.now) }
    {
        if exact {
            let valued = self.exactly_valued(alloc, node, table)?;
            return Ok(valued.total);
        }
        let valued = self.valued(alloc, node, table)?;
        let total = valued.total;
        self.keep(alloc, node, table, valued)?;
        Ok(total)
    }

    /// The value of the root at the table, where each unit has an allowed pattern. The only error is `NoMemory`.
    pub fn root_value(&mut self, alloc: Global, table: &Table) -> Result<i128, NoMemory>
        requires patterns { HasEachPattern self.old }
        requires table { IsLawfulTable self.old table.now }
        ensures kept { self.new ≡ self.old }
        ensures value { IfOk result (IsNodeValue self.old root table.now) }
        ensures size { IfOk result (λ value. unsigned_abs value ≤ MAX_VALUE) }
    {
        match self.valued(alloc, &Node::root(alloc), table) {
            Ok(valued) => Ok(valued.total),
            Err(ValueFault::Empty(_)) => unreachable!(),
            Err(ValueFault::NoMemory) => Err(NoMemory),
        }
    }

    /// The first thermal unit without an allowed pattern, or where `exact` without a schedule of its own. Prices play no part in it: it is
    /// asked at the scale 0, at which each costs nothing. The only error is `NoMemory`.
    pub fn first_blocked(&mut self, alloc: Global, exact: bool) -> Result<Option<u32>, NoMemory>
        ensures kept { self.new ≡ self.old }
        ensures blocked { IfOk result (λ blocked. MatchOption blocked (HasNoBlockedUnit exact self.old) (IsFirstBlocked exact self.old root)) }
    {
        let table = unpriced(alloc, self.instance(), 0)?;
        let root = Node::root(alloc);
        let total = self.total(alloc, &root, &table, exact);
        drop((root, table));
        match total {
            Ok(_) => Ok(None),
            Err(ValueFault::Empty(g)) => Ok(Some(g)),
            Err(ValueFault::NoMemory) => Err(NoMemory),
        }
    }
}
