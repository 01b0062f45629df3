//! A worker: what it keeps from claim to claim.

ghost use Rattle.std.specs.Prelude.{◌≡◌, IfOk, MatchOption};
ghost use Rattle.uc_model.specs.Prelude.{IsLawfulInstance};
ghost use Rattle.dual_model.specs.Prelude.{IsFirstEmpty, HasEachPattern, root, IsFirstBlocked};
ghost use Rattle.schedule_check.specs.Accepted.{IsAcceptedIfFound};
ghost use Rattle.opening.specs.Blocked.{HasNoBlockedUnit};
ghost use Rattle.opening.specs.Rays.{HasNoRay, IsFirstRay};

use crate::effort::{Idle, RepairEffort};
use crate::pair::beside;
use opening::{Evaluator, excluding_ray};
use prices::{Ascent, CutPool, Values};
use schedule_repair::{Repair, repair};
use std::alloc::Global;
use std::marker::Model;
use uc_model::{Instance, NoMemory, Printed};

/// The evaluator of the instance, what its repairs share, the cuts that its ascents share, whether these climb exact values, and how long
/// no repair has found a cheaper schedule. Contracts see the instance.
#[derive(Drop)]
pub struct Worker<'a> {
    pub evaluator: Evaluator<'a>,
    repairs: Repair,
    pub pool: CutPool,
    exact: bool,
    idle: Idle,
}

impl<'a> Model for Worker<'a> {
    ghost use Rattle.uc_model.specs.declared.instance.Instance.{Instance};

    ghost Value = { Instance };

    ghost view = { λ worker. worker.evaluator };
}

impl<'a> Worker<'a> {
    /// A worker on the instance, whose ascents climb these values. The only error is `NoMemory`.
    pub fn new(alloc: Global, values: Values<'a>) -> Result<Worker<'a>, NoMemory>
        requires { IsLawfulInstance values.instance.now }
        ensures { IfOk result (λ worker. worker ≡ values.entry.instance.now) }
    {
        let evaluator = Evaluator::new(alloc, values.instance)?;
        let (evaluator, repairs) = beside(evaluator, Repair::new(alloc, values.instance))?;
        Ok(Worker {
            evaluator,
            repairs,
            pool: CutPool::new(alloc),
            exact: values.exact,
            idle: Idle::new(),
        })
    }

    /// The instance.
    pub fn instance(&self) -> &'a Instance
        ensures is { result.now ≡ self.now }
        ensures lawful { IsLawfulInstance self.now }
    {
        self.evaluator.instance()
    }

    /// The values that its ascents climb.
    pub fn values(&self) -> Values<'a>
        ensures is { result.instance.now ≡ self.now }
        ensures lawful { IsLawfulInstance self.now }
    {
        Values {
            instance: self.evaluator.instance(),
            exact: self.exact,
        }
    }

    /// The first thermal unit without an allowed pattern. The only error is `NoMemory`.
    pub fn first_empty(&mut self, alloc: Global) -> Result<Option<u32>, NoMemory>
        ensures kept { self.new ≡ self.old }
        ensures empty { IfOk result (λ empty. MatchOption empty (HasEachPattern self.old) (IsFirstEmpty self.old root)) }
    {
        self.evaluator.first_blocked(alloc, false)
    }

    /// The first thermal unit without a schedule of its own, if that is asked, where each has an allowed pattern. The only error is `NoMemory`.
    pub fn first_unscheduled(&mut self, alloc: Global, exact: bool) -> Result<Option<u32>, NoMemory>
        requires { HasEachPattern self.old }
        ensures kept { self.new ≡ self.old }
        ensures unscheduled { IfOk result (λ unit. MatchOption unit (HasNoBlockedUnit exact self.old) (IsFirstBlocked exact self.old root)) }
    {
        if !exact {
            return Ok(None);
        }
        self.evaluator.first_blocked(alloc, exact)
    }

    /// The first ray of the opening that leaves no schedule, by values of the kind. Where there is a schedule, there is none. The only error is `NoMemory`.
    pub fn excluding_ray(
        &mut self,
        alloc: Global,
        best: &Option<(Printed, i64)>,
        exact: bool,
    ) -> Result<Option<u32>, NoMemory>
        requires lawful { IsLawfulInstance self.old }
        requires accepted { IsAcceptedIfFound self.old best.now }
        ensures kept { self.new ≡ self.old }
        ensures ray { IfOk result (λ ray. MatchOption ray (HasNoRay exact self.old) (IsFirstRay exact self.old)) }
    {
        excluding_ray(alloc, &mut self.evaluator, best, exact)
    }

    /// A schedule that is found near the ascent, with its cost in micro-dollars; none where long no ascent led to a cheaper one, but for some. The
    /// only error is `NoMemory`.
    pub fn repair(
        &mut self,
        alloc: Global,
        ascent: &Ascent,
        effort: RepairEffort,
    ) -> Result<Option<(Printed, i64)>, NoMemory>
        ensures kept { self.new ≡ self.old }
        ensures accepted { IfOk result (IsAcceptedIfFound self.old) }
    {
        let instance = self.evaluator.instance();
        if !self.idle.is_due(instance) {
            return Ok(None);
        }
        let found = repair(
            alloc,
            &mut self.repairs,
            instance,
            &ascent.table,
            &ascent.shares,
            effort.moves,
            effort.enough,
        )?;
        self.idle.take(&found);
        Ok(found)
    }
}
