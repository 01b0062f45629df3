//! The cheapest schedule that a worker has found, and its pass of the incumbent.

ghost use Rattle.std.specs.Prelude.{◌≡◌, ◌+◌, ◌-◌, ◌<◌, ◌≤◌, Bool, IsTrue, false, None, Some};
ghost use Rattle.uc_model.specs.declared.tolerance.TheConstants.{WHOLE_GAP};
ghost use Rattle.branch_tree.specs.Prelude.{is_schedule_within};
ghost use Rattle.found_schedule.specs.Found.{IsFound, IsFoundIfAny};
ghost use Rattle.incumbent.specs.Costs.{AtMost, least};
ghost use Rattle.search_desk.specs.Best.{IsLower, IsNoWorse, cost_of};
ghost use Rattle.search_desk.specs.Passes.{Instance, IsCheaper, IsNoCheaper};

use crate::run::SearchCase;
use branch_tree::is_within_gap;
use incumbent::{Best, Pass};
use std::marker::{Model, PhantomData};
use uc_model::Printed;

/// The cheapest schedule that this worker has found, with its cost in micro-dollars, and its pass, by which it published this cost and no
/// lower one.
#[derive(Drop)]
pub struct OwnBest<C: SearchCase> {
    pass: Pass,
    schedule: Option<(Printed, i64)>,
    of: PhantomData<C>,
}

impl<C: SearchCase> Model for OwnBest<C> {
    ghost use Rattle.search_desk.specs.Passes.{OwnBestView, IsOwnBest, own_best_of};

    ghost Value = { OwnBestView };

    ghost view = { λ own. own_best_of own.pass own.schedule };

    ghost invariant = { λ own. IsOwnBest C.exact_dispatch C.opening.instance C.incumbent own.pass own.schedule };
}

impl<C: SearchCase> OwnBest<C> {
    /// No schedule yet.
    pub fn new(pass: Pass) -> OwnBest<C>
        requires object { pass.object ≡ C.incumbent }
        requires mine { pass.mine ≡ None }
        ensures { result ≡ record { schedule = None; seen = pass.seen; parts = pass.parts } }
    {
        OwnBest {
            pass,
            schedule: None,
            of: PhantomData,
        }
    }

    /// Takes the schedule that was found, where it is cheaper, and publishes its cost.
    pub fn offer(&mut self, best: &Best, found: Option<(Printed, i64)>)
        requires object { best.now.object ≡ C.incumbent }
        requires found { IsFoundIfAny C.exact_dispatch C.opening.instance found }
        ensures no_worse { IsNoWorse self.old.schedule self.new.schedule }
        ensures found { IsNoWorse found self.new.schedule }
        ensures parts { self.new.parts ≡ self.old.parts }
    {
        if let Some((printed, cost)) = found {
            if is_lower(cost, &self.schedule) {
                self.take(best, printed, cost);
            }
        }
    }

    // Takes a schedule that is cheaper.
    fn take(&mut self, best: &Best, printed: Printed, cost: i64)
        requires object { best.now.object ≡ C.incumbent }
        requires found { IsFound C.exact_dispatch C.opening.instance printed cost }
        requires lower { IsCheaper cost self.old.schedule }
        ensures schedule { self.new.schedule ≡ Some (printed, cost) }
        ensures parts { self.new.parts ≡ self.old.parts }
    {
        best.publish(&mut self.pass, cost);
        self.schedule = Some((printed, cost));
    }

    /// A new pass with that many parts of this worker's.
    pub fn split(&mut self, best: &Best, parts: u32) -> Pass
        requires object { best.now.object ≡ C.incumbent }
        requires some { 0 < parts }
        requires fewer { parts < self.old.parts }
        ensures left { self.new ≡ record self.old { parts = self.old.parts - parts } }
        ensures object { result.object ≡ C.incumbent }
        ensures mine { result.mine ≡ None }
        ensures parts { result.parts ≡ parts }
        ensures seen { result.seen ≡ self.old.seen }
        ensures below { AtMost self.old.seen (cost_of self.old.schedule) }
    {
        best.split(&mut self.pass, parts)
    }

    /// Takes the parts of a pass by which nothing was published.
    pub fn join_pass(&mut self, best: &Best, pass: Pass)
        requires object { best.now.object ≡ C.incumbent }
        requires other { pass.object ≡ C.incumbent }
        requires mine { pass.mine ≡ None }
        ensures { self.new ≡ record self.old { seen = least self.old.seen pass.seen; parts = self.old.parts + pass.parts } }
    {
        best.join(&mut self.pass, pass);
    }

    /// Takes over what another worker has found, with its parts.
    pub fn join(&mut self, best: &Best, other: OwnBest<C>)
        requires { best.now.object ≡ C.incumbent }
        ensures no_worse { IsNoWorse self.old.schedule self.new.schedule }
        ensures parts { self.new.parts ≡ self.old.parts + other.parts }
        ensures seen { self.new.seen ≡ least self.old.seen other.seen }
    {
        let OwnBest { pass, schedule, .. } = other;
        best.join(&mut self.pass, pass);
        let own = self.schedule.take();
        self.schedule = cheaper(own, schedule);
    }

    /// The schedule, once all parts are joined: it costs no more than anything that any pass has seen.
    pub fn close(self, best: Best) -> Option<(Printed, i64)>
        requires object { best.object ≡ C.incumbent }
        requires whole { self.parts ≡ best.parts }
        ensures schedule { result ≡ self.schedule }
        ensures found { IsFoundIfAny C.exact_dispatch C.opening.instance result }
        ensures least { AtMost (cost_of result) self.seen }
    {
        let OwnBest { pass, schedule, .. } = self;
        let _least = best.close(pass);
        schedule
    }
}

// Whether the cost is below that of the schedule, where there is one.
fn is_lower(cost: i64, schedule: &Option<(Printed, i64)>) -> bool
    ensures lower { IsTrue result → IsCheaper cost schedule.now }
    ensures not { result ≡ false → IsNoCheaper cost schedule.now }
{
    match schedule {
        Some((_, least)) => cost < *least,
        None => true,
    }
}

/// The cheaper of two schedules that may be missing, the first where both cost the same.
pub fn cheaper(
    first: Option<(Printed, i64)>,
    second: Option<(Printed, i64)>,
) -> Option<(Printed, i64)>
    ensures found { (exact_dispatch : Bool) (instance : Instance) → IsFoundIfAny exact_dispatch instance first → IsFoundIfAny exact_dispatch instance second
        → IsFoundIfAny exact_dispatch instance result }
    ensures no_worse { IsNoWorse first result }
    ensures least { cost_of result ≡ least (cost_of first) (cost_of second) }
{
    match (first, second) {
        (Some(first), Some(second)) => Some(lower(first, second)),
        (None, second) => second,
        (first, None) => first,
    }
}

// The cheaper of two schedules.
fn lower(first: (Printed, i64), second: (Printed, i64)) -> (Printed, i64)
    ensures { IsLower first second result }
{
    if second.1 < first.1 { second } else { first }
}

/// Whether the schedule, with its cost in micro-dollars, is within the gap of the bound of a tree. The bound is in micro-dollars, the gap in parts
/// per million.
pub fn is_closed(best: &Option<(Printed, i64)>, bound: i128, gap: u32) -> bool
    requires { gap ≤ WHOLE_GAP }
    ensures { result ≡ is_schedule_within best.now (Some bound) gap }
{
    match best {
        Some((_, cost)) => is_within_gap(cost, &Some(bound), gap),
        None => false,
    }
}
