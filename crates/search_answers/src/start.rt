//! What the claims of the root begin with.

ghost use Rattle.std.specs.Prelude.{◌≡◌, ◌≤◌, IfOk};
ghost use Rattle.uc_model.specs.declared.tolerance.TheConstants.{WHOLE_GAP};
ghost use Rattle.dual_model.specs.Prelude.{HasEachPattern};
ghost use Rattle.schedule_check.specs.Accepted.{IsAcceptedIfFound};
ghost use Rattle.decommitment.specs.Standings.{IsDropped, ending_of};
ghost use Rattle.opening.specs.RootTables.{IsPricedOf};
ghost use Rattle.search_answers.specs.Opening.{IsRootTable};
ghost use Rattle.search_answers.specs.Starts.{IsOpened};
ghost use Rattle.node_visits.specs.Trials.{IsAscentFor};

use decommitment::{Standing, drop_pass};
use node_visits::{RepairEffort, SearchStart, Worker, enough, first_ascent, moves};
use opening::{Priced, dispatched_root, unpriced_root};
use prices::Ascent;
use std::alloc::Global;
use uc_model::{NoMemory, Printed, Stuck};

/// The start, and why the most-on commitment is stuck, where the drop commitment is.
#[derive(Drop)]
pub struct OpenedSearch {
    pub start: SearchStart,
    pub most_on: Option<Stuck>,
}

/// What the claims begin with. The only error is `NoMemory`.
pub fn started(alloc: Global, worker: &mut Worker, gap: u32) -> Result<OpenedSearch, NoMemory>
    requires patterns { HasEachPattern worker.old }
    requires gap { gap ≤ WHOLE_GAP }
    ensures kept { worker.new ≡ worker.old }
    ensures opened { IfOk result (IsOpened worker.old) }
{
    let standing = drop_pass(alloc, worker.instance())?;
    let opening = root_table(alloc, worker, &standing)?;
    start_with(alloc, worker, gap, opening, standing)
}

// The root's table by how the drop commitment stands.
fn root_table(alloc: Global, worker: &mut Worker, standing: &Standing) -> Result<Priced, NoMemory>
    requires patterns { HasEachPattern worker.old }
    requires dropped { IsDropped worker.old standing.now }
    ensures kept { worker.new ≡ worker.old }
    ensures table { IfOk result (λ priced. IsRootTable worker.old (ending_of standing.now) priced.table priced.value) }
    ensures priced { IfOk result (IsPricedOf worker.old) }
{
    match standing {
        Standing::Stuck { .. } => unpriced_root(alloc, &mut worker.evaluator),
        Standing::Dispatched { printed, .. } => {
            dispatched_root(alloc, &mut worker.evaluator, printed)
        }
    }
}

// The start with the schedule of the drop commitment; where this one is stuck, the first ascent is made and repaired, since a schedule spares
// the rays of the opening.
fn start_with(
    alloc: Global,
    worker: &mut Worker,
    gap: u32,
    opening: Priced,
    standing: Standing,
) -> Result<OpenedSearch, NoMemory>
    requires gap { gap ≤ WHOLE_GAP }
    requires dropped { IsDropped worker.old standing }
    requires table { IsRootTable worker.old (ending_of standing) opening.table opening.value }
    requires priced { IsPricedOf worker.old opening }
    ensures kept { worker.new ≡ worker.old }
    ensures opened { IfOk result (IsOpened worker.old) }
{
    match standing {
        Standing::Dispatched { printed, cost } => Ok(OpenedSearch {
            start: SearchStart {
                opening,
                best: Some((printed, cost)),
                next: None,
            },
            most_on: None,
        }),
        Standing::Stuck { most_on, .. } => {
            let (ascent, best) = repaired(alloc, worker, gap)?;
            Ok(OpenedSearch {
                start: SearchStart {
                    opening,
                    best,
                    next: Some(ascent),
                },
                most_on: Some(most_on),
            })
        }
    }
}

// The first ascent, and what a repair of it finds.
fn repaired(
    alloc: Global,
    worker: &mut Worker,
    gap: u32,
) -> Result<(Ascent, Option<(Printed, i64)>), NoMemory>
    requires gap { gap ≤ WHOLE_GAP }
    ensures kept { worker.new ≡ worker.old }
    ensures ascent { IfOk result (λ both. IsAscentFor worker.old 1 both.0) }
    ensures accepted { IfOk result (λ both. IsAcceptedIfFound worker.old both.1) }
{
    let values = worker.values();
    let ascent = first_ascent(alloc, values, &mut worker.pool)?;
    let best = first_repaired(alloc, worker, gap, &ascent)?;
    Ok((ascent, best))
}

// What a repair of the first ascent finds. One that ran off isn't repaired: there is hardly a schedule.
fn first_repaired(
    alloc: Global,
    worker: &mut Worker,
    gap: u32,
    ascent: &Ascent,
) -> Result<Option<(Printed, i64)>, NoMemory>
    requires gap { gap ≤ WHOLE_GAP }
    ensures kept { worker.new ≡ worker.old }
    ensures accepted { IfOk result (IsAcceptedIfFound worker.old) }
{
    if ascent.ray.is_some() {
        return Ok(None);
    }
    let effort = RepairEffort {
        moves: moves(worker.instance(), 1),
        enough: enough(ascent.bound, gap),
    };
    worker.repair(alloc, ascent, effort)
}
