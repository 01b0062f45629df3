//! The workers of a search, each with its seat and its pass.

ghost use Rattle.std.specs.Prelude.{◌≡◌, ◌+◌, ◌*◌, ◌≤◌, All, IfOk, OnOk, vec_len};
ghost use Rattle.uc_model.specs.Prelude.{IsLawfulInstance};
ghost use Rattle.search_machine.specs.declared.limits.TheConstants.{MAX_BUDGET};
ghost use Rattle.steal_pool.specs.Pools.{IsFreshPool};
ghost use Rattle.tree_search.specs.declared.options.TheConstants.{MAX_WORKERS};
ghost use Rattle.tree_search.specs.inside.Searches.{IsOn};

use crate::crew::Member;
use crate::options::Options;
use incumbent::Best;
use node_visits::{Worker, beside};
use prices::Values;
use search_desk::{OwnBest, SearchCase, Tickets};
use std::alloc::Global;
use steal_pool::{Pool, Seat};
use uc_model::NoMemory;

/// The parts of a worker's pass: one that it keeps, and one that it exchanges with the desk.
const PARTS: u32 = 2;

/// The workers, each with its seat and its pass. The only error is `NoMemory`.
pub(crate) fn members<'a, C: SearchCase>(
    alloc: Global,
    best: &Best,
    own: &mut OwnBest<C>,
    worker: Worker<'a>,
    options: &Options,
) -> Result<Vec<Member<'a, C>>, NoMemory>
    requires some { 1 ≤ options.now.workers }
    requires workers { options.now.workers ≤ MAX_WORKERS }
    requires budget { options.now.budget ≤ MAX_BUDGET }
    requires object { best.now.object ≡ C.incumbent }
    requires of { worker ≡ C.opening.instance }
    requires parts { own.old.parts ≡ 2 * options.now.workers + 1 }
    ensures left { OnOk result (own.new.parts ≡ 1) }
    ensures schedule { own.new.schedule ≡ own.old.schedule }
    ensures count { IfOk result (λ members. vec_len members ≡ options.now.workers) }
{
    let workers = workers(alloc, worker, options.workers)?;
    let pool = Pool::new(alloc, options.workers, options.budget);
    let (mut workers, pool) = beside(workers, pool)?;
    let members = seated(alloc, options, best, own, pool.into_seats(), &mut workers);
    drop(workers);
    members
}

// The workers, each on the next seat. The only error is `NoMemory`.
fn seated<'a, C: SearchCase>(
    alloc: Global,
    options: &Options,
    best: &Best,
    own: &mut OwnBest<C>,
    seats: Vec<Seat>,
    workers: &mut Vec<Worker<'a>>,
) -> Result<Vec<Member<'a, C>>, NoMemory>
    requires budget { options.now.budget ≤ MAX_BUDGET }
    requires few { options.now.workers ≤ MAX_WORKERS }
    requires object { best.now.object ≡ C.incumbent }
    requires parts { own.old.parts ≡ 2 * options.now.workers + 1 }
    requires seats { IsFreshPool options.now.workers (options.now.budget + 2) seats.items }
    requires workers { vec_len workers.old ≡ options.now.workers }
    requires of { All (IsOn C.opening.instance) workers.old.items }
    ensures left { OnOk result (own.new.parts ≡ 1) }
    ensures schedule { own.new.schedule ≡ own.old.schedule }
    ensures count { IfOk result (λ members. vec_len members ≡ options.now.workers) }
{
    let mut members = Vec::new(alloc);
    for seat in seats {
        let Some(worker) = workers.pop() else {
            break;
        };
        let me = members.len() as u8;
        let tickets = Tickets::new(alloc, seat, me, options.workers, options.budget + 2);
        let own = OwnBest::new(own.split(best, PARTS));
        members.push(Member::new(worker, own, tickets, me))?;
    }
    Ok(members)
}

// So many workers on the instance of this one, which is the last of them. The only error is `NoMemory`.
fn workers<'a>(alloc: Global, last: Worker<'a>, count: u8) -> Result<Vec<Worker<'a>>, NoMemory>
    requires some { 1 ≤ count }
    ensures count { IfOk result (λ workers. vec_len workers ≡ count) }
    ensures of { IfOk result (λ workers. All (IsOn last.entry) workers.items) }
{
    let others = others(alloc, last.values(), count - 1);
    let (last, mut workers) = beside(last, others)?;
    workers.push(last)?;
    Ok(workers)
}

// So many workers on the instance. The only error is `NoMemory`.
fn others<'a>(alloc: Global, values: Values<'a>, count: u8) -> Result<Vec<Worker<'a>>, NoMemory>
    requires lawful { IsLawfulInstance values.instance.now }
    ensures count { IfOk result (λ workers. vec_len workers ≡ count) }
    ensures of { IfOk result (λ workers. All (IsOn values.entry.instance.now) workers.items) }
{
    let mut workers = Vec::new(alloc);
    for _ in 0..count {
        workers.push(Worker::new(alloc, values)?)?;
    }
    Ok(workers)
}
