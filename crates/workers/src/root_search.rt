//! The search.

ghost use Rattle.std.specs.Prelude.{IfOk};
ghost use Rattle.uc_model.specs.Prelude.{IsLawfulInstance};
ghost use Rattle.dual_model.specs.Prelude.{HasEachPattern};
ghost use Rattle.opening.specs.Blocked.{HasNoBlockedUnit};
ghost use Rattle.opening.specs.Rays.{HasNoRay};
ghost use Rattle.search_answers.specs.Pivoted.{IsPivotedFound};
ghost use Rattle.search_answers.specs.SearchResult.{IsSearchResult};
ghost use Rattle.search_answers.specs.Writable.{IsWritable};
ghost use Rattle.tree_search.specs.Options.{AreOptions};
ghost use Rattle.search_answers.specs.Answers.{IsAnswerOf};
ghost use Rattle.search_answers.specs.Starts.{IsOpened};

use branch_tree::Found;
use closing_pass::Host;
use node_visits::{Worker, beside};
use outside::Gate;
use prices::Values;
use search_answers::{OpenedSearch, bounded, excluded, started, without_unit};
use std::alloc::Global;
use std::sync::Wait;
use std::thread::Threads;
use tree_search::{Options, search_tree};
use uc_model::{Instance, NoMemory};

/// What the search finds: a leaf for the first unit without an allowed pattern, by exact values else for the first without a schedule of its
/// own, or for the first ray of the opening that leaves no schedule, without any claim; or else a bound, and a schedule where the drop
/// commitment has one or a repair finds one. Each claim enters the gate as its unit, from 1, of its worker, from 0. Where a thread can't be
/// made its worker runs after another one. The only error is `NoMemory`.
pub fn search<'a, R: Threads + Wait + Sync, G: Gate + Sync>(
    rt: &'a R,
    alloc: Global,
    instance: &Instance,
    options: &Options,
    gate: &'a G,
) -> Result<Found, NoMemory>
    requires lawful { IsLawfulInstance instance.now }
    requires options { AreOptions options.now }
    ensures result { IfOk result (IsSearchResult options.now.exact_units instance.now options.now.budget options.now.gap) }
    ensures writable { IfOk result (IsWritable options.now.pivot instance.now) }
    ensures pivoted { IfOk result (IsPivotedFound options.now.pivot instance.now options.now.budget options.now.gap) }
{
    let values = Values {
        instance,
        exact: options.exact_units,
    };
    let worker = Worker::new(alloc, values)?;
    let host = Host { rt, alloc, gate };
    answered(&host, worker, options)
}

// The answer of a worker on the instance.
fn answered<R: Threads + Wait + Sync, G: Gate + Sync>(
    host: &Host<R, G>,
    worker: Worker,
    options: &Options,
) -> Result<Found, NoMemory>
    requires options { AreOptions options.now }
    ensures { IfOk result (IsAnswerOf options.now.exact_units options.now.pivot worker.entry options.now.budget options.now.gap) }
{
    let mut worker = worker;
    let empty = worker.first_empty(host.alloc);
    let (worker, empty) = beside(worker, empty)?;
    match empty {
        Some(g) => {
            let instance = worker.instance();
            drop(worker);
            without_unit(host.alloc, instance, g, false)
        }
        None => patterned(host, worker, options),
    }
}

// The answer where each unit has an allowed pattern.
fn patterned<R: Threads + Wait + Sync, G: Gate + Sync>(
    host: &Host<R, G>,
    worker: Worker,
    options: &Options,
) -> Result<Found, NoMemory>
    requires patterns { HasEachPattern worker }
    requires options { AreOptions options.now }
    ensures { IfOk result (IsAnswerOf options.now.exact_units options.now.pivot worker.entry options.now.budget options.now.gap) }
{
    let mut worker = worker;
    let unscheduled = worker.first_unscheduled(host.alloc, options.exact_units);
    let (worker, unscheduled) = beside(worker, unscheduled)?;
    match unscheduled {
        Some(g) => {
            let instance = worker.instance();
            drop(worker);
            without_unit(host.alloc, instance, g, options.exact_units)
        }
        None => searched(host, worker, options),
    }
}

// The answer where each unit has an allowed pattern, and by exact values a schedule of its own.
fn searched<R: Threads + Wait + Sync, G: Gate + Sync>(
    host: &Host<R, G>,
    worker: Worker,
    options: &Options,
) -> Result<Found, NoMemory>
    requires patterns { HasEachPattern worker }
    requires unblocked { HasNoBlockedUnit options.now.exact_units worker }
    requires options { AreOptions options.now }
    ensures { IfOk result (IsAnswerOf options.now.exact_units options.now.pivot worker.entry options.now.budget options.now.gap) }
{
    let mut worker = worker;
    let opened = started(host.alloc, &mut worker, options.gap);
    let (mut worker, opened) = beside(worker, opened)?;
    match excluded(
        host.alloc,
        &mut worker,
        &opened.start.best,
        options.exact_units,
    ) {
        Some(answer) => {
            drop((worker, opened));
            answer
        }
        None => claimed(host, worker, options, opened),
    }
}

// The answer where no ray of the opening excludes the root either.
fn claimed<R: Threads + Wait + Sync, G: Gate + Sync>(
    host: &Host<R, G>,
    worker: Worker,
    options: &Options,
    opened: OpenedSearch,
) -> Result<Found, NoMemory>
    requires patterns { HasEachPattern worker }
    requires unblocked { HasNoBlockedUnit options.now.exact_units worker }
    requires rays { HasNoRay options.now.exact_units worker }
    requires options { AreOptions options.now }
    requires opened { IsOpened worker opened }
    ensures { IfOk result (IsAnswerOf options.now.exact_units options.now.pivot worker.entry options.now.budget options.now.gap) }
{
    let instance = worker.instance();
    let OpenedSearch { start, most_on } = opened;
    let grown = search_tree(host, worker, options, start)?;
    bounded(host.alloc, instance, grown, most_on)
}
