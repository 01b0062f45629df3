//! The workers from their seats to what they found: how they are gathered, do their work in threads and are joined.

ghost use Rattle.std.specs.Prelude.{◌≡◌, ◌+◌, ◌*◌, IfOk, vec_len};
ghost use Rattle.found_schedule.specs.Found.{IsFoundIfAny};
ghost use Rattle.book.specs.BookView.{opened};
ghost use Rattle.book.specs.Prelude.{IsTrueOpening};
ghost use Rattle.search_desk.specs.Best.{IsNoWorse, cost_of};
ghost use Rattle.search_desk.specs.Dispatches.{IsPivotedBook};
ghost use Rattle.node_visits.specs.Trials.{IsNextAt};
ghost use Rattle.closing_pass.specs.Closings.{IsLeft};
ghost use Rattle.tree_search.specs.Options.{AreOptions};

use crate::begun::Crew;
use crate::crew::{Member, Shared};
use crate::members::members;
use crate::options::Options;
use book::Book;
use closing_pass::Host;
use decided_nodes::Pivoting;
use node_visits::{Aim, beside};
use outside::Gate;
use prices::Ascent;
use search_desk::{Desk, OwnBest, SearchCase};
use std::alloc::Global;
use std::sync::Wait;
use std::thread::{Threads, for_each_mut};
use uc_model::tolerance::cost_less_tolerance_never_decreases;
use uc_model::{NoMemory, Printed};

/// What the workers share, the caller's own schedule and pass, the workers, and the ascent of the first claim, where it was made already.
#[derive(Drop)]
pub(crate) struct Crowd<'a, C: SearchCase> {
    shared: Shared<C>,
    own: OwnBest<C>,
    members: Vec<Member<'a, C>>,
    next: Option<Ascent>,
    ghost parts: { own.parts + 2 * vec_len members + 1 ≡ shared.best.parts },
}

/// The book and the best schedule after all workers have ended. The only error is `NoMemory`.
pub(crate) fn crowded<C: SearchCase + Send + Sync, R: Threads + Wait + Sync, G: Gate + Sync>(
    host: &Host<R, G>,
    options: &Options,
    crew: Crew<C>,
    book: Book<C>,
) -> Result<(Book<C>, Option<(Printed, i64)>), NoMemory>
    requires options { AreOptions options.now }
    requires gap { options.now.gap ≡ C.opening.gap }
    requires budget { options.now.budget ≡ C.opening.budget }
    requires kind { options.now.exact_units ≡ C.exact }
    requires dispatch { options.now.pivot ≡ C.exact_dispatch }
    requires begun { IsTrueOpening C.opening }
    requires book { book ≡ opened C.opening }
    requires of { crew.worker ≡ C.opening.instance }
    requires object { crew.best.object ≡ C.incumbent }
    requires whole { crew.best.parts ≡ 2 * options.now.workers + 2 }
    requires parts { crew.own.parts ≡ 2 * options.now.workers + 2 }
    requires next { IsNextAt C.opening.instance 1 crew.next }
    ensures left { IfOk result (λ both. IsLeft C.exact C.opening both.0 (cost_of both.1) C.opening.budget) }
    ensures pivoted { IfOk result (λ both. IsPivotedBook C.exact_dispatch C.opening both.0) }
    ensures found { IfOk result (λ both. IsFoundIfAny C.exact_dispatch C.opening.instance both.1) }
    ensures no_worse { IfOk result (λ both. IsNoWorse crew.entry.own.schedule both.1) }
{
    let Crowd {
        shared,
        own,
        mut members,
        mut next,
    } = gathered(host.alloc, options, crew, book)?;
    let worked = work_off(host, &shared, &mut members, &mut next);
    drop(next);
    let ((shared, own, members), ()) = beside((shared, own, members), worked)?;
    joined(shared, own, members)
}

// The workers of the crew, by a desk with this book. The only error is `NoMemory`.
fn gathered<'a, C: SearchCase>(
    alloc: Global,
    options: &Options,
    crew: Crew<'a, C>,
    book: Book<C>,
) -> Result<Crowd<'a, C>, NoMemory>
    requires options { AreOptions options.now }
    requires gap { options.now.gap ≡ C.opening.gap }
    requires budget { options.now.budget ≡ C.opening.budget }
    requires kind { options.now.exact_units ≡ C.exact }
    requires dispatch { options.now.pivot ≡ C.exact_dispatch }
    requires begun { IsTrueOpening C.opening }
    requires book { book ≡ opened C.opening }
    requires of { crew.worker ≡ C.opening.instance }
    requires object { crew.best.object ≡ C.incumbent }
    requires whole { crew.best.parts ≡ 2 * options.now.workers + 2 }
    requires parts { crew.own.parts ≡ 2 * options.now.workers + 2 }
    requires next { IsNextAt C.opening.instance 1 crew.next }
    ensures schedule { IfOk result (λ crowd. crowd.own.schedule ≡ crew.entry.own.schedule) }
    ensures next { IfOk result (λ crowd. IsNextAt C.opening.instance 1 crowd.next) }
{
    let Crew {
        worker,
        mut own,
        best,
        next,
    } = crew;
    let pass = own.split(&best, 1);
    let aim = Aim {
        gap: options.gap,
        shared: options.workers > 1,
        exact: options.exact_units,
        pivoting: Pivoting::of(options.pivot, worker.instance(), options.budget),
    };
    let desk = Desk::new(book, pass, options.gap, options.exact_units);
    let shared = Shared::new(desk, best, aim);
    let members = members(alloc, &shared.best, &mut own, worker, options);
    let ((shared, own, next), members) = beside((shared, own, next), members)?;
    Ok(Crowd {
        shared,
        own,
        members,
        next,
    })
}

// Makes the first claim, and has each worker claim until the search is over. The only error is `NoMemory`, where it was refused to the first
// claim.
fn work_off<C: SearchCase + Send + Sync, R: Threads + Wait + Sync, G: Gate + Sync>(
    host: &Host<R, G>,
    shared: &Shared<C>,
    members: &mut Vec<Member<C>>,
    next: &mut Option<Ascent>,
) -> Result<(), NoMemory>
    requires { IsNextAt C.opening.instance 1 next.old }
    ensures { vec_len members.new ≡ vec_len members.old }
{
    open(host, shared, members, next)?;
    let workers = members.len().max(1);
    for_each_mut(
        host.rt,
        members.as_mut_slice(),
        workers,
        &|_, member| { shared.work(host, member) },
    );
    Ok(())
}

// Makes the first claim, by the first worker. The only error is `NoMemory`.
fn open<C: SearchCase, R: Wait, G: Gate>(
    host: &Host<R, G>,
    shared: &Shared<C>,
    members: &mut Vec<Member<C>>,
    next: &mut Option<Ascent>,
) -> Result<(), NoMemory>
    requires { IsNextAt C.opening.instance 1 next.old }
    ensures { vec_len members.new ≡ vec_len members.old }
{
    match members.first_mut() {
        Some(first) => shared.open_root(host, first, next),
        None => Ok(()),
    }
}

// The book and the best schedule, once all passes are joined. The only error is `NoMemory`, where memory was refused to a worker.
fn joined<C: SearchCase>(
    shared: Shared<C>,
    mut own: OwnBest<C>,
    members: Vec<Member<C>>,
) -> Result<(Book<C>, Option<(Printed, i64)>), NoMemory>
    requires parts { own.parts + 2 * vec_len members + 1 ≡ shared.best.parts }
    ensures left { IfOk result (λ both. IsLeft C.exact C.opening both.0 (cost_of both.1) C.opening.budget) }
    ensures pivoted { IfOk result (λ both. IsPivotedBook C.exact_dispatch C.opening both.0) }
    ensures found { IfOk result (λ both. IsFoundIfAny C.exact_dispatch C.opening.instance both.1) }
    ensures no_worse { IfOk result (λ both. IsNoWorse own.schedule both.1) }
{
    cost_less_tolerance_never_decreases();
    let Shared { desk, best, .. } = shared;
    let (book, pass) = desk.into_inner().close()?;
    own.join_pass(&best, pass);
    for member in members {
        own.join(&best, member.into_best());
    }
    let schedule = own.close(best);
    Ok((book, schedule))
}
