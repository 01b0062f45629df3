//! What a search of the tree begins with.

ghost use Rattle.std.specs.Prelude.{◌≡◌, ◌≤◌, IfOk, None, Some};
ghost use Rattle.uc_model.specs.declared.tolerance.TheConstants.{WHOLE_GAP};
ghost use Rattle.branch_tree.specs.Prelude.{is_schedule_within};
ghost use Rattle.search_machine.specs.Prelude.{bound_of};
ghost use Rattle.schedule_check.specs.Accepted.{IsAcceptedIfFound};
ghost use Rattle.opening.specs.RootTables.{IsPricedOf};
ghost use Rattle.book.specs.BookView.{opened};
ghost use Rattle.tree_search.specs.Options.{AreOptions};
ghost use Rattle.search_desk.specs.Best.{IsNoWorse};
ghost use Rattle.tree_search.specs.inside.Searches.{opening_by};

use crate::options::Options;
use book::Book;
use incumbent::{Best, Pass};
use node_visits::{SearchStart, Worker};
use prices::{Ascent, SCALE};
use search_desk::{OwnBest, SearchCase, is_closed};
use std::alloc::Global;
use uc_model::{NoMemory, Printed, floor_div};

/// A worker, what the opening found, and the incumbent with the pass that has all its parts.
#[derive(Drop)]
pub(crate) struct Begun<'a> {
    pub worker: Worker<'a>,
    pub start: SearchStart,
    pub best: Best,
    pub pass: Pass,
}

/// The worker that begins, the best schedule so far with all parts of the incumbent, this, and the ascent of the first claim, where it was made
/// already.
#[derive(Drop)]
pub(crate) struct Crew<'a, C: SearchCase> {
    pub worker: Worker<'a>,
    pub own: OwnBest<C>,
    pub best: Best,
    pub next: Option<Ascent>,
}

impl<'a> Begun<'a> {
    // The opening's bound, in micro-dollars.
    fn bound(&self) -> i128
        requires { IsPricedOf self.now.worker self.now.start.opening }
        ensures { result ≡ bound_of self.now.start.opening.value self.now.start.opening.table.k }
    {
        floor_div(self.start.opening.value, i128::from(SCALE))
    }

    /// Whether the opening's schedule is within the gap of its bound.
    pub(crate) fn is_closed(&self, gap: u32) -> bool
        requires gap { gap ≤ WHOLE_GAP }
        requires priced { IsPricedOf self.now.worker self.now.start.opening }
        ensures { result ≡ is_schedule_within self.now.start.best (Some (bound_of self.now.start.opening.value self.now.start.opening.table.k)) gap }
    {
        is_closed(&self.start.best, self.bound(), gap)
    }

    /// The book of the search, whose root stores the opening's table. The only error is `NoMemory`.
    pub(crate) fn book<C: SearchCase>(
        &self,
        alloc: Global,
        options: &Options,
    ) -> Result<Book<C>, NoMemory>
        requires options { AreOptions options.now }
        requires opening { C.opening ≡ opening_by self.now.worker self.now.start.opening options.now.budget options.now.gap }
        requires priced { IsPricedOf self.now.worker self.now.start.opening }
        ensures { IfOk result (λ book. book ≡ opened C.opening) }
    {
        Book::new(
            alloc,
            self.worker.instance(),
            options.budget,
            options.gap,
            self.start.opening.table.copy(alloc)?,
            self.bound(),
        )
    }

    /// The opening's schedule with its cost in micro-dollars, where there is one.
    pub(crate) fn into_schedule(self) -> Option<(Printed, i64)>
        ensures { result ≡ self.entry.start.best }
    {
        let Begun { start, .. } = self;
        let SearchStart { best: schedule, .. } = start;
        schedule
    }

    /// The same for a search by workers, with the opening's schedule published.
    pub(crate) fn into_crew<C: SearchCase>(self) -> Crew<'a, C>
        requires object { self.best.object ≡ C.incumbent }
        requires pass_object { self.pass.object ≡ C.incumbent }
        requires pass_parts { self.pass.parts ≡ self.best.parts }
        requires mine { self.pass.mine ≡ None }
        requires accepted { IsAcceptedIfFound C.opening.instance self.start.best }
        ensures worker { result.worker ≡ self.entry.worker }
        ensures best { result.best ≡ self.entry.best }
        ensures parts { result.own.parts ≡ self.entry.best.parts }
        ensures no_worse { IsNoWorse self.entry.start.best result.own.schedule }
        ensures next { result.next ≡ self.entry.start.next }
    {
        let Begun {
            worker,
            start,
            best,
            pass,
        } = self;
        let SearchStart {
            opening,
            best: schedule,
            next,
        } = start;
        drop(opening);
        let mut own = OwnBest::new(pass);
        own.offer(&best, schedule);
        Crew {
            worker,
            own,
            best,
            next,
        }
    }
}
