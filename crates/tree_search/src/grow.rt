//! The search over the tree: the desk and its workers, and what they leave.

ghost use Rattle.std.specs.Prelude.{◌≡◌, ℕ, ◌+◌, ◌*◌, true, [], IfOk, Some};
ghost use Rattle.uc_model.specs.Prelude.{IsLawfulInstance};
ghost use Rattle.branch_tree.specs.Prelude.{is_schedule_within};
ghost use Rattle.search_machine.specs.Prelude.{bound_of};
ghost use Rattle.schedule_check.specs.Accepted.{IsAcceptedIfFound};
ghost use Rattle.opening.specs.RootTables.{IsPricedOf};
ghost use Rattle.book.specs.BookView.{opened};
ghost use Rattle.book.specs.Prelude.{IsTrueOpening};
ghost use Rattle.tree_search.specs.Options.{AreOptions};
ghost use Rattle.search_desk.specs.Best.{IsNoWorse};
ghost use Rattle.closing_pass.specs.Closings.{IsEnded};
ghost use Rattle.found_schedule.specs.Found.{IsFoundIfAny};
ghost use Rattle.uc_model.specs.declared.instance.Instance.{Instance};
ghost use Rattle.opening.specs.declared.root_tables.Priced.{Priced};
ghost use Rattle.search_desk.specs.Dispatches.{IsPivotedBook};
ghost use Rattle.search_desk.specs.Grown.{IsGrown, IsPivotedGrown};
ghost use Rattle.tree_search.specs.inside.Searches.{IsWholeOf, opening_by};
ghost use Rattle.node_visits.specs.Trials.{IsNextAt};

use crate::begun::{Begun, Crew};
use crate::crowd::crowded;
use crate::options::Options;
use book::Book;
use closing_pass::{Closing, Host, Progress, close};
use decided_nodes::Pivoting;
use incumbent::Best;
use node_visits::{SearchStart, Worker, beside};
use outside::Gate;
use search_desk::{Grown, SearchCase};
use search_machine::laws::tree_runs_hold;
use std::marker::Brand;
use std::sync::Wait;
use std::thread::Threads;
use uc_model::{NoMemory, Printed};

/// Claims nodes, by several workers, until the best schedule's cost is within the gap of the tree's bound, no node is open, or the budget is
/// spent. The only error is `NoMemory`.
pub fn search_tree<R: Threads + Wait + Sync, G: Gate + Sync>(
    host: &Host<R, G>,
    worker: Worker,
    options: &Options,
    start: SearchStart,
) -> Result<Grown, NoMemory>
    requires options { AreOptions options.now }
    requires lawful { IsLawfulInstance worker }
    requires opening { IsPricedOf worker start.opening }
    requires accepted { IsAcceptedIfFound worker start.best }
    requires next { IsNextAt worker 1 start.next }
    ensures grown { IfOk result (IsGrown options.now.exact_units worker.entry start.opening options.now.budget options.now.gap) }
    ensures pivoted { IfOk result (IsPivotedGrown options.now.pivot worker.entry options.now.budget options.now.gap) }
    ensures found { IfOk result (λ grown. IsFoundIfAny options.now.pivot worker.entry grown.best) }
    ensures no_worse { IfOk result (λ grown. IsNoWorse start.best grown.best) }
    ensures quiet { is_schedule_within start.best (Some (bound_of start.opening.value start.opening.table.k)) options.now.gap ≡ true
        → IfOk result (λ grown. grown.log ≡ []) }
{
    let made = Best::new(host.alloc, 2 * u32::from(options.workers) + 2);
    let ((worker, start), (best, pass)) = beside((worker, start), made)?;
    let begun = Begun {
        worker,
        start,
        best,
        pass,
    };
    grow::<Brand, R, G>(host, options, begun)
}

// The search by these.
fn grow<C: SearchCase + Send + Sync, R: Threads + Wait + Sync, G: Gate + Sync>(
    host: &Host<R, G>,
    options: &Options,
    begun: Begun,
) -> Result<Grown, NoMemory>
    requires options { AreOptions options.now }
    requires lawful { IsLawfulInstance begun.worker }
    requires opening { C.opening ≡ opening_by begun.worker begun.start.opening options.now.budget options.now.gap }
    requires kind { C.exact ≡ options.now.exact_units }
    requires dispatch { C.exact_dispatch ≡ options.now.pivot }
    requires priced { IsPricedOf begun.worker begun.start.opening }
    requires accepted { IsAcceptedIfFound begun.worker begun.start.best }
    requires next { IsNextAt begun.worker 1 begun.start.next }
    requires whole { IsWholeOf C.incumbent (2 * options.now.workers + 2) begun.best begun.pass }
    ensures grown { IfOk result (IsGrown options.now.exact_units begun.entry.worker begun.entry.start.opening options.now.budget options.now.gap) }
    ensures pivoted { IfOk result (IsPivotedGrown options.now.pivot begun.entry.worker options.now.budget options.now.gap) }
    ensures found { IfOk result (λ grown. IsFoundIfAny options.now.pivot begun.entry.worker grown.best) }
    ensures no_worse { IfOk result (λ grown. IsNoWorse begun.entry.start.best grown.best) }
    ensures quiet { is_schedule_within begun.entry.start.best (Some (bound_of begun.entry.start.opening.value begun.entry.start.opening.table.k)) options.now.gap ≡ true
        → IfOk result (λ grown. grown.log ≡ []) }
{
    let book = begun.book::<C>(host.alloc, options);
    let (begun, book) = beside(begun, book)?;
    grown(host, options, begun, book)
}

// The search that begins with this book.
fn grown<C: SearchCase + Send + Sync, R: Threads + Wait + Sync, G: Gate + Sync>(
    host: &Host<R, G>,
    options: &Options,
    begun: Begun,
    book: Book<C>,
) -> Result<Grown, NoMemory>
    requires options { AreOptions options.now }
    requires lawful { IsLawfulInstance begun.worker }
    requires opening { C.opening ≡ opening_by begun.worker begun.start.opening options.now.budget options.now.gap }
    requires kind { C.exact ≡ options.now.exact_units }
    requires dispatch { C.exact_dispatch ≡ options.now.pivot }
    requires priced { IsPricedOf begun.worker begun.start.opening }
    requires accepted { IsAcceptedIfFound begun.worker begun.start.best }
    requires next { IsNextAt begun.worker 1 begun.start.next }
    requires whole { IsWholeOf C.incumbent (2 * options.now.workers + 2) begun.best begun.pass }
    requires book { book ≡ opened C.opening }
    ensures grown { IfOk result (IsGrown options.now.exact_units begun.entry.worker begun.entry.start.opening options.now.budget options.now.gap) }
    ensures pivoted { IfOk result (IsPivotedGrown options.now.pivot begun.entry.worker options.now.budget options.now.gap) }
    ensures found { IfOk result (λ grown. IsFoundIfAny options.now.pivot begun.entry.worker grown.best) }
    ensures no_worse { IfOk result (λ grown. IsNoWorse begun.entry.start.best grown.best) }
    ensures quiet { is_schedule_within begun.entry.start.best (Some (bound_of begun.entry.start.opening.value begun.entry.start.opening.table.k)) options.now.gap ≡ true
        → IfOk result (λ grown. grown.log ≡ []) }
{
    if begun.is_closed(options.gap) {
        return Ok(left(book, begun.into_schedule()));
    }
    let (book, schedule) = ended(host, options, begun.into_crew::<C>(), book)?;
    Ok(left(book, schedule))
}

// What the book has, and the schedule.
fn left<C: SearchCase>(book: Book<C>, best: Option<(Printed, i64)>) -> Grown
    requires ended { IsEnded C.exact C.opening book best }
    requires pivoted { IsPivotedBook C.exact_dispatch C.opening book }
    ensures grown { (instance : Instance) (opening : Priced) (budget gap : ℕ) → C.opening ≡ opening_by instance opening budget gap
        → IsGrown C.exact instance opening budget gap result }
    ensures pivoted { (instance : Instance) (opening : Priced) (budget gap : ℕ) → C.opening ≡ opening_by instance opening budget gap
        → IsPivotedGrown C.exact_dispatch instance budget gap result }
    ensures best { result.best ≡ best }
    ensures log { result.log ≡ book.log }
{
    tree_runs_hold();
    book.keeps_run();
    let (tree, tables, log) = book.finish();
    tree.keeps_cover();
    Grown {
        tree,
        tables,
        log,
        best,
    }
}

// The book and the best schedule after the workers and the closing pass. The only error is `NoMemory`.
fn ended<C: SearchCase + Send + Sync, R: Threads + Wait + Sync, G: Gate + Sync>(
    host: &Host<R, G>,
    options: &Options,
    crew: Crew<C>,
    book: Book<C>,
) -> Result<(Book<C>, Option<(Printed, i64)>), NoMemory>
    requires options { AreOptions options.now }
    requires gap { options.now.gap ≡ C.opening.gap }
    requires budget { options.now.budget ≡ C.opening.budget }
    requires kind { options.now.exact_units ≡ C.exact }
    requires dispatch { options.now.pivot ≡ C.exact_dispatch }
    requires begun { IsTrueOpening C.opening }
    requires book { book ≡ opened C.opening }
    requires of { crew.worker ≡ C.opening.instance }
    requires object { crew.best.object ≡ C.incumbent }
    requires whole { crew.best.parts ≡ 2 * options.now.workers + 2 }
    requires parts { crew.own.parts ≡ 2 * options.now.workers + 2 }
    requires next { IsNextAt C.opening.instance 1 crew.next }
    ensures ended { IfOk result (λ both. IsEnded C.exact C.opening both.0 both.1) }
    ensures pivoted { IfOk result (λ both. IsPivotedBook C.exact_dispatch C.opening both.0) }
    ensures found { IfOk result (λ both. IsFoundIfAny C.exact_dispatch C.opening.instance both.1) }
    ensures no_worse { IfOk result (λ both. IsNoWorse crew.entry.own.schedule both.1) }
{
    let instance = crew.worker.instance();
    let (book, best) = crowded(host, options, crew, book)?;
    let closing = Closing {
        gap: options.gap,
        budget: options.budget,
        exact: options.exact_units,
        pivoting: Pivoting::of(options.pivot, instance, options.budget),
    };
    let mut progress = Progress { book, best };
    let closed = close(host, instance, &mut progress, closing);
    let (progress, ()) = beside(progress, closed)?;
    let Progress { book, best } = progress;
    Ok((book, best))
}
