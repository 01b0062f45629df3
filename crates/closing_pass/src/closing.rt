//! The closing pass: once the workers have ended, the caller commits each claim that is still held, and then claims open nodes itself.

ghost use Rattle.std.specs.Prelude.{◌≡◌, ℕ, ◌≤◌, IfOk, IfSome, None};
ghost use Rattle.uc_model.specs.declared.tolerance.TheConstants.{WHOLE_GAP};
ghost use Rattle.branch_tree.specs.Prelude.{tree_bound};
ghost use Rattle.book.specs.Prelude.{IsHeldUnit};
ghost use Rattle.decided_nodes.specs.Pivoting.{uses_exact_dispatch};
ghost use Rattle.found_schedule.specs.Found.{IsFoundIfAny};
ghost use Rattle.search_desk.specs.Best.{IsNoWorse, cost_of};
ghost use Rattle.search_desk.specs.Dispatches.{IsExhaustiveFor, IsPivotedBook};
ghost use Rattle.closing_pass.specs.Closings.{IsEnded, IsLeft, is_finished};

use crate::host::Host;
use crate::settling::{Held, Settling};
use book::{Book, Claimed};
use decided_nodes::Pivoting;
use outside::Gate;
use search_desk::{SearchCase, cheaper, is_closed};
use search_machine::laws::tree_runs_hold;
use std::sync::Wait;
use uc_model::{Instance, NoMemory, Printed};

/// The caller, as a worker.
const CALLER: u8 = 0;

/// The book, and the best schedule so far with its cost in micro-dollars.
#[derive(Drop)]
pub struct Progress<C: SearchCase> {
    pub book: Book<C>,
    pub best: Option<(Printed, i64)>,
}

impl<C: SearchCase> Progress<C> {
    ghost use Rattle.std.specs.Prelude.{◌≡◌};
    ghost use Rattle.found_schedule.specs.Found.{IsFoundIfAny};
    ghost use Rattle.search_desk.specs.Best.{IsNoWorse, cost_of};

    /// Takes the schedule that was found, where it is cheaper.
    pub(crate) fn offer(&mut self, found: Option<(Printed, i64)>)
        requires best { IsFoundIfAny C.exact_dispatch C.opening.instance self.old.best }
        requires found { IsFoundIfAny C.exact_dispatch C.opening.instance found }
        ensures book { self.new.book ≡ self.old.book }
        ensures best { IsFoundIfAny C.exact_dispatch C.opening.instance self.new.best }
        ensures no_worse { IsNoWorse self.old.best self.new.best }
        ensures lower { IsNoWorse found self.new.best }
    {
        let best = self.best.take();
        self.best = cheaper(best, found);
    }

    /// The cost of the best schedule, in micro-dollars.
    pub(crate) fn cost(&self) -> Option<i64>
        ensures { result ≡ cost_of self.now.best }
    {
        match &self.best {
            Some((_, cost)) => Some(*cost),
            None => None,
        }
    }
}

/// How the search ends, at a gap in parts per million, or once the budget is spent; whether claims evaluate VE; and how they use the exact
/// dispatch.
#[derive(Clone, Copy)]
pub struct Closing {
    pub gap: u32,
    pub budget: u32,
    pub exact: bool,
    pub pivoting: Pivoting,
}

/// Commits each claim that is still held, and claims open nodes until the schedule closes the tree, no node is open or the budget is spent. The
/// only error is `NoMemory`.
pub fn close<C: SearchCase, R: Wait, G: Gate>(
    host: &Host<R, G>,
    instance: &Instance,
    progress: &mut Progress<C>,
    closing: Closing,
) -> Result<(), NoMemory>
    requires instance { instance.now ≡ C.opening.instance }
    requires gap { closing.gap ≡ C.opening.gap }
    requires budget { closing.budget ≡ C.opening.budget }
    requires kind { closing.exact ≡ C.exact }
    requires dispatch { uses_exact_dispatch closing.pivoting ≡ C.exact_dispatch }
    requires exhaustive { IsExhaustiveFor C.exact_dispatch C.opening closing.pivoting }
    requires left { IsLeft C.exact C.opening progress.old.book (cost_of progress.old.best) C.opening.budget }
    requires pivoted { IsPivotedBook C.exact_dispatch C.opening progress.old.book }
    requires found { IsFoundIfAny C.exact_dispatch C.opening.instance progress.old.best }
    ensures ended { IfOk result (λ _. IsEnded C.exact C.opening progress.new.book progress.new.best) }
    ensures pivoted { IfOk result (λ _. IsPivotedBook C.exact_dispatch C.opening progress.new.book) }
    ensures found { IfOk result (λ _. IsFoundIfAny C.exact_dispatch C.opening.instance progress.new.best) }
    ensures no_worse { IfOk result (λ _. IsNoWorse progress.old.best progress.new.best) }
{
    progress.book.keeps_run();
    let mut scale = closing.budget;
    for step in 0..closing.budget {
        let Some(held) = next(host, progress, closing) else {
            return Ok(());
        };
        let settling = Settling {
            instance,
            closing,
            held,
            scale,
        };
        scale = settling.settle(host.alloc, progress)?;
    }
    progress.book.keeps_run();
    Ok(())
}

// A claim that is held, or a new one of an open node; none where the schedule closes the tree, no node is open or the budget is spent.
fn next<C: SearchCase, R: Wait, G: Gate>(
    host: &Host<R, G>,
    progress: &mut Progress<C>,
    closing: Closing,
) -> Option<Held>
    requires gap { closing.gap ≡ C.opening.gap }
    requires left { (limit : ℕ) × IsLeft C.exact C.opening progress.old.book (cost_of progress.old.best) limit }
    ensures held { IfSome result (λ held. IsHeldUnit progress.new.book held.unit held.worker held.node held.had) }
    ensures ended { result ≡ None → IsEnded C.exact C.opening progress.new.book progress.new.best }
    ensures best { progress.new.best ≡ progress.old.best }
    ensures left { (limit : ℕ) → IsLeft C.exact C.opening progress.old.book (cost_of progress.old.best) limit
        → IsLeft C.exact C.opening progress.new.book (cost_of progress.old.best) limit }
    ensures pivoted { IsPivotedBook C.exact_dispatch C.opening progress.old.book → IsPivotedBook C.exact_dispatch C.opening progress.new.book }
    ensures log { progress.new.book.log ≡ progress.old.book.log }
{
    tree_runs_hold();
    progress.book.keeps_run();
    if let Some((unit, worker, node, had)) = progress.book.first_held() {
        return Some(Held {
            unit,
            worker,
            node,
            had,
        });
    }
    if is_finished(progress, closing.gap) {
        return None;
    }
    let node = progress.book.first_open()?;
    match progress.book.claim(CALLER, node) {
        Claimed::Mine { unit, had } => {
            host.gate.enter(host.rt, CALLER, unit);
            Some(Held {
                unit,
                worker: CALLER,
                node,
                had,
            })
        }
        Claimed::Spent => None,
        Claimed::NotOpen => unreachable!(),
    }
}

// Whether the schedule's cost is within the gap of the tree's bound, or no leaf has one.
fn is_finished<C: SearchCase>(progress: &Progress<C>, gap: u32) -> bool
    requires { gap ≤ WHOLE_GAP }
    ensures { result ≡ is_finished progress.now.best (tree_bound progress.now.book.tree) gap }
{
    match progress.book.bound() {
        Some(bound) => is_closed(&progress.best, bound, gap),
        None => true,
    }
}
