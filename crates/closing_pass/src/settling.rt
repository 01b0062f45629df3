//! How a claim that is still held is evaluated and committed.

ghost use Rattle.std.specs.Prelude.{◌≡◌, ◌≢◌, ◌⊎◌, ◌+◌, ◌*◌, ◌<◌, ◌≤◌, Bool, IfOk, MatchOption, None, length};
ghost use Rattle.uc_model.specs.Prelude.{IsLawfulInstance};
ghost use Rattle.uc_model.specs.declared.tolerance.TheConstants.{WHOLE_GAP};
ghost use Rattle.branch_tree.specs.Prelude.{node_count, IsNodeAt, HasFreeCell, IsFreeAt, IsSizeOf};
ghost use Rattle.dual_model.specs.Prelude.{IsNodeOf, IsLawfulTable};
ghost use Rattle.search_machine.specs.Prelude.{entries_of, stored_at, IsMoveLegal, MayGoOn, IsTrueOutcome};
ghost use Rattle.search_machine.specs.declared.limits.TheConstants.{MAX_BUDGET};
ghost use Rattle.book.specs.Prelude.{state_of, IsCommitted, IsHeldUnit, MayCommit};
ghost use Rattle.opening.specs.Outcomes.{IsOutcomeAt};
ghost use Rattle.decided_nodes.specs.Pivoting.{uses_exact_dispatch};
ghost use Rattle.decided_nodes.specs.declared.pivoting.Pivoting.TheVariants.{Exhaustive};
ghost use Rattle.found_schedule.specs.Found.{IsFoundIfAny};
ghost use Rattle.search_desk.specs.Best.{IsNoWorse, cost_of};
ghost use Rattle.search_desk.specs.Commits.{move_for};
ghost use Rattle.search_desk.specs.Desks.{AreLaterScaled, IsPrunedBy};
ghost use Rattle.search_desk.specs.Dispatches.{IsExhaustiveFor, IsPivotedBook};
ghost use Rattle.closing_pass.specs.Closings.{IsLeft};
ghost use Rattle.closing_pass.specs.inside.Tables.{IsExactTrialAt, IsHolding, IsNewScale, IsTrialAt, IsUndispatchedAt};

use crate::closing::{Closing, Progress};
use book::Book;
use branch_tree::Outcome;
use decided_nodes::{Decided, Pivoting, exact_dispatch};
use dual_model::{Node, Table};
use opening::Evaluator;
use prices::{Ascent, CutPool, TriedNode, Values, next_ascent};
use search_desk::{Evaluated, SearchCase, ending, stored_bound};
use search_machine::Move;
use search_machine::laws::tree_runs_hold;
use search_machine::limits::NODE_ENTRIES;
use std::alloc::Global;
use uc_model::tolerance::cost_less_tolerance_never_decreases;
use uc_model::{Instance, NoMemory, Printed};

/// A claim that is held: its unit, its worker, its node, and how many entries the log has of this.
#[derive(Clone, Copy)]
pub(crate) struct Held {
    pub unit: u32,
    pub worker: u8,
    pub node: u32,
    pub had: u32,
}

/// How a claim that is held is settled: where its node has an entry, at a table whose scale is above a million by more than this one, which no entry
/// but a first one has.
#[derive(Clone, Copy)]
pub(crate) struct Settling<'a> {
    pub instance: &'a Instance,
    pub closing: Closing,
    pub held: Held,
    pub scale: u32,
}

/// The decisions on the path to a node that is held, and what it stores: a table and its bound, in micro-dollars.
#[derive(Drop)]
struct Holding {
    path: Node,
    stored: Table,
    bound: i128,
}

/// A table to evaluate a node at, up to which scale above a million tables are used then, and the schedule of an exact dispatch with its cost, in
/// micro-dollars, where there is one.
#[derive(Drop)]
struct Trial {
    table: Table,
    used: u32,
    found: Option<(Printed, i64)>,
}

impl Settling<'_> {
    /// Evaluates the claim and commits it. Up to which scale tables are used then. The only error is `NoMemory`.
    pub(crate) fn settle<C: SearchCase>(
        &self,
        alloc: Global,
        progress: &mut Progress<C>,
    ) -> Result<u32, NoMemory>
        requires instance { self.now.instance.now ≡ C.opening.instance }
        requires gap { self.now.closing.gap ≡ C.opening.gap }
        requires kind { self.now.closing.exact ≡ C.exact }
        requires dispatch { uses_exact_dispatch self.now.closing.pivoting ≡ C.exact_dispatch }
        requires held { IsHeldUnit progress.old.book self.now.held.unit self.now.held.worker self.now.held.node self.now.held.had }
        requires few { self.now.scale ≤ 3 * MAX_BUDGET }
        requires left { IsLeft C.exact C.opening progress.old.book (cost_of progress.old.best) self.now.scale }
        requires exhaustive { IsExhaustiveFor C.exact_dispatch C.opening self.now.closing.pivoting }
        requires pivoted { IsPivotedBook C.exact_dispatch C.opening progress.old.book }
        requires found { IsFoundIfAny C.exact_dispatch C.opening.instance progress.old.best }
        ensures left { IfOk result (IsLeft C.exact C.opening progress.new.book (cost_of progress.new.best)) }
        ensures pivoted { IfOk result (λ _. IsPivotedBook C.exact_dispatch C.opening progress.new.book) }
        ensures used { IfOk result (λ used. used ≤ self.now.scale + 2) }
        ensures found { IfOk result (λ _. IsFoundIfAny C.exact_dispatch C.opening.instance progress.new.best) }
        ensures no_worse { IfOk result (λ _. IsNoWorse progress.old.best progress.new.best) }
        ensures log { IfOk result (λ _. length progress.new.book.log ≡ length progress.old.book.log + 1) }
    {
        tree_runs_hold();
        cost_less_tolerance_never_decreases();
        progress.book.keeps_run();
        let (path, stored, bound) = progress.book.holding(alloc, self.held.unit)?;
        let holding = Holding {
            path,
            stored,
            bound,
        };
        let Trial { table, used, found } = self.trial(alloc, &progress.book, &holding)?;
        let outcome = self.outcome(alloc, &holding.path, &table)?;
        progress.offer(found);
        let done = Evaluated {
            table,
            outcome,
            cell: self.split_cell(&progress.book),
        };
        let action = self.action(progress, &holding.bound, &done);
        self.enter(&mut progress.book, &holding.path, done, action);
        Ok(used)
    }

    // What the node is evaluated at: the table of an exact dispatch, where there is one, or else the one that it stores or an ascent's.
    fn trial<C: SearchCase>(
        &self,
        alloc: Global,
        book: &Book<C>,
        holding: &Holding,
    ) -> Result<Trial, NoMemory>
        requires instance { self.now.instance.now ≡ C.opening.instance }
        requires dispatch { uses_exact_dispatch self.now.closing.pivoting ≡ C.exact_dispatch }
        requires held { IsHeldUnit book.now self.now.held.unit self.now.held.worker self.now.held.node self.now.held.had }
        requires within { self.now.held.node < node_count book.now.tree.nodes }
        requires holding { IsHolding C.opening.instance book.now self.now.held.unit holding.now }
        requires size { IsSizeOf book.now.tree C.opening.instance }
        requires few { self.now.scale ≤ 3 * MAX_BUDGET }
        requires later { AreLaterScaled self.now.scale book.now.tables book.now.log }
        ensures { IfOk result (IsExactTrialAt self.now.closing.exact C.exact_dispatch C.opening.instance book.now self.now holding.now.path) }
    {
        match self.dispatched(alloc, book, &holding.path)? {
            Some(trial) => Ok(trial),
            None => self.priced(alloc, book, holding),
        }
    }

    // The exact dispatch, at the first claim of a node at which each cell is decided, where the search uses it.
    fn dispatched<C: SearchCase>(
        &self,
        alloc: Global,
        book: &Book<C>,
        path: &Node,
    ) -> Result<Option<Trial>, NoMemory>
        requires instance { self.now.instance.now ≡ C.opening.instance }
        requires lawful { IsLawfulInstance C.opening.instance }
        requires dispatch { uses_exact_dispatch self.now.closing.pivoting ≡ C.exact_dispatch }
        requires path { IsNodeOf C.opening.instance path.now }
        requires at { IsNodeAt book.now.tree self.now.held.node path.now }
        requires size { IsSizeOf book.now.tree C.opening.instance }
        requires within { self.now.held.node < node_count book.now.tree.nodes }
        requires count { self.now.held.had ≡ length (entries_of book.now.log self.now.held.node) }
        requires few { self.now.scale ≤ 3 * MAX_BUDGET }
        ensures { IfOk result (λ trial. MatchOption trial (IsUndispatchedAt C.exact_dispatch C.opening.instance self.now path.now)
            (IsExactTrialAt self.now.closing.exact C.exact_dispatch C.opening.instance book.now self.now path.now)) }
    {
        if self.held.had > 0 || !self.closing.pivoting.is_on() {
            return Ok(None);
        }
        if book.free_cell(self.held.node).is_some() {
            return Ok(None);
        }
        match exact_dispatch(alloc, self.instance, path)? {
            Some(Decided { table, schedule }) => Ok(Some(Trial {
                table,
                used: self.scale + 1,
                found: schedule,
            })),
            None => Ok(None),
        }
    }

    // What the node is evaluated at without an exact dispatch: the table that it stores, where it wasn't evaluated yet; or that of an ascent from it.
    fn priced<C: SearchCase>(
        &self,
        alloc: Global,
        book: &Book<C>,
        holding: &Holding,
    ) -> Result<Trial, NoMemory>
        requires instance { self.now.instance.now ≡ C.opening.instance }
        requires held { IsHeldUnit book.now self.now.held.unit self.now.held.worker self.now.held.node self.now.held.had }
        requires holding { IsHolding C.opening.instance book.now self.now.held.unit holding.now }
        requires few { self.now.scale ≤ 3 * MAX_BUDGET }
        requires later { AreLaterScaled self.now.scale book.now.tables book.now.log }
        ensures { IfOk result (IsTrialAt self.now.closing.exact C.exact_dispatch C.opening.instance book.now self.now) }
    {
        if self.held.node != 0 && self.held.had == 0 {
            return Ok(Trial {
                table: holding.stored.copy(alloc)?,
                used: self.scale + 1,
                found: None,
            });
        }
        self.ascended(alloc, book, holding)
    }

    // The table of an ascent, whose scale no entry of the node has: a first entry may have one of two, but not both.
    fn ascended<C: SearchCase>(
        &self,
        alloc: Global,
        book: &Book<C>,
        holding: &Holding,
    ) -> Result<Trial, NoMemory>
        requires instance { self.now.instance.now ≡ C.opening.instance }
        requires holding { IsHolding C.opening.instance book.now self.now.held.unit holding.now }
        requires count { self.now.held.had ≡ length (entries_of book.now.log self.now.held.node) }
        requires some { (self.now.held.node ≡ 0) ⊎ (self.now.held.had ≢ 0) }
        requires few { self.now.scale ≤ 3 * MAX_BUDGET }
        requires later { AreLaterScaled self.now.scale book.now.tables book.now.log }
        ensures { IfOk result (IsTrialAt self.now.closing.exact C.exact_dispatch C.opening.instance book.now self.now) }
    {
        let table = self.table_at(alloc, holding, self.scale + 1)?;
        if book.fresh(self.held.node, &table, self.closing.exact) {
            return Ok(Trial {
                table,
                used: self.scale + 1,
                found: None,
            });
        }
        drop(table);
        Ok(Trial {
            table: self.table_at(alloc, holding, self.scale + 2)?,
            used: self.scale + 2,
            found: None,
        })
    }

    // The table of an ascent from the one that the node stores, at this scale above a million.
    fn table_at(&self, alloc: Global, holding: &Holding, scale: u32) -> Result<Table, NoMemory>
        requires lawful { IsLawfulInstance self.now.instance.now }
        requires path { IsNodeOf self.now.instance.now holding.now.path }
        requires few { scale ≤ 3 * MAX_BUDGET + 2 }
        ensures lawful { IfOk result (IsLawfulTable self.now.instance.now) }
        ensures scale { IfOk result (IsNewScale scale) }
    {
        let values = Values {
            instance: self.instance,
            exact: self.closing.exact,
        };
        let mut pool = CutPool::closed(alloc);
        let target = TriedNode {
            node: &holding.path,
            had: scale,
            enough: i128::MAX,
        };
        let ascent = next_ascent(alloc, values, &mut pool, &holding.stored, target)?;
        Ok(table_of(ascent))
    }

    // What an evaluation comes to. The only error is `NoMemory`.
    fn outcome(&self, alloc: Global, path: &Node, table: &Table) -> Result<Outcome, NoMemory>
        requires lawful { IsLawfulInstance self.now.instance.now }
        requires path { IsNodeOf self.now.instance.now path.now }
        requires table { IsLawfulTable self.now.instance.now table.now }
        ensures { IfOk result (IsOutcomeAt self.now.closing.exact self.now.instance.now path.now table.now) }
    {
        let mut evaluator = Evaluator::new(alloc, self.instance)?;
        let outcome = evaluator.outcome(alloc, path, table, self.closing.exact);
        drop(evaluator);
        outcome
    }

    // The cell that the node is split on where it isn't closed: the first undecided one, once it had all the entries that it may have, or at once
    // where the budget has a claim for each node.
    fn split_cell<C: SearchCase>(&self, book: &Book<C>) -> Option<(u32, u32)>
        requires within { self.now.held.node < node_count book.now.tree.nodes }
        requires count { self.now.held.had ≡ length (entries_of book.now.log self.now.held.node) }
        ensures cell { MatchOption result (MayGoOn (state_of book.now) self.now.held.node)
            (λ cell. IsFreeAt book.now.tree self.now.held.node cell.0 cell.1) }
        ensures exhaustive { self.now.closing.pivoting ≡ Exhaustive → result ≡ None → ¬ HasFreeCell book.now.tree self.now.held.node }
    {
        let may_go_on = (self.held.had as usize) + 1 < NODE_ENTRIES;
        if may_go_on && self.closing.pivoting != Pivoting::Exhaustive {
            return None;
        }
        book.free_cell(self.held.node)
    }

    // The move that ends the claim.
    fn action<C: SearchCase>(&self, progress: &Progress<C>, bound: &i128, done: &Evaluated) -> Move
        requires gap { self.now.closing.gap ≡ progress.now.book.gap }
        requires whole { self.now.closing.gap ≤ WHOLE_GAP }
        requires stored { bound.now ≡ (stored_at progress.now.book.tree self.now.held.node).value }
        requires cell { MatchOption done.now.cell (MayGoOn (state_of progress.now.book) self.now.held.node)
            (λ cell. IsFreeAt progress.now.book.tree self.now.held.node cell.0 cell.1) }
        ensures legal { (exact : Bool) → IsMoveLegal (λ cost. Unit {0}) (state_of progress.now.book) self.now.held.node done.now.table exact done.now.outcome result }
        ensures pruned { IsPrunedBy (cost_of progress.now.best) result }
        ensures is { result ≡ move_for (cost_of progress.now.best) self.now.closing.gap bound.now done.now }
    {
        let stored = stored_bound(bound, done);
        ending(progress.cost(), stored, self.closing.gap, done)
    }

    // Commits the evaluation.
    fn enter<C: SearchCase>(&self, book: &mut Book<C>, path: &Node, done: Evaluated, action: Move)
        requires told { IsTrueOutcome self.now.closing.exact C.opening.instance path.now done.table done.outcome }
        requires may { MayCommit book.old self.now.held.worker self.now.held.unit path.now done.table self.now.closing.exact done.outcome action }
        ensures { IsCommitted book.old self.now.held.worker self.now.held.unit path.now done.table self.now.closing.exact done.outcome action book.new }
    {
        let Evaluated { table, outcome, .. } = done;
        let Held { worker, unit, .. } = self.held;
        if !book.commit(
            worker,
            unit,
            path,
            table,
            self.closing.exact,
            outcome,
            action,
        ) {
            unreachable!();
        }
    }
}

// The table of an ascent.
fn table_of(ascent: Ascent) -> Table
    ensures { result ≡ ascent.table }
{
    let Ascent { table, .. } = ascent;
    table
}
