//! The state, and its steps.

use crate::holder::{end_claim, holder_of, is_open};
use crate::record::{Added, record};
use crate::{costs, desk, desks, log, start};
use branch_tree::{Entry, Leaf, Outcome, Tree, is_within_gap};
use dual_model::Table;
use search_machine::desk::WorkerState;
use search_machine::holder::Holder;
use search_machine::limits::NODE_ENTRIES;
use search_machine::start::root;
use search_machine::stored::stored_at;
use search_machine::{Event, Move, StepFault, Stored, kept_after, legal, moves, tables};
use std::alloc::Global;
use std::marker::Model;
use uc_model::{List, NoMemory};

/// The state of a search by several workers. Contracts see it as the record of `specs/Machine`.
#[derive(Drop)]
pub struct State {
    budget: u32,
    gap: u32,
    count: u32,
    tree: Tree,
    tables: List<Table>,
    log: List<Entry>,
    claims: Vec<Option<Holder>>,
    best: Option<i64>,
    desks: Vec<WorkerState>,
}

impl Model for State {
    ghost use Rattle.search_machine.specs.Prelude.{Machine};
    ghost use Rattle.search_core.specs.MachineCode.{machine_code};

    ghost Value = { Machine };

    ghost coded = { machine_code };

    ghost use Rattle.search_core.specs.Fields.{view_of, IsKept};

    ghost view = { view_of };

    ghost invariant = { IsKept };
}

impl State {
    ghost use Rattle.std.specs.Prelude.{◌≡◌, ◌≢◌, ◌↔◌, ◌<◌, ◌≤◌, ℕ, [], IsTrue, false, None, Some, Err, IfSome, IfOk, MatchOption, OnOk, OnErr, length};
    ghost use Rattle.uc_model.specs.declared.tolerance.TheConstants.{WHOLE_GAP};
    ghost use Rattle.branch_tree.specs.NumberedTree.{node_count};
    ghost use Rattle.branch_tree.specs.TreeView.{IsFreeAt};
    ghost use Rattle.search_machine.specs.declared.limits.TheConstants.{MAX_BUDGET};
    ghost use Rattle.search_machine.specs.declared.event.Event.TheVariants as event;
    ghost use Rattle.search_machine.specs.declared.event.StepFault.TheVariants as fault;
    ghost use Rattle.search_machine.specs.Prelude.{IsWorker, IsHolding, desk_of, entries_of, start_of, kept, MayGoOn, MayPrune, IsMoveLegal, HasFreeCell, HasSeen, IsClaimable, IsFresh, IsStoredTable, IsLegal, is_in_hand, after};

    /// A state with no claim and no entry: the root of a tree over `units` thermal units and `periods` periods is
    /// open, and stores the table and its bound by V, `value`, in micro-dollars. Worker 0 has the root's ticket.
    pub fn start(
        alloc: Global,
        units: u32,
        periods: u32,
        workers: u8,
        budget: u32,
        gap: u32,
        table: Table,
        value: i128,
    ) -> Result<State, NoMemory>
        requires workers { 0 < workers }
        requires budget { budget ≤ MAX_BUDGET }
        requires gap { gap ≤ WHOLE_GAP }
        ensures { IfOk result (λ state. state ≡ start_of units periods workers budget gap table value) }
    {
        Ok(State {
            budget,
            gap,
            count: 1,
            tables: start::single(alloc, table)?,
            desks: start::desks(alloc, workers)?,
            tree: root(
                alloc,
                units,
                periods,
                budget,
                &Leaf::Live {
                    table: 0,
                    value,
                    exact: false,
                },
            )?,
            log: List::from_vec(Vec::new(alloc)),
            claims: Vec::new(alloc),
            best: None,
        })
    }

    /// The tree.
    pub fn tree(&self) -> &Tree
        ensures { result.now ≡ self.now.tree }
    {
        &self.tree
    }

    /// The tables: that of the start, and one for each entry of the log, in the same order.
    pub fn tables(&self) -> &List<Table>
        ensures { result.now ≡ self.now.tables }
    {
        &self.tables
    }

    /// The evaluations that were committed.
    pub fn log(&self) -> &List<Entry>
        ensures { result.now ≡ self.now.log }
    {
        &self.log
    }

    /// The least cost that was published, in micro-dollars.
    pub fn best(&self) -> Option<i64>
        ensures { result ≡ self.now.best }
    {
        self.best
    }

    /// The least cost that the worker, from 0, has seen, in micro-dollars.
    pub fn seen(&self, w: u8) -> Option<i64>
        requires { IsWorker self.now w }
        ensures { result ≡ (desk_of self.now w).seen }
    {
        self.desks[w as usize].seen
    }

    /// The tickets in the hand of the worker, from 0.
    pub fn hand(&self, w: u8) -> &List<u32>
        requires { IsWorker self.now w }
        ensures { result.now ≡ (desk_of self.now w).hand }
    {
        &self.desks[w as usize].hand
    }

    /// The tickets in the queue of the worker, from 0, the first to leave first.
    pub fn queue(&self, w: u8) -> &List<u32>
        requires { IsWorker self.now w }
        ensures { result.now ≡ (desk_of self.now w).queue }
    {
        &self.desks[w as usize].queue
    }

    /// How many nodes the tree has.
    pub fn count(&self) -> u32
        ensures { result ≡ node_count self.now.tree.nodes }
    {
        self.count
    }

    /// How many entries of the log the node of this number has; of no node there are none.
    pub fn entries(&self, node: u32) -> usize
        ensures { result ≡ length (entries_of self.now.log node) }
    {
        log::count(self.log.as_slice(), node)
    }

    /// How many claims there were.
    pub fn claims(&self) -> u32
        ensures { result ≡ length self.now.claims }
    {
        self.claims.len() as u32
    }

    /// The tree, the tables and the log.
    pub fn finish(self) -> (Tree, List<Table>, List<Entry>)
        ensures tree { result.0 ≡ self.tree }
        ensures tables { result.1 ≡ self.tables }
        ensures log { result.2 ≡ self.log }
    {
        let State {
            tree,
            tables,
            log,
            ..
        } = self;
        (tree, tables, log)
    }

    /// Takes the step of one event, by which no worker comes or goes. `NotLegal` gives the event back, exactly where the machine has no case for it;
    /// after this, and after `NoMemory`, which is answered only where memory is refused, all is as before.
    #[tactic(auto, using(crate::proofs::Kept::desks_stay))]
    pub fn step(&mut self, alloc: Global, event: Event) -> Result<(), StepFault>
        ensures legal { OnOk result (IsLegal self.old event) }
        ensures taken { OnOk result (self.new ≡ after self.old event) }
        ensures same { OnErr result (self.new ≡ self.old) }
        ensures workers { length self.new.desks ≡ length self.old.desks }
        ensures refused { (refused : Event) → result ≡ Err (fault.NotLegal refused) → refused ≡ event }
        ensures unlawful { (refused : Event) → result ≡ Err (fault.NotLegal refused) → ¬ IsLegal self.old event }
    {
        if !self.is_legal(&event) {
            return Err(StepFault::NotLegal(event));
        }
        match self.apply(alloc, event) {
            Ok(()) => Ok(()),
            Err(_) => Err(StepFault::NoMemory),
        }
    }

    // Whether the machine has a case for the event.
    fn is_legal(&self, event: &Event) -> bool
        ensures { IsTrue result ↔ IsLegal self.now event.now }
    {
        match event {
            Event::Claim { worker, node } => self.is_worker(*worker) && self.is_claimable(*node),
            Event::Commit {
                worker,
                unit,
                table,
                exact,
                outcome,
                action,
            } => self.is_commit_legal(*worker, *unit, table, *exact, outcome, action),
            Event::Publish { worker, .. } | Event::Look { worker } => self.is_worker(*worker),
            Event::Push { worker, node } => self.has_in_hand(*worker, *node),
            Event::Pop { worker } => self.has_queued(*worker),
            Event::Steal { worker, victim } => self.is_worker(*worker) && self.has_queued(*victim),
        }
    }

    // Whether the number is a worker's.
    fn is_worker(&self, worker: u8) -> bool
        ensures { IsTrue result ↔ IsWorker self.now worker }
    {
        (worker as usize) < self.desks.len()
    }

    // Whether the worker has the node's ticket in its hand.
    fn has_in_hand(&self, worker: u8, node: u32) -> bool
        ensures { IsTrue result ↔ (IsWorker self.now worker × IsTrue (is_in_hand (desk_of self.now worker) node)) }
    {
        (worker as usize) < self.desks.len()
            && desk::has_in_hand(&self.desks[worker as usize], node)
    }

    // Whether the worker has a ticket in its queue.
    fn has_queued(&self, worker: u8) -> bool
        ensures { IsTrue result ↔ (IsWorker self.now worker × (0 < length (desk_of self.now worker).queue)) }
    {
        (worker as usize) < self.desks.len()
            && !self.desks[worker as usize].queue.as_slice().is_empty()
    }

    // Whether a claim is left, and the node is open.
    fn is_claimable(&self, node: u32) -> bool
        ensures { IsTrue result ↔ IsClaimable self.now node }
    {
        self.claims.len() < self.budget as usize
            && is_open(&self.tree, self.count, self.claims.as_slice(), node)
    }

    /// The first cell, a thermal unit and a period, each from 0, that is undecided at the node of this number.
    pub fn free_cell(&self, node: u32) -> Option<(u32, u32)>
        requires { node < node_count self.now.tree.nodes }
        ensures { MatchOption result (¬ HasFreeCell self.now.tree node) (λ cell. IsFreeAt self.now.tree node cell.0 cell.1) }
    {
        self.tree.free_cell(node)
    }

    /// Whether thermal unit `g` and period `t`, each from 0, are a cell of the tree that is undecided at the node of this number.
    pub fn is_free(&self, node: u32, g: u32, t: u32) -> bool
        requires { node < node_count self.now.tree.nodes }
        ensures { IsTrue result ↔ IsFreeAt self.now.tree node g t }
    {
        self.tree.is_free(node, g, t)
    }

    /// Whether none of the node's entries of the log is at the table with a value of this kind: V or, with `exact`, the exact value.
    pub fn is_fresh(&self, node: u32, table: &Table, exact: bool) -> bool
        ensures { IsTrue result ↔ IsFresh self.now (entries_of self.now.log node) table.now exact }
    {
        log::is_fresh(
            self.log.as_slice(),
            self.tables.as_slice(),
            node,
            table,
            exact,
        )
    }

    // Whether the node has an entry, is the root or stores the table.
    fn is_any_table_lawful(&self, node: u32, table: &Table) -> bool
        requires { node < node_count self.now.tree.nodes }
        ensures lawful { IsTrue result → entries_of self.now.log node ≡ [] → node ≢ 0 → IsStoredTable self.now node table.now }
        ensures first { result ≡ false → (entries_of self.now.log node ≡ []) × (node ≢ 0) × (¬ IsStoredTable self.now node table.now) }
    {
        if self.entries(node) > 0 {
            return true;
        }
        if node == 0 {
            return true;
        }
        tables::is_table(
            self.tables.as_slice(),
            stored_at(&self.tree, node).table,
            table,
        )
    }

    // Whether the table may be that of the node's next entry.
    fn is_table_lawful(&self, node: u32, table: &Table) -> bool
        requires { node < node_count self.now.tree.nodes }
        ensures { IsTrue result
            ↔ (entries_of self.now.log node ≡ [] → node ≢ 0 → HasFreeCell self.now.tree node → IsStoredTable self.now node table.now) }
    {
        self.is_any_table_lawful(node, table) || !self.tree.has_free_cell(node)
    }

    /// Whether a commit may leave the node open: with one entry more it has fewer than a hundred, or no cell is undecided there.
    pub fn may_go_on(&self, node: u32) -> bool
        requires { node < node_count self.now.tree.nodes }
        ensures { IsTrue result ↔ MayGoOn self.now node }
    {
        self.entries(node) < NODE_ENTRIES - 1 || !self.tree.has_free_cell(node)
    }

    /// What a commit of this outcome at the table, of this kind, would leave at the node, by the move `Again`.
    pub fn kept(&self, node: u32, table: &Table, exact: bool, outcome: &Outcome) -> Stored
        requires { node < node_count self.now.tree.nodes }
        ensures { result ≡ kept self.now node table.now exact outcome.now }
    {
        let number = self.tables.as_slice().len() as u32;
        kept_after(
            &stored_at(&self.tree, node),
            number,
            &table.k(),
            exact,
            outcome,
        )
    }

    /// Whether the worker, from 0, has seen this cost, in micro-dollars, and what the node would store is within the gap of it.
    pub fn may_prune(&self, worker: u8, stored: &Stored, seen: &i64) -> bool
        requires { IsWorker self.now worker }
        ensures { IsTrue result ↔ MayPrune (HasSeen self.now worker) self.now.gap stored.now seen.now }
    {
        costs::is_cost(&self.desks[worker as usize].seen, *seen)
            && is_within_gap(seen, &Some(stored.value), self.gap)
    }

    // Whether the move's condition holds.
    fn is_move_legal(
        &self,
        worker: u8,
        node: u32,
        table: &Table,
        exact: bool,
        outcome: &Outcome,
        action: &Move,
    ) -> bool
        requires worker { IsWorker self.now worker }
        requires node { node < node_count self.now.tree.nodes }
        ensures { IsTrue result ↔ IsMoveLegal (HasSeen self.now worker) self.now node table.now exact outcome.now action.now }
    {
        match action {
            Move::Again => legal::is_value(outcome) && self.may_go_on(node),
            Move::Split { g, t } => legal::is_value(outcome) && self.is_free(node, *g, *t),
            Move::Prune { seen } => {
                legal::is_value(outcome)
                    && self.may_prune(worker, &self.kept(node, table, exact, outcome), seen)
            }
            Move::Ray => legal::is_excluding(table, outcome),
            Move::Empty => legal::is_empty(outcome),
        }
    }

    // The node that the worker holds by the claim of this unit.
    fn held_by(&self, worker: u8, unit: u32) -> Option<u32>
        ensures held { IfSome result (λ node. IsHolding self.now worker unit node) }
        ensures within { IfSome result (λ node. node < node_count self.now.tree.nodes) }
        ensures none { result ≡ None → (node : ℕ) → ¬ IsHolding self.now worker unit node }
    {
        match holder_of(self.claims.as_slice(), unit) {
            Some(holder) if holder.worker == worker => Some(holder.node),
            _ => None,
        }
    }

    // Whether the evaluation of the node at the table may be committed.
    fn is_evaluation_lawful(&self, node: u32, table: &Table, exact: bool) -> bool
        requires { node < node_count self.now.tree.nodes }
        ensures { IsTrue result ↔ (IsFresh self.now (entries_of self.now.log node) table.now exact
            × (entries_of self.now.log node ≡ [] → node ≢ 0 → HasFreeCell self.now.tree node → IsStoredTable self.now node table.now)) }
    {
        self.is_fresh(node, table, exact) && self.is_table_lawful(node, table)
    }

    // Whether the claim may be committed so.
    fn is_commit_legal(
        &self,
        worker: u8,
        unit: u32,
        table: &Table,
        exact: bool,
        outcome: &Outcome,
        action: &Move,
    ) -> bool
        ensures { IsTrue result ↔ IsLegal self.now (event.Commit worker unit table.now exact outcome.now action.now) }
    {
        if !self.is_worker(worker) {
            return false;
        }
        let Some(node) = self.held_by(worker, unit) else {
            return false;
        };
        if !self.is_evaluation_lawful(node, table, exact) {
            return false;
        }
        self.is_move_legal(worker, node, table, exact, outcome, action)
    }

    // Makes the change of a legal event.
    fn apply(&mut self, alloc: Global, event: Event) -> Result<(), NoMemory>
        requires { IsLegal self.old event }
        ensures taken { OnOk result (self.new ≡ after self.old event) }
        ensures same { OnErr result (self.new ≡ self.old) }
    {
        match event {
            Event::Claim { worker, node } => self.claim(alloc, worker, node),
            Event::Commit {
                worker,
                unit,
                table,
                exact,
                outcome,
                action,
            } => self.commit(alloc, worker, unit, table, exact, &outcome, &action),
            Event::Publish { worker, cost } => {
                self.publish(worker, cost);
                Ok(())
            }
            Event::Look { worker } => {
                self.look(worker);
                Ok(())
            }
            Event::Push { worker, node } => self.push(alloc, worker, node),
            Event::Pop { worker } => self.take(alloc, worker, worker),
            Event::Steal { worker, victim } => self.take(alloc, worker, victim),
        }
    }

    // Makes the worker hold the node.
    fn claim(&mut self, alloc: Global, worker: u8, node: u32) -> Result<(), NoMemory>
        requires { IsLegal self.old (event.Claim worker node) }
        ensures taken { OnOk result (self.new ≡ after self.old (event.Claim worker node)) }
        ensures same { OnErr result (self.new ≡ self.old) }
    {
        self.claims.push(Some(Holder { worker, node }))?;
        Ok(())
    }

    // Commits an evaluation.
    fn commit(
        &mut self,
        alloc: Global,
        worker: u8,
        unit: u32,
        table: Table,
        exact: bool,
        outcome: &Outcome,
        action: &Move,
    ) -> Result<(), NoMemory>
        requires { IsLegal self.old (event.Commit worker unit table exact outcome.now action.now) }
        ensures taken { OnOk result (self.new ≡ after self.old (event.Commit worker unit table exact outcome.now action.now)) }
        ensures same { OnErr result (self.new ≡ self.old) }
    {
        let Some(node) = self.held_by(worker, unit) else {
            unreachable!();
        };
        let stored = self.kept(node, &table, exact, outcome);
        let number = self.tables.as_slice().len() as u32;
        let entry = Entry {
            unit,
            worker,
            node,
            table: number,
            exact,
            outcome: *outcome,
        };
        let both = [self.count, self.count + 1];
        let children = moves::children(action, &both);
        record(
            alloc,
            &mut self.log,
            &mut self.tables,
            &mut self.desks,
            Added { entry, table },
            children,
        )?;
        moves::make(
            &mut self.tree,
            node,
            &stored,
            number,
            exact,
            outcome,
            action,
        );
        end_claim(&mut self.claims, unit);
        self.count += children.len() as u32;
        Ok(())
    }

    // Publishes a cost.
    fn publish(&mut self, worker: u8, cost: i64)
        requires { IsWorker self.old worker }
        ensures { self.new ≡ after self.old (event.Publish worker cost) }
    {
        self.best = costs::least(&self.best, cost);
        desks::see_cost(&mut self.desks, worker, cost);
    }

    // Looks at the least cost that was published.
    fn look(&mut self, worker: u8)
        requires { IsWorker self.old worker }
        ensures { self.new ≡ after self.old (event.Look worker) }
    {
        desks::see(&mut self.desks, worker, &self.best);
    }

    // Moves a ticket from the worker's hand to the back of its queue.
    fn push(&mut self, alloc: Global, worker: u8, node: u32) -> Result<(), NoMemory>
        requires { IsLegal self.old (event.Push worker node) }
        ensures taken { OnOk result (self.new ≡ after self.old (event.Push worker node)) }
        ensures same { OnErr result (self.new ≡ self.old) }
    {
        desks::enqueue(alloc, &mut self.desks, worker, node)?;
        Ok(())
    }

    // Moves the first ticket of the victim's queue to the worker's hand.
    fn take(&mut self, alloc: Global, worker: u8, victim: u8) -> Result<(), NoMemory>
        requires { IsLegal self.old (event.Steal worker victim) }
        ensures taken { OnOk result (self.new ≡ after self.old (event.Steal worker victim)) }
        ensures same { OnErr result (self.new ≡ self.old) }
    {
        let first = [desk::first_queued(&self.desks[victim as usize])];
        desks::take_tickets(alloc, &mut self.desks, worker, &first)?;
        desks::drop_first(alloc, &mut self.desks, victim);
        Ok(())
    }
}
