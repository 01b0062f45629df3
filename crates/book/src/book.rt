//! The book and its calls.

ghost use Rattle.std.specs.Prelude.{◌≡◌, ◌<◌, ◌∷◌, [], IfOk, pos, replicate, vec_capacity};

use crate::case::Case;
use crate::claims::{Claimed, Claims, Status};
use crate::log::Log;
use branch_tree::{Entry, Leaf, Outcome, Spot, Tree, is_within_gap};
use dual_model::{Node, Table};
use search_machine::limits::NODE_ENTRIES;
use search_machine::{Move, Stored, kept_after, laws, legal, moves, start, stored, tables};
use std::alloc::Global;
use std::marker::{Model, PhantomData};
use uc_model::{Instance, List, NoMemory};

/// A tree of commitments, with its tables, the log of its evaluations, and the claims. It is plain data: a program puts it behind a lock.
/// Each call but `new` and `holding` takes no memory. Workers, nodes and thermal units count from 0, claims (`unit`) from 1.
///
/// Contracts see it as the record of `specs/BookView`; `keeps_run` says what holds of every book.
#[derive(Drop)]
pub struct Book<C: Case> {
    budget: u32,
    gap: u32,
    count: u32,
    tree: Tree,
    tables: Vec<Table>,
    log: Log,
    claims: Claims,
    of: PhantomData<C>,
}

impl<C: Case> Model for Book<C> {
    ghost use Rattle.book.specs.BookView.{BookView};
    ghost use Rattle.book.specs.BookCode.{book_code};

    ghost Value = { BookView };

    ghost coded = { book_code };

    ghost use Rattle.std.specs.Prelude.{vec_capacity};
    ghost use Rattle.book.specs.inside.Kept.{view_of, rooms_of, IsKept};

    ghost view = { λ b. view_of b.budget b.gap b.tree b.tables.items b.log b.claims };

    ghost invariant = { λ b. IsKept C.opening (view_of b.budget b.gap b.tree b.tables.items b.log b.claims) (rooms_of b.count (vec_capacity b.tables) b.log b.claims) };
}

// The tables with room for so many, of which there is the first.
fn first_table(alloc: Global, room: usize, table: Table) -> Result<Vec<Table>, NoMemory>
    requires { 0 < room }
    ensures items { IfOk result (λ tables. tables.items ≡ table ∷ []) }
    ensures room { IfOk result (λ tables. vec_capacity tables ≡ room) }
{
    let mut tables = Vec::with_capacity(alloc, room)?;
    tables.push_reserved(table);
    Ok(tables)
}

// No entries and no claims, with room for so many of each, over so many nodes.
fn no_claims(alloc: Global, room: u32, nodes: u32) -> Result<(Log, Claims), NoMemory>
    ensures log { IfOk result (λ both. both.0 ≡ record { entries = []; room = room; nodes = nodes; greatest = replicate nodes (pos 0) }) }
    ensures claims { IfOk result (λ both. both.1 ≡ record { claims = []; room = room; nodes = nodes }) }
{
    let log = Log::with_room(alloc, room, nodes)?;
    let claims = Claims::with_room(alloc, room, nodes)?;
    Ok((log, claims))
}

impl<C: Case> Book<C> {
    ghost use Rattle.std.specs.Prelude.{◌≡◌, ◌≢◌, ◌↔◌, ◌<◌, ℕ, [], IsTrue, true, false, None, Some, IfOk, IfSome, MatchOption, length};
    ghost use Rattle.branch_tree.specs.NumberedTree.{node_count};
    ghost use Rattle.branch_tree.specs.StoredTree.{tree_bound};
    ghost use Rattle.branch_tree.specs.TreeView.{HasFreeCell, IsFreeAt};
    ghost use Rattle.search_machine.specs.Prelude.{IsOpen, IsHeld, IsHolding, entries_of, kept, MayGoOn, MayPrune, IsMoveLegal, IsTrueOutcome, IsSettled, IsFresh, IsStoredTable};
    ghost use Rattle.book.specs.BookView.{state_of, opened};
    ghost use Rattle.book.specs.Calls.{IsClaimAnswer, IsUnitHeld, IsStoredAt, AreChildren, MayBe, IsCommitAnswer, IsAbandonAnswer, IsHeldUnit, claimed, committed, given_back};
    ghost use Rattle.book.specs.Opening.{IsTrueOpening};
    ghost use Rattle.book.specs.Running.{IsRunning};

    /// A book without a claim, of the run that `C` names: its root is open, and stores the opening's table with its bound, in micro-dollars.
    /// It takes all room that the budget may need.
    pub fn new(
        alloc: Global,
        instance: &Instance,
        budget: u32,
        gap: u32,
        table: Table,
        value: i128,
    ) -> Result<Book<C>, NoMemory>
        requires opening { IsTrueOpening C.opening }
        requires instance { instance.now ≡ C.opening.instance }
        requires budget { budget ≡ C.opening.budget }
        requires gap { gap ≡ C.opening.gap }
        requires table { table ≡ C.opening.table }
        requires value { value ≡ C.opening.value }
        ensures { IfOk result (λ book. book ≡ opened C.opening) }
    {
        let units = instance.thermal.as_slice().len() as u32;
        let leaf = Leaf::Live {
            table: 0,
            value,
            exact: false,
        };
        let tree = start::root(alloc, units, instance.periods, budget, &leaf)?;
        let tables = first_table(alloc, budget as usize + 2, table)?;
        let (log, claims) = no_claims(alloc, budget, 2 * budget + 1)?;
        Ok(Book {
            budget,
            gap,
            count: 1,
            tree,
            tables,
            log,
            claims,
            of: PhantomData,
        })
    }

    /// What holds of every book: its replay is a run of the search machine that gives it, the log is true, and so is the tree. The
    /// contract of a call that does nothing.
    pub fn keeps_run(&self)
        ensures { IsRunning C.opening self.now }
    {
        laws::tree_runs_hold();
        let _count = self.count;
    }

    /// Claims the node for the worker. `Spent` comes exactly where there were as many claims as the budget allows, else `NotOpen` exactly
    /// where the node isn't open.
    pub fn claim(&mut self, worker: u8, node: u32) -> Claimed
        ensures { IsClaimAnswer self.old worker node self.new result }
    {
        let made = self.claims.len();
        if made == self.budget {
            return Claimed::Spent;
        }
        if !self.is_open(node) {
            return Claimed::NotOpen;
        }
        self.take(worker, node);
        Claimed::Mine {
            unit: made + 1,
            had: self.log.count(node),
        }
    }

    // Adds the claim of an open node.
    fn take(&mut self, worker: u8, node: u32)
        requires left { length self.old.claims ≢ self.old.budget }
        requires open_node { IsOpen (state_of self.old) node }
        ensures { self.new ≡ claimed self.old worker node }
    {
        laws::tree_runs_hold();
        self.tree.keeps_cover();
        self.claims.add(worker, node, self.log.len());
    }

    /// The fixings of the unit's node, the table that it stores, and the bound of this table, in micro-dollars. The only error is `NoMemory`.
    pub fn holding(&self, alloc: Global, unit: u32) -> Result<(Node, Table, i128), NoMemory>
        requires { IsUnitHeld self.now unit }
        ensures { IfOk result (λ found. IsStoredAt self.now unit found.0 found.1 found.2) }
    {
        laws::tree_runs_hold();
        let Some((_, node)) = self.claims.holder(unit) else {
            unreachable!();
        };
        let stored = stored::stored_at(&self.tree, node);
        let table = self.tables[stored.table as usize].copy(alloc)?;
        Ok((self.tree.fixings(alloc, node)?, table, stored.value))
    }

    /// Whether the log has no entry of the node at the table with a value of this kind: V, or the exact value.
    pub fn fresh(&self, node: u32, table: &Table, exact: bool) -> bool
        ensures { IsTrue result ↔ IsFresh (state_of self.now) (entries_of self.now.log node) table.now exact }
    {
        self.log.is_above(node, table.k())
            || self
                .log
                .is_fresh(self.tables.as_slice(), node, table, exact)
    }

    /// The off-child and the on-child of an inner node; none exactly where the tree has no inner node of that number.
    pub fn children(&self, node: u32) -> Option<(u32, u32)>
        ensures some { IfSome result (λ both. AreChildren self.now.tree node both.0 both.1) }
        ensures none { result ≡ None → (off on : ℕ) → ¬ AreChildren self.now.tree node off on }
    {
        self.tree.keeps_cover();
        if node >= self.count {
            return None;
        }
        match self.tree.node(node) {
            Spot::Inner { off, on, .. } => Some((off, on)),
            Spot::Leaf(_) => None,
        }
    }

    /// Commits the worker's claim of this unit: the evaluation of `node` at the table gave the outcome, of V or, where `exact`, of the exact
    /// value. False exactly where the worker doesn't hold the unit, `node` isn't its node, the table isn't fresh there, or the move's
    /// condition fails; then all is as before, and the table is dropped.
    pub fn commit(
        &mut self,
        worker: u8,
        unit: u32,
        node: &Node,
        table: Table,
        exact: bool,
        outcome: Outcome,
        action: Move,
    ) -> bool
        requires { IsTrueOutcome exact C.opening.instance node.now table outcome }
        ensures { IsCommitAnswer self.old worker unit node.now table exact outcome action self.new result }
    {
        let Some(number) = self.held_by(worker, unit) else {
            return false;
        };
        if self.may_commit(number, node, &table, exact, &outcome, &action) {
            self.enter(worker, unit, number, node, table, exact, &outcome, &action);
            return true;
        }
        false
    }

    // Enters a commit that may be made.
    fn enter(
        &mut self,
        worker: u8,
        unit: u32,
        number: u32,
        node: &Node,
        table: Table,
        exact: bool,
        outcome: &Outcome,
        action: &Move,
    )
        requires told { IsTrueOutcome exact C.opening.instance node.now table outcome.now }
        requires holds { IsHolding (state_of self.old) worker unit number }
        requires may { MayBe self.old number node.now table exact outcome.now action.now }
        ensures { self.new ≡ committed self.old worker unit number table exact outcome.now action.now }
    {
        laws::tree_runs_hold();
        let kept = self.kept(number, &table, exact, outcome);
        let place = self.tables.len() as u32;
        moves::make(&mut self.tree, number, &kept, place, exact, outcome, action);
        self.count += moves::children(action, &[0, 0]).len() as u32;
        let scale = table.k();
        self.tables.push_reserved(table);
        let entry = Entry {
            unit,
            worker,
            node: number,
            table: place,
            exact,
            outcome: *outcome,
        };
        self.log.push(entry, scale);
        self.claims
            .end(worker, unit, number, Status::Committed(*action));
    }

    /// Gives the worker's claim of this unit back: its node is open again, and the claim stays counted. False exactly where the worker doesn't
    /// hold the unit.
    pub fn abandon(&mut self, worker: u8, unit: u32) -> bool
        ensures { IsAbandonAnswer self.old worker unit self.new result }
    {
        let Some(node) = self.held_by(worker, unit) else {
            return false;
        };
        self.give_back(worker, unit, node);
        true
    }

    // Gives a claim back.
    fn give_back(&mut self, worker: u8, unit: u32, node: u32)
        requires { IsHolding (state_of self.old) worker unit node }
        ensures { self.new ≡ given_back self.old unit }
    {
        laws::tree_runs_hold();
        self.claims.end(worker, unit, node, Status::GivenBack);
    }

    /// Whether no node is open or held.
    pub fn settled(&self) -> bool
        ensures { IsTrue result ↔ IsSettled (state_of self.now) }
    {
        match self.first_open() {
            Some(_) => false,
            None => match self.first_held() {
                Some(_) => false,
                None => true,
            },
        }
    }

    /// The least stored bound over the leaves that aren't excluded, in micro-dollars; none exactly where each of them is.
    pub fn bound(&self) -> Option<i128>
        ensures { result ≡ tree_bound self.now.tree }
    {
        self.tree.bound()
    }

    /// The first cell that is undecided at the node: its thermal unit and its period, each from 0; none exactly where each is decided.
    pub fn free_cell(&self, node: u32) -> Option<(u32, u32)>
        requires { node < node_count self.now.tree.nodes }
        ensures { MatchOption result (¬ HasFreeCell self.now.tree node) (λ cell. IsFreeAt self.now.tree node cell.0 cell.1) }
    {
        self.tree.free_cell(node)
    }

    /// The first node that is open; none exactly where no node is.
    pub fn first_open(&self) -> Option<u32>
        ensures some { IfSome result (λ node. IsOpen (state_of self.now) node) }
        ensures none { result ≡ None → (node : ℕ) → ¬ IsOpen (state_of self.now) node }
    {
        self.tree.keeps_cover();
        for node in 0..self.count {
            if self.is_open(node) {
                return Some(node);
            }
        }
        None
    }

    /// The worker that holds the unit, its node and the number of this node's entries; none exactly where no worker holds it.
    pub fn held(&self, unit: u32) -> Option<(u8, u32, u32)>
        ensures some { IfSome result (λ found. IsHeldUnit self.now unit found.0 found.1 found.2) }
        ensures none { result ≡ None → (worker node : ℕ) → ¬ IsHolding (state_of self.now) worker unit node }
    {
        let (worker, node) = self.claims.holder(unit)?;
        Some((worker, node, self.log.count(node)))
    }

    /// The first unit that is held, with its worker, its node and the number of this node's entries; none exactly where no node is held.
    pub fn first_held(&self) -> Option<(u32, u8, u32, u32)>
        ensures some { IfSome result (λ found. IsHeldUnit self.now found.0 found.1 found.2 found.3) }
        ensures none { result ≡ None → (node : ℕ) → ¬ IsHeld (state_of self.now) node }
    {
        for place in 0..self.claims.len() {
            if let Some((worker, node)) = self.claims.holder(place + 1) {
                return Some((place + 1, worker, node, self.log.count(node)));
            }
        }
        None
    }

    /// The tree, the tables and the log.
    pub fn finish(self) -> (Tree, List<Table>, List<Entry>)
        ensures tree { result.0 ≡ self.tree }
        ensures tables { result.1 ≡ self.tables }
        ensures log { result.2 ≡ self.log }
    {
        let Book {
            budget: _,
            gap: _,
            count: _,
            tree,
            tables,
            log,
            claims: _,
            of: _,
        } = self;
        (tree, List::from_vec(tables), log.into_entries())
    }

    // Whether the node is an open leaf that nobody holds.
    fn is_open(&self, node: u32) -> bool
        ensures { IsTrue result ↔ IsOpen (state_of self.now) node }
    {
        self.tree.keeps_cover();
        if node >= self.count {
            return false;
        }
        if !legal::is_live(&self.tree.node(node)) {
            return false;
        }
        !self.claims.is_held(node)
    }

    // The node that the worker holds by the claim of this unit.
    fn held_by(&self, worker: u8, unit: u32) -> Option<u32>
        ensures held { IfSome result (λ node. IsHolding (state_of self.now) worker unit node) }
        ensures within { IfSome result (λ node. node < node_count self.now.tree.nodes) }
        ensures none { result ≡ None → (node : ℕ) → ¬ IsHolding (state_of self.now) worker unit node }
    {
        laws::tree_runs_hold();
        self.claims.node_of(worker, unit)
    }

    // What an evaluation at the table leaves at the node, where the claim ends in `Again`.
    fn kept(&self, number: u32, table: &Table, exact: bool, outcome: &Outcome) -> Stored
        requires { number < node_count self.now.tree.nodes }
        ensures { result ≡ kept (state_of self.now) number table.now exact outcome.now }
    {
        let stored = stored::stored_at(&self.tree, number);
        kept_after(
            &stored,
            self.tables.len() as u32,
            &table.k(),
            exact,
            outcome,
        )
    }

    // Whether a claim of the node may be committed so.
    fn may_commit(
        &self,
        number: u32,
        node: &Node,
        table: &Table,
        exact: bool,
        outcome: &Outcome,
        action: &Move,
    ) -> bool
        requires { number < node_count self.now.tree.nodes }
        ensures { IsTrue result ↔ MayBe self.now number node.now table.now exact outcome.now action.now }
    {
        self.tree.is_at(number, node)
            && self.fresh(number, table, exact)
            && self.is_table_lawful(number, table)
            && self.is_move_legal(number, table, exact, outcome, action)
    }

    // Whether the table may be that of the node's next entry, if it is fresh.
    fn is_table_lawful(&self, number: u32, table: &Table) -> bool
        requires { number < node_count self.now.tree.nodes }
        ensures { IsTrue result
            ↔ (entries_of self.now.log number ≡ [] → number ≢ 0 → HasFreeCell self.now.tree number → IsStoredTable (state_of self.now) number table.now) }
    {
        if self.log.count(number) > 0 || number == 0 {
            return true;
        }
        let stored = stored::stored_at(&self.tree, number);
        tables::is_table(self.tables.as_slice(), stored.table, table)
            || !self.tree.has_free_cell(number)
    }

    // Whether a commit may leave the node open: with one entry more it has fewer than a hundred, or no cell is undecided there.
    fn may_go_on(&self, number: u32) -> bool
        requires { number < node_count self.now.tree.nodes }
        ensures { IsTrue result ↔ MayGoOn (state_of self.now) number }
    {
        (self.log.count(number) as usize) + 1 < NODE_ENTRIES || !self.tree.has_free_cell(number)
    }

    // Whether the bound that the node would store is within the gap of the cost, in micro-dollars.
    fn may_prune(&self, stored: &Stored, seen: i64) -> bool
        ensures { IsTrue result ↔ MayPrune (λ cost. Unit {0}) self.now.gap stored.now seen }
    {
        is_within_gap(&seen, &Some(stored.value), self.gap)
    }

    // Whether the move's condition holds.
    fn is_move_legal(
        &self,
        number: u32,
        table: &Table,
        exact: bool,
        outcome: &Outcome,
        action: &Move,
    ) -> bool
        requires { number < node_count self.now.tree.nodes }
        ensures { IsTrue result
            ↔ IsMoveLegal (λ cost. Unit {0}) (state_of self.now) number table.now exact outcome.now action.now }
    {
        match action {
            Move::Again => legal::is_value(outcome) && self.may_go_on(number),
            Move::Split { g, t } => legal::is_value(outcome) && self.tree.is_free(number, *g, *t),
            Move::Prune { seen } => {
                legal::is_value(outcome)
                    && self.may_prune(&self.kept(number, table, exact, outcome), *seen)
            }
            Move::Ray => legal::is_excluding(table, outcome),
            Move::Empty => legal::is_empty(outcome),
        }
    }
}
