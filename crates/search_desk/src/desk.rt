//! The desk: what the workers share under the lock.

ghost use Rattle.std.specs.Prelude.{◌≡◌, ◌≤◌, ◌↔◌, IsTrue, false, None, IfOk};
ghost use Rattle.uc_model.specs.declared.tolerance.TheConstants.{WHOLE_GAP};
ghost use Rattle.search_machine.specs.Prelude.{IsTrueOutcome};
ghost use Rattle.opening.specs.Outcomes.{IsSized};
ghost use Rattle.search_desk.specs.Commits.{Stands, bound_after, move_of, open_move, told_move, value_move as value_move_of};
ghost use Rattle.search_desk.specs.Desks.{IsLaterWithin, IsPrunedBy};

use crate::own_best::OwnBest;
use crate::run::SearchCase;
use book::{Book, Claimed};
use branch_tree::{Outcome, is_within_gap};
use dual_model::{Node, Table};
use incumbent::{Best, Pass};
use search_machine::laws::tree_runs_hold;
use search_machine::{Move, Stored, kept_after};
use std::alloc::Global;
use std::marker::Model;
use uc_model::NoMemory;
use uc_model::tolerance::cost_less_tolerance_never_decreases;

/// A node that a worker holds by the claim of a unit: its number, how many entries the log had of it, the decisions on its path, the table
/// that it stores with its bound, and the least cost that was seen, both in micro-dollars.
#[derive(Drop)]
pub struct HeldNode {
    pub unit: u32,
    pub node: u32,
    pub had: u32,
    pub path: Node,
    pub table: Table,
    pub bound: i128,
    pub seen: Option<i64>,
}

/// What a worker that asks for a node gets.
#[derive(Drop)]
pub enum Taken {
    /// The search is over.
    Over,
    /// The node isn't open any more.
    Gone,
    /// Memory was refused.
    Refused,
    Mine(HeldNode),
}

/// An evaluation of the node that is held: its table, what came out, and the cell that the node is split on where it isn't closed; none where
/// it is left whole.
#[derive(Drop)]
pub struct Evaluated {
    pub table: Table,
    pub outcome: Outcome,
    pub cell: Option<(u32, u32)>,
}

/// What a commit left: the move, or none where it was refused; the off-child and the on-child of a split; the bound of the node, in
/// micro-dollars; the tree's bound and the least cost that was seen; and how many workers wait for a node.
#[derive(Clone, Copy)]
pub struct CommitAnswer {
    pub action: Option<Move>,
    pub children: Option<(u32, u32)>,
    pub stored: i128,
    pub bound: Option<i128>,
    pub seen: Option<i64>,
    pub waiting: u32,
}

// A unit by which a node is held, how many entries the log has of it, and the least cost that was seen.
#[derive(Clone, Copy)]
struct Held {
    unit: u32,
    node: u32,
    had: u32,
    seen: Option<i64>,
}

/// How many workers are at work and how many of them wait for a node; how often there was news for these; whether the search is over.
#[derive(Clone, Copy)]
struct Rota {
    running: u32,
    waiting: u32,
    news: u64,
    over: bool,
}

/// The book of the search, a pass by which the workers prune, whether claims evaluate VE, and how the workers stand.
#[derive(Drop)]
pub struct Desk<C: SearchCase> {
    book: Book<C>,
    pass: Pass,
    gap: u32,
    exact: bool,
    rota: Rota,
    failed: bool,
}

impl<C: SearchCase> Model for Desk<C> {
    ghost use Rattle.search_desk.specs.Desks.{DeskView};
    ghost use Rattle.search_desk.specs.DeskCode.{desk_code};

    ghost Value = { DeskView };

    ghost coded = { desk_code };

    ghost use Rattle.std.specs.Prelude.{◌≡◌};
    ghost use Rattle.search_desk.specs.Desks.{IsDesk};
    ghost use Rattle.search_desk.specs.Dispatches.{IsPivotedBook};

    ghost view = { λ desk. record { book = desk.book; seen = desk.pass.seen; failed = desk.failed } };

    ghost invariant = { λ desk. IsDesk C.exact C.opening C.incumbent desk.book desk.pass desk.failed × (desk.gap ≡ C.opening.gap)
        × (desk.exact ≡ C.exact) × IsPivotedBook C.exact_dispatch C.opening desk.book };
}

impl<C: SearchCase> Desk<C> {
    ghost use Rattle.std.specs.Prelude.{◌≡◌, ◌≤◌, ◌↔◌, IsTrue, false, None, All, IfOk};
    ghost use Rattle.book.specs.BookView.{opened};
    ghost use Rattle.book.specs.Prelude.{IsUnitHeld, IsClaimAnswer, IsTrueOpening};
    ghost use Rattle.incumbent.specs.Costs.{AtMost};
    ghost use Rattle.search_desk.specs.Best.{cost_of};
    ghost use Rattle.search_desk.specs.Commits.{IsDeskCommit, IsEntry, move_for};
    ghost use Rattle.search_desk.specs.Desks.{IsKeptBy, IsKeptClaim, IsPrunedBy, IsTakenOf};
    ghost use Rattle.search_desk.specs.Dispatches.{IsFirstByDispatch, IsPivotedBook};

    /// The desk of a search that begins with this book.
    pub fn new(book: Book<C>, pass: Pass, gap: u32, exact: bool) -> Desk<C>
        requires begun { IsTrueOpening C.opening }
        requires book { book ≡ opened C.opening }
        requires object { pass.object ≡ C.incumbent }
        requires mine { pass.mine ≡ None }
        requires parts { pass.parts ≡ 1 }
        requires gap { gap ≡ C.opening.gap }
        requires kind { exact ≡ C.exact }
        ensures { result ≡ record { book = book; seen = pass.seen; failed = false } }
    {
        Desk {
            book,
            pass,
            gap,
            exact,
            rota: Rota {
                running: 0,
                waiting: 0,
                news: 0,
                over: false,
            },
            failed: false,
        }
    }

    // The least cost so far.
    fn look(&mut self, best: &Best) -> Option<i64>
        requires { best.now.object ≡ C.incumbent }
        ensures seen { self.new.seen ≡ result }
        ensures lower { AtMost self.new.seen self.old.seen }
        ensures book { self.new.book ≡ self.old.book }
    {
        cost_less_tolerance_never_decreases();
        best.look(&mut self.pass)
    }

    /// The desk comes to know what the worker has published, and the worker what the desk has seen: a part of the worker's pass goes into the
    /// desk's, and one comes back.
    pub fn meet(&mut self, best: &Best, own: &mut OwnBest<C>)
        requires object { best.now.object ≡ C.incumbent }
        requires parts { own.old.parts ≡ 2 }
        ensures seen { AtMost self.new.seen (cost_of own.old.schedule) }
        ensures lower { AtMost self.new.seen self.old.seen }
        ensures book { self.new.book ≡ self.old.book }
        ensures schedule { own.new.schedule ≡ own.old.schedule }
        ensures parts { own.new.parts ≡ 2 }
    {
        cost_less_tolerance_never_decreases();
        let lent = own.split(best, 1);
        best.join(&mut self.pass, lent);
        let back = best.split(&mut self.pass, 1);
        own.join_pass(best, back);
    }

    /// Claims the node for the worker, unless the search is over: the least cost is within the gap of the tree's bound, no leaf has a
    /// bound, or the budget is spent.
    pub fn claim(&mut self, alloc: Global, best: &Best, me: u8, node: u32) -> Taken
        requires { best.now.object ≡ C.incumbent }
        ensures { IsTakenOf C.opening result }
    {
        let seen = self.look(best);
        if self.rota.over || self.is_finished(seen) {
            self.rota.over = true;
            return Taken::Over;
        }
        match self.take(me, node) {
            Claimed::Spent => {
                self.rota.over = true;
                Taken::Over
            }
            Claimed::NotOpen => Taken::Gone,
            Claimed::Mine { unit, had } => self.held(
                alloc,
                me,
                Held {
                    node,
                    unit,
                    had,
                    seen,
                },
            ),
        }
    }

    // Whether the cost is within the gap of the tree's bound, or no leaf has one.
    fn is_finished(&self, seen: Option<i64>) -> bool {
        match (self.book.bound(), seen) {
            (None, _) => true,
            (Some(bound), Some(cost)) => is_within_gap(&cost, &Some(bound), self.gap),
            (Some(_), None) => false,
        }
    }

    // Claims the node.
    fn take(&mut self, me: u8, node: u32) -> Claimed
        ensures { IsClaimAnswer self.old.book me node self.new.book result }
    {
        self.book.claim(me, node)
    }

    // What the worker holds by the unit. Where memory is refused the claim is given back.
    fn held(&mut self, alloc: Global, me: u8, held: Held) -> Taken
        requires { IsUnitHeld self.old.book held.unit }
        ensures { IsTakenOf C.opening result }
    {
        self.book.keeps_run();
        match self.book.holding(alloc, held.unit) {
            Ok((path, table, bound)) => Taken::Mine(HeldNode {
                unit: held.unit,
                node: held.node,
                had: held.had,
                path,
                table,
                bound,
                seen: held.seen,
            }),
            Err(NoMemory) => {
                self.give_back(me, held.unit);
                Taken::Refused
            }
        }
    }

    /// Gives the worker's claim of this unit back, since memory was refused, which ends the search.
    pub fn give_back(&mut self, me: u8, unit: u32) {
        self.rota.over = true;
        self.failed = true;
        self.book.abandon(me, unit);
    }

    /// Commits the evaluation of the node that the worker holds by the claim: it is closed where this may be, and else split on its cell or left open.
    /// A claim whose commit is refused stays held: the claim has to stand as it was told, and the table to be fresh at its node.
    pub fn commit(&mut self, best: &Best, me: u8, claim: &HeldNode, done: Evaluated) -> CommitAnswer
        requires object { best.now.object ≡ C.incumbent }
        requires outcome { IsTrueOutcome C.exact C.opening.instance claim.now.path done.table done.outcome }
        requires sized { IsSized done.outcome }
        requires scaled { IsLaterWithin C.opening.budget claim.now.had done.table }
        requires dispatch { IsFirstByDispatch C.exact_dispatch C.opening claim.now.path claim.now.had self.old.seen done }
        ensures { IsDeskCommit C.exact C.opening.gap me claim.now done self.old self.new result }
    {
        let seen = self.look(best);
        let stored = stored_bound(&claim.bound, &done);
        let action = ending(seen, stored, self.gap, &done);
        let entered = self.enter(me, claim, done, action);
        CommitAnswer {
            action: told(entered, action),
            children: self.book.children(claim.node),
            stored,
            bound: self.book.bound(),
            seen,
            waiting: self.rota.waiting,
        }
    }

    // Commits the evaluation by this move, if the book takes it.
    fn enter(&mut self, me: u8, claim: &HeldNode, done: Evaluated, action: Move) -> bool
        requires outcome { IsTrueOutcome C.exact C.opening.instance claim.now.path done.table done.outcome }
        requires sized { IsSized done.outcome }
        requires scaled { IsLaterWithin C.opening.budget claim.now.had done.table }
        requires pruned { IsPrunedBy self.old.seen action }
        requires action { action ≡ move_for self.old.seen C.opening.gap claim.now.bound done }
        requires dispatch { IsFirstByDispatch C.exact_dispatch C.opening claim.now.path claim.now.had self.old.seen done }
        ensures book { IsEntry C.exact me claim.now done action self.old.book self.new.book result }
        ensures seen { self.new.seen ≡ self.old.seen }
    {
        tree_runs_hold();
        cost_less_tolerance_never_decreases();
        self.book.keeps_run();
        if !self.stands(me, claim) {
            return false;
        }
        self.book.commit(
            me,
            claim.unit,
            &claim.path,
            done.table,
            self.exact,
            done.outcome,
            action,
        )
    }

    // Whether the worker holds the claim's node by it, and the log has as many entries of it as it had.
    fn stands(&self, me: u8, claim: &HeldNode) -> bool
        ensures { IsTrue result ↔ Stands self.now.book me claim.now }
    {
        match self.book.held(claim.unit) {
            Some((worker, node, had)) => worker == me && node == claim.node && had == claim.had,
            None => false,
        }
    }

    /// A worker begins.
    pub fn begin(&mut self) {
        self.rota.running = self.rota.running.saturating_add(1);
    }

    /// A worker ends; and so do the others, if memory was refused.
    pub fn end(&mut self, refused: bool) {
        self.rota.running = self.rota.running.saturating_sub(1);
        self.rota.over = true;
        self.failed = self.failed || refused;
    }

    /// There is news for the workers that wait: a node, or that the search is over.
    pub fn tell(&mut self) {
        self.rota.news = self.rota.news.wrapping_add(1);
    }

    /// Whether there was no news since, and the search isn't over.
    pub fn is_quiet(&self, news: u64) -> bool {
        self.rota.news == news && !self.rota.over
    }

    /// A worker begins to wait for a node, and is told how often there was news. Where all workers do the search is over: no node is in any
    /// hand or queue.
    pub fn rest(&mut self) -> u64 {
        self.rota.waiting = self.rota.waiting.saturating_add(1);
        if self.rota.waiting >= self.rota.running {
            self.rota.over = true;
        }
        self.rota.news
    }

    /// A worker waits no more. Whether the search is over.
    pub fn rise(&mut self) -> bool {
        self.rota.waiting = self.rota.waiting.saturating_sub(1);
        self.rota.over
    }

    /// The book and the pass, if memory was never refused.
    pub fn close(self) -> Result<(Book<C>, Pass), NoMemory>
        ensures book { IfOk result (λ both. both.0 ≡ self.book) }
        ensures seen { IfOk result (λ both. both.1.seen ≡ self.seen) }
        ensures object { IfOk result (λ both. both.1.object ≡ C.incumbent) }
        ensures mine { IfOk result (λ both. both.1.mine ≡ None) }
        ensures parts { IfOk result (λ both. both.1.parts ≡ 1) }
        ensures kept { IfOk result (λ both. IsKeptBy C.exact C.opening both.0 both.1.seen C.opening.budget) }
        ensures complete { IfOk result (λ both. All IsKeptClaim both.0.claims) }
        ensures pivoted { IfOk result (λ both. IsPivotedBook C.exact_dispatch C.opening both.0) }
    {
        let Desk {
            book,
            pass,
            failed,
            ..
        } = self;
        if failed {
            return Err(NoMemory);
        }
        Ok((book, pass))
    }
}

/// The bound that the node stores after the evaluation, where it stored this one before, in micro-dollars.
pub fn stored_bound(former: &i128, done: &Evaluated) -> i128
    ensures { result ≡ bound_after former.now done.now.table.k done.now.outcome }
{
    let stored = Stored {
        table: 0,
        value: *former,
        exact: false,
    };
    kept_after(&stored, 0, &done.table.k(), false, &done.outcome).value
}

/// The move that ends the claim: a unit has no pattern at the node, the table is a ray that excludes it, or its bound is within the gap of
/// the cost that was seen; else the node is split or left open.
pub fn ending(seen: Option<i64>, stored: i128, gap: u32, done: &Evaluated) -> Move
    requires { gap ≤ WHOLE_GAP }
    ensures is { result ≡ move_of seen stored gap done.now.table.k done.now.cell done.now.outcome }
    ensures pruned { IsPrunedBy seen result }
{
    match done.outcome {
        Outcome::Empty(_) => Move::Empty,
        Outcome::Value(value) if done.table.k() == 0 && value > 0 => Move::Ray,
        Outcome::Value(_) => value_move(seen, stored, gap, done.cell),
    }
}

// The move after a value: the node is pruned where its bound is within the gap of the cost that was seen; else it is split on the cell, or left
// open.
fn value_move(seen: Option<i64>, stored: i128, gap: u32, cell: Option<(u32, u32)>) -> Move
    requires { gap ≤ WHOLE_GAP }
    ensures is { result ≡ value_move_of seen stored gap cell }
    ensures pruned { IsPrunedBy seen result }
{
    match seen {
        Some(cost) if is_within_gap(&cost, &Some(stored), gap) => Move::Prune { seen: cost },
        _ => open_move(cell),
    }
}

// The move, where the evaluation was entered.
fn told(entered: bool, action: Move) -> Option<Move>
    ensures { result ≡ told_move entered action }
{
    if entered { Some(action) } else { None }
}

// The move that leaves the node open, or splits it on the cell.
fn open_move(cell: Option<(u32, u32)>) -> Move
    ensures is { result ≡ open_move cell }
    ensures pruned { (seen : _) → IsPrunedBy seen result }
{
    match cell {
        Some((g, t)) => Move::Split { g, t },
        None => Move::Again,
    }
}
