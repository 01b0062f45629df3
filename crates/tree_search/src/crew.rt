//! The workers: each claims nodes, evaluates them, and repairs the ascents that it made, until the search is over.

ghost use Rattle.std.specs.Prelude.{◌≡◌, ◌≤◌};
ghost use Rattle.uc_model.specs.declared.tolerance.TheConstants.{WHOLE_GAP};
ghost use Rattle.search_desk.specs.Dispatches.{IsExhaustiveFor};
ghost use Rattle.decided_nodes.specs.Pivoting.{uses_exact_dispatch};

use branch_tree::is_within_gap;
use claims::Ticket;
use closing_pass::Host;
use crossbeam_utils::Backoff;
use incumbent::Best;
use node_visits::{Aim, RepairEffort, Visited, Worker, beside, enough, evaluated, moves};
use outside::Gate;
use prices::Ascent;
use search_desk::{CommitAnswer, Desk, Evaluated, HeldNode, OwnBest, SearchCase, Taken, Tickets};
use search_machine::Move;
use std::alloc::Global;
use std::sync::{Condvar, Mutex, Wait};
use uc_model::NoMemory;

/// A worker without a node tries so often to steal one before it waits.
const STEAL_ROUNDS: u32 = 8;

/// What all workers share: the desk under its lock, and where they wait for news of it; the incumbent; and how they search.
#[derive(Drop)]
pub(crate) struct Shared<C: SearchCase> {
    pub desk: Mutex<Desk<C>>,
    pub news: Condvar,
    pub best: Best,
    pub aim: Aim,
    ghost object: { best.object ≡ C.incumbent },
    ghost whole: { aim.gap ≤ WHOLE_GAP },
    ghost kind: { aim.exact ≡ C.exact },
    ghost dispatch: { uses_exact_dispatch aim.pivoting ≡ C.exact_dispatch },
    ghost exhaustive: { IsExhaustiveFor C.exact_dispatch C.opening aim.pivoting },
}

impl<C: SearchCase> Shared<C> {
    /// What workers share that search by this desk.
    pub(crate) fn new(desk: Desk<C>, best: Best, aim: Aim) -> Shared<C>
        requires object { best.object ≡ C.incumbent }
        requires whole { aim.gap ≤ WHOLE_GAP }
        requires kind { aim.exact ≡ C.exact }
        requires dispatch { uses_exact_dispatch aim.pivoting ≡ C.exact_dispatch }
        requires exhaustive { IsExhaustiveFor C.exact_dispatch C.opening aim.pivoting }
        ensures { result.best ≡ best }
    {
        Shared {
            desk: Mutex::new(desk),
            news: Condvar::new(),
            best,
            aim,
        }
    }
}

/// A worker with what it has found and its tickets; an ascent to be repaired before it takes a node; and how many workers waited for one when it
/// looked last.
#[derive(Drop)]
pub(crate) struct Member<'a, C: SearchCase> {
    worker: Worker<'a>,
    own: OwnBest<C>,
    tickets: Tickets,
    late: Option<Late>,
    me: u8,
    waiting: u32,
    ghost of: { worker ≡ C.opening.instance },
    ghost parts: { own.parts ≡ 2 },
}

/// An ascent that is still to be repaired, with what the commit of its claim left.
#[derive(Drop)]
struct Late {
    ascent: Ascent,
    left: CommitAnswer,
    unit: u32,
}

impl<'a, C: SearchCase> Member<'a, C> {
    /// A worker without a ticket.
    pub(crate) fn new(
        worker: Worker<'a>,
        own: OwnBest<C>,
        tickets: Tickets,
        me: u8,
    ) -> Member<'a, C>
        requires of { worker ≡ C.opening.instance }
        requires parts { own.parts ≡ 2 }
    {
        Member {
            worker,
            own,
            tickets,
            late: None,
            me,
            waiting: 0,
        }
    }

    /// What it has found.
    pub(crate) fn into_best(self) -> OwnBest<C>
        ensures { result.parts ≡ 2 }
    {
        let Member {
            worker,
            own,
            tickets,
            late,
            ..
        } = self;
        drop(worker);
        drop(tickets);
        drop(late);
        own
    }

    // Puts the ascent off, in place of the one before.
    fn put_off(&mut self, late: Option<Late>) {
        drop(std::mem::replace(&mut self.late, late));
    }

    // Takes the tickets that the commit of a claim left. Whether there is news for the workers that wait.
    fn take_tickets(&mut self, claim: &HeldNode, left: &CommitAnswer) -> Result<bool, NoMemory> {
        let bound = left.stored;
        self.waiting = left.waiting;
        match (left.action, left.children) {
            (Some(Move::Split { .. }), Some((off, on))) => {
                self.tickets.keep(Ticket { node: on, bound })?;
                self.tickets.put_out(Ticket { node: off, bound })?;
                self.tickets.share(left.waiting.saturating_sub(1))?;
                Ok(left.waiting > 0)
            }
            (Some(Move::Again), _) => {
                let node = claim.node;
                if node != 0 && claim.had == 0 {
                    self.tickets.keep_next(Ticket { node, bound })?;
                } else {
                    self.tickets.keep(Ticket { node, bound })?;
                }
                self.tickets.share(left.waiting)
            }
            _ => self.tickets.share(left.waiting),
        }
    }

    // Repairs the ascent that is still to be repaired.
    fn repair_late(&mut self, alloc: Global, shared: &Shared<C>) -> Result<(), NoMemory> {
        let late = self.late.take();
        let repaired = match &late {
            Some(late) => self.improve(alloc, shared, late),
            None => Ok(()),
        };
        drop(late);
        repaired
    }

    // Looks for a cheaper schedule near the ascent, unless the search is closed.
    fn improve(&mut self, alloc: Global, shared: &Shared<C>, late: &Late) -> Result<(), NoMemory> {
        let gap = shared.aim.gap;
        let Some(bound) = late.left.bound else {
            return Ok(());
        };
        if late.ascent.shares.is_empty() || is_closed_by(late.left.seen, bound, gap) {
            return Ok(());
        }
        let effort = RepairEffort {
            moves: moves(self.worker.instance(), late.unit),
            enough: enough(bound, gap),
        };
        let found = self.worker.repair(alloc, &late.ascent, effort)?;
        self.own.offer(&shared.best, found);
        Ok(())
    }
}

// Whether the cost is within the gap of the bound.
fn is_closed_by(cost: Option<i64>, bound: i128, gap: u32) -> bool
    requires { gap ≤ WHOLE_GAP }
{
    match cost {
        Some(cost) => is_within_gap(&cost, &Some(bound), gap),
        None => false,
    }
}

// Whether the ascent was made, and repaired, already.
fn is_repaired(next: &Option<Ascent>) -> bool {
    match next {
        Some(ascent) => ascent.ray.is_none(),
        None => false,
    }
}

// The node to claim next: one of the worker's own, or one that it steals.
fn next_node<C: SearchCase>(member: &mut Member<C>) -> Result<Option<u32>, NoMemory> {
    if let Some(node) = member.tickets.take(member.waiting)? {
        return Ok(Some(node));
    }
    let backoff = Backoff::new();
    for _ in 0..STEAL_ROUNDS {
        if let Some(node) = member.tickets.steal() {
            return Ok(Some(node));
        }
        backoff.snooze();
    }
    Ok(None)
}

// The ascent, with what its commit left.
fn put_by(ascent: Option<Ascent>, left: CommitAnswer, unit: u32) -> Option<Late> {
    match ascent {
        Some(ascent) => Some(Late { ascent, left, unit }),
        None => None,
    }
}

impl<C: SearchCase> Shared<C> {
    ghost use Rattle.search_desk.specs.Best.{cost_of};
    ghost use Rattle.search_desk.specs.Desks.{IsClaimOf, IsTakenOf};
    ghost use Rattle.search_desk.specs.Dispatches.{IsFirstByDispatch};
    ghost use Rattle.node_visits.specs.Trials.{IsEvaluatedFor, IsNextAt};

    /// Makes the first claim of the root, by the ascent that was made already, if there was one; it is repaired later, unless it was repaired
    /// already. For several workers all nodes that are open then lie in the worker's queue. The only error is `NoMemory`.
    pub(crate) fn open_root<R: Wait, G: Gate>(
        &self,
        host: &Host<R, G>,
        member: &mut Member<C>,
        next: &mut Option<Ascent>,
    ) -> Result<(), NoMemory>
        requires { IsNextAt C.opening.instance 1 next.old }
    {
        let repaired = is_repaired(next);
        if let Taken::Mine(claim) = self.taken(host, member.me, 0) {
            let done = self.held(host, member, &claim, next);
            drop(claim);
            if repaired {
                member.put_off(None);
            }
            done?;
        }
        if self.aim.shared {
            // The others begin later than this worker, which is to leave them what they may steal.
            member.waiting = 1;
            member.tickets.put_all_out()?;
        }
        Ok(())
    }

    // What the desk gives to a worker that asks for the node.
    fn taken<R: Wait, G: Gate>(&self, host: &Host<R, G>, me: u8, node: u32) -> Taken
        ensures { IsTakenOf C.opening result }
    {
        self.desk
            .lock(host.rt)
            .claim(host.alloc, &self.best, me, node)
    }

    /// Claims nodes until the search is over.
    pub(crate) fn work<R: Wait, G: Gate>(&self, host: &Host<R, G>, member: &mut Member<C>) {
        self.desk.lock(host.rt).begin();
        let refused = self.worked(host, member).is_err();
        self.desk.lock(host.rt).end(refused);
        self.news.notify_all();
    }

    // The same, where memory may be refused.
    fn worked<R: Wait, G: Gate>(
        &self,
        host: &Host<R, G>,
        member: &mut Member<C>,
    ) -> Result<(), NoMemory> {
        member.repair_late(host.alloc, self)?;
        for _ in host.rt.forever() {
            let is_over = match next_node(member)? {
                Some(node) => !self.turn(host, member, node)?,
                None => self.wait(host.rt),
            };
            if is_over {
                return Ok(());
            }
        }
        Ok(())
    }

    // Waits for news. Whether the search is over.
    fn wait<R: Wait>(&self, rt: &R) -> bool {
        let mut desk = self.desk.lock(rt);
        let news = desk.rest();
        if desk.is_quiet(news) {
            desk = self.news.wait_while(rt, desk, |desk| desk.is_quiet(news));
        } else {
            self.news.notify_all();
        }
        desk.rise()
    }

    // Claims the node, evaluates it, and repairs its ascent. False where the search is over.
    fn turn<R: Wait, G: Gate>(
        &self,
        host: &Host<R, G>,
        member: &mut Member<C>,
        node: u32,
    ) -> Result<bool, NoMemory> {
        match self.taken(host, member.me, node) {
            Taken::Over => Ok(false),
            Taken::Gone => Ok(true),
            Taken::Refused => Err(NoMemory),
            Taken::Mine(claim) => {
                let visited = self.visited(host, member, &claim);
                drop(claim);
                visited
            }
        }
    }

    // Evaluates the node that is held, commits it, and repairs its ascent. The search isn't over.
    fn visited<R: Wait, G: Gate>(
        &self,
        host: &Host<R, G>,
        member: &mut Member<C>,
        claim: &HeldNode,
    ) -> Result<bool, NoMemory>
        requires { IsClaimOf C.opening claim.now }
    {
        let mut none = None;
        let committed = self.held(host, member, claim, &mut none);
        drop(none);
        committed?;
        member.repair_late(host.alloc, self)?;
        Ok(true)
    }

    // Evaluates the node that is held, publishes the schedule that comes of it, commits it, and puts its ascent off, if one is to be repaired.
    fn held<R: Wait, G: Gate>(
        &self,
        host: &Host<R, G>,
        member: &mut Member<C>,
        claim: &HeldNode,
        next: &mut Option<Ascent>,
    ) -> Result<(), NoMemory>
        requires claim { IsClaimOf C.opening claim.now }
        requires next { IsNextAt C.opening.instance 1 next.old }
    {
        let unit = claim.unit;
        host.gate.enter(host.rt, member.me, unit);
        match evaluated(host.alloc, &mut member.worker, claim, self.aim, next) {
            Ok(
                Visited {
                    done,
                    ascent,
                    found,
                },
            ) => {
                member.own.offer(&self.best, found);
                let left = self.entered(host.rt, member, claim, done);
                let (ascent, left) = beside(ascent, left)?;
                member.put_off(put_by(ascent, left, unit));
                Ok(())
            }
            Err(NoMemory) => {
                self.desk.lock(host.rt).give_back(member.me, unit);
                Err(NoMemory)
            }
        }
    }

    // Commits the evaluation, by what the worker has published, and takes the tickets that it leaves before the lock is given back.
    fn entered<R: Wait>(
        &self,
        rt: &R,
        member: &mut Member<C>,
        claim: &HeldNode,
        done: Evaluated,
    ) -> Result<CommitAnswer, NoMemory>
        requires claim { IsClaimOf C.opening claim.now }
        requires done { IsEvaluatedFor C.exact C.opening.instance claim.now done }
        requires dispatch { IsFirstByDispatch C.exact_dispatch C.opening claim.now.path claim.now.had (cost_of member.old.own.schedule) done }
    {
        let mut desk = self.desk.lock(rt);
        desk.meet(&self.best, &mut member.own);
        let left = desk.commit(&self.best, member.me, claim, done);
        if member.take_tickets(claim, &left)? {
            desk.tell();
            self.news.notify_all();
        }
        Ok(left)
    }
}
