//! The evaluation of a node that is held: at which table, and what came out.

ghost use Rattle.std.specs.Prelude.{◌≡◌, ◌≤◌, pos, IfOk, IfSome, MatchOption};
ghost use Rattle.uc_model.specs.Prelude.{IsLawfulInstance};
ghost use Rattle.uc_model.specs.declared.tolerance.TheConstants.{WHOLE_GAP};
ghost use Rattle.dual_model.specs.Prelude.{IsLawfulTable};
ghost use Rattle.decided_nodes.specs.Pivoting.{uses_exact_dispatch};
ghost use Rattle.decided_nodes.specs.declared.pivoting.Pivoting.TheVariants.{Exhaustive};
ghost use Rattle.found_schedule.specs.Found.{IsFoundIfAny};
ghost use Rattle.search_desk.specs.Desks.{IsHeldClaim};
ghost use Rattle.node_visits.specs.Trials.{IsAscentFor, IsEvaluatedFor, IsNextAt, IsTableFor, IsVisitedBy};
ghost use Rattle.node_visits.specs.inside.Trying.{IsExactTrial, IsRay, IsTrialFor, IsUndispatchedFor};

use crate::effort::goal;
use crate::pair::beside;
use crate::start::{first_ascent, root_ascent};
use crate::worker::Worker;
use claims::{Branching, Hints, split_cell};
use decided_nodes::{Decided, Pivoting, exact_dispatch};
use dual_model::{Node, Table};
use opening::{is_positive, node_ray};
use prices::{Ascent, CutPool, TriedNode, Values, next_ascent, with_cell, with_ray};
use schedule_repair::is_small;
use search_desk::{Evaluated, HeldNode};
use std::alloc::Global;
use uc_model::{Instance, NoMemory, Printed};

/// In so many claims a cell to split on is sought, each time by thousands of evaluations.
const SEEKING_CLAIMS: u32 = 100;

/// A node is split once its inherited table was evaluated, and an ascent was made from it.
const NODES: Branching = Branching { ripe: 1, late: 3 };

/// One worker splits the root with its third entry, or on any cell with its fourth.
const ROOT: Branching = Branching { ripe: 2, late: 3 };

/// Several workers split the root at once, and a search that can claim each node splits every node so, unless it decides each cell.
const AT_ONCE: Branching = Branching { ripe: 0, late: 0 };

/// What a claim is evaluated at: the table that its node inherited, a ray, or the table of an ascent or of an exact dispatch; with the ascent that
/// led to it, or the schedule of the dispatch with its cost, in micro-dollars, if there was one.
#[derive(Drop)]
pub(crate) struct Trial {
    pub table: Table,
    pub ascent: Option<Ascent>,
    pub found: Option<(Printed, i64)>,
}

/// How a node is searched: the gap that closes the search, in parts per million, whether several workers do it, whether claims evaluate VE, and how
/// they use the exact dispatch.
#[derive(Clone, Copy)]
pub struct Aim {
    pub gap: u32,
    pub shared: bool,
    pub exact: bool,
    pub pivoting: Pivoting,
}

/// An evaluation of a node, with the ascent that a repair is to begin with, and the schedule of an exact dispatch with its cost, in micro-dollars,
/// if there is one.
#[derive(Drop)]
pub struct Visited {
    pub done: Evaluated,
    pub ascent: Option<Ascent>,
    pub found: Option<(Printed, i64)>,
}

impl Trial {
    // A table that no ascent led to.
    fn of(table: Table) -> Trial
        ensures table { result.table ≡ table }
        ensures found { result.found ≡ None }
    {
        Trial {
            table,
            ascent: None,
            found: None,
        }
    }

    // What an ascent tells of where to split; nothing at a ray.
    fn hints(&self) -> Hints<'_> {
        match &self.ascent {
            Some(ascent) if self.table.k() > 0 => Hints {
                shares: &ascent.shares,
                cell: ascent.cell,
            },
            _ => Hints {
                shares: &[],
                cell: None,
            },
        }
    }
}

/// Evaluates the node that is held by the claim; the ascent of the first claim may have been made already. The only error is `NoMemory`.
pub fn evaluated(
    alloc: Global,
    worker: &mut Worker,
    claim: &HeldNode,
    aim: Aim,
    next: &mut Option<Ascent>,
) -> Result<Visited, NoMemory>
    requires claim { IsHeldClaim worker.old claim.now }
    requires gap { aim.gap ≤ WHOLE_GAP }
    requires next { IsNextAt worker.old 1 next.old }
    ensures kept { worker.new ≡ worker.old }
    ensures evaluated { IfOk result (λ visited. IsEvaluatedFor aim.exact worker.old claim.now visited.done) }
    ensures found { IfOk result (λ visited. IsFoundIfAny (uses_exact_dispatch aim.pivoting) worker.old visited.found) }
    ensures visited { IfOk result (IsVisitedBy aim.pivoting worker.old claim.now) }
{
    let goal = goal(claim.seen, aim.gap);
    let trial = chosen(alloc, worker, claim, Search { aim, goal }, next)?;
    let outcome = worker
        .evaluator
        .outcome(alloc, &claim.path, &trial.table, aim.exact);
    let (trial, outcome) = beside(trial, outcome)?;
    let instance = worker.instance();
    let cell = split_cell(
        instance,
        &claim.path,
        claim.had,
        branching(claim, aim),
        trial.hints(),
    );
    let Trial {
        table,
        ascent,
        found,
    } = trial;
    Ok(Visited {
        done: Evaluated {
            table,
            outcome,
            cell,
        },
        ascent: repairable(claim, goal, ascent, is_small(instance)),
        found,
    })
}

/// How a node is searched, and at which bound it is pruned.
#[derive(Clone, Copy)]
struct Search {
    aim: Aim,
    goal: i128,
}

// After how many entries the node is split.
fn branching(claim: &HeldNode, aim: Aim) -> Branching
    ensures { aim.pivoting ≡ Exhaustive → (result.ripe ≡ 0) × (result.late ≡ 0) }
{
    match (aim.pivoting, claim.node, aim.shared) {
        (Pivoting::Exhaustive, _, _) => AT_ONCE,
        (_, 0, true) => AT_ONCE,
        (_, 0, false) => ROOT,
        _ => NODES,
    }
}

// What to evaluate the node at: the table of an exact dispatch, where there is one, or else one that isn't.
fn chosen(
    alloc: Global,
    worker: &mut Worker,
    claim: &HeldNode,
    search: Search,
    next: &mut Option<Ascent>,
) -> Result<Trial, NoMemory>
    requires claim { IsHeldClaim worker.old claim.now }
    requires next { IsNextAt worker.old 1 next.old }
    ensures kept { worker.new ≡ worker.old }
    ensures trial { IfOk result (IsExactTrial (uses_exact_dispatch search.aim.pivoting) worker.old claim.now) }
{
    match dispatched(alloc, worker.instance(), claim, search.aim.pivoting)? {
        Some(trial) => Ok(trial),
        None => priced(alloc, worker, claim, search, next),
    }
}

// The exact dispatch at the first claim of a node at which each cell is decided, where the search uses it.
fn dispatched(
    alloc: Global,
    instance: &Instance,
    claim: &HeldNode,
    pivoting: Pivoting,
) -> Result<Option<Trial>, NoMemory>
    requires { IsHeldClaim instance.now claim.now }
    ensures { IfOk result (λ trial. MatchOption trial (IsUndispatchedFor (uses_exact_dispatch pivoting) instance.now claim.now)
        (IsExactTrial (uses_exact_dispatch pivoting) instance.now claim.now)) }
{
    if claim.had > 0 || !pivoting.is_on() {
        return Ok(None);
    }
    match exact_dispatch(alloc, instance, &claim.path)? {
        Some(Decided { table, schedule }) => Ok(Some(Trial {
            table,
            ascent: None,
            found: schedule,
        })),
        None => Ok(None),
    }
}

// What to evaluate the node at without an exact dispatch: the table that it inherited, where it wasn't evaluated yet; a ray that excludes it, where
// no schedule is known; or else the table of an ascent.
fn priced(
    alloc: Global,
    worker: &mut Worker,
    claim: &HeldNode,
    search: Search,
    next: &mut Option<Ascent>,
) -> Result<Trial, NoMemory>
    requires claim { IsHeldClaim worker.old claim.now }
    requires next { IsNextAt worker.old 1 next.old }
    ensures kept { worker.new ≡ worker.old }
    ensures trial { IfOk result (IsTrialFor (uses_exact_dispatch search.aim.pivoting) worker.old claim.now) }
{
    if claim.node != 0 && claim.had == 0 {
        return Ok(Trial::of(claim.table.copy(alloc)?));
    }
    let exact = search.aim.exact;
    match opening_ray(alloc, worker, claim, exact)? {
        Some(ray) => Ok(Trial::of(ray)),
        None => ascended(alloc, worker, claim, search, next),
    }
}

// The ascent from what the node stores, with its ray where this excludes the node.
fn ascended(
    alloc: Global,
    worker: &mut Worker,
    claim: &HeldNode,
    search: Search,
    next: &mut Option<Ascent>,
) -> Result<Trial, NoMemory>
    requires claim { IsHeldClaim worker.old claim.now }
    requires next { IsNextAt worker.old 1 next.old }
    ensures kept { worker.new ≡ worker.old }
    ensures trial { IfOk result (IsTrialFor (uses_exact_dispatch search.aim.pivoting) worker.old claim.now) }
{
    let values = worker.values();
    let ascent = ascent(alloc, values, &mut worker.pool, claim, search, next)?;
    let table = ascended_table(alloc, worker, claim, &ascent, search.aim.exact);
    let (ascent, table) = beside(ascent, table)?;
    Ok(Trial {
        table,
        ascent: Some(ascent),
        found: None,
    })
}

// The ray of the ascent, where this excludes the node, or else its table.
fn ascended_table(
    alloc: Global,
    worker: &mut Worker,
    claim: &HeldNode,
    ascent: &Ascent,
    exact: bool,
) -> Result<Table, NoMemory>
    requires claim { IsHeldClaim worker.old claim.now }
    requires ascent { IsAscentFor worker.old claim.now.unit ascent.now }
    ensures kept { worker.new ≡ worker.old }
    ensures table { IfOk result (IsTableFor worker.old claim.now) }
{
    match own_ray(alloc, worker, claim, ascent, exact)? {
        Some(ray) => Ok(ray),
        None => ascent.table.copy(alloc),
    }
}

// A ray of the opening that excludes the node, where no schedule is known; but none for the root, at which the opening has tried them.
fn opening_ray(
    alloc: Global,
    worker: &mut Worker,
    claim: &HeldNode,
    exact: bool,
) -> Result<Option<Table>, NoMemory>
    requires { IsHeldClaim worker.old claim.now }
    ensures kept { worker.new ≡ worker.old }
    ensures ray { IfOk result (λ ray. IfSome ray (IsRay worker.old)) }
{
    if claim.seen.is_some() || claim.node == 0 {
        return Ok(None);
    }
    node_ray(alloc, &mut worker.evaluator, &claim.path, exact)
}

// The ray of an ascent that ran off, where it excludes the node and no schedule is known.
fn own_ray(
    alloc: Global,
    worker: &mut Worker,
    claim: &HeldNode,
    ascent: &Ascent,
    exact: bool,
) -> Result<Option<Table>, NoMemory>
    requires claim { IsHeldClaim worker.old claim.now }
    requires ascent { IsAscentFor worker.old claim.now.unit ascent.now }
    ensures kept { worker.new ≡ worker.old }
    ensures ray { IfOk result (λ ray. IfSome ray (IsRay worker.old)) }
{
    let Some(ray) = &ascent.ray else {
        return Ok(None);
    };
    if claim.seen.is_some() {
        return Ok(None);
    }
    let outcome = worker.evaluator.outcome(alloc, &claim.path, ray, exact)?;
    if !is_positive(&outcome) {
        return Ok(None);
    }
    Ok(Some(ray.copy(alloc)?))
}

// The ascent, unless it came so high that the node was pruned: a schedule there is hardly cheaper than the best one. In a small system it is
// tried all the same.
fn repairable(
    claim: &HeldNode,
    goal: i128,
    ascent: Option<Ascent>,
    is_small: bool,
) -> Option<Ascent> {
    match ascent {
        Some(ascent) if is_small || ascent.bound < enough(claim, goal) => Some(ascent),
        _ => None,
    }
}

// The bound at which an ascent of the claim ends: that at which its node is pruned; but none at the root, whose table all others begin with.
fn enough(claim: &HeldNode, goal: i128) -> i128 {
    if claim.node == 0 { i128::MAX } else { goal }
}

// The ascent to a table of this unit's scale: the one that was made already, or one from what the node stores.
fn ascent(
    alloc: Global,
    values: Values,
    pool: &mut CutPool,
    claim: &HeldNode,
    search: Search,
    next: &mut Option<Ascent>,
) -> Result<Ascent, NoMemory>
    requires claim { IsHeldClaim values.instance.now claim.now }
    requires next { IsNextAt values.instance.now 1 next.old }
    ensures ascent { IfOk result (IsAscentFor values.entry.instance.now claim.now.unit) }
{
    if claim.unit == 1 {
        claimed_root(alloc, values, pool, search.aim.shared, next)
    } else {
        node_ascent(alloc, values, pool, claim, enough(claim, search.goal))
    }
}

// The ascent of the first claim; several workers make two more, since they split the root then.
fn claimed_root(
    alloc: Global,
    values: Values,
    pool: &mut CutPool,
    shared: bool,
    next: &mut Option<Ascent>,
) -> Result<Ascent, NoMemory>
    requires lawful { IsLawfulInstance values.instance.now }
    requires next { IsNextAt values.instance.now 1 next.old }
    ensures { IfOk result (IsAscentFor values.entry.instance.now 1) }
{
    let ascent = match next.take() {
        Some(ascent) => ascent,
        None => first_ascent(alloc, values, pool)?,
    };
    if shared {
        let stepped = root_steps(alloc, values, pool, &ascent.table);
        drop(ascent);
        stepped
    } else {
        Ok(ascent)
    }
}

// Two more ascents of the first claim, each from the table of the one before.
fn root_steps(
    alloc: Global,
    values: Values,
    pool: &mut CutPool,
    table: &Table,
) -> Result<Ascent, NoMemory>
    requires { IsLawfulInstance values.instance.now }
    ensures { IfOk result (IsAscentFor values.entry.instance.now 1) }
{
    let ascent = root_ascent(alloc, values, pool, table)?;
    let stepped = root_ascent(alloc, values, pool, &ascent.table);
    drop(ascent);
    stepped
}

// The ascent from what the node stores, with a ray or a cell that is looked for where no schedule is known.
fn node_ascent(
    alloc: Global,
    values: Values,
    pool: &mut CutPool,
    claim: &HeldNode,
    enough: i128,
) -> Result<Ascent, NoMemory>
    requires claim { IsHeldClaim values.instance.now claim.now }
    ensures ascent { IfOk result (IsAscentFor values.entry.instance.now claim.now.unit) }
{
    let target = TriedNode {
        node: &claim.path,
        had: claim.unit,
        enough,
    };
    let ascent = next_ascent(alloc, values, pool, &claim.table, target)?;
    if claim.seen.is_some() || ascent.ray.is_some() {
        Ok(ascent)
    } else {
        sought(alloc, values, &claim.path, ascent, claim.unit)
    }
}

// The ascent with a ray, or else, in early claims, with a cell to split its node on.
fn sought(
    alloc: Global,
    values: Values,
    path: &Node,
    ascent: Ascent,
    unit: u32,
) -> Result<Ascent, NoMemory>
    requires lawful { IsLawfulInstance values.instance.now }
    ensures table { IfOk result (λ sought. sought.table ≡ ascent.table) }
    ensures ray { IfOk result (λ sought. IfSome sought.ray (IsLawfulTable values.entry.instance.now)) }
    ensures ray_scale { IfOk result (λ sought. IfSome sought.ray (λ ray. ray.k ≡ pos 0)) }
{
    let ascent = with_ray(alloc, values, path, ascent)?;
    if ascent.ray.is_some() || unit > SEEKING_CLAIMS {
        Ok(ascent)
    } else {
        with_cell(alloc, values, path, ascent)
    }
}
