//! What a search answers.

ghost use Rattle.std.specs.Prelude.{◌≡◌, ℕ, ◌<◌, Bool, true, All, IfOk, IfSome, None, length};
ghost use Rattle.uc_model.specs.Prelude.{IsLawfulInstance};
ghost use Rattle.dual_model.specs.Prelude.{HasEachPattern, root, IsFirstBlocked};
ghost use Rattle.branch_tree.specs.Prelude.{tree_bound, IsWhole, tree_of, stored_tables};
ghost use Rattle.schedule_check.specs.Accepted.{IsAcceptedIfFound};
ghost use Rattle.decommitment.specs.Standings.{IsDropped, ending_of};
ghost use Rattle.search_machine.specs.Prelude.{empty_leaf, ray_leaf};
ghost use Rattle.opening.specs.Blocked.{HasNoBlockedUnit};
ghost use Rattle.opening.specs.Rays.{HasNoRay, IsFirstRay};
ghost use Rattle.opening.specs.RootTables.{IsPricedOf};
ghost use Rattle.search_answers.specs.Opening.{IsRootTable};
ghost use Rattle.search_answers.specs.Answers.{IsAnswerOf, IsQuiet, lone_root, told_by};
ghost use Rattle.decommitment.specs.declared.pass.Standing.{Standing};
ghost use Rattle.search_answers.specs.Best.{IsBest, kept_stuck};
ghost use Rattle.opening.specs.declared.root_tables.Priced.{Priced};
ghost use Rattle.search_desk.specs.Grown.{IsGrown, IsPivotedGrown};

use branch_tree::{Found, Layout, Leaf, Tree};
use node_visits::Worker;
use prices::opening_ray;
use search_desk::Grown;
use std::alloc::Global;
use uc_model::{Instance, List, NoMemory, Printed, Stuck};

// A tree of its root alone, which stores this leaf.
fn lone_root(alloc: Global, instance: &Instance, leaf: Leaf) -> Result<Tree, NoMemory>
    requires { IsLawfulInstance instance.now }
    ensures tree { IfOk result (λ tree. tree ≡ lone_root instance.now leaf) }
    ensures whole { IfOk result IsWhole }
{
    let units = instance.thermal.as_slice().len() as u32;
    let mut tree = Tree::with_room(alloc, units, instance.periods, 1)?;
    tree.close(0, leaf);
    Ok(tree)
}

// The leaf for a unit that is blocked.
fn by_unit(g: u32, exact: bool) -> Leaf
    ensures { result ≡ empty_leaf exact g }
{
    if exact {
        Leaf::ExactEmpty { g }
    } else {
        Leaf::Empty { g }
    }
}

// The leaf for a ray.
fn by_ray(table: u32, exact: bool) -> Leaf
    ensures { result ≡ ray_leaf exact table }
{
    if exact {
        Leaf::ExactRay { table }
    } else {
        Leaf::Ray { table }
    }
}

/// The root is excluded, since this unit has no allowed pattern, or where `exact` no schedule of its own.
pub fn without_unit(
    alloc: Global,
    instance: &Instance,
    g: u32,
    exact: bool,
) -> Result<Found, NoMemory>
    requires lawful { IsLawfulInstance instance.now }
    requires blocked { IsFirstBlocked exact instance.now root g }
    requires patterns { exact ≡ true → HasEachPattern instance.now }
    ensures { (asked exact_dispatch : Bool) (budget gap : ℕ) → (exact ≡ true → asked ≡ true) → IfOk result (IsAnswerOf asked exact_dispatch instance.now budget gap) }
{
    let tree = lone_root(alloc, instance, by_unit(g, exact))?;
    let layout = Layout::of(alloc, &tree, 0)?;
    Ok(Found {
        schedule: None,
        tree,
        tables: List::from_vec(Vec::new(alloc)),
        log: List::from_vec(Vec::new(alloc)),
        most_on: None,
        layout,
    })
}

/// The answer where a ray of the opening excludes the root.
pub fn excluded(
    alloc: Global,
    worker: &mut Worker,
    best: &Option<(Printed, i64)>,
    exact: bool,
) -> Option<Result<Found, NoMemory>>
    requires patterns { HasEachPattern worker.old }
    requires unblocked { HasNoBlockedUnit exact worker.old }
    requires accepted { IsAcceptedIfFound worker.old best.now }
    ensures kept { worker.new ≡ worker.old }
    ensures rays { result ≡ None → HasNoRay exact worker.old }
    ensures answer { (exact_dispatch : Bool) (budget gap : ℕ) (stands : Standing) → IsDropped worker.old stands
        → IfSome result (λ answer. IfOk answer (IsAnswerOf exact exact_dispatch worker.old budget gap)) }
{
    let instance = worker.instance();
    match worker.excluding_ray(alloc, best, exact) {
        Ok(None) => None,
        Ok(Some(n)) => Some(without_schedule(alloc, instance, n, exact)),
        Err(NoMemory) => Some(Err(NoMemory)),
    }
}

// The root is excluded by this ray of the opening.
fn without_schedule(
    alloc: Global,
    instance: &Instance,
    n: u32,
    exact: bool,
) -> Result<Found, NoMemory>
    requires lawful { IsLawfulInstance instance.now }
    requires patterns { HasEachPattern instance.now }
    requires unblocked { HasNoBlockedUnit exact instance.now }
    requires ray { IsFirstRay exact instance.now n }
    ensures { (exact_dispatch : Bool) (budget gap : ℕ) (stands : Standing) → IsDropped instance.now stands
        → IfOk result (IsAnswerOf exact exact_dispatch instance.now budget gap) }
{
    let mut tables = Vec::new(alloc);
    tables.push(opening_ray(alloc, instance, n)?)?;
    let tree = lone_root(alloc, instance, by_ray(0, exact))?;
    let layout = Layout::of(alloc, &tree, 1)?;
    Ok(Found {
        schedule: None,
        tree,
        tables: List::from_vec(tables),
        log: List::from_vec(Vec::new(alloc)),
        most_on: None,
        layout,
    })
}

// What is told of the most-on commitment, by the tree's bound and the schedule.
fn told(tree: &Tree, best: &Option<(Printed, i64)>, most_on: Option<Stuck>) -> Option<Stuck>
    ensures { result ≡ told_by (tree_bound tree.now) best.now most_on }
{
    match (tree.bound(), best) {
        (Some(_), None) => most_on,
        _ => None,
    }
}

/// The tree, with the best schedule that was found. The only error is `NoMemory`.
pub fn bounded(
    alloc: Global,
    instance: &Instance,
    grown: Grown,
    most_on: Option<Stuck>,
) -> Result<Found, NoMemory>
    requires lawful { IsLawfulInstance instance.now }
    requires patterns { HasEachPattern instance.now }
    requires whole { IsWhole grown.tree }
    requires stored { All (λ table. table < length grown.tables) (stored_tables (tree_of grown.tree)) }
    ensures { (exact exact_dispatch : Bool) (budget gap : ℕ) (stands : Standing) (opening : Priced) → HasNoRay exact instance.now
        → HasNoBlockedUnit exact instance.now → IsDropped instance.now stands → most_on ≡ kept_stuck stands
        → IsBest exact_dispatch instance.now (ending_of stands) grown.best → IsRootTable instance.now (ending_of stands) opening.table opening.value
        → IsPricedOf instance.now opening → IsGrown exact instance.now opening budget gap grown
        → IsPivotedGrown exact_dispatch instance.now budget gap grown → IsQuiet (ending_of stands) opening gap grown.log
        → IfOk result (IsAnswerOf exact exact_dispatch instance.now budget gap) }
{
    let Grown {
        tree,
        tables,
        log,
        best,
    } = grown;
    let layout = Layout::of(alloc, &tree, tables.as_slice().len())?;
    let most_on = told(&tree, &best, most_on);
    Ok(Found {
        schedule: best,
        tree,
        tables,
        log,
        most_on,
        layout,
    })
}
