//! A book of a demo's instance: a call after another, and two threads behind a lock.

ghost use Rattle.std.specs.Prelude.{◌≡◌, ◌↔◌, ◌<ℤ◌, IfOk, IsTrue, pos, false};
ghost use Rattle.uc_model.specs.Prelude.{IsLawfulInstance};
ghost use Rattle.uc_model.specs.declared.instance.Instance.{Instance};
ghost use Rattle.dual_model.specs.Prelude.{IsTableBound, IsNodeOf, IsLawfulTable, root};
ghost use Rattle.book.specs.Prelude.{IsTrueOpening};
ghost use Rattle.search_machine.specs.Prelude.{IsTrueOutcome};

use book::{Book, Case, Claimed};
use branch_tree::{Entry, Outcome, Tree};
use demo_gen::instance;
use dual_model::{Fixing, Node, Table};
use dual_value::{ValueFault, value};
use opening_tables::unpriced;
use search_machine::Move;
use std::alloc::Global;
use std::marker::Brand;
use std::process::Abort;
use std::sync::{Mutex, Wait};
use std::test::Fail;
use std::thread::{Threads, join, yield_now};
use uc_model::{Instance, List, NoMemory, floor_div};
use unit_path::Scratch;

/// A commit, by a worker that may hold the claim of this unit: of the root, or of the node at which the first cell alone is decided so, at
/// the table of no prices at the scale of a million and so much more.
#[derive(Clone, Copy)]
struct Commit {
    worker: u8,
    unit: u32,
    first: Option<bool>,
    more: u16,
    action: Move,
}

/// A call of a book with its answer. Workers and nodes count from 0, claims from 1. A table is told as that of a commit.
#[derive(Clone, Copy)]
enum Call {
    Claim(u8, u32, Claimed),
    Commit(Commit, bool),
    Abandon(u8, u32, bool),
    Fresh(u32, u16, bool, bool),
    Children(u32, Option<(u32, u32)>),
    FirstOpen(Option<u32>),
    FirstHeld(Option<(u32, u8, u32, u32)>),
    Settled(bool),
    // How many cells the node of the first held claim decides, and at which table it stands.
    Holding(usize, u16),
}

const CELL: Move = Move::Split { g: 0, t: 0 };

fn mine(unit: u32, had: u32) -> Claimed {
    Claimed::Mine { unit, had }
}

// A commit of the root.
fn of_root(worker: u8, unit: u32, more: u16, action: Move) -> Commit {
    Commit {
        worker,
        unit,
        first: None,
        more,
        action,
    }
}

// A commit of a node at which the first cell alone is decided, which leaves it open.
fn of_child(worker: u8, unit: u32, on: bool, more: u16) -> Commit {
    Commit {
        worker,
        unit,
        first: Some(on),
        more,
        action: Move::Again,
    }
}

// The root, or the node at which the first unit is on or off in the first period.
fn node(alloc: Global, first: Option<bool>) -> Result<Node, NoMemory> {
    let mut fixings = Vec::new(alloc);
    if let Some(on) = first {
        fixings.push(Fixing { g: 0, t: 0, on })?;
    }
    Ok(Node {
        fixings: List::from_vec(fixings),
    })
}

// Whether the decisions are on cells of the instance.
fn is_node_of(instance: &Instance, node: &Node) -> bool
    ensures { IsTrue result ↔ IsNodeOf instance.now node.now }
{
    let units = instance.thermal.as_slice().len();
    node.fixings.as_slice().iter().all(|fixing| (fixing.g as usize) < units
        && fixing.t < instance.periods)
}

// The table of no prices, at the scale of a million and so much more.
fn table(alloc: Global, instance: &Instance, more: u16) -> Result<Table, NoMemory>
    requires { IsLawfulInstance instance.now }
    ensures lawful { IfOk result (IsLawfulTable instance.now) }
    ensures scale { IfOk result (λ table. pos 0 <ℤ table.k) }
{
    unpriced(alloc, instance, 1_000_000 + i64::from(more))
}

// What an evaluation comes to.
fn outcome(
    alloc: Global,
    instance: &Instance,
    node: &Node,
    table: &Table,
) -> Result<Outcome, NoMemory>
    requires lawful { IsLawfulInstance instance.now }
    requires node { IsNodeOf instance.now node.now }
    requires table { IsLawfulTable instance.now table.now }
    ensures { IfOk result (IsTrueOutcome false instance.now node.now table.now) }
{
    let mut scratch = Scratch::new(alloc, instance.periods as usize)?;
    match value(alloc, &mut scratch, instance, node, table) {
        Ok(valued) => Ok(Outcome::Value(valued.total)),
        Err(ValueFault::Empty(g)) => Ok(Outcome::Empty(g)),
        Err(ValueFault::NoMemory) => Err(NoMemory),
    }
}

// A table, and what the evaluation of a node at it comes to.
fn evaluated(
    alloc: Global,
    instance: &Instance,
    node: &Node,
    more: u16,
) -> Result<(Table, Outcome), NoMemory>
    requires lawful { IsLawfulInstance instance.now }
    requires node { IsNodeOf instance.now node.now }
    ensures table { IfOk result (λ entry. IsLawfulTable instance.now entry.0) }
    ensures outcome { IfOk result (λ entry. IsTrueOutcome false instance.now node.now entry.0 entry.1) }
{
    let table = table(alloc, instance, more)?;
    let outcome = outcome(alloc, instance, node, &table)?;
    Ok((table, outcome))
}

// The root's bound at the table.
fn bound(alloc: Global, instance: &Instance, table: &Table) -> Result<i128, Fail>
    requires lawful { IsLawfulInstance instance.now }
    requires table { IsLawfulTable instance.now table.now }
    requires scale { pos 0 <ℤ table.now.k }
    ensures { IfOk result (IsTableBound false instance.now root table.now) }
{
    let root = Node::root(alloc);
    let mut scratch = Scratch::new(alloc, instance.periods as usize).map_err(|_| "no memory")?;
    match value(alloc, &mut scratch, instance, &root, table) {
        Ok(valued) => {
            let total = valued.total;
            drop((valued, scratch));
            Ok(floor_div(total, i128::from(table.k())))
        }
        Err(_) => Err("no value")?,
    }
}

// Evaluates a node whose decisions are on cells of the instance, and makes the commit of it.
fn make_commit<C: Case>(
    alloc: Global,
    book: &mut Book<C>,
    instance: &Instance,
    node: &Node,
    commit: &Commit,
) -> Result<bool, Fail>
    requires lawful { IsLawfulInstance instance.now }
    requires same { instance.now ≡ C.opening.instance }
{
    if !is_node_of(instance, node) {
        return Err("no node")?;
    }
    match evaluated(alloc, instance, node, commit.more) {
        Ok((table, outcome)) => Ok(book.commit(
            commit.worker,
            commit.unit,
            node,
            table,
            false,
            outcome,
            commit.action,
        )),
        Err(NoMemory) => Err("no memory")?,
    }
}

// Claims a node, and compares the answer.
fn ask_claim<C: Case>(rt: &impl Abort, book: &mut Book<C>, worker: u8, node: u32, want: Claimed) {
    assert_eq!(rt; book.claim(worker, node), want);
}

// Makes a commit, and compares whether it is taken.
fn ask_commit<C: Case>(
    rt: &(impl Abort + AllocGlobal),
    book: &mut Book<C>,
    instance: &Instance,
    call: &Commit,
    want: bool,
) -> Result<(), Fail>
    requires lawful { IsLawfulInstance instance.now }
    requires same { instance.now ≡ C.opening.instance }
{
    let alloc = rt.alloc();
    let node = node(alloc, call.first).map_err(|_| "no memory")?;
    let is_taken = make_commit(alloc, book, instance, &node, call);
    drop(node);
    assert_eq!(rt; is_taken?, want);
    Ok(())
}

// Gives a claim back, and compares whether it was held.
fn ask_abandon<C: Case>(rt: &impl Abort, book: &mut Book<C>, worker: u8, unit: u32, want: bool) {
    assert_eq!(rt; book.abandon(worker, unit), want);
}

// Compares whether no entry of a node is at a table, by a value that is exact or not.
fn ask_fresh<C: Case>(
    rt: &(impl Abort + AllocGlobal),
    book: &Book<C>,
    instance: &Instance,
    asked: (u32, u16, bool),
    want: bool,
) -> Result<(), Fail>
    requires { IsLawfulInstance instance.now }
{
    let (node, more, exact) = asked;
    let table = table(rt.alloc(), instance, more).map_err(|_| "no memory")?;
    let is_fresh = book.fresh(node, &table, exact);
    drop(table);
    assert_eq!(rt; is_fresh, want);
    Ok(())
}

// Compares how many cells the node of the first held claim decides, and the scale of the table that it stores.
fn ask_holding<C: Case>(
    rt: &(impl Abort + AllocGlobal),
    book: &Book<C>,
    cells: usize,
    more: u16,
) -> Result<(), Fail> {
    let Some((unit, _, _, _)) = book.first_held() else {
        return Err("nothing is held")?;
    };
    let (node, table, _) = book.holding(rt.alloc(), unit).map_err(|_| "no memory")?;
    let (decided, scale) = (node.fixings.as_slice().len(), table.k());
    drop((node, table));
    assert_eq!(rt; decided, cells);
    assert_eq!(rt; scale, 1_000_000 + i64::from(more));
    Ok(())
}

// Compares the children of a node.
fn ask_children<C: Case>(rt: &impl Abort, book: &Book<C>, node: u32, want: Option<(u32, u32)>) {
    assert_eq!(rt; book.children(node), want);
}

// Compares the first open node.
fn ask_first_open<C: Case>(rt: &impl Abort, book: &Book<C>, want: Option<u32>) {
    assert_eq!(rt; book.first_open(), want);
}

// Compares the first held claim.
fn ask_first_held<C: Case>(rt: &impl Abort, book: &Book<C>, want: Option<(u32, u8, u32, u32)>) {
    assert_eq!(rt; book.first_held(), want);
}

// Compares whether no node is open or held.
fn ask_settled<C: Case>(rt: &impl Abort, book: &Book<C>, want: bool) {
    assert_eq!(rt; book.settled(), want);
}

// Makes a call, and compares its answer.
fn ask<C: Case>(
    rt: &(impl Abort + AllocGlobal),
    book: &mut Book<C>,
    instance: &Instance,
    call: &Call,
) -> Result<(), Fail>
    requires lawful { IsLawfulInstance instance.now }
    requires same { instance.now ≡ C.opening.instance }
{
    match call {
        Call::Claim(worker, node, want) => ask_claim(rt, book, *worker, *node, *want),
        Call::Commit(commit, want) => ask_commit(rt, book, instance, commit, *want)?,
        Call::Abandon(worker, unit, want) => ask_abandon(rt, book, *worker, *unit, *want),
        Call::Fresh(node, more, exact, want) => {
            ask_fresh(rt, book, instance, (*node, *more, *exact), *want)?;
        }
        Call::Children(node, want) => ask_children(rt, book, *node, *want),
        Call::FirstOpen(want) => ask_first_open(rt, book, *want),
        Call::FirstHeld(want) => ask_first_held(rt, book, *want),
        Call::Settled(want) => ask_settled(rt, book, *want),
        Call::Holding(cells, more) => ask_holding(rt, book, *cells, *more)?,
    }
    Ok(())
}

// Makes the calls of a new book.
fn ask_all<C: Case>(
    rt: &(impl Abort + AllocGlobal),
    instance: &Instance,
    budget: u32,
    table: Table,
    value: i128,
    calls: &[Call],
) -> Result<(), Fail>
    requires opening { IsTrueOpening C.opening }
    requires instance { instance.now ≡ C.opening.instance }
    requires budget { budget ≡ C.opening.budget }
    requires gap { 0 ≡ C.opening.gap }
    requires table { table ≡ C.opening.table }
    requires value { value ≡ C.opening.value }
{
    let mut book = Book::<C>::new(rt.alloc(), instance, budget, 0, table, value).map_err(
        |_| "no memory",
    )?;
    let asked = ask_each(rt, &mut book, instance, calls);
    drop(book);
    asked
}

// Makes the calls of a book, one after another.
fn ask_each<C: Case>(
    rt: &(impl Abort + AllocGlobal),
    book: &mut Book<C>,
    instance: &Instance,
    calls: &[Call],
) -> Result<(), Fail>
    requires lawful { IsLawfulInstance instance.now }
    requires same { instance.now ≡ C.opening.instance }
{
    for call in calls {
        ask(rt, book, instance, call)?;
    }
    Ok(())
}

// The demo of seed 0.
fn demo(alloc: Global) -> Result<Instance, Fail>
    ensures { IfOk result IsLawfulInstance }
{
    match instance(alloc, 0) {
        Ok(instance) => Ok(instance),
        Err(_) => Err("no memory")?,
    }
}

// The table that the root stores at first, and the root's bound at it.
fn opening(alloc: Global, instance: &Instance) -> Result<(Table, i128), Fail>
    requires { IsLawfulInstance instance.now }
    ensures lawful { IfOk result (λ first. IsLawfulTable instance.now first.0) }
    ensures scale { IfOk result (λ first. pos 0 <ℤ first.0.k) }
    ensures bound { IfOk result (λ first. IsTableBound false instance.now root first.0 first.1) }
{
    match table(alloc, instance, 0) {
        Ok(table) => {
            let value = bound(alloc, instance, &table)?;
            Ok((table, value))
        }
        Err(NoMemory) => Err("no memory")?,
    }
}

// Makes the calls of a new book of the demo.
fn tell(rt: &(impl Abort + AllocGlobal), budget: u16, calls: &[Call]) -> Result<(), Fail> {
    let alloc = rt.alloc();
    let instance = demo(alloc)?;
    let (table, value) = opening(alloc, &instance)?;
    ask_all::<Brand>(rt, &instance, u32::from(budget), table, value, calls)
}

// The one claim that the budget allows.
#[test]
fn the_budget_is_spent(rt: HostRuntime) -> Result<(), Fail> {
    let calls = [
        Call::Claim(0, 0, mine(1, 0)),
        Call::Claim(1, 0, Claimed::Spent),
        Call::FirstHeld(Some((1, 0, 0, 0))),
        Call::Abandon(0, 1, true),
        Call::FirstOpen(Some(0)),
        Call::Claim(0, 0, Claimed::Spent),
    ];
    tell(&rt, 1, &calls)
}

// A node is held by one worker, and committed by it alone; each table comes once.
#[test]
fn a_node_is_held_by_one(rt: HostRuntime) -> Result<(), Fail> {
    let calls = [
        Call::Claim(0, 0, mine(1, 0)),
        Call::Claim(1, 0, Claimed::NotOpen),
        Call::Holding(0, 0),
        Call::Commit(of_root(1, 1, 0, Move::Again), false),
        Call::Commit(of_child(0, 1, true, 0), false),
        Call::Commit(of_root(0, 2, 0, Move::Again), false),
        Call::Fresh(0, 0, false, true),
        Call::Commit(of_root(0, 1, 0, Move::Again), true),
        Call::Fresh(0, 0, false, false),
        Call::Fresh(0, 0, true, true),
        Call::Fresh(0, 1, false, true),
        Call::Claim(1, 0, mine(2, 1)),
        Call::Commit(of_root(1, 2, 0, Move::Again), false),
        Call::Commit(of_root(1, 2, 7, CELL), true),
        Call::Claim(0, 0, Claimed::Spent),
    ];
    tell(&rt, 2, &calls)
}

// A split's children are claimed, given back and claimed anew; their first entry is at the table that they inherited.
#[test]
fn children_come_and_go(rt: HostRuntime) -> Result<(), Fail> {
    let calls = [
        Call::Children(0, None),
        Call::Claim(0, 0, mine(1, 0)),
        Call::Settled(false),
        Call::Commit(of_root(0, 1, 3, CELL), true),
        Call::Children(0, Some((1, 2))),
        Call::Children(3, None),
        Call::Claim(0, 0, Claimed::NotOpen),
        Call::Claim(0, 3, Claimed::NotOpen),
        Call::Claim(255, 2, mine(2, 0)),
        Call::Abandon(0, 2, false),
        Call::Abandon(255, 2, true),
        Call::Abandon(255, 2, false),
        Call::Claim(4, 2, mine(3, 0)),
        Call::FirstOpen(Some(1)),
        Call::FirstHeld(Some((3, 4, 2, 0))),
        Call::Commit(of_child(4, 2, true, 0), false),
        Call::Commit(of_child(4, 3, false, 0), false),
        Call::Commit(of_child(4, 3, true, 9), false),
        Call::Commit(of_child(4, 3, true, 0), true),
        Call::FirstHeld(None),
    ];
    tell(&rt, 5, &calls)
}

// More turns than a worker needs until the other one has spent the budget.
const TURNS: u32 = 1_000_000;

// A worker that claims the root in turn with another one, and commits each claim at a table of its own.
fn work<C: Case>(
    rt: &impl Wait,
    alloc: Global,
    desk: &Mutex<Book<C>>,
    instance: &Instance,
    worker: u8,
) -> Result<(), NoMemory>
    requires lawful { IsLawfulInstance instance.now }
    requires same { instance.now ≡ C.opening.instance }
{
    for _ in 0..TURNS {
        let claimed = desk.lock(rt).claim(worker, 0);
        match claimed {
            Claimed::Mine { unit, .. } => {
                let root = Node::root(alloc);
                let more = u16::try_from(unit).unwrap_or(0);
                let (table, outcome) = evaluated(alloc, instance, &root, more)?;
                desk.lock(rt)
                    .commit(worker, unit, &root, table, false, outcome, Move::Again);
            }
            Claimed::NotOpen | Claimed::Spent => yield_now(),
        }
    }
    Ok(())
}

// Two workers spend the budget of one book.
fn work_together<C: Case + Send + Sync, R: Threads + Wait + Sync>(
    rt: &R,
    alloc: Global,
    instance: &Instance,
    table: Table,
    value: i128,
) -> Result<(Tree, List<Table>, List<Entry>), NoMemory>
    requires opening { IsTrueOpening C.opening }
    requires instance { instance.now ≡ C.opening.instance }
    requires budget { 20 ≡ C.opening.budget }
    requires gap { 0 ≡ C.opening.gap }
    requires table { table ≡ C.opening.table }
    requires value { value ≡ C.opening.value }
{
    let desk = Mutex::new(Book::<C>::new(alloc, instance, 20, 0, table, value)?);
    let (first, second) = join(
        rt,
        || -> Result<(), NoMemory>
            requires { IsLawfulInstance instance.now × (instance.now ≡ C.opening.instance) }
        { work(rt, alloc, &desk, instance, 0) },
        || -> Result<(), NoMemory>
            requires { IsLawfulInstance instance.now × (instance.now ≡ C.opening.instance) }
        { work(rt, alloc, &desk, instance, 1) },
    );
    first?;
    second?;
    Ok(desk.into_inner().finish())
}

// The root's bound at its first table, and what two workers leave.
fn shared<R: Threads + Wait + Sync>(
    rt: &R,
    alloc: Global,
    instance: &Instance,
) -> Result<(i128, (Tree, List<Table>, List<Entry>)), Fail>
    requires { IsLawfulInstance instance.now }
{
    let (table, value) = opening(alloc, instance)?;
    match work_together::<Brand, R>(rt, alloc, instance, table, value) {
        Ok(left) => Ok((value, left)),
        Err(NoMemory) => Err("no memory")?,
    }
}

// What two workers leave is the same whatever the order of their steps.
#[test]
fn two_workers_share_a_book(rt: HostRuntime) -> Result<(), Fail> {
    let alloc = rt.alloc();
    let instance = demo(alloc)?;
    let shared = shared(&rt, alloc, &instance);
    drop(instance);
    let (value, left) = shared?;
    let (tree, tables, log) = left;
    let (bound, stored, entries) = (tree.bound(), tables.as_slice().len(), log.as_slice().len());
    drop((tree, tables, log));
    assert_eq!(rt; bound, Some(value));
    assert_eq!(rt; stored, 21);
    assert_eq!(rt; entries, 20);
    Ok(())
}
