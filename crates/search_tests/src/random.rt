//! A long random run of three workers, and a plain recount beside it.

ghost use Rattle.std.specs.Prelude.{◌≡◌, ◌<◌, length};

use crate::acts::{Act, is_taken, start};
use branch_tree::Outcome;
use search_core::{Move, State};
use std::alloc::{AllocError, Global};
use std::test::Fail;

const EVENTS: u32 = 10_000;

// What a plain recount knows of a node: whether it is an open leaf that nobody holds, whether the bound counts it, and
// the bound and the scale that it stores.
#[derive(Clone, Copy)]
struct Leaf {
    open: bool,
    counted: bool,
    value: u64,
    scale: u32,
}

#[derive(Clone, Copy)]
struct Held {
    worker: u8,
    unit: u32,
    node: usize,
}

#[derive(Drop)]
struct Recount {
    leaves: Vec<Leaf>,
    held: Vec<Held>,
    claims: u32,
    commits: usize,
    best: Option<i64>,
}

// The next number of a linear congruential generator.
fn draw(seed: &mut u64, below: u64) -> u64
    requires { 0 < below }
    ensures { result < below }
{
    *seed = seed
        .wrapping_mul(6_364_136_223_846_793_005)
        .wrapping_add(1_442_695_040_888_963_407);
    (*seed >> 33) % below
}

fn some_node(seed: &mut u64, recount: &Recount) -> u32 {
    let count = (recount.leaves.len() as u64).max(1);
    u32::try_from(draw(seed, count)).unwrap_or(0)
}

fn some_move(seed: &mut u64) -> Move {
    match draw(seed, 12) {
        0 | 1 | 2 => Move::Again,
        3 => Move::Prune { seen: 60 },
        4 => Move::Ray,
        5 => Move::Empty,
        _ => Move::Split {
            g: 0,
            t: draw(seed, 12) as u32,
        },
    }
}

// A commit of a claim that is held, at the stored table or at another, by a value of either kind.
fn some_commit(seed: &mut u64, recount: &Recount, held: Held) -> Act {
    let stored = match recount.leaves.get(held.node) {
        Some(leaf) => leaf.scale,
        None => 0,
    };
    let scale = match draw(seed, 4) {
        0 => held.unit.saturating_add(1),
        1 => 0,
        _ => stored,
    };
    let outcome = match draw(seed, 5) {
        0 => Outcome::Empty(0),
        _ => Outcome::Value(i128::from(draw(seed, 1_000))),
    };
    let action = some_move(seed);
    if draw(seed, 3) == 0 {
        Act::Exact(held.worker, held.unit, scale, outcome, action)
    } else {
        Act::Commit(held.worker, held.unit, scale, outcome, action)
    }
}

fn some_act(seed: &mut u64, recount: &Recount) -> Act {
    let worker = draw(seed, 3) as u8;
    let place = draw(seed, (recount.held.len() as u64).max(1)) as usize;
    match (draw(seed, 9), recount.held.get(place)) {
        (0 | 1, _) => Act::Claim(worker, some_node(seed, recount)),
        (2 | 3 | 4, Some(held)) => some_commit(seed, recount, *held),
        (5, _) => Act::Publish(worker, 60 + draw(seed, 40) as i64),
        (6, _) => Act::Look(worker),
        (7, _) => Act::Push(worker, some_node(seed, recount)),
        (8, _) => Act::Pop(worker),
        _ => Act::Steal(worker, draw(seed, 3) as u8),
    }
}

// What a node stores after an evaluation.
fn stored(leaf: Leaf, scale: u32, outcome: Outcome) -> Leaf {
    let Outcome::Value(value) = outcome else {
        return leaf;
    };
    let bound = match u64::try_from(value)
        .unwrap_or(0)
        .checked_div(u64::from(scale))
    {
        Some(bound) => bound,
        None => return leaf,
    };
    if bound > leaf.value {
        Leaf {
            value: bound,
            scale,
            ..leaf
        }
    } else {
        leaf
    }
}

// A commit was taken.
fn keep_commit(
    recount: &mut Recount,
    unit: u32,
    scale: u32,
    outcome: Outcome,
    action: Move,
) -> Result<(), AllocError> {
    let Some(place) = recount.held.iter().position(|held| held.unit == unit) else {
        return Ok(());
    };
    let held = recount.held.remove(place);
    recount.commits = recount.commits.saturating_add(1);
    let Some(leaf) = recount.leaves.get_mut(held.node) else {
        return Ok(());
    };
    let new = stored(*leaf, scale, outcome);
    let excluded = Leaf {
        open: false,
        counted: false,
        ..new
    };
    match action {
        Move::Again => *leaf = Leaf { open: true, ..new },
        Move::Prune { .. } => *leaf = Leaf { open: false, ..new },
        Move::Ray | Move::Empty => *leaf = excluded,
        Move::Split { .. } => {
            *leaf = excluded;
            recount.leaves.push(Leaf { open: true, ..new })?;
            recount.leaves.push(Leaf { open: true, ..new })?;
        }
    }
    Ok(())
}

// An event was taken.
fn keep(recount: &mut Recount, act: Act) -> Result<(), AllocError> {
    match act {
        Act::Claim(worker, node) => {
            recount.claims = recount.claims.saturating_add(1);
            if let Some(leaf) = recount.leaves.get_mut(node as usize) {
                leaf.open = false;
            }
            recount.held.push(Held {
                worker,
                unit: recount.claims,
                node: node as usize,
            })?;
        }
        Act::Commit(_, unit, scale, outcome, action)
        | Act::Exact(_, unit, scale, outcome, action) => keep_commit(
            recount, unit, scale, outcome, action,
        )?,
        Act::Publish(_, cost) => recount.best = Some(recount.best.unwrap_or(cost).min(cost)),
        Act::Look(_) | Act::Push(..) | Act::Pop(_) | Act::Steal(..) => {}
    }
    Ok(())
}

// Counts the tickets of these nodes.
fn count_tickets(tickets: &[u32], times: &mut Vec<u32>) {
    for ticket in tickets {
        if let Some(count) = times.get_mut(*ticket as usize) {
            *count = count.saturating_add(1);
        }
    }
}

// Whether each node's ticket is in exactly one hand or queue.
fn is_each_once(alloc: Global, state: &State, recount: &Recount) -> Result<bool, Fail>
    requires { length state.now.desks ≡ 3 }
{
    let mut times = vec![in alloc; 0_u32; recount.leaves.len()]?;
    for worker in 0..3u8 {
        count_tickets(state.hand(worker).as_slice(), &mut times);
        count_tickets(state.queue(worker).as_slice(), &mut times);
    }
    Ok(times.iter().all(|count| *count == 1))
}

// The least bound that counts.
fn least_bound(recount: &Recount) -> Option<i128> {
    let mut least = None;
    for leaf in recount.leaves.iter() {
        if leaf.counted {
            let value = i128::from(leaf.value);
            least = match least {
                Some(other) if other < value => Some(other),
                _ => Some(value),
            };
        }
    }
    least
}

// Takes random events until so many were legal, and recounts them.
fn run(alloc: Global, state: &mut State, recount: &mut Recount) -> Result<u32, Fail>
    ensures { length state.new.desks ≡ length state.old.desks }
{
    let mut seed = 1;
    let mut taken = 0u32;
    for _ in 0..100_000u32 {
        let act = some_act(&mut seed, recount);
        if taken < EVENTS && is_taken(alloc, state, act)? {
            taken = taken.saturating_add(1);
            keep(recount, act)?;
        }
    }
    Ok(taken)
}

// Whether the parts of a state are as recounted.
fn is_recounted(alloc: Global, state: &State, recount: &Recount) -> Result<bool, Fail>
    requires { length state.now.desks ≡ 3 }
{
    let counts = state.log().as_slice().len() == recount.commits
        && state.tables().as_slice().len() == recount.commits.saturating_add(1);
    let bounds = state.best() == recount.best && state.tree().bound() == least_bound(recount);
    Ok(counts && bounds && is_each_once(alloc, state, recount)?)
}

// What is known at first.
fn begun(alloc: Global) -> Result<Recount, AllocError> {
    let root = Leaf {
        open: true,
        counted: true,
        value: 5,
        scale: 1,
    };
    Ok(Recount {
        leaves: vec![in alloc; root]?,
        held: Vec::new(alloc),
        claims: 0,
        commits: 0,
        best: None,
    })
}

// Takes random events, and tells whether as many were legal as are wanted, and the state is as recounted.
fn runs_as_recounted(alloc: Global, state: &mut State, recount: &mut Recount) -> Result<bool, Fail>
    requires { length state.old.desks ≡ 3 }
{
    let taken = run(alloc, state, recount)?;
    Ok(taken == EVENTS && is_recounted(alloc, state, recount)?)
}

#[test]
fn a_random_run_is_as_recounted(rt: HostRuntime) -> Result<(), Fail> {
    let alloc = rt.alloc();
    let mut recount = begun(alloc)?;
    let mut state = start(alloc, 12, 3, 4_000)?;
    let is_recounted = runs_as_recounted(alloc, &mut state, &mut recount);
    drop(state);
    drop(recount);
    assert!(rt; is_recounted?);
    Ok(())
}
