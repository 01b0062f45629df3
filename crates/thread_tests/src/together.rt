//! Two threads on one incumbent and one pool.

ghost use Rattle.std.specs.Prelude.{◌≡◌, ◌+◌, ◌≤◌, length};
ghost use Rattle.incumbent.specs.Costs.{IsScheduleCost};

use crate::pools::two_seats;
use incumbent::{Best, Pass};
use std::alloc::Global;
use std::process::Abort;
use std::test::Fail;
use std::thread::{Threads, join};
use steal_pool::Seat;
use uc_model::NoMemory;

const NODES: u32 = 100;

const TRIES: u32 = 1000;

/// What a node costs here: later ones cost less.
fn cost_of(node: u32) -> i64
    ensures { IsScheduleCost result }
{
    1000 - i64::from(node)
}

/// Publishes the cost of a node that was taken, and counts it.
fn publish(best: &Best, pass: &mut Pass, node: Option<u32>) -> u64
    requires { pass.old.object ≡ best.now.object }
    ensures object { pass.new.object ≡ pass.old.object }
    ensures parts { pass.new.parts ≡ pass.old.parts }
    ensures one { result ≤ 1 }
{
    match node {
        Some(node) => {
            best.publish(pass, cost_of(node));
            1
        }
        None => 0,
    }
}

/// A worker that pushes all nodes and then takes what is left of them.
fn push_and_pop(best: &Best, mut pass: Pass, mut seat: Seat) -> (Pass, u64)
    requires object { pass.object ≡ best.now.object }
    requires room { length seat.put + NODES ≤ seat.room }
    ensures object { result.0.object ≡ pass.object }
    ensures parts { result.0.parts ≡ pass.parts }
    ensures few { result.1 ≤ NODES }
{
    for node in 0..NODES {
        seat.push(node);
    }
    let mut taken = 0;
    for _ in 0..NODES {
        taken += publish(best, &mut pass, seat.pop());
    }
    (pass, taken)
}

/// The second worker steals from the first.
fn steal_first(seat: &mut Seat) -> Option<u32>
    requires { seat.old.me ≡ 1 }
    ensures { seat.new.me ≡ 1 }
{
    seat.steal(0)
}

/// Another one, which steals from it.
fn steal(best: &Best, mut pass: Pass, mut seat: Seat) -> (Pass, u64)
    requires object { pass.object ≡ best.now.object }
    requires another { seat.me ≡ 1 }
    ensures object { result.0.object ≡ pass.object }
    ensures parts { result.0.parts ≡ pass.parts }
    ensures few { result.1 ≤ TRIES }
{
    let mut taken = 0;
    for _ in 0..TRIES {
        taken += publish(best, &mut pass, steal_first(&mut seat));
    }
    (pass, taken)
}

/// Both workers beside one another: how many nodes each took, and the least cost.
fn both(
    rt: &impl Threads,
    best: Best,
    mut pass: Pass,
    first: Seat,
    second: Seat,
) -> (u64, u64, Option<i64>)
    requires object { pass.object ≡ best.object }
    requires whole { (pass.parts ≡ 2) × (best.parts ≡ 2) }
    requires room { length first.put + NODES ≤ first.room }
    requires another { second.me ≡ 1 }
{
    let other = best.split(&mut pass, 1);
    let lent = &best;
    let ((mut pass, popped), (other, stolen)) = join(
        rt,
        move || -> (Pass, u64)
            requires { (pass.object ≡ lent.now.object) × (length first.put + NODES ≤ first.room) }
            ensures { (result.0.object ≡ pass.object) × (result.0.parts ≡ pass.parts) }
        { push_and_pop(lent, pass, first) },
        move || -> (Pass, u64)
            requires { (other.object ≡ lent.now.object) × (second.me ≡ 1) }
            ensures { (result.0.object ≡ other.object) × (result.0.parts ≡ other.parts) }
        { steal(lent, other, second) },
    );
    best.join(&mut pass, other);
    (popped, stolen, best.close(pass))
}

/// The same with a new incumbent.
fn shared(
    rt: &impl Threads,
    alloc: Global,
    first: Seat,
    second: Seat,
) -> Result<(u64, u64, Option<i64>), NoMemory>
    requires room { length first.put + NODES ≤ first.room }
    requires another { second.me ≡ 1 }
{
    let (best, pass) = Best::new(alloc, 2)?;
    Ok(both(rt, best, pass, first, second))
}

// Whatever the schedule, each node is taken once, so the least cost is that of the last node.
#[test]
fn two_threads(rt: HostRuntime) -> Result<(), Fail> {
    let (first, second) = two_seats(rt.alloc(), NODES).map_err(|_| "no memory")?;
    let (popped, stolen, least) = shared(&rt, rt.alloc(), first, second).map_err(|_| "no memory")?;
    assert_eq!(rt; popped.checked_add(stolen), Some(u64::from(NODES)));
    assert_eq!(rt; least, Some(901));
    Ok(())
}
