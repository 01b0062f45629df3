//! One incumbent and its passes, a step after another.

ghost use Rattle.std.specs.Prelude.{◌≡◌, ◌+◌};
ghost use Rattle.incumbent.specs.Costs.{IsScheduleCost};

use incumbent::{Best, Pass};
use std::process::Abort;
use std::test::Fail;

/// A call of a pass in dollars, with its answer.
#[derive(Clone, Copy)]
enum Turn {
    Look(Option<i32>),
    Publish(i32, bool),
}

/// Dollars as micro-dollars.
fn micro_dollars(dollars: i32) -> i64
    ensures { IsScheduleCost result }
{
    i64::from(dollars) * 1_000_000
}

fn take_turn(rt: &impl Abort, best: &Best, pass: &mut Pass, turn: &Turn)
    requires { pass.old.object ≡ best.now.object }
    ensures object { pass.new.object ≡ pass.old.object }
    ensures parts { pass.new.parts ≡ pass.old.parts }
{
    match turn {
        Turn::Look(want) => {
            assert_eq!(rt; best.look(pass), want.map(micro_dollars));
        }
        Turn::Publish(cost, want) => {
            assert_eq!(rt; best.publish(pass, micro_dollars(*cost)), *want);
        }
    }
}

/// Two passes take turns, the first where the flag is set.
fn take_turns(rt: &impl Abort, best: &Best, a: &mut Pass, b: &mut Pass, turns: &[(bool, Turn)])
    requires first { a.old.object ≡ best.now.object }
    requires second { b.old.object ≡ best.now.object }
    ensures object { (a.new.object ≡ a.old.object) × (b.new.object ≡ b.old.object) }
    ensures parts { (a.new.parts ≡ a.old.parts) × (b.new.parts ≡ b.old.parts) }
{
    for (first, turn) in turns {
        if *first {
            take_turn(rt, best, a, turn);
        } else {
            take_turn(rt, best, b, turn);
        }
    }
}

/// The least cost that two passes publish, which are the whole of their incumbent.
fn closed(
    rt: &impl Abort,
    best: Best,
    mut a: Pass,
    mut b: Pass,
    turns: &[(bool, Turn)],
) -> Option<i64>
    requires first { a.object ≡ best.object }
    requires second { b.object ≡ best.object }
    requires parts { a.parts + b.parts ≡ best.parts }
{
    take_turns(rt, &best, &mut a, &mut b, turns);
    best.join(&mut a, b);
    best.close(a)
}

// Two passes: each sees what the other has published, and only a lower cost is one.
#[test]
fn passes_share_the_least(rt: HostRuntime) -> Result<(), Fail> {
    let (best, mut a) = Best::new(rt.alloc(), 2).map_err(|_| "no memory")?;
    let b = best.split(&mut a, 1);
    let turns = [
        (true, Turn::Look(None)),
        (true, Turn::Publish(500, true)),
        (false, Turn::Publish(400, true)),
        (true, Turn::Look(Some(400))),
        (false, Turn::Publish(450, false)),
        (false, Turn::Publish(400, false)),
    ];
    assert_eq!(rt; closed(&rt, best, a, b, &turns), Some(micro_dollars(400)));
    Ok(())
}

// A pass that is split off later has seen what was published before.
#[test]
fn a_new_pass_has_seen_the_same(rt: HostRuntime) -> Result<(), Fail> {
    let (best, mut a) = Best::new(rt.alloc(), 3).map_err(|_| "no memory")?;
    take_turn(&rt, &best, &mut a, &Turn::Publish(500, true));
    let b = best.split(&mut a, 2);
    let turns = [
        (false, Turn::Look(Some(500))),
        (false, Turn::Publish(600, false)),
    ];
    assert_eq!(rt; closed(&rt, best, a, b, &turns), Some(micro_dollars(500)));
    Ok(())
}

// The costs of greatest size, of both signs.
#[test]
fn costs_of_both_signs(rt: HostRuntime) -> Result<(), Fail> {
    let (best, mut pass) = Best::new(rt.alloc(), 1).map_err(|_| "no memory")?;
    let most = 8_881_280_000_000_000_000;
    assert_eq!(rt; best.publish(&mut pass, most), true);
    assert_eq!(rt; best.publish(&mut pass, -most), true);
    assert_eq!(rt; best.close(pass), Some(-most));
    Ok(())
}

// Where no cost was published there is none.
#[test]
fn no_cost(rt: HostRuntime) -> Result<(), Fail> {
    let (best, pass) = Best::new(rt.alloc(), 1).map_err(|_| "no memory")?;
    assert_eq!(rt; best.close(pass), None);
    Ok(())
}
