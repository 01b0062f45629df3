//! A pool of two seats, a step after another.

ghost use Rattle.std.specs.Prelude.{◌≡◌, ◌≢◌, ◌+◌, ◌<◌, ◌≤◌, length, IfOk};
ghost use Rattle.thread_tests.specs.TwoSeats.{IsSeat, StaysSeat};

use std::alloc::Global;
use std::process::Abort;
use std::test::Fail;
use steal_pool::{Pool, Seat};
use uc_model::NoMemory;

/// A call of a seat, with its answer. A steal is from the other one.
#[derive(Clone, Copy)]
enum Step {
    Push(u32),
    Pop(Option<u32>),
    Steal(Option<u32>),
}

/// The seats of two workers.
pub(crate) fn two_seats(alloc: Global, budget: u32) -> Result<(Seat, Seat), NoMemory>
    ensures { IfOk result (λ seats. IsSeat 0 budget seats.0 × IsSeat 1 budget seats.1) }
{
    let mut seats = Pool::new(alloc, 2, budget)?.into_seats();
    let Some(second) = seats.pop() else {
        unreachable!()
    };
    let Some(first) = seats.pop() else {
        unreachable!()
    };
    Ok((first, second))
}

fn take_step(rt: &impl Abort, seat: &mut Seat, other: u8, step: &Step)
    requires another { other ≢ seat.old.me }
    requires worker { other ≤ length seat.old.others }
    requires room { length seat.old.put < seat.old.room }
    ensures { StaysSeat seat.old seat.new }
{
    match step {
        Step::Push(node) => seat.push(*node),
        Step::Pop(want) => {
            assert_eq!(rt; seat.pop(), *want);
        }
        Step::Steal(want) => {
            assert_eq!(rt; seat.steal(other), *want);
        }
    }
}

/// Two seats take steps, the first where the flag is set.
fn take_steps(rt: &impl Abort, first: &mut Seat, second: &mut Seat, steps: &[(bool, Step)])
    requires first { IsSeat 0 (length steps.now) first.old }
    requires second { IsSeat 1 (length steps.now) second.old }
{
    for (is_first, step) in steps {
        if *is_first {
            take_step(rt, first, 1, step);
        } else {
            take_step(rt, second, 0, step);
        }
    }
}

// First in, first out, whoever takes.
#[test]
fn nodes_leave_in_order(rt: HostRuntime) -> Result<(), Fail> {
    let (mut first, mut second) = two_seats(rt.alloc(), 10).map_err(|_| "no memory")?;
    let steps = [
        (true, Step::Push(5)),
        (true, Step::Push(7)),
        (false, Step::Steal(Some(5))),
        (true, Step::Pop(Some(7))),
        (true, Step::Pop(None)),
        (false, Step::Steal(None)),
        (false, Step::Push(9)),
        (true, Step::Steal(Some(9))),
        (false, Step::Pop(None)),
        (true, Step::Steal(None)),
    ];
    take_steps(&rt, &mut first, &mut second, &steps);
    Ok(())
}
