//! The making of a pool.

ghost use Rattle.std.specs.Prelude.{◌≡◌, ◌+◌, ◌<◌, ◌^◌, ◌++◌, map, length, remove, vec_len, All, IfOk, OnOk};
ghost use Rattle.steal_pool.specs.Seats.{what_taken, untouched};
ghost use Rattle.steal_pool.specs.Ends.{IsNew, IsFirstInFirstOut, IsOfFirstInFirstOut, own_id, victim_id};
ghost use Rattle.steal_pool.specs.Pools.{AreFresh, IsFreshPool};

use crate::rule::{Own, Victim};
use crate::seat::Seat;
use crate::theft::Theft;
use std::alloc::Global;
use std::marker::Model;
use uc_model::NoMemory;

/// One seat for each worker.
#[derive(Drop)]
pub struct Pool {
    seats: Vec<Seat>,
}

impl Model for Pool {
    ghost use Rattle.std.specs.Prelude.{List};
    ghost use Rattle.steal_pool.specs.Seats.{SeatOf};

    ghost Value = { List SeatOf };

    ghost view = { λ pool. pool.seats.items };
}

/// A new deque.
fn deque(alloc: Global, room: u64) -> Result<Own, NoMemory>
    ensures { IfOk result (IsNew room) }
{
    Ok(Own::fifo_as(alloc, room as usize)?)
}

/// A new deque for each worker.
fn deques(alloc: Global, workers: u8, room: u64) -> Result<Vec<Own>, NoMemory>
    ensures { IfOk result (λ made. (vec_len made ≡ workers) × All (IsNew room) made.items) }
{
    let mut made = Vec::new(alloc);
    for _ in 0..workers {
        made.push(deque(alloc, room)?)?;
    }
    Ok(made)
}

/// The front of each deque.
fn victims(alloc: Global, deques: &[Own]) -> Result<Vec<Victim>, NoMemory>
    requires { All IsOfFirstInFirstOut deques.now }
    ensures { IfOk result (λ made. (map victim_id made.items ≡ map own_id deques.now) × All IsFirstInFirstOut made.items) }
{
    let mut made = Vec::new(alloc);
    for own in deques {
        let victim = own.stealer()?;
        made.push(victim)?;
    }
    Ok(made)
}

/// Adds a way to each of the deques.
fn add_thefts(thefts: &mut Vec<Theft>, victims: &[Victim]) -> Result<(), NoMemory>
    requires { All IsFirstInFirstOut victims.now }
    ensures { OnOk result (map what_taken thefts.new.items ≡ map what_taken thefts.old.items ++ map untouched (map victim_id victims.now)) }
{
    for victim in victims {
        let theft = Theft::new(victim.clone()?);
        thefts.push(theft)?;
    }
    Ok(())
}

/// The ways to the deques of all workers but one.
fn thefts(alloc: Global, victims: &[Victim], me: usize) -> Result<Vec<Theft>, NoMemory>
    requires flavor { All IsFirstInFirstOut victims.now }
    requires within { me < length victims.now }
    ensures { IfOk result (λ made. map what_taken made.items ≡ map untouched (remove (map victim_id victims.now) me)) }
{
    let mut made = Vec::new(alloc);
    add_thefts(&mut made, &victims[..me])?;
    add_thefts(&mut made, &victims[me + 1..])?;
    Ok(made)
}

/// A seat for each worker, at its deque.
fn seats(
    alloc: Global,
    deques: Vec<Own>,
    victims: &[Victim],
    room: u64,
) -> Result<Vec<Seat>, NoMemory>
    requires deques { All (IsNew room) deques.items }
    requires victims { All IsFirstInFirstOut victims.now }
    requires same { map victim_id victims.now ≡ map own_id deques.items }
    requires few { vec_len deques < 2 ^ 8 }
    ensures { IfOk result (λ made. (vec_len made ≡ vec_len deques) × AreFresh (map own_id deques.items) room made.items) }
{
    let mut made = Vec::new(alloc);
    for own in deques {
        let me = made.len();
        let others = thefts(alloc, victims, me)?;
        let seat = Seat::new(me as u8, room, own, others);
        made.push(seat)?;
    }
    Ok(made)
}

impl Pool {
    /// A seat for each worker, numbered from 0, whose deques have room for `budget` + 2 nodes each. The only error is
    /// `NoMemory`.
    pub fn new(alloc: Global, workers: u8, budget: u32) -> Result<Pool, NoMemory>
        ensures { IfOk result (IsFreshPool workers (budget + 2)) }
    {
        let room = u64::from(budget) + 2;
        let deques = deques(alloc, workers, room)?;
        let victims = victims(alloc, deques.as_slice())?;
        let seats = seats(alloc, deques, victims.as_slice(), room)?;
        Ok(Pool { seats })
    }

    /// The seats, in the order of the workers.
    pub fn into_seats(self) -> Vec<Seat>
        ensures { result.items ≡ self }
    {
        self.seats
    }
}
