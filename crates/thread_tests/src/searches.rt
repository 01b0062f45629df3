//! Searches by two workers that meet in their gate.

ghost use Rattle.std.specs.Prelude.{◌≤◌, IfOk};
ghost use Rattle.uc_model.specs.Prelude.{IsLawfulInstance};

use instance::read_instance;
use outside::Gate;
use std::alloc::{AllocError, Global};
use std::sync::Wait;
use std::sync::atomic::{AtomicU64, Ordering};
use std::test::Fail;
use std::thread::{Threads, yield_now};
use uc_model::{Instance, NoMemory};
use workers::{Options, search};

/// A unit of 10 to 50 MW, for 100 dollars an hour and 10 dollars a MWh.
const UNIT: &str =
    r#"{"must_run": 0, "power_output_minimum": 10, "power_output_maximum": 50, "ramp_up_limit": 40, "ramp_down_limit": 40,
  "ramp_startup_limit": 50, "ramp_shutdown_limit": 50, "time_up_minimum": 1, "time_down_minimum": 1, "power_output_t0": 20,
  "unit_on_t0": 1, "time_up_t0": 1, "time_down_t0": 0, "startup": [{"lag": 1, "cost": 0}],
  "piecewise_production": [{"mw": 10, "cost": 200}, {"mw": 50, "cost": 600}]}"#;

/// More turns than other workers need to come to the gate.
const TURNS: u32 = 10_000_000;

/// A gate that holds the second unit until a later one has entered, for so many turns at most.
#[derive(Drop)]
struct Meeting {
    awaited: u32,
    // How often the awaited unit has entered.
    entered: AtomicU64,
    // How often the second one has seen that.
    met: AtomicU64,
}

impl Meeting {
    // A gate that nobody has entered.
    fn new(awaited: u32) -> Self {
        Meeting {
            awaited,
            entered: AtomicU64::new(0),
            met: AtomicU64::new(0),
        }
    }

    // Waits for the awaited unit.
    fn wait(&self) {
        for _ in 0..TURNS {
            if self.entered.load(Ordering::SeqCst) > 0 {
                self.met.fetch_add(1, Ordering::SeqCst);
                return;
            }
            yield_now();
        }
    }
}

impl Gate for Meeting {
    fn enter<R: Wait>(&self, _rt: &R, _worker: u8, unit: u32) {
        if unit == 2 {
            self.wait();
        } else if unit == self.awaited {
            self.entered.fetch_add(1, Ordering::SeqCst);
        }
    }
}

// So many of these units for an hour that asks for so many MW.
fn system(alloc: Global, units: u8, demand: u8) -> Result<Instance, Fail>
    ensures { IfOk result IsLawfulInstance }
{
    let text = written(alloc, units, demand).map_err(|_| "no memory")?;
    match read_instance(alloc, text.as_bytes(), true) {
        Ok((instance, _)) => Ok(instance),
        Err(_) => Err("no instance")?,
    }
}

// Its text.
fn written(alloc: Global, units: u8, demand: u8) -> Result<String, AllocError> {
    let mut text = format!(in alloc;
        r#"{{"time_periods": 1, "demand": [{demand}], "reserves": [0], "renewable_generators": {{}}, "#
    )?;
    text.push_str(r#""thermal_generators": {"#)?;
    for g in 0..units {
        if g > 0 {
            text.push_str(",")?;
        }
        let name = format!(in alloc; r#""g{g}": "#)?;
        text.push_str(&name)?;
        text.push_str(UNIT)?;
    }
    text.push_str("}}")?;
    Ok(text)
}

// How often the worker that holds the second unit has seen in the gate of a search that the awaited one has entered.
fn meetings<R: Threads + Wait + Sync>(
    rt: &R,
    alloc: Global,
    instance: &Instance,
    budget: u32,
    awaited: u32,
) -> Result<u64, Fail>
    requires lawful { IsLawfulInstance instance.now }
    requires budget { budget ≤ 1000000 }
{
    let options = Options {
        budget,
        workers: 2,
        gap: 0,
        exact_units: false,
        pivot: false,
    };
    let meeting = Meeting::new(awaited);
    match search(rt, alloc, instance, &options, &meeting) {
        Ok(found) => drop(found),
        Err(NoMemory) => return Err("no memory")?,
    }
    Ok(meeting.met.load(Ordering::SeqCst))
}

// Two workers work beside one another. Workers that run one after another, or one that does the work of both, fail: whoever holds the
// second unit stands in the gate, and does nothing else until its turns are over, so that the third is entered in time by another worker
// alone. After its turns the second unit goes on, so that such a search ends too. Of the two units one suffices: together they cost 500
// dollars, one alone 400, and no table proves more than 360.
#[test]
fn two_workers_meet(rt: HostRuntime) -> Result<(), Fail> {
    let instance = system(rt.alloc(), 2, 30)?;
    let met = meetings(&rt, rt.alloc(), &instance, 3, 3);
    drop(instance);
    assert_eq!(rt; met?, 1);
    Ok(())
}

// While one worker stands in the gate, another one makes a hundred claims: it takes the nodes that others put, and those that come of its
// own commits. What comes once the workers have ended can't. Three of the twelve units are needed, at 1600 dollars, and no table proves
// more than 1560 where fewer are decided to be on, so below each child of the root there are over a hundred nodes.
#[test]
fn a_hundred_claims_beside_one(rt: HostRuntime) -> Result<(), Fail> {
    let instance = system(rt.alloc(), 12, 130)?;
    let met = meetings(&rt, rt.alloc(), &instance, 400, 102);
    drop(instance);
    assert_eq!(rt; met?, 1);
    Ok(())
}
